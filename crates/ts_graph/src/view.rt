//! A graph of stacks as contracts see it.

use spec_graph::{Head, Link};
use ts_base::List;

/// The heads and the links of a graph, each by its number. The first so many links, and the heads
/// up to this number, are those of the stack over which it lies.
#[derive(Drop)]
pub struct GraphView {
    pub heads: List<Head>,
    pub links: List<Link>,
    pub base: usize,
}

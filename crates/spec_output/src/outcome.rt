//! What a parse comes to, as its line tells it.

use ts_core::{List, Shown};

/// What a parse comes to, as its line tells it. The place is in bytes from 0.
#[derive(Debug, PartialEq, Eq, Drop)]
pub enum ShownOutcome {
    /// The nodes of the visible tree in preorder, the root first.
    Tree(List<Shown>),
    /// No reading gets further than this place.
    Stuck(u32),
    /// Some reading has a node that is too deep.
    Deep,
}

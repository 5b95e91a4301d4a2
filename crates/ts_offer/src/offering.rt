//! What offers from a tree are for contracts.

use spec_trees::Tree;

/// A tree whose nodes are offered, and the least place that may still be asked for.
#[derive(Drop)]
pub struct Offering {
    pub tree: Tree,
    pub least: u32,
}

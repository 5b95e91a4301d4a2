//! One layer of a stack, as contracts see it.

use spec_trees::Tree;

/// A tree on a stack, the state above it, and the greatest depth of the trees for which it stands.
#[derive(Drop)]
pub struct Layer {
    pub tree: Tree,
    pub state: u16,
    pub depth: u32,
}

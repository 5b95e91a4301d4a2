//! A graph of stacks as contracts see it.

use spec_trees::Tree;

/// A state at a place of the text, in bytes.
#[derive(Clone, Copy, Debug, PartialEq, Eq, Drop)]
pub struct Head {
    pub state: u16,
    pub place: u32,
}

/// What stands between two heads, on all stacks that go through both.
#[derive(Drop)]
pub struct Link {
    /// The head above it, by its number.
    pub above: usize,
    /// The head below it, by its number.
    pub below: usize,
    /// The best of the trees that it stands for.
    pub tree: Tree,
    /// The greatest depth of the trees that it stands for.
    pub depth: u32,
}

//! A node of the visible tree as contracts see it, and where a cursor stands.

use ts_core::{List, Str};

/// A node of the visible tree, without its row and column. Places are in bytes from 0.
#[derive(Drop)]
pub struct VisibleNode {
    /// How many nodes it stands in. The root's is 0.
    pub depth: u32,
    pub name: Str,
    pub named: bool,
    /// The fields that it fills, by their numbers, each once.
    pub fields: List<u16>,
    pub start: u32,
    pub end: u32,
}

/// A node of a visible tree.
#[derive(Drop)]
pub struct Focus {
    /// The whole tree, in preorder.
    pub nodes: List<VisibleNode>,
    /// The number of the node, its place in the list.
    pub number: u32,
}

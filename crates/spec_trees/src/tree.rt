//! What a node of the program stands for in a contract.

use ts_core::{List, Symbol};

/// One element of a repetition's node.
#[derive(Clone, Copy, Debug, PartialEq, Eq, Drop)]
pub struct Element {
    /// Which alternative of the repetition's content it is, counted from 0.
    pub alternative: u32,
    /// How many of the node's children are its own, the extras before them among them.
    pub children: u32,
    /// The dynamic value of the production that added it.
    pub dynamic: i32,
    /// How many bytes were examined until it was added, from its first byte on. The end of the text
    /// counts as one.
    pub extent: u32,
    /// Whether no edit has reached it.
    pub settled: bool,
}

/// A node of a parse tree: a leaf, a node of a production, or the flat node of a repetition.
///
/// A node begins with `pad` bytes that belong to no token, and then has `size` bytes of its own.
/// Its pad is that of its first child, and its children's bytes are its own, one after another.
#[derive(Debug, PartialEq, Eq, Drop)]
pub struct Tree {
    pub symbol: Symbol,
    /// By its number; none for a leaf and for a repetition.
    pub production: Option<u32>,
    pub pad: u32,
    pub size: u32,
    /// The sum of the dynamic values of all productions in it.
    pub dynamic: i64,
    /// How many bytes were examined to make it, from its first byte on. The end of the text counts
    /// as one.
    pub extent: u32,
    /// The state below it, where one was fixed.
    pub state: Option<u16>,
    /// Whether no edit has reached it.
    pub settled: bool,
    /// Whether it stands where it does as an extra, and fills no step.
    pub extra: bool,
    /// The elements of a repetition, in order; empty for all other nodes.
    pub elements: List<Element>,
    pub children: List<Tree>,
}

/// Elements of a repetition one after another, with their children: a stretch of a repetition's
/// node.
#[derive(Debug, PartialEq, Eq, Drop)]
pub struct Stretch {
    pub elements: List<Element>,
    pub children: List<Tree>,
}

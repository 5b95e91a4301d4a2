//! What a query finds.

use ts_base::List;

/// A node that a capture names: the node by its number in preorder, the capture by its number, and
/// the node's range in bytes. Captures are ordered by node, then by the capture's number.
#[derive(Debug, Clone, Copy, PartialEq, Eq, PartialOrd, Ord)]
pub struct Capture {
    pub node: u32,
    pub name: u16,
    pub start: u32,
    pub end: u32,
}

/// A match: the number of the first sibling that the pattern takes, the pattern's number, and the
/// captures in order. Matches are ordered by root, then pattern, then captures.
#[derive(Debug, PartialEq, Eq, PartialOrd, Ord, Drop)]
pub struct Match {
    pub root: u32,
    pub pattern: u32,
    pub captures: List<Capture>,
}

//! When a node is made.

/// The place of the token on which nodes are made, the place where they begin, and the rank of
/// their rules.
#[derive(Clone, Copy, Debug, PartialEq, Eq)]
pub struct Batch {
    pub look: u32,
    pub begins: u32,
    pub rank: u32,
}

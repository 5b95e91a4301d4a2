//! What a reduction makes.

use crate::top::Top;
use ts_core::List;
use ts_node::Node;

/// A tree with the greatest depth of the trees that it stands for, and the state behind it.
#[derive(Drop)]
pub struct Piece {
    pub node: Node,
    pub depth: u32,
    pub state: u16,
}

/// The node of a reduction, for the head below it, and the extras above it, the first of them the
/// lowest.
#[derive(Drop)]
pub(crate) struct Made {
    pub below: usize,
    pub piece: Piece,
    pub extras: List<Node>,
    /// What is seen where the reduction stays: that head stands where all of these end. And where
    /// each but the last of them ends, a head that stands there.
    pub top: Top,
    pub under: List<usize>,
}

//! Where one reading of the text stands.

/// A live stack of the graph, and the place in the text up to which it is read.
#[derive(Clone, Copy, Debug, PartialEq, Eq)]
pub struct StackHead {
    pub top: usize,
    pub place: u32,
}

//! What is seen at a head.

use ts_core::Symbol;

/// A head of the graph, by its number, and the token that is seen there. The text was looked at for
/// it so many bytes ahead of the head's place.
#[derive(Clone, Copy, Debug, PartialEq, Eq)]
pub struct Top {
    pub head: usize,
    pub token: Symbol,
    pub ahead: u32,
}

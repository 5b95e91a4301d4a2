//! What a parse over one stack comes to.

use crate::found::FoundToken;
use crate::head::StackHead;
use ts_node::Node;

/// A stack on whose token several moves stay, and that token.
#[derive(Clone, Copy)]
pub struct Fork {
    pub head: StackHead,
    pub found: FoundToken,
}

/// What a parse over one stack comes to.
#[derive(Drop)]
pub enum Reparsed {
    /// The tree that is accepted.
    Accepted(Node),
    /// No token was found at this place, in bytes.
    Stuck(u32),
    /// A node would be deeper than 1,000.
    Deep,
    /// Several moves stay on the token that a stack sees.
    Forks(Fork),
}

/// What a move comes to: the next stack, or the end of the parse.
#[derive(Drop)]
pub(crate) enum Going {
    On(StackHead),
    /// The next stack stands at the same place, behind a reduction on this token.
    Reduced(StackHead, FoundToken),
    Ended(Reparsed),
}

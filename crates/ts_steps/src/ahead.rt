//! The token that a stack sees, and whether it is said that a parser has no choice there.

use crate::found::FoundToken;

/// A token that was found, and whether one move alone is said to stay on it: a node that is made
/// then may have a state.
#[derive(Clone, Copy, Debug, PartialEq, Eq)]
pub struct TokenAhead {
    pub found: FoundToken,
    pub only: bool,
}

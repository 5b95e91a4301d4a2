//! What a parser does: an entry of its table, taken in by the parser and by nobody else.

/// What a parser does on a token in a state.
#[derive(Clone, Copy, Debug, PartialEq, Eq, PartialOrd, Ord, Hash)]
pub enum Action {
    /// Takes the token and goes to this state.
    Shift(u16),
    /// Makes a node of this production, by its number.
    Reduce(u32),
    /// Ends with the tree.
    Accept,
}

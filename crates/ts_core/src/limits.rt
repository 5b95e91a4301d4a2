//! Why a grammar is refused although each of its parts can be read: a limit is passed, or the
//! normal form can't be used.

use crate::symbol::Symbol;

/// What there is too much of in a grammar.
#[derive(Clone, Copy, Debug, PartialEq, Eq, PartialOrd, Ord, Hash)]
pub enum Limited {
    /// Bytes of the file.
    File,
    Rules,
    Symbols,
    Productions,
    /// Steps of one production.
    Steps,
    /// Pattern positions of one token, or of all.
    Positions,
    /// Field names or precedence names.
    Fields,
}

/// Why a grammar in normal form can't be used, with the symbol at fault.
#[derive(Clone, Copy, Debug, PartialEq, Eq, PartialOrd, Ord, Hash)]
pub enum Unfit {
    /// A repetition that hasn't the form of one.
    Repetition(Symbol),
    /// A rule that may be empty where it must not.
    EmptyRule(Symbol),
    /// A token that matches the empty text.
    EmptyToken(Symbol),
    /// A symbol that derives itself alone.
    Cyclic(Symbol),
    /// Too many pattern positions.
    Positions,
}

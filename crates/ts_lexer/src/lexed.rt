//! The answer of lexing: what the parser is given.

use ts_core::Symbol;

/// What lexing comes to.
#[derive(Clone, Copy, Debug, PartialEq, Eq)]
pub enum Lexed {
    /// The token, behind a pad of separators. All three are in bytes; the extent is how far the
    /// text was looked at from where lexing began, where its end counts as one byte.
    Token {
        token: Symbol,
        pad: u32,
        size: u32,
        extent: u32,
    },
    /// No valid token, with the place after the separators.
    Absent {
        place: u32,
        extent: u32,
    },
}

//! What is decided of characters that have been read: which token has them, for a set of valid
//! tokens.

use ts_core::Symbol;

/// What is known once some characters have been read, for a set of valid tokens.
#[derive(Clone, Copy, Debug, PartialEq, Eq, Hash)]
pub(crate) struct Verdict {
    /// The valid token that has these characters, is taken before the others, and is no keyword.
    pub plain: Option<Symbol>,
    /// The same among the keywords.
    pub keyword: Option<Symbol>,
    /// Whether the word token has them.
    pub word: bool,
    /// Whether a separator has them.
    pub separator: bool,
    /// Whether what is looked for can begin with them.
    pub lives: bool,
}

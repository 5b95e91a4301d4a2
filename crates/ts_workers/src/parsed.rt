//! The first version of a document, as a thread leaves it.

use ts_docs::Version;
use ts_lexer::Lexer;

/// The first version of a document, and the lexer that it was parsed with.
#[derive(Drop)]
pub(crate) struct Parsed {
    pub(crate) lexer: Lexer,
    pub(crate) version: Version,
}

//! Why what is written is no query of a grammar.
use thiserror::Error;

/// Why what is written is no query of a grammar. Each place is in bytes from 0, at the first byte
/// of what is wrong.
#[derive(Debug, Error, PartialEq, Eq, Clone, Copy)]
pub enum Flaw {
    /// No node of the grammar has that kind: a name at its first byte, a string at its quote.
    #[error("unknown node at byte {0}")]
    UnknownNode(u32),
    /// The grammar has no such field.
    #[error("unknown field at byte {0}")]
    UnknownField(u32),
    /// A predicate's capture, at its `@`, is on no item of its pattern.
    #[error("unknown capture at byte {0}")]
    UnknownCapture(u32),
    /// A predicate, at its `#`, has a name that is not known, or other operands than it takes.
    #[error("unknown predicate at byte {0}")]
    UnknownPredicate(u32),
    /// The quantifier there is on a part of a group that has a quantifier itself.
    #[error("nested quantifier at byte {0}")]
    NestedQuantifier(u32),
}

//! What is written in a query. Places are in bytes from 0.
use ts_base::{List, Str};

/// A name, or the text of a string without its escapes, and where it stands: a name at its first
/// byte, a string at its quote, a capture at its `@`, a predicate at its `#`.
#[derive(Debug, PartialEq, Eq, Drop)]
pub struct Written {
    pub at: u32,
    pub text: Str,
}

/// How often.
#[derive(Debug, Clone, Copy, PartialEq, Eq)]
pub enum Quantity {
    /// `?`
    Optional,
    /// `*`
    Many,
    /// `+`
    Several,
}

/// A quantifier and its place.
#[derive(Debug, Clone, Copy, PartialEq, Eq)]
pub struct Mark {
    pub at: u32,
    pub quantity: Quantity,
}

/// What an item begins with.
#[derive(Debug, PartialEq, Eq, Drop)]
pub enum Head {
    /// `_`, at this place: any node.
    Any(u32),
    /// `"text"`: an anonymous node.
    Text(Written),
    /// `(kind ..)`: a named node; `(_ ..)` has the kind `_` and is any named node.
    Node(Written),
    /// `( .. )`
    Group,
    /// `[ .. ]`
    Choice,
}

/// What may stand in brackets. At the top of a query and in a choice there are items alone.
#[derive(Debug, PartialEq, Eq, Drop)]
pub enum Part {
    /// What stands for nodes: `field: head quantifier @capture ..`.
    Item {
        field: Option<Written>,
        head: Head,
        /// What is in the brackets of its head.
        parts: List<Part>,
        mark: Option<Mark>,
        captures: List<Written>,
    },
    /// `.`
    Anchor,
    /// `!name`: no child has this field.
    Without(Written),
    /// `(#name ..)`: the name has its `?` or `!`.
    Predicate(Written, List<Operand>),
}

/// What a predicate speaks of.
#[derive(Debug, PartialEq, Eq, Drop)]
pub enum Operand {
    Capture(Written),
    Text(Written),
    Name(Written),
}

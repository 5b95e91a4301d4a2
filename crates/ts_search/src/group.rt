//! Patterns by their roots: the types.

/// What is known of the root of a pattern's matches.
#[derive(Clone, Copy, PartialEq, Eq, PartialOrd, Ord)]
pub(crate) enum Root {
    /// The pattern is one plain item, whose node is of this kind, by its place in the query's
    /// kinds.
    Kind(u32),
    /// The pattern is one plain item.
    Node,
    /// The pattern is asked of lists of siblings.
    Siblings,
}

/// A pattern by its number, and what is known of its root.
#[derive(Clone, Copy, PartialEq, Eq, PartialOrd, Ord)]
pub(crate) struct Rooted {
    pub root: Root,
    pub number: u32,
}

/// Patterns by their numbers, of whose roots the same is known.
#[derive(Drop)]
pub(crate) struct Group {
    pub root: Root,
    pub numbers: Vec<u32>,
}

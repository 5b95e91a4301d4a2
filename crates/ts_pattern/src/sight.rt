//! What a look at a place of the text gives.

/// The kind of a fault.
#[derive(Clone, Copy, PartialEq, Eq, Debug)]
pub(crate) enum Flaw {
    Syntax,
    Unsupported,
    EmptyClass,
    UnknownProperty,
}

/// A value and the place after what was read, or a flaw and its place. Places count characters.
#[derive(Drop)]
pub(crate) enum Sight<T> {
    Sees(T, usize),
    Wrong(Flaw, usize),
}

//! What later bytes of a file tell of its earlier ones.

/// What is known of the bytes further on. A point that rests on what is not known holds.
#[derive(Clone, Copy, Debug, PartialEq, Eq)]
pub(crate) struct Known {
    /// Whether there is a word.
    pub(crate) word: Option<bool>,
    /// How many field names there are.
    pub(crate) fields: Option<u32>,
    /// How many precedence names there are.
    pub(crate) precs: Option<u32>,
}

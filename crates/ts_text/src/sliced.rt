//! The two forms of a part of a text.

/// A part of a text.
#[derive(Drop)]
pub(crate) enum Sliced<'t> {
    /// It stands in one stretch of memory.
    Lent(&'t str),

    /// It was copied.
    Made(String),
}

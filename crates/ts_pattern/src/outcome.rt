//! What a text is.
use crate::sight::Flaw;
use ts_core::Re;

/// A pattern, or wrong at a place in characters, or a pattern that passes a limit.
#[derive(Drop)]
pub(crate) enum Outcome {
    Whole(Re),
    Flawed(Flaw, usize),
    Over(u32),
}

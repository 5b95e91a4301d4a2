//! What lexing found at the place of a live stack.

use ts_core::Symbol;

/// A token behind its pad. The extent is how far the text was looked at from where lexing began.
#[derive(Clone, Copy, Debug, PartialEq, Eq)]
pub struct FoundToken {
    pub token: Symbol,
    pub pad: u32,
    pub size: u32,
    pub extent: u32,
}

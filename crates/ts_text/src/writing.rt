//! A text in the making.

use crate::text::Text;

/// A text in the making.
#[derive(Drop)]
pub(crate) struct Writer {
    /// The pieces that are made.
    pub(crate) text: Text,

    /// What comes behind them, and is no piece yet.
    pub(crate) pending: String,
}

//! What a client has of a document.

use ts_base::Shared;
use ts_docs::{Book, Version};
use ts_shelf::Pass;

/// What a client has of a document: its pass of the shelf, and the version that it holds.
#[derive(Drop)]
pub struct Desk {
    pub pass: Pass<Book>,
    /// The number with which the version was shown.
    pub number: u32,
    pub version: Shared<Version>,
}

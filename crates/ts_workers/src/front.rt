//! What is kept of a document while clients work on it.

use ts_base::Shared;
use ts_docs::{Book, Version};
use ts_shelf::Pass;

/// What is kept of a document while clients work on it: the first pass of its shelf, and the
/// version that it was opened with.
#[derive(Drop)]
pub(crate) struct Front {
    pub(crate) pass: Pass<Book>,
    pub(crate) version: Shared<Version>,
}

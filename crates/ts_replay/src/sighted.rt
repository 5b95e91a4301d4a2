//! What is kept of the version that was asked last.

use ts_base::Shared;
use ts_docs::Version;
use ts_match::VisibleTree;

/// A version with a visible tree, that of the version's text.
#[derive(Drop)]
pub struct Sighted<'g> {
    pub version: Shared<Version>,
    pub tree: VisibleTree<'g>,
}

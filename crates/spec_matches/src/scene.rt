//! What patterns are matched against.

use spec_trees::VisibleNode;
use ts_base::List;
use ts_query_syntax::QueryKind;

/// The kinds that a query names, and the visible nodes of a tree in preorder.
#[derive(Drop)]
pub struct Scene {
    pub kinds: List<QueryKind>,
    pub nodes: List<VisibleNode>,
}

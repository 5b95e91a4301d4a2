//! What a reduction has to know of a child before its node is made: a node goes in, and comes out
//! in a few numbers.
ghost use Rattle.std.specs.Prelude.{◌≡◌, ◌≤◌};
ghost use Rattle.std.proofs.Common.{is_some};
ghost use Rattle.spec_trees.specs.Trees.{node_extent, span_of, state_of, tree_depth};
ghost use Rattle.spec_trees.specs.Made.{most_depth};

use crate::node::Node;

/// How many bytes a node takes, how many were examined for it, how deep it is, and whether it has a
/// state.
#[derive(Clone, Copy)]
pub struct Outline {
    pub span: u32,
    pub extent: u32,
    pub depth: u32,
    pub stated: bool,
}

impl Node {
    /// What a reduction has to know of it as a child.
    #[inline(always)]
    pub fn outline(&self) -> Outline
        ensures span { result.span ≡ span_of self.now }
        ensures extent { result.extent ≡ node_extent self.now }
        ensures depth { result.depth ≡ tree_depth self.now }
        ensures stated { result.stated ≡ is_some (state_of self.now) }
    {
        let summary = self.summary();
        Outline {
            span: summary.pad + summary.size,
            extent: summary.extent,
            depth: summary.depth as u32,
            stated: summary.state.is_some(),
        }
    }
}

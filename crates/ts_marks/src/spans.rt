//! A node goes in; how many bytes it takes, or how many stand before its first child, come out.
ghost use Rattle.std.specs.Prelude.{◌≡◌};
ghost use Rattle.spec_trees.specs.Trees.{span_of};
ghost use Rattle.spec_trees.specs.Made.{IsNode};
ghost use Rattle.spec_reuse.specs.Places.{lead_of, IsWhole};

use ts_node::Node;

/// How many bytes a node takes, its pad among them.
pub(crate) fn span(node: &Node) -> u32
    ensures span { result ≡ span_of node.now }
    ensures node { IsNode node.now }
    ensures whole { IsWhole node.now }
{
    let _ = node.nodes();
    node.pad() + node.size()
}

/// How many bytes of a root stand before its first child.
pub(crate) fn lead(node: &Node) -> u32
    ensures { result ≡ lead_of node.now }
{
    let _ = node.nodes();
    let mut left = node.pad() + node.size();
    for k in 0..node.children() {
        left -= span(node.child(k));
    }
    left
}

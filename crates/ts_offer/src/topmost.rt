//! A node of the old tree and a state go in; out comes the topmost fit node among those that begin
//! where the node begins.
ghost use Rattle.std.specs.Prelude.{◌≡◌, ◌↔◌, IsTrue, option_copied};
ghost use Rattle.spec_trees.specs.Trees.{span_of};
ghost use Rattle.spec_reuse.specs.Places.{lead_of};
ghost use Rattle.spec_reuse.specs.Offered.{IsFit};
ghost use Rattle.ts_offer.specs.Ways.{IsFirstAt, IsTopmostAt};

use ts_node::Node;

/// How many bytes a node takes, its pad among them.
pub(crate) fn span(node: &Node) -> u32
    ensures { result ≡ span_of node.now }
{
    let _ = node.nodes();
    node.pad() + node.size()
}

/// How many bytes of a root stand before its first child.
pub(crate) fn lead(node: &Node) -> u32
    ensures { result ≡ lead_of node.now }
{
    let _ = node.nodes();
    let mut left = node.pad() + node.size();
    for k in 0..node.children() {
        left -= span(node.child(k));
    }
    left
}

/// Whether a node may be taken over in a state.
pub(crate) fn is_fit(node: &Node, state: u16) -> bool
    ensures { IsTrue result ↔ IsFit state node.now }
{
    node.settled() && node.state() == Some(state) && span(node) > 0
}

/// The first child with bytes. It begins with the node itself.
fn first_child<'t>(node: &'t Node) -> Option<&'t Node>
    ensures { IsFirstAt node.now (option_copied result) }
{
    let _ = node.nodes();
    for k in 0..node.children() {
        let child = node.child(k);
        if span(child) > 0 {
            return Some(child);
        }
    }
    None
}

/// The topmost fit node in a node that begins where the node begins.
pub(crate) fn topmost<'t>(node: &'t Node, state: u16) -> Option<&'t Node>
    ensures { IsTopmostAt node.now state (option_copied result) }
{
    if is_fit(node, state) {
        return Some(node);
    }
    match first_child(node) {
        Some(child) => topmost(child, state),
        None => None,
    }
}

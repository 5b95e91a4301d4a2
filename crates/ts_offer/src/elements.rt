//! Elements of an old repetition that may be taken over at once: a node, where it begins and a
//! place go in, and its settled elements from there on come out.
ghost use Rattle.std.specs.Prelude.{◌≡◌, ℕ, ◌+◌, ◌<◌, IfSome, None, length, drop};
ghost use Rattle.spec_trees.specs.Trees.{elements_of};
ghost use Rattle.spec_trees.specs.Made.{bytes_before, settled_first, stretch_in};
ghost use Rattle.ts_offer.specs.Answers.{IsSettledRun};
ghost use Rattle.ts_offer.specs.Ways.{HasRunAt};

use ts_node::Node;

/// Elements of a repetition one after another, from the one of a number on, up to another.
#[derive(Clone, Copy)]
pub struct Elements<'t> {
    pub node: &'t Node,
    pub from: u32,
    pub to: u32,
}

/// The settled elements of a node from a place on, as far as they are settled, where the node
/// begins at `at`. None where it has no element there, or the first.
pub(crate) fn elements_at<'t>(node: &'t Node, at: u32, place: u32) -> Option<Elements<'t>>
    ensures node { IfSome result (λ e. e.node.now ≡ node.now) }
    ensures run { IfSome result (λ e. IsSettledRun node.now e.from e.to) }
    ensures begins { IfSome result (λ e. at + bytes_before e.from (stretch_in node.now) ≡ place) }
    ensures none { (from : ℕ) → HasRunAt node.now at place from → result ≡ None → ⊥ }
{
    if place < at {
        return None;
    }
    match node.element_at(place - at) {
        Some(from) => settled_elements(node, from),
        None => None,
    }
}

/// The settled elements of a node from the one at `from` on, as far as they are settled.
#[tactic(auto, using(crate::proofs::RunLemmas::settled_run))]
fn settled_elements<'t>(node: &'t Node, from: u32) -> Option<Elements<'t>>
    requires { from < length (elements_of node.now) }
    ensures node { IfSome result (λ e. e.node.now ≡ node.now) }
    ensures from { IfSome result (λ e. e.from ≡ from) }
    ensures run { IfSome result (λ e. IsSettledRun node.now e.from e.to) }
    ensures none { 0 < from → 0 < settled_first (drop from (elements_of node.now))
        → result ≡ None → ⊥ }
{
    let _ = node.elements();
    let count = node.settled_from(from);
    if from > 0 && count > 0 {
        Some(Elements {
            node,
            from,
            to: from + count,
        })
    } else {
        None
    }
}

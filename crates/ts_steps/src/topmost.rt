//! The node on top of a stack as the only child of a reduction: a head goes in, and what is known
//! of the node comes out.
ghost use Rattle.std.specs.Prelude.{◌≡◌, ℕ, ◌+◌, ◌<◌, ◌≤◌, ◌↔◌, suc, false, true, length, IsTrue, Some};
ghost use Rattle.spec_trees.specs.declared.tree.Tree.{Tree};
ghost use Rattle.spec_trees.specs.Made.{most_span};
ghost use Rattle.ts_table.specs.declared.view.ParseTable.{ParseTable};
ghost use Rattle.ts_gss.specs.Stacks.{stack_at, tree_on, begins_with_extra};
ghost use Rattle.ts_steps.specs.LiveHeads.{IsLiveHead, read_on};
ghost use Rattle.ts_steps.specs.Reducing.{IsTopSeen};

use crate::head::StackHead;
use crate::making::seen_of;
use ts_gss::Graph;

/// What a reduction has to know of the node on top: how many bytes were examined for it, and for
/// the token ahead; whether it has a state; the depth of its layer; and the stack below.
#[derive(Clone, Copy)]
pub(crate) struct TopSeen {
    pub extent: u32,
    pub stated: bool,
    pub depth: u32,
    pub below: usize,
}

/// What is known of the node on top of a stack, which is no extra.
#[inline(always)]
pub(crate) fn seen_on_top(graph: &Graph, head: StackHead, ahead: u32) -> TopSeen
    requires one { 1 ≤ length (read_on graph.now head) }
    requires plain { begins_with_extra (stack_at graph.now head.top) ≡ false }
    requires some { 0 < ahead }
    requires live { (t : ParseTable) × (size : ℕ) × (size ≤ most_span)
        × IsLiveHead t size graph.now head × (head.place + ahead ≤ suc size) }
    ensures lower { result.below < head.top }
    ensures seen { (child : Tree) → Some child ≡ tree_on (stack_at graph.now head.top)
        → (count : ℕ) → count ≡ 1 → (t : ParseTable) (size : ℕ)
        → IsLiveHead t size graph.now head → head.place + ahead ≤ suc size
        → IsTopSeen t size (stack_at graph.now head.top) head.place count ahead child result
        (stack_at graph.now result.below) }
{
    let below = graph.below(head.top);
    let depth = graph.depth(head.top);
    let seen = seen_of(graph.node(head.top), ahead);
    TopSeen {
        extent: seen.extent,
        stated: seen.stated,
        depth,
        below,
    }
}

/// Whether a reduction is one of a stack that is alone, and its only child the node on top.
pub(crate) fn is_over_top(graph: &Graph, head: StackHead, steps: usize, alone: bool) -> bool
    requires { head.top < length graph.now }
    ensures { IsTrue result ↔ ((alone ≡ true) × (steps ≡ 1)
        × (begins_with_extra (stack_at graph.now head.top) ≡ false)) }
{
    alone && steps == 1 && !graph.extra(head.top)
}

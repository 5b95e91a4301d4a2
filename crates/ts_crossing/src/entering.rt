//! From a plain stack to a graph of stacks: the stack goes in, and a graph that lies over it comes
//! out.
ghost use Rattle.std.specs.Prelude.{◌≡◌, ◌<◌, ◌≤◌, length};
ghost use Rattle.ts_base.specs.Bytes.{Bytes};
ghost use Rattle.spec_trees.specs.Trees.{all_spans};
ghost use Rattle.ts_table.specs.declared.view.ParseTable.{ParseTable};
ghost use Rattle.ts_gss.specs.Stacks.{stack_at, trees_on, IsOneStack};
ghost use Rattle.ts_crossing.specs.Entering.{CanEnter, IsEntered, IsUnder};

use crate::laws::{enter_laws_hold, laying_laws_hold};
use ts_graph::Graph;
use ts_gss::Graph as Stacks;
use ts_steps::StackHead;

/// The stack under the extras on top of one, and the place where it ends.
fn under_extras(stacks: &Stacks, head: StackHead) -> StackHead
    requires there { head.top < length stacks.now }
    requires spans { all_spans (trees_on (stack_at stacks.now head.top)) ≡ head.place }
    ensures under { IsUnder stacks.now head result }
    ensures low { result.top ≤ head.top }
{
    let mut top = head.top;
    let mut place = head.place;
    while stacks.extra(top) {
        let node = stacks.node(top);
        place -= node.pad() + node.size();
        top = stacks.below(top);
    }
    StackHead { top, place }
}

/// A graph of stacks over a stack, but for the extras on top of it: they are passed anew from the
/// place on that is told. The graph is made anew, and nothing of the stack is copied.
pub fn enter(stacks: Stacks, head: StackHead, graph: &mut Graph) -> u32
    requires can { (t : ParseTable) × (text : Bytes) × CanEnter t text stacks head }
    requires one { IsOneStack stacks head.top }
    ensures { (t : ParseTable) (text : Bytes) → CanEnter t text stacks head
        → IsEntered t text stacks head graph.new result }
{
    enter_laws_hold();
    laying_laws_hold();
    let under = under_extras(&stacks, head);
    let mut stack = stacks;
    stack.cut(under.top);
    graph.lie_over(stack, under.top, under.place);
    under.place
}

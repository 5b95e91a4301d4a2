//! What a reduction takes off a stack: the head and a number of steps go in; the extras on top, the
//! children, and how many bytes were examined for them come out.
ghost use Rattle.std.specs.Prelude.{◌≡◌, ℕ, ◌+◌, ◌<◌, ◌≤◌, ◌↔◌, ◌^◌, max, false, suc, length, IfOk, IsTrue};
ghost use Rattle.spec_trees.specs.Trees.{all_spans};
ghost use Rattle.spec_trees.specs.Made.{EndBy, most_depth, most_span};
ghost use Rattle.spec_forced.specs.Sound.{EachHasState};
ghost use Rattle.ts_table.specs.declared.view.ParseTable.{ParseTable};
ghost use Rattle.ts_gss.specs.Stacks.{stack_at};
ghost use Rattle.ts_steps.specs.LiveHeads.{IsLiveHead, read_on};
ghost use Rattle.ts_steps.specs.Reducing.{IsGatheredBy};

use crate::head::StackHead;
use crate::making::{MOST_DEPTH, seen_over};
use std::alloc::{AllocError, Global};
use ts_gss::{Graph, Lifted, Taken, turn};
use ts_node::Node;

/// What a reduction takes off a stack: the extras on top, the lowest first; the children; how many
/// bytes were examined for both, and for the token ahead; whether they all have states; the depth
/// of the first child's layer, and the greatest of the others'; and the stack below.
#[derive(Drop)]
pub(crate) struct Gathered {
    pub extras: Vec<Node>,
    pub children: Vec<Node>,
    pub extent: u32,
    pub stated: bool,
    pub first: u32,
    pub others: u32,
    pub below: usize,
}

/// What was taken off a stack, with what is known of it.
#[inline(always)]
fn with_seen(extras: Vec<Node>, taken: Taken, ahead: u32) -> Gathered
    requires some { 0 < ahead }
    requires room { (limit start : ℕ) × (limit < 2 ^ 31) × EndBy limit start taken.nodes.items
        × EndBy limit (start + all_spans taken.nodes.items) extras.items
        × (start + (all_spans taken.nodes.items + (all_spans extras.items + ahead)) ≤ limit) }
    ensures extras { result.extras.items ≡ extras.items }
    ensures children { result.children.items ≡ taken.nodes.items }
    ensures below { result.below ≡ taken.below }
    ensures first { result.first ≡ taken.first }
    ensures others { result.others ≡ taken.others }
    ensures stated { IsTrue result.stated
        ↔ (EachHasState taken.nodes.items × EachHasState extras.items) }
    ensures covers { EndBy result.extent 0 taken.nodes.items }
    ensures lifted { EndBy result.extent (all_spans taken.nodes.items) extras.items }
    ensures past { all_spans taken.nodes.items + (all_spans extras.items + ahead)
        ≤ result.extent }
    ensures most { (start limit : ℕ)
        → start + (all_spans taken.nodes.items + (all_spans extras.items + ahead)) ≤ limit
        → EndBy limit start taken.nodes.items
        → EndBy limit (start + all_spans taken.nodes.items) extras.items
        → start + result.extent ≤ limit }
{
    let Taken {
        nodes,
        first,
        others,
        below,
    } = taken;
    let behind = seen_over(extras.as_slice(), ahead);
    let own = seen_over(nodes.as_slice(), behind.extent);
    Gathered {
        extras,
        children: nodes,
        extent: own.extent,
        stated: own.stated && behind.stated,
        first,
        others,
        below,
    }
}

/// Takes the extras and so many trees off a stack, which stays as it is.
fn gather(
    alloc: Global,
    graph: &Graph,
    head: StackHead,
    count: usize,
    ahead: u32,
) -> Result<Gathered, AllocError>
    requires enough { count ≤ length (read_on graph.now head) }
    requires some { 0 < ahead }
    requires live { (t : ParseTable) × (size : ℕ) × (size ≤ most_span)
        × IsLiveHead t size graph.now head × (head.place + ahead ≤ suc size) }
    ensures below { IfOk result (λ r. r.below < length graph.now) }
    ensures gathered { IfOk result (λ r. (t : ParseTable) (size : ℕ)
        → IsLiveHead t size graph.now head → head.place + ahead ≤ suc size
        → IsGatheredBy t size (stack_at graph.now head.top) head.place count ahead r
        (stack_at graph.now r.below)) }
{
    let Lifted { mut extras, under } = graph.lift(alloc, head.top)?;
    let taken = graph.take(alloc, under, count)?;
    turn(&mut extras);
    Ok(with_seen(extras, taken, ahead))
}

/// The same, but the trees are moved off the stack: all stacks of the graph that were put there
/// after the lowest of them are taken out.
fn gather_off(
    alloc: Global,
    graph: &mut Graph,
    head: StackHead,
    count: usize,
    ahead: u32,
) -> Result<Gathered, AllocError>
    requires enough { count ≤ length (read_on graph.old head) }
    requires some { 0 < ahead }
    requires live { (t : ParseTable) × (size : ℕ) × (size ≤ most_span)
        × IsLiveHead t size graph.old head × (head.place + ahead ≤ suc size) }
    ensures below { IfOk result (λ r. r.below < length graph.new) }
    ensures low { IfOk result (λ r. r.below < length graph.old) }
    ensures same { IfOk result (λ r. (k : ℕ) → k ≤ r.below
        → stack_at graph.new k ≡ stack_at graph.old k) }
    ensures gathered { IfOk result (λ r. (t : ParseTable) (size : ℕ)
        → IsLiveHead t size graph.old head → head.place + ahead ≤ suc size
        → IsGatheredBy t size (stack_at graph.old head.top) head.place count ahead r
        (stack_at graph.old r.below)) }
{
    let Lifted { mut extras, under } = graph.lift(alloc, head.top)?;
    let taken = graph.take_off(alloc, under, count)?;
    turn(&mut extras);
    Ok(with_seen(extras, taken, ahead))
}

/// Takes the extras and so many trees off a stack. Where it is alone, and no layer of it can be so
/// deep that their node is too deep, they are moved off it. Else all stacks stay as they are.
pub(crate) fn gather_for(
    alloc: Global,
    graph: &mut Graph,
    head: StackHead,
    count: usize,
    ahead: u32,
    alone: bool,
) -> Result<Gathered, AllocError>
    requires enough { count ≤ length (read_on graph.old head) }
    requires some { 0 < ahead }
    requires live { (t : ParseTable) × (size : ℕ) × (size ≤ most_span)
        × IsLiveHead t size graph.old head × (head.place + ahead ≤ suc size) }
    ensures below { IfOk result (λ r. r.below < length graph.new) }
    ensures low { IfOk result (λ r. r.below < length graph.old) }
    ensures same { IfOk result (λ r. (k : ℕ) → k ≤ r.below
        → stack_at graph.new k ≡ stack_at graph.old k) }
    ensures kept { alone ≡ false → graph.new ≡ graph.old }
    ensures deep { IfOk result
        (λ r. most_depth ≤ max r.first r.others → graph.new ≡ graph.old) }
    ensures gathered { IfOk result (λ r. (t : ParseTable) (size : ℕ)
        → IsLiveHead t size graph.old head → head.place + ahead ≤ suc size
        → IsGatheredBy t size (stack_at graph.old head.top) head.place count ahead r
        (stack_at graph.old r.below)) }
{
    if alone && graph.deepest() < MOST_DEPTH {
        let gathered = gather_off(alloc, graph, head, count, ahead)?;
        Ok(gathered)
    } else {
        let gathered = gather(alloc, graph, head, count, ahead)?;
        Ok(gathered)
    }
}

//! Reductions of a stack: the number of a production goes in, and the head of the new stack comes
//! out, or that the node is too deep.
ghost use Rattle.std.specs.Prelude.{◌≡◌, ℕ, ◌+◌, ◌<◌, ◌≤◌, ◌∷◌, ◌++◌, ◌↔◌, suc, false, true, List, length, map, reverse, slice_get, take, IfOk, IfSome, IsTrue, None, OnOk, Some};
ghost use Rattle.ts_base.specs.Bytes.{Bytes};
ghost use Rattle.spec_tables.specs.Actions.{Act, reduce as reducing_by};
ghost use Rattle.spec_trees.specs.Trees.{all_spans, span_of};
ghost use Rattle.spec_trees.specs.Made.{filling};
ghost use Rattle.spec_runs.specs.Moves.{StandsBefore};
ghost use Rattle.spec_forced.specs.Sound.{States};
ghost use Rattle.ts_table.specs.declared.view.ParseTable.{ParseTable};
ghost use Rattle.ts_table.specs.Tables.{IsStateOf};
ghost use Rattle.ts_gss.specs.Stacks.{stack_at, begins_with_extra, trees_on, IsOneStack};
ghost use Rattle.ts_steps.specs.LiveHeads.{packed_tree, packed_own, packed_layers, IsGoodStack, read_on, GainsStacks, CanLay, CanPut, IsReducedTo};
ghost use Rattle.ts_steps.specs.Settings.{IsParseSetting};
ghost use Rattle.ts_steps.specs.Heads.{AreStatesOf, IsOwnHead, StandOnHead, IsMoveAhead};
ghost use Rattle.ts_steps.specs.Reducing.{IsNodePut};

use crate::ahead::TokenAhead;
use crate::gathering::{Gathered, gather_for};
use crate::head::StackHead;
use crate::laws::{laws_hold, sound_laws_hold};
use crate::lines::ProductionLine;
use crate::making::{depth_over, node_of, node_of_one};
use crate::setting::ParseSetting;
use crate::shifting::state_below;
use crate::topmost::{is_over_top, seen_on_top};
use std::alloc::{AllocError, Global};
use ts_core::Symbol;
use ts_gss::Graph;
use ts_node::Node;
use ts_table::Table;

/// Lays extras on a stack, the first of them the lowest.
fn lay(graph: &mut Graph, below: usize, extras: &[Node], state: u16) -> Result<usize, AllocError>
    requires { below < length graph.old }
    ensures there { IfOk result (λ top. top < length graph.new) }
    ensures grows { OnOk result (GainsStacks graph.old graph.new) }
    ensures one { IfOk result (λ top. IsOneStack graph.old below → IsOneStack graph.new top) }
    ensures trees { IfOk result (λ top. trees_on (stack_at graph.new top)
        ≡ reverse extras.now ++ trees_on (stack_at graph.old below)) }
    ensures layers { IfOk result (λ top. packed_layers (stack_at graph.new top)
        ≡ map packed_own (reverse extras.now) ++ packed_layers (stack_at graph.old below)) }
    ensures good { IfOk result (λ top. (t : ParseTable) (size place : ℕ)
        → CanLay t size place (stack_at graph.old below) state extras.now
        → IsGoodStack t size (stack_at graph.new top) (place + all_spans extras.now)) }
{
    let mut top = below;
    for extra in extras {
        top = graph.push(top, extra.try_clone()?, state)?;
    }
    Ok(top)
}

/// The state after a symbol.
fn next_state(table: &Table, state: u16, symbol: Symbol) -> u16
    requires { (read : List ℕ) × IsStateOf table.now read state
        × StandsBefore table.now.grammar read symbol.0 }
    ensures { (read : List ℕ) → IsStateOf table.now read state
        → IsStateOf table.now (symbol.0 ∷ read) result }
{
    match table.goto(state, symbol) {
        Some(next) => next,
        None => unreachable!(),
    }
}

/// Puts the node of a reduction on the stack below, with the greatest depth of those for which it
/// stands, and the extras behind it.
fn put(
    table: &Table,
    graph: &mut Graph,
    below: usize,
    left: Symbol,
    node: Node,
    depth: u32,
    extras: &[Node],
) -> Result<usize, AllocError>
    requires below { below < length graph.old }
    requires stands { (size : ℕ) × (place : ℕ)
        × IsGoodStack table.now size (stack_at graph.old below) place
        × StandsBefore table.now.grammar (filling (trees_on (stack_at graph.old below))) left.0 }
    ensures there { IfOk result (λ top. top < length graph.new) }
    ensures grows { OnOk result (GainsStacks graph.old graph.new) }
    ensures one { IfOk result (λ top. IsOneStack graph.old below → IsOneStack graph.new top) }
    ensures trees { IfOk result (λ top. trees_on (stack_at graph.new top)
        ≡ reverse extras.now ++ node ∷ trees_on (stack_at graph.old below)) }
    ensures layers { IfOk result (λ top. packed_layers (stack_at graph.new top)
        ≡ map packed_own (reverse extras.now)
        ++ packed_tree node depth ∷ packed_layers (stack_at graph.old below)) }
    ensures good { IfOk result (λ top. (size place : ℕ)
        → IsGoodStack table.now size (stack_at graph.old below) place
        → CanPut table.now size place left.0 node depth extras.now
        → IsGoodStack table.now size (stack_at graph.new top)
        (place + (span_of node + all_spans extras.now))) }
{
    let state = next_state(table, graph.state(below), left);
    let base = graph.push_packed(below, node, state, depth)?;
    let top = lay(graph, base, extras, state)?;
    Ok(top)
}

/// Whether a node is made without a choice: its move is the only one, what it is made of has
/// states, and its production has steps.
fn is_without_choice(only: bool, stated: bool, steps: usize) -> bool
    ensures { IsTrue result ↔ ((only ≡ true) × (stated ≡ true) × (0 < steps)) }
{
    only && stated && steps > 0
}

/// Takes out all stacks of the graph that were put there after this one, if it is alone. Of what
/// was gathered from there the node that is made is then the only owner.
fn cut_alone(graph: &mut Graph, below: usize, alone: bool)
    requires { below < length graph.old }
    ensures there { below < length graph.new }
    ensures stack { stack_at graph.new below ≡ stack_at graph.old below }
    ensures cut { alone ≡ true → graph.new ≡ take (below + 1) graph.old }
    ensures kept { alone ≡ false → graph.new ≡ graph.old }
{
    if alone {
        graph.cut(below);
    }
}

/// Reduces a stack that is alone by a production of one step, where no extra is on top: the node on
/// top is the only child. This is done in place.
#[inline(always)]
fn reduce_top(
    alloc: Global,
    table: &Table,
    setting: &ParseSetting,
    graph: &mut Graph,
    head: StackHead,
    number: u32,
    ahead: TokenAhead,
    line: ProductionLine,
) -> Result<Option<StackHead>, AllocError>
    requires setting { IsParseSetting table.now setting.now.size setting.now }
    requires live { IsOwnHead table.now setting.now.size graph.old head }
    requires stays { (token : ℕ)
        × Act table.now.grammar (read_on graph.old head) token (reducing_by number) }
    requires some { 0 < ahead.found.extent }
    requires ahead { head.place + ahead.found.extent ≤ suc setting.now.size }
    requires line { slice_get setting.now.lines number ≡ Some line }
    requires one { line.steps ≡ 1 }
    requires plain { begins_with_extra (stack_at graph.old head.top) ≡ false }
    ensures one { IfOk result (λ o. IfSome o (λ h. IsOneStack graph.old head.top
        → IsOneStack graph.new h.top)) }
    ensures done { IfOk result (λ o. IsReducedTo table.now setting.now.size number graph.old
        graph.new head o) }
    ensures kept { IfOk result (λ o. o ≡ None → graph.new ≡ graph.old) }
    ensures live { IfOk result (λ o. IfSome o (IsOwnHead table.now setting.now.size graph.new)) }
    ensures put { IfOk result (λ o. IfSome o (λ h. IsNodePut table.now number ahead
        (trees_on (stack_at graph.old head.top)) (trees_on (stack_at graph.new h.top)))) }
    ensures stand { IfOk result (λ o. IfSome o (λ h. (states : States) (text : Bytes)
        → length text ≡ setting.now.size → AreStatesOf table.now states
        → IsMoveAhead table.now text graph.old head ahead (reducing_by number)
        → StandOnHead table.now states text graph.old head
        → StandOnHead table.now states text graph.new h)) }
{
    laws_hold();
    sound_laws_hold();
    table.stands();
    setting.productions.values_are_small();
    let seen = seen_on_top(graph, head, ahead.found.extent);
    let only = is_without_choice(ahead.only, seen.stated, line.steps);
    let state = state_below(graph, seen.below, only);
    match depth_over(seen.depth, 0, line.lengthens) {
        None => Ok(None),
        Some(depth) => {
            let child = graph.take_node(head.top);
            graph.cut(seen.below);
            let lengthens = line.lengthens;
            let node = node_of_one(alloc, setting, number, lengthens, child, seen.extent, state)?;
            let top = put(table, graph, seen.below, line.left, node, depth, &[])?;
            Ok(Some(StackHead {
                top,
                place: head.place,
            }))
        }
    }
}

/// Reduces a stack where the children go by way of a vector.
fn reduce_listed(
    alloc: Global,
    table: &Table,
    setting: &ParseSetting,
    graph: &mut Graph,
    head: StackHead,
    number: u32,
    ahead: TokenAhead,
    alone: bool,
) -> Result<Option<StackHead>, AllocError>
    requires setting { IsParseSetting table.now setting.now.size setting.now }
    requires live { IsOwnHead table.now setting.now.size graph.old head }
    requires stays { (token : ℕ)
        × Act table.now.grammar (read_on graph.old head) token (reducing_by number) }
    requires some { 0 < ahead.found.extent }
    requires ahead { head.place + ahead.found.extent ≤ suc setting.now.size }
    ensures grows { alone ≡ false → OnOk result (GainsStacks graph.old graph.new) }
    ensures one { alone ≡ true → IfOk result (λ o. IfSome o (λ h. IsOneStack graph.old head.top
        → IsOneStack graph.new h.top)) }
    ensures done { IfOk result (λ o. IsReducedTo table.now setting.now.size number graph.old
        graph.new head o) }
    ensures kept { IfOk result (λ o. o ≡ None → graph.new ≡ graph.old) }
    ensures live { IfOk result (λ o. IfSome o (IsOwnHead table.now setting.now.size graph.new)) }
    ensures put { IfOk result (λ o. IfSome o (λ h. IsNodePut table.now number ahead
        (trees_on (stack_at graph.old head.top)) (trees_on (stack_at graph.new h.top)))) }
    ensures stand { IfOk result (λ o. IfSome o (λ h. (states : States) (text : Bytes)
        → length text ≡ setting.now.size → AreStatesOf table.now states
        → IsMoveAhead table.now text graph.old head ahead (reducing_by number)
        → StandOnHead table.now states text graph.old head
        → StandOnHead table.now states text graph.new h)) }
{
    laws_hold();
    sound_laws_hold();
    table.stands();
    setting.productions.values_are_small();
    let line = *setting.lines.get(number as usize);
    let Gathered {
        extras,
        mut children,
        extent,
        stated,
        first,
        others,
        below,
    } = gather_for(alloc, graph, head, line.steps, ahead.found.extent, alone)?;
    let only = is_without_choice(ahead.only, stated, line.steps);
    let state = state_below(graph, below, only);
    match depth_over(first, others, line.lengthens) {
        None => Ok(None),
        Some(depth) => {
            cut_alone(graph, below, alone);
            let node = node_of(
                alloc,
                setting,
                number,
                line.lengthens,
                &mut children,
                extent,
                state,
            )?;
            graph.keep(children);
            let behind = extras.as_slice();
            let top = put(table, graph, below, line.left, node, depth, behind)?;
            Ok(Some(StackHead {
                top,
                place: head.place,
            }))
        }
    }
}

/// Reduces a stack by the production of a number. Where it is alone this is done in place: all
/// stacks of the graph that were put there after the one below the node are taken out. Else all
/// stacks stay. None where the node would be deeper than a node may be; it is not made then.
///
/// # Errors
///
/// `AllocError` where memory runs out.
pub fn reduce(
    alloc: Global,
    table: &Table,
    setting: &ParseSetting,
    graph: &mut Graph,
    head: StackHead,
    number: u32,
    ahead: TokenAhead,
    alone: bool,
) -> Result<Option<StackHead>, AllocError>
    requires setting { IsParseSetting table.now setting.now.size setting.now }
    requires live { IsOwnHead table.now setting.now.size graph.old head }
    requires stays { (token : ℕ)
        × Act table.now.grammar (read_on graph.old head) token (reducing_by number) }
    requires some { 0 < ahead.found.extent }
    requires ahead { head.place + ahead.found.extent ≤ suc setting.now.size }
    ensures grows { alone ≡ false → OnOk result (GainsStacks graph.old graph.new) }
    ensures one { alone ≡ true → IfOk result (λ o. IfSome o (λ h. IsOneStack graph.old head.top
        → IsOneStack graph.new h.top)) }
    ensures done { IfOk result (λ o. IsReducedTo table.now setting.now.size number graph.old
        graph.new head o) }
    ensures kept { IfOk result (λ o. o ≡ None → graph.new ≡ graph.old) }
    ensures live { IfOk result (λ o. IfSome o (IsOwnHead table.now setting.now.size graph.new)) }
    ensures put { IfOk result (λ o. IfSome o (λ h. IsNodePut table.now number ahead
        (trees_on (stack_at graph.old head.top)) (trees_on (stack_at graph.new h.top)))) }
    ensures stand { IfOk result (λ o. IfSome o (λ h. (states : States) (text : Bytes)
        → length text ≡ setting.now.size → AreStatesOf table.now states
        → IsMoveAhead table.now text graph.old head ahead (reducing_by number)
        → StandOnHead table.now states text graph.old head
        → StandOnHead table.now states text graph.new h)) }
{
    laws_hold();
    let line = *setting.lines.get(number as usize);
    if is_over_top(graph, head, line.steps, alone) {
        reduce_top(alloc, table, setting, graph, head, number, ahead, line)
    } else {
        reduce_listed(alloc, table, setting, graph, head, number, ahead, alone)
    }
}

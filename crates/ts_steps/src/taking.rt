//! Taking a node over: a node of an old tree goes in; the head of the stack with it on top comes
//! out, or that it cannot be laid there.
ghost use Rattle.std.specs.Prelude.{◌≡◌, ℕ, ◌+◌, ◌<◌, ◌≤◌, ◌∷◌, ◌↔◌, suc, true, length, IfOk, IfSome, IsTrue, MatchOption, None, OnOk};
ghost use Rattle.ts_base.specs.Bytes.{Bytes};
ghost use Rattle.spec_grammar.specs.Symbols.{start_symbol};
ghost use Rattle.spec_trees.specs.Trees.{symbol_of, is_settled, pad_of, node_extent, span_of};
ghost use Rattle.spec_trees.specs.Made.{filling, most_span};
ghost use Rattle.spec_forced.specs.Sound.{States, IsHonest};
ghost use Rattle.ts_table.specs.Tables.{IsStateOf};
ghost use Rattle.ts_gss.specs.Stacks.{stack_at, state_on, trees_on, IsOneStack};
ghost use Rattle.ts_steps.specs.LiveHeads.{GainsStacks, HaveStates};
ghost use Rattle.ts_steps.specs.Heads.{AreStatesOf, IsOwnWithin, IsMadeNode, IsOwnHead, StandOnHead, BeginsWithChild, CanTake, IsTaken};

use crate::head::StackHead;
use crate::laws::{laws_hold, sound_laws_hold};
use std::alloc::AllocError;
use ts_gss::Graph;
use ts_node::Node;
use ts_table::Table;

/// The state above a node that is put on a stack, where the table leads over its symbol. An extra
/// leaves the state as it is.
fn state_above(table: &Table, graph: &Graph, head: usize, node: &Node) -> Option<u16>
    requires there { head < length graph.now }
    requires states { HaveStates table.now (stack_at graph.now head) }
    ensures { MatchOption result
        ((n : ℕ) → IsStateOf table.now (filling (node.now ∷ trees_on (stack_at graph.now head))) n
        → ⊥)
        (IsStateOf table.now (filling (node.now ∷ trees_on (stack_at graph.now head)))) }
{
    table.stands();
    let state = graph.state(head);
    if node.extra() {
        Some(state)
    } else {
        table.goto(state, node.symbol())
    }
}

/// Whether what was examined for a node at a place lies in a text of so many bytes, and its end.
fn lies_within(node: &Node, place: u32, size: u32) -> bool
    requires { (place ≤ size) × (size ≤ most_span) }
    ensures { IsTrue result ↔ place + node_extent node.now ≤ suc size }
{
    node.extent() <= size + 1 - place
}

/// Whether a node has no bytes.
fn is_empty(node: &Node) -> bool
    ensures { IsTrue result ↔ span_of node.now ≡ 0 }
{
    let _ = node.nodes();
    node.pad() + node.size() == 0
}

/// Whether a node begins where another begins that stands at the same place.
fn begins_at(node: &Node, child: &Node) -> bool
    ensures { IsTrue result ↔ pad_of node.now ≡ pad_of child.now }
{
    node.pad() == child.pad()
}

/// Whether a node begins where its first child begins; of one without children, whether it has no
/// bytes.
fn begins_with_child(node: &Node) -> bool
    ensures { IsTrue result ↔ BeginsWithChild node.now }
{
    if node.children() == 0 {
        is_empty(node)
    } else {
        begins_at(node, node.child(0))
    }
}

/// Whether a node is that of a token.
fn is_token(table: &Table, node: &Node) -> bool
    ensures { IsTrue result ↔ symbol_of node.now < start_symbol table.now.grammar }
{
    node.symbol().0 as usize <= table.grammar().tokens.len()
}

/// Whether a node is such as a move of a parser makes. Each that a parser made is.
fn is_made(table: &Table, node: &Node) -> bool
    requires settled { is_settled node.now ≡ true }
    requires own { IsOwnWithin table.now.grammar node.now }
    ensures { IsTrue result ↔ IsMadeNode table.now.grammar node.now }
{
    let _ = node.kind();
    if is_token(table, node) {
        true
    } else {
        begins_with_child(node)
    }
}

/// Takes a node over whole: it is put on the stack as one more owner of it, with the state to which
/// the table leads over its symbol. None where the table does not lead over it, where it was
/// examined past the end of the text, which has so many bytes, or where no move makes such a node;
/// nothing is put there then.
///
/// # Errors
///
/// `AllocError` where memory runs out.
pub fn take_over(
    table: &Table,
    graph: &mut Graph,
    head: StackHead,
    node: &Node,
    size: u32,
) -> Result<Option<StackHead>, AllocError>
    requires short { size ≤ most_span }
    requires live { IsOwnHead table.now size graph.old head }
    requires settled { is_settled node.now ≡ true }
    requires own { IsOwnWithin table.now.grammar node.now }
    ensures grows { OnOk result (GainsStacks graph.old graph.new) }
    ensures kept { IfOk result (λ o. o ≡ None → graph.new ≡ graph.old) }
    ensures one { IfOk result (λ o. IfSome o (λ k. IsOneStack graph.old head.top
        → IsOneStack graph.new k.top)) }
    ensures taken { IfOk result (λ o. MatchOption o
        ((state : ℕ) → CanTake table.now size graph.old head node.now state → ⊥)
        (IsTaken table.now size graph.old graph.new head node.now)) }
    ensures stand { IfOk result (λ o. IfSome o (λ k. (states : States) (text : Bytes)
        → length text ≡ size → AreStatesOf table.now states
        → IsHonest table.now.grammar states text head.place
        (state_on (stack_at graph.old head.top)) node.now
        → StandOnHead table.now states text graph.old head
        → StandOnHead table.now states text graph.new k)) }
{
    laws_hold();
    sound_laws_hold();
    table.stands();
    let _ = node.nodes();
    if !is_made(table, node) {
        return Ok(None);
    }
    if lies_within(node, head.place, size) {
        match state_above(table, graph, head.top, node) {
            None => Ok(None),
            Some(state) => {
                let place = head.place + (node.pad() + node.size());
                let owner = node.try_clone()?;
                let top = graph.push(head.top, owner, state)?;
                Ok(Some(StackHead { top, place }))
            }
        }
    } else {
        Ok(None)
    }
}

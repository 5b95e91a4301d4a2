//! Steps over a token: a token or an extra goes in, and the head of the new stack comes out.
ghost use Rattle.std.specs.Prelude.{◌≡◌, ℕ, ◌+◌, ◌^◌, ◌<◌, ◌≤◌, ◌∷◌, true, length, Some, IfOk, OnOk};
ghost use Rattle.ts_base.specs.Bytes.{Bytes};
ghost use Rattle.spec_tables.specs.Actions.{shift as shifting};
ghost use Rattle.spec_tables.specs.Items.{IsToken};
ghost use Rattle.spec_trees.specs.Made.{leaf_of, most_span, as_extra};
ghost use Rattle.spec_runs.specs.Configurations.{pushed, token_tree};
ghost use Rattle.spec_packing.specs.Packing.{packed_with};
ghost use Rattle.spec_forced.specs.Sound.{States};
ghost use Rattle.ts_table.specs.declared.view.ParseTable.{ParseTable};
ghost use Rattle.ts_table.specs.Tables.{IsTable, IsStateOf};
ghost use Rattle.ts_gss.specs.Stacks.{stack_at, state_on, IsOneStack};
ghost use Rattle.ts_steps.specs.LiveHeads.{config_of, packed_of, read_on, GainsStacks, LiesAhead};
ghost use Rattle.ts_steps.specs.Heads.{AreStatesOf, state_where, IsOwnHead, StandOnHead, IsPutOn, IsMoveAhead, IsExtraAhead};

use crate::ahead::TokenAhead;
use crate::found::FoundToken;
use crate::head::StackHead;
use crate::laws::{laws_hold, sound_laws_hold};
use std::alloc::AllocError;
use ts_gss::Graph;
use ts_node::Node;

/// The state below a node that is put on a stack, where it was made without a choice.
pub(crate) fn state_below(graph: &Graph, head: usize, only: bool) -> Option<u16>
    requires { head < length graph.now }
    ensures { result ≡ state_where only (state_on (stack_at graph.now head)) }
{
    if only { Some(graph.state(head)) } else { None }
}

/// Shifts a token, after which the state is this one. Its leaf has the state below it, if no other
/// move stays on the token. It takes memory for one layer.
///
/// # Errors
///
/// `AllocError` where memory runs out.
#[inline(always)]
pub fn shift(
    graph: &mut Graph,
    head: StackHead,
    ahead: TokenAhead,
    state: u16,
) -> Result<StackHead, AllocError>
    requires there { head.top < length graph.old }
    requires room { (size : ℕ) × (size ≤ most_span) × LiesAhead size head.place ahead.found }
    ensures grows { OnOk result (GainsStacks graph.old graph.new) }
    ensures one { IfOk result (λ h. IsOneStack graph.old head.top → IsOneStack graph.new h.top) }
    ensures put { IfOk result (λ h. IsPutOn graph.old graph.new head h
        (leaf_of ahead.found.token.0 ahead.found.pad ahead.found.size ahead.found.extent
        (state_where ahead.only (state_on (stack_at graph.old head.top)))) state) }
    ensures config { IfOk result (λ h. config_of graph.new h ≡ pushed (config_of graph.old head)
        (token_tree ahead.found.token ahead.found.pad ahead.found.size)) }
    ensures layers { IfOk result (λ h. packed_of graph.new h
        ≡ packed_with (packed_of graph.old head)
        (token_tree ahead.found.token ahead.found.pad ahead.found.size)) }
    ensures live { IfOk result (λ h. (t : ParseTable) (size : ℕ) → IsOwnHead t size graph.old head
        → LiesAhead size head.place ahead.found → IsToken t.grammar ahead.found.token.0
        → IsStateOf t (ahead.found.token.0 ∷ read_on graph.old head) state
        → IsOwnHead t size graph.new h) }
    ensures stand { IfOk result (λ h. (t : ParseTable) (states : States) (text : Bytes)
        → IsTable t → AreStatesOf t states → IsOwnHead t (length text) graph.old head
        → IsMoveAhead t text graph.old head ahead shifting
        → StandOnHead t states text graph.old head → StandOnHead t states text graph.new h) }
{
    laws_hold();
    sound_laws_hold();
    let found = ahead.found;
    let below = state_below(graph, head.top, ahead.only);
    let node = Node::leaf(found.token, found.pad, found.size, found.extent, below);
    let _ = node.nodes();
    let top = graph.push(head.top, node, state)?;
    Ok(StackHead {
        top,
        place: head.place + (found.pad + found.size),
    })
}

/// Pushes an extra. The state stays, and is the one below the extra's leaf: to pass an extra is no
/// choice, since no move stays on it. It takes memory for one layer.
///
/// # Errors
///
/// `AllocError` where memory runs out.
pub fn pass(graph: &mut Graph, head: StackHead, found: FoundToken) -> Result<StackHead, AllocError>
    requires there { head.top < length graph.old }
    requires room { (size : ℕ) × (size ≤ most_span) × LiesAhead size head.place found }
    ensures grows { OnOk result (GainsStacks graph.old graph.new) }
    ensures one { IfOk result (λ h. IsOneStack graph.old head.top → IsOneStack graph.new h.top) }
    ensures put { IfOk result (λ h. IsPutOn graph.old graph.new head h
        (as_extra (leaf_of found.token.0 found.pad found.size found.extent
        (Some (state_on (stack_at graph.old head.top)))))
        (state_on (stack_at graph.old head.top))) }
    ensures config { IfOk result (λ h. config_of graph.new h ≡ pushed (config_of graph.old head)
        (as_extra (token_tree found.token found.pad found.size))) }
    ensures layers { IfOk result (λ h. packed_of graph.new h
        ≡ packed_with (packed_of graph.old head)
        (as_extra (token_tree found.token found.pad found.size))) }
    ensures live { IfOk result (λ h. (t : ParseTable) (size : ℕ) → IsOwnHead t size graph.old head
        → LiesAhead size head.place found → IsToken t.grammar found.token.0
        → IsOwnHead t size graph.new h) }
    ensures stand { IfOk result (λ h. (t : ParseTable) (states : States) (text : Bytes)
        → IsTable t → AreStatesOf t states → IsOwnHead t (length text) graph.old head
        → IsExtraAhead t text graph.old head found
        → StandOnHead t states text graph.old head → StandOnHead t states text graph.new h) }
{
    laws_hold();
    sound_laws_hold();
    let state = graph.state(head.top);
    let leaf = Node::leaf(
        found.token,
        found.pad,
        found.size,
        found.extent,
        Some(state),
    );
    let node = leaf.as_extra();
    let _ = node.nodes();
    let top = graph.push(head.top, node, state)?;
    Ok(StackHead {
        top,
        place: head.place + (found.pad + found.size),
    })
}

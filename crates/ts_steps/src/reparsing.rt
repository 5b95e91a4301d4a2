//! Parsing a text over one stack, with what is offered of an old tree: the table, the lexer,
//! the text, the offers and a stack go in; what the text comes to from there comes out, or the
//! stack at which several moves stay.
ghost use Rattle.std.specs.Prelude.{◌≡◌, ℕ, ◌<◌, ◌≤◌, true, Some, None, IfOk, IfSome, OnOk, length};
ghost use Rattle.spec_trees.specs.declared.tree.Tree.{Tree};
ghost use Rattle.spec_trees.specs.declared.tree.Stretch.{Stretch};
ghost use Rattle.spec_trees.specs.Made.{most_span};
ghost use Rattle.spec_forced.specs.Sound.{States};
ghost use Rattle.spec_packing.specs.Packing.{WasMet};
ghost use Rattle.spec_runs.specs.Configurations.{HasMove};
ghost use Rattle.ts_gss.specs.Stacks.{stack_at, state_on, AreExact, IsOneStack};
ghost use Rattle.ts_steps.specs.declared.found.FoundToken.{FoundToken as AnyFound};
ghost use Rattle.ts_steps.specs.LiveHeads.{packed_of, read_on};
ghost use Rattle.ts_table.specs.Tables.{actions_of};
ghost use Rattle.ts_steps.specs.Settings.{IsParseSetting};
ghost use Rattle.ts_steps.specs.Heads.{AreStatesOf, IsOwnHead, StandOnHead};
ghost use Rattle.ts_steps.specs.Looking.{IsTokenAhead, SeesAhead};
ghost use Rattle.ts_steps.specs.Reparsing.{AreHonest, AreHonestlyLent, IsLent, IsOffered, OnFork, IsForkFrom, IsOwnResult, IsResult, ComesByLayers, IsTakenFrom};

use crate::found::FoundToken;
use crate::head::StackHead;
use crate::laws::{laws_hold, pack_laws_hold, sound_laws_hold};
use crate::lengthening::take_elements;
use crate::looking::look;
use crate::moving::go_on;
use crate::reparsed::{Going, Reparsed};
use crate::setting::ParseSetting;
use crate::taking::take_over;
use spec_forced::{only_runs_are_one_way, only_runs_meet, pushed_whole};
use std::alloc::{AllocError, Global};
use ts_core::{Action, Symbol};
use ts_gss::Graph;
use ts_lexer::{Lexed, Tokens};
use ts_offer::Offers;
use ts_table::{Table, unit_ranks};

/// Whether the token that the stack sees is shifted next, or passed as an extra: what stands there
/// begins at this place, and the stack is as it is below it.
fn steps_over(table: &Table, graph: &Graph, head: StackHead, lexed: &Lexed) -> bool
    requires { head.top < length graph.now }
{
    match lexed {
        Lexed::Absent { .. } => false,
        Lexed::Token { token, .. } => !table
            .actions(graph.state(head.top), *token)
            .iter()
            .any(|action| is_reduction(*action)),
    }
}

/// Whether an action is a reduction.
fn is_reduction(action: Action) -> bool {
    match action {
        Action::Reduce(_) => true,
        Action::Shift(_) | Action::Accept => false,
    }
}

/// Takes the node over that is offered where the stack stands, if there is one that can be taken.
/// It is asked for only where a token would be stepped over: so no place is asked for twice, and no
/// node is looked for whose state comes after the reductions that are still to be done. Nothing is
/// taken over where a layer stands for deeper trees than its own.
fn take<'t, O: Offers<'t>>(
    table: &Table,
    offers: &mut O,
    graph: &mut Graph,
    head: StackHead,
    lexed: &Lexed,
    size: u32,
) -> Result<Option<StackHead>, AllocError>
    requires short { size ≤ most_span }
    requires asked { O.least offers.old ≤ head.place }
    requires live { IsOwnHead table.now size graph.old head }
    requires own { (place state : ℕ) (t : Tree) → O.gives offers.old place state t
        → IsOffered table.now.grammar t }
    ensures least { O.least offers.new ≤ head.place }
    ensures gives { (place state : ℕ) (t : Tree) → O.gives offers.new place state t
        → O.gives offers.old place state t }
    ensures lends { (place state symbol : ℕ) (s : Stretch)
        → O.lends offers.new place state symbol s → O.lends offers.old place state symbol s }
    ensures kept { IfOk result (λ o. o ≡ None → graph.new ≡ graph.old) }
    ensures one { IfOk result (λ o. IfSome o (λ k. IsOneStack graph.old head.top
        → IsOneStack graph.new k.top)) }
    ensures taken { IfOk result (λ o. IfSome o (λ k. (node : Tree)
        × O.gives offers.old head.place (state_on (stack_at graph.old head.top)) node
        × IsTakenFrom table.now size graph.old graph.new head node k)) }
    ensures exact { IfOk result (λ o. IfSome o
        (λ k. AreExact (stack_at graph.old head.top))) }
{
    if !graph.is_exact(head.top) {
        return Ok(None);
    }
    if !steps_over(table, graph, head, lexed) {
        return Ok(None);
    }
    match offers.at(head.place, graph.state(head.top)) {
        None => Ok(None),
        Some(node) => {
            let next = take_over(table, graph, head, node, size)?;
            Ok(next)
        }
    }
}

/// What the stack sees: the token that it is known to see, or what is lexed there.
fn look_once<L: Tokens>(
    table: &Table,
    lexer: &mut L,
    text: &L::Text,
    graph: &Graph,
    head: StackHead,
    ahead: Option<FoundToken>,
) -> Lexed
    requires made { L.made_for lexer.old table.now }
    requires live { IsOwnHead table.now (length (L.Text.bytes text.now)) graph.now head }
    requires known { (f : AnyFound) → ahead ≡ Some f
        → IsTokenAhead table.now (L.Text.bytes text.now) graph.now head f }
    ensures made { L.made_for lexer.new table.now }
    ensures sees { SeesAhead table.now (L.Text.bytes text.now) graph.now head result }
{
    match ahead {
        Some(found) => Lexed::Token {
            token: found.token,
            pad: found.pad,
            size: found.size,
            extent: found.extent,
        },
        None => look(table, lexer, text, graph, head),
    }
}

/// Whether some action stays on a token.
fn stays_valid(table: &Table, graph: &Graph, head: StackHead, token: Symbol) -> bool
    requires { head.top < length graph.now }
    ensures { result ≡ true
        → 0 < length (actions_of table.now (state_on (stack_at graph.now head.top)) token.0) }
{
    !table.actions(graph.state(head.top), token).is_empty()
}

/// The token behind a reduction, where some move stays on it.
fn seen_again(
    table: &Table,
    graph: &Graph,
    head: StackHead,
    found: FoundToken,
) -> Option<FoundToken>
    requires live { (size : ℕ) × IsOwnHead table.now size graph.now head }
    ensures { (f : AnyFound) → result ≡ Some f → (f ≡ found)
        × HasMove table.now.grammar (read_on graph.now head) found.token.0 }
{
    table.stands();
    if stays_valid(table, graph, head, found.token) {
        Some(found)
    } else {
        None
    }
}

/// What a text comes to from a stack on, for a parser that keeps one stack alone, and takes over
/// the nodes that it is offered, and behind a repetition the elements. If what is offered is
/// honest, this is what all runs from that stack come to, and the tree is sound. Where several
/// moves stay on a token it stops, and tells the stack to which these runs lead, and the token. The
/// token that the first stack sees may be known, and is not lexed again then. Each place is asked
/// for a node once at most, and of a node that is taken over the first token alone is lexed; of
/// elements that are taken over no token is. So it is of all readings for which the layers of the
/// stack stand; where one of these stands for deeper trees than its own, nothing is taken over.
///
/// # Errors
///
/// `AllocError` where memory runs out.
pub fn reparse<'t, L: Tokens, O: Offers<'t>>(
    alloc: Global,
    table: &Table,
    setting: &ParseSetting,
    lexer: &mut L,
    text: &L::Text,
    offers: &mut O,
    graph: &mut Graph,
    start: StackHead,
    known: Option<FoundToken>,
) -> Result<Reparsed, AllocError>
    requires made { L.made_for lexer.old table.now }
    requires setting { IsParseSetting table.now (length (L.Text.bytes text.now)) setting.now }
    requires live { IsOwnHead table.now (length (L.Text.bytes text.now)) graph.old start }
    requires known { (f : AnyFound) → known ≡ Some f
        → IsTokenAhead table.now (L.Text.bytes text.now) graph.old start f }
    requires asked { O.least offers.old ≤ start.place }
    requires own { (place state : ℕ) (t : Tree) → O.gives offers.old place state t
        → IsOffered table.now.grammar t }
    requires lent { (place state symbol : ℕ) (s : Stretch)
        → O.lends offers.old place state symbol s → IsLent table.now.grammar s }
    ensures made { L.made_for lexer.new table.now }
    ensures gives { OnOk result ((place state : ℕ) (t : Tree) → O.gives offers.new place state t
        → O.gives offers.old place state t) }
    ensures lends { OnOk result ((place state symbol : ℕ) (s : Stretch)
        → O.lends offers.new place state symbol s → O.lends offers.old place state symbol s) }
    ensures least { IfOk result (OnFork (λ k. O.least offers.new ≤ k.head.place)) }
    ensures forks { IfOk result (OnFork (λ k. IsForkFrom table.now (L.Text.bytes text.now)
        graph.old graph.new start k)) }
    ensures own { IfOk result (IsOwnResult table.now) }
    ensures fresh { IfOk result (λ r. (states : States) → AreStatesOf table.now states
        → AreHonest table.now.grammar states (L.Text.bytes text.now) (O.gives offers.old)
        → AreHonestlyLent table.now.grammar states (L.Text.bytes text.now) (O.lends offers.old)
        → StandOnHead table.now states (L.Text.bytes text.now) graph.old start
        → IsResult table.now states (L.Text.bytes text.now) graph.old graph.new start r) }
    ensures layers { IfOk result (λ r. (states : States) → AreStatesOf table.now states
        → AreHonest table.now.grammar states (L.Text.bytes text.now) (O.gives offers.old)
        → AreHonestlyLent table.now.grammar states (L.Text.bytes text.now) (O.lends offers.old)
        → StandOnHead table.now states (L.Text.bytes text.now) graph.old start
        → WasMet table.now.grammar (L.Text.bytes text.now) (packed_of graph.old start)
        → ComesByLayers table.now (L.Text.bytes text.now) graph.old graph.new start r) }
{
    laws_hold();
    sound_laws_hold();
    pack_laws_hold();
    only_runs_are_one_way();
    only_runs_meet();
    pushed_whole();
    table.stands();
    unit_ranks();
    let mut head = start;
    let mut ahead = known;
    loop {
        let lexed = look_once(table, lexer, text, graph, head, ahead);
        match take(table, offers, graph, head, &lexed, setting.size)? {
            Some(next) => {
                head = next;
                ahead = None;
            }
            None => match go_on(alloc, table, setting, graph, head, lexed)? {
                Going::On(next) => {
                    head = next;
                    ahead = None;
                }
                Going::Reduced(next, found) => {
                    match take_elements(alloc, table, offers, graph, next, setting.size)? {
                        Some(longer) => {
                            head = longer;
                            ahead = None;
                        }
                        None => {
                            ahead = seen_again(table, graph, next, found);
                            head = next;
                        }
                    }
                }
                Going::Ended(result) => return Ok(result),
            },
        }
    }
}

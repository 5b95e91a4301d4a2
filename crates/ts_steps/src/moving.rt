//! The move that the only stack asks for: what it sees goes in, and the next stack or the end of
//! the parse comes out.
ghost use Rattle.std.specs.Prelude.{◌≡◌, ℕ, [], ◌∷◌, List, length, IfOk};
ghost use Rattle.ts_base.specs.Bytes.{Bytes};
ghost use Rattle.ts_core.specs.declared.action.Action.{Action as AnyAction};
ghost use Rattle.ts_table.specs.Tables.{actions_of};
ghost use Rattle.ts_gss.specs.Stacks.{stack_at, state_on};
ghost use Rattle.ts_steps.specs.Settings.{IsParseSetting};
ghost use Rattle.ts_steps.specs.Heads.{IsOwnHead};
ghost use Rattle.ts_steps.specs.Looking.{IsTokenAhead, SeesAhead};
ghost use Rattle.ts_steps.specs.Choosing.{IsChoiceOf};
ghost use Rattle.ts_steps.specs.Reparsing.{GoesTo};

use crate::accepting::accept;
use crate::ahead::TokenAhead;
use crate::found::FoundToken;
use crate::head::StackHead;
use crate::laws::{laws_hold, only_laws_hold, sound_laws_hold};
use crate::reducing::reduce;
use crate::reparsed::{Fork, Going, Reparsed};
use crate::setting::ParseSetting;
use crate::shifting::{pass, shift};
use spec_reuse::same_token_again;
use std::alloc::{AllocError, Global};
use ts_core::Action;
use ts_gss::Graph;
use ts_lexer::Lexed;
use ts_table::Table;

/// How many actions there are: none, one alone, or several.
pub(crate) enum Choice {
    Nothing,
    Only(Action),
    Several,
}

/// How many actions there are.
fn choice_of(actions: &[Action]) -> Choice
    ensures { IsChoiceOf actions.now result }
{
    if actions.is_empty() {
        Choice::Nothing
    } else if actions.len() == 1 {
        Choice::Only(actions[0])
    } else {
        Choice::Several
    }
}

/// Does the only action on the token that the stack sees.
#[inline(always)]
fn act(
    alloc: Global,
    table: &Table,
    setting: &ParseSetting,
    graph: &mut Graph,
    head: StackHead,
    found: FoundToken,
    action: Action,
) -> Result<Going, AllocError>
    requires setting { IsParseSetting table.now setting.now.size setting.now }
    requires live { IsOwnHead table.now setting.now.size graph.old head }
    requires sees { (text : Bytes) × (length text ≡ setting.now.size)
        × IsTokenAhead table.now text graph.old head found }
    requires only { actions_of table.now (state_on (stack_at graph.old head.top)) found.token.0
        ≡ action ∷ [] }
    ensures { IfOk result (λ going. (text : Bytes) → length text ≡ setting.now.size
        → IsTokenAhead table.now text graph.old head found
        → GoesTo table.now text graph.old graph.new head going) }
{
    laws_hold();
    sound_laws_hold();
    only_laws_hold();
    same_token_again();
    table.stands();
    let ahead = TokenAhead { found, only: true };
    match action {
        Action::Shift(state) => {
            let next = shift(graph, head, ahead, state)?;
            Ok(Going::On(next))
        }
        Action::Reduce(number) => {
            match reduce(alloc, table, setting, graph, head, number, ahead, true)? {
                Some(next) => Ok(Going::Reduced(next, found)),
                None => Ok(Going::Ended(Reparsed::Deep)),
            }
        }
        Action::Accept => {
            let root = accept(alloc, table, setting, graph, head)?;
            Ok(Going::Ended(Reparsed::Accepted(root)))
        }
    }
}

/// Does what the token that the stack sees asks for.
#[inline(always)]
fn follow(
    alloc: Global,
    table: &Table,
    setting: &ParseSetting,
    graph: &mut Graph,
    head: StackHead,
    found: FoundToken,
) -> Result<Going, AllocError>
    requires setting { IsParseSetting table.now setting.now.size setting.now }
    requires live { IsOwnHead table.now setting.now.size graph.old head }
    requires sees { (text : Bytes) × (length text ≡ setting.now.size)
        × IsTokenAhead table.now text graph.old head found }
    ensures { IfOk result (λ going. (text : Bytes) → length text ≡ setting.now.size
        → IsTokenAhead table.now text graph.old head found
        → GoesTo table.now text graph.old graph.new head going) }
{
    laws_hold();
    only_laws_hold();
    table.stands();
    match choice_of(table.actions(graph.state(head.top), found.token)) {
        Choice::Nothing => {
            let next = pass(graph, head, found)?;
            Ok(Going::On(next))
        }
        Choice::Only(action) => {
            let going = act(alloc, table, setting, graph, head, found, action)?;
            Ok(going)
        }
        Choice::Several => Ok(Going::Ended(Reparsed::Forks(Fork { head, found }))),
    }
}

/// Does what the stack asks for by what it sees.
#[inline(always)]
pub(crate) fn go_on(
    alloc: Global,
    table: &Table,
    setting: &ParseSetting,
    graph: &mut Graph,
    head: StackHead,
    lexed: Lexed,
) -> Result<Going, AllocError>
    requires setting { IsParseSetting table.now setting.now.size setting.now }
    requires live { IsOwnHead table.now setting.now.size graph.old head }
    requires sees { (text : Bytes) × (length text ≡ setting.now.size)
        × SeesAhead table.now text graph.old head lexed }
    ensures { IfOk result (λ going. (text : Bytes) → length text ≡ setting.now.size
        → SeesAhead table.now text graph.old head lexed
        → GoesTo table.now text graph.old graph.new head going) }
{
    laws_hold();
    only_laws_hold();
    match lexed {
        Lexed::Absent { place, extent: _ } => Ok(Going::Ended(Reparsed::Stuck(place))),
        Lexed::Token {
            token,
            pad,
            size,
            extent,
        } => {
            let found = FoundToken {
                token,
                pad,
                size,
                extent,
            };
            let going = follow(alloc, table, setting, graph, head, found)?;
            Ok(going)
        }
    }
}

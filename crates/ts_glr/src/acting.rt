//! Actions on a live stack: the token that it sees and the actions of its state go in; the heads of
//! the new stacks come out, or that a node would be too deep. Accepted trees are kept.
ghost use Rattle.std.specs.Prelude.{◌≡◌, ◌++◌, length, true, false, IfOk, OnOk};
ghost use Rattle.std.specs.List.{Contains};
ghost use Rattle.ts_base.specs.Bytes.{Bytes};
ghost use Rattle.ts_core.specs.declared.action.Action.{Action as AnyAction};
ghost use Rattle.ts_table.specs.Tables.{ActsBy};
ghost use Rattle.ts_gss.specs.Stacks.{stack_at, trees_on};
ghost use Rattle.ts_steps.specs.LiveHeads.{config_of, packed_of, read_on, GainsStacks};
ghost use Rattle.ts_steps.specs.Settings.{IsParseSetting};
ghost use Rattle.ts_steps.specs.Heads.{IsOwnHead};
ghost use Rattle.ts_steps.specs.Looking.{IsTokenAhead};
ghost use Rattle.ts_glr.specs.Steps.{HasForm, IsActed, IsTooDeep};
ghost use Rattle.ts_glr.specs.Search.{heads_of, is_deep, Acting};

use crate::choosing::keep;
use crate::laws::laws_hold;
use crate::readings::Readings;
use std::alloc::{AllocError, Global};
use ts_core::Action;
use ts_steps::{FoundToken, ParseSetting, StackHead, TokenAhead, accept, reduce, shift};
use ts_table::Table;

/// What an action comes to: a head, an accepted tree, or a node that would be too deep.
pub(crate) enum Moved {
    To(StackHead),
    Ended,
    TooDeep,
}

/// Does one action on the token that a head sees. All stacks stay, and a node that is made has no
/// state.
fn act(
    alloc: Global,
    table: &Table,
    setting: &ParseSetting,
    readings: &mut Readings,
    head: StackHead,
    found: FoundToken,
    action: Action,
) -> Result<Moved, AllocError>
    requires setting { IsParseSetting table.now setting.now.size setting.now }
    requires live { IsOwnHead table.now setting.now.size readings.old.graph head }
    requires sees { (text : Bytes) × (length text ≡ setting.now.size)
        × IsTokenAhead table.now text readings.old.graph head found }
    requires acts { ActsBy table.now (read_on readings.old.graph head) found.token.0 action }
    requires form { HasForm table.now.grammar readings.old.best }
    ensures grows { OnOk result (GainsStacks readings.old.graph readings.new.graph) }
    ensures form { OnOk result (HasForm table.now.grammar readings.new.best) }
    ensures live { OnOk result (readings.new.live.items ≡ readings.old.live.items) }
    ensures stuck { OnOk result (readings.new.stuck ≡ readings.old.stuck) }
    ensures acted { IfOk result (λ m. (text : Bytes) → length text ≡ setting.now.size
        → IsTokenAhead table.now text readings.old.graph head found
        → IsActed table.now text readings.old.graph readings.new.graph head found
        readings.old.best readings.new.best action m) }
{
    laws_hold();
    table.stands();
    let ahead = TokenAhead { found, only: false };
    let graph = &mut readings.graph;
    match action {
        Action::Shift(state) => {
            let next = shift(graph, head, ahead, state)?;
            Ok(Moved::To(next))
        }
        Action::Reduce(number) => {
            match reduce(alloc, table, setting, graph, head, number, ahead, false)? {
                Some(next) => Ok(Moved::To(next)),
                None => Ok(Moved::TooDeep),
            }
        }
        Action::Accept => {
            let node = accept(alloc, table, setting, graph, head)?;
            keep(&mut readings.best, node);
            Ok(Moved::Ended)
        }
    }
}

/// Adds what an action came to, and tells whether a node would be too deep.
fn add(live: &mut Vec<StackHead>, moved: Moved) -> Result<bool, AllocError>
    ensures deep { IfOk result (λ b. b ≡ is_deep moved) }
    ensures live { OnOk result (live.new.items ≡ live.old.items ++ heads_of moved) }
{
    match moved {
        Moved::To(head) => {
            live.push(head)?;
            Ok(false)
        }
        Moved::Ended => Ok(false),
        Moved::TooDeep => Ok(true),
    }
}

/// Does each action on the token that a head sees, and tells whether a node would be too deep.
pub(crate) fn act_all(
    alloc: Global,
    table: &Table,
    setting: &ParseSetting,
    readings: &mut Readings,
    head: StackHead,
    found: FoundToken,
    actions: &[Action],
) -> Result<bool, AllocError>
    requires setting { IsParseSetting table.now setting.now.size setting.now }
    requires live { IsOwnHead table.now setting.now.size readings.old.graph head }
    requires sees { (text : Bytes) × (length text ≡ setting.now.size)
        × IsTokenAhead table.now text readings.old.graph head found }
    requires act { (a : AnyAction) → Contains actions.now a
        → ActsBy table.now (read_on readings.old.graph head) found.token.0 a }
    requires form { HasForm table.now.grammar readings.old.best }
    ensures grows { OnOk result (GainsStacks readings.old.graph readings.new.graph) }
    ensures form { OnOk result (HasForm table.now.grammar readings.new.best) }
    ensures stuck { OnOk result (readings.new.stuck ≡ readings.old.stuck) }
    ensures deep { IfOk result (λ b. b ≡ true → (a : AnyAction) × Contains actions.now a
        × IsTooDeep table.now.grammar (packed_of readings.old.graph head) a) }
    ensures done { IfOk result (λ b. b ≡ false → (text : Bytes) → length text ≡ setting.now.size
        → IsTokenAhead table.now text readings.old.graph head found
        → Acting table.now text (trees_on (stack_at readings.old.graph head.top))
        readings.new.graph (config_of readings.old.graph head)
        (packed_of readings.old.graph head) found actions.now
        readings.old.live.items readings.new.live.items readings.old.best readings.new.best) }
{
    laws_hold();
    for action in actions {
        let moved = act(alloc, table, setting, readings, head, found, *action)?;
        if add(&mut readings.live, moved)? {
            return Ok(true);
        }
    }
    Ok(false)
}

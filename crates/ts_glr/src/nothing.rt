//! Parsing a text of nothing, which has nothing but extras before a token on which a reduction over
//! nothing stays: the table, the lexer and the text go in; what the text comes to comes out. Each
//! way to read such a text is one such reduction, and acceptance, so each is followed by itself.
ghost use Rattle.std.specs.Prelude.{◌≡◌, ℕ, true, false, length, Option, IfOk, OnOk};
ghost use Rattle.spec_runs.specs.Outcomes.{Fresh};
ghost use Rattle.spec_forced.specs.Sound.{States};
ghost use Rattle.spec_packing.specs.Packing.{PackedIsTooDeep};
ghost use Rattle.ts_base.specs.Bytes.{Bytes};
ghost use Rattle.ts_table.specs.Tables.{most_actions};
ghost use Rattle.ts_gss.specs.Stacks.{stack_at, trees_on};
ghost use Rattle.ts_steps.specs.LiveHeads.{config_of, packed_of, GainsStacks};
ghost use Rattle.ts_steps.specs.Settings.{IsParseSetting};
ghost use Rattle.ts_steps.specs.Heads.{AreStatesOf, IsOwnHead};
ghost use Rattle.ts_steps.specs.Looking.{IsTokenAhead};
ghost use Rattle.ts_glr.specs.Outcomes.{value_of_outcome, IsTreeOf, IsOwnOutcome, IsSoundOutcome};
ghost use Rattle.ts_glr.specs.Steps.{HasForm};
ghost use Rattle.ts_glr.specs.Search.{Spent};

use crate::acting::act_all;
use crate::choosing::further;
use crate::laws::{laws_hold, packing_laws_hold};
use crate::outcome::Outcome;
use crate::readings::{Readings, outcome, readings_of};
use std::alloc::{AllocError, Global};
use ts_lexer::{Lexed, Tokens};
use ts_steps::{FoundToken, ParseSetting, StackHead, look, pass, steps_fall};
use ts_table::Table;

/// Does all that the token that a head sees asks for, and tells whether a node would be too deep.
/// All stacks stay.
fn follow(
    alloc: Global,
    table: &Table,
    setting: &ParseSetting,
    readings: &mut Readings,
    head: StackHead,
    found: FoundToken,
) -> Result<bool, AllocError>
    requires setting { IsParseSetting table.now setting.now.size setting.now }
    requires live { IsOwnHead table.now setting.now.size readings.old.graph head }
    requires sees { (text : Bytes) × (length text ≡ setting.now.size)
        × IsTokenAhead table.now text readings.old.graph head found }
    requires form { HasForm table.now.grammar readings.old.best }
    ensures grows { OnOk result (GainsStacks readings.old.graph readings.new.graph) }
    ensures form { OnOk result (HasForm table.now.grammar readings.new.best) }
    ensures stuck { OnOk result (readings.new.stuck ≡ readings.old.stuck) }
    ensures deep { IfOk result (λ b. b ≡ true → (text : Bytes)
        → IsTokenAhead table.now text readings.old.graph head found
        → PackedIsTooDeep table.now.grammar text (packed_of readings.old.graph head)) }
    ensures done { IfOk result (λ b. b ≡ false → (text : Bytes) (stuck : Option ℕ)
        → length text ≡ setting.now.size
        → IsTokenAhead table.now text readings.old.graph head found
        → Spent table.now text (trees_on (stack_at readings.old.graph head.top))
        readings.new.graph (most_actions table.now)
        (config_of readings.old.graph head) (packed_of readings.old.graph head)
        readings.old.live.items readings.new.live.items
        readings.old.best readings.new.best stuck stuck) }
{
    laws_hold();
    table.stands();
    let actions = table.actions(readings.graph.state(head.top), found.token);
    if actions.is_empty() {
        let next = pass(&mut readings.graph, head, found)?;
        readings.live.push(next)?;
        return Ok(false);
    }
    let deep = act_all(alloc, table, setting, readings, head, found, actions)?;
    Ok(deep)
}

/// Follows a head by one step in all ways, and tells whether a node would be too deep. All stacks
/// stay.
fn advance<L: Tokens>(
    alloc: Global,
    table: &Table,
    setting: &ParseSetting,
    lexer: &mut L,
    text: &L::Text,
    readings: &mut Readings,
    head: StackHead,
) -> Result<bool, AllocError>
    requires made { L.made_for lexer.old table.now }
    requires setting { IsParseSetting table.now (length (L.Text.bytes text.now)) setting.now }
    requires live { IsOwnHead table.now (length (L.Text.bytes text.now)) readings.old.graph head }
    requires form { HasForm table.now.grammar readings.old.best }
    ensures made { L.made_for lexer.new table.now }
    ensures grows { OnOk result (GainsStacks readings.old.graph readings.new.graph) }
    ensures form { OnOk result (HasForm table.now.grammar readings.new.best) }
    ensures deep { IfOk result (λ b. b ≡ true → PackedIsTooDeep table.now.grammar
        (L.Text.bytes text.now) (packed_of readings.old.graph head)) }
    ensures done { IfOk result (λ b. b ≡ false → Spent table.now (L.Text.bytes text.now)
        (trees_on (stack_at readings.old.graph head.top)) readings.new.graph
        (most_actions table.now) (config_of readings.old.graph head)
        (packed_of readings.old.graph head) readings.old.live.items readings.new.live.items
        readings.old.best readings.new.best readings.old.stuck readings.new.stuck) }
{
    laws_hold();
    match look(table, lexer, text, &readings.graph, head) {
        Lexed::Absent { place, extent: _ } => {
            readings.stuck = further(readings.stuck, Some(place));
            Ok(false)
        }
        Lexed::Token {
            token,
            pad,
            size,
            extent,
        } => {
            let found = FoundToken {
                token,
                pad,
                size,
                extent,
            };
            let deep = follow(alloc, table, setting, readings, head, found)?;
            Ok(deep)
        }
    }
}

/// The fresh outcome of a text. Each way to read it is followed by itself to its end.
pub(crate) fn follow_each<L: Tokens>(
    alloc: Global,
    table: &Table,
    setting: &ParseSetting,
    lexer: &mut L,
    text: &L::Text,
) -> Result<Outcome, AllocError>
    requires made { L.made_for lexer.old table.now }
    requires setting { IsParseSetting table.now (length (L.Text.bytes text.now)) setting.now }
    ensures made { L.made_for lexer.new table.now }
    ensures form { IfOk result (IsTreeOf table.now.grammar) }
    ensures own { IfOk result (IsOwnOutcome table.now) }
    ensures fresh { IfOk result (λ out. Fresh table.now.grammar (L.Text.bytes text.now)
        (value_of_outcome out)) }
    ensures sound { IfOk result (λ out. (states : States) → AreStatesOf table.now states
        → IsSoundOutcome table.now states (L.Text.bytes text.now) out) }
{
    laws_hold();
    packing_laws_hold();
    table.stands();
    steps_fall();
    let mut readings = readings_of(alloc)?;
    while let Some(head) = readings.live.pop() {
        let deep = advance(alloc, table, setting, lexer, text, &mut readings, head)?;
        if deep {
            return Ok(Outcome::Deep);
        }
    }
    Ok(outcome(&mut readings))
}

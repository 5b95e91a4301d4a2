//! Lexing within a piece of a text: the characters that stand in one stretch of memory from a place
//! on go in, and what stands behind the separators comes out, if all that is looked at for it is
//! among them. So it is for most tokens.
ghost use Rattle.std.specs.Prelude.{◌≡◌, ◌≤◌, ◌<◌, ◌^◌, ◌++◌, List, Bool, IfSome, OnSome, length, drop};
ghost use Rattle.std.specs.Str.{IsUtf8};
ghost use Rattle.ts_base.specs.Bytes.{Bytes};
ghost use Rattle.ts_core.specs.declared.flat.FlatGrammar.{FlatGrammar as AnyGrammar};
ghost use Rattle.ts_core.specs.declared.symbol.Symbol.{Symbol as AnySymbol};
ghost use Rattle.ts_automata.specs.Automata.{IsAutomaton};
ghost use Rattle.ts_automata.specs.Machine.{state_count};
ghost use Rattle.ts_lexer.specs.Rules.{IsRules};
ghost use Rattle.ts_lexer.specs.Ahead.{AreVerdicts, HasPair};
ghost use Rattle.ts_lexer.specs.Scanned.{IsScanned};
ghost use Rattle.ts_lexer.specs.Ways.{AreTablesOf};
ghost use Rattle.ts_lexer.specs.Within.{IsFoundIn, Leaves};

use crate::ahead::{LexTables, RowPair};
use crate::choosing::scanned;
use crate::passing::{Passed, farther};
use crate::progress::advance;
use crate::rules::Rules;
use crate::scanned::{NOTHING, Scanned, Turn};
use crate::scanning::{row_for, turn_at, verdict_at};
use crate::verdict::Verdict;
use spec_lexing::{a_front_has_fronts, beginnings, every_word_is_a_front, one_character_at_a_time};
use ts_automata::Machine;

/// A character of a text, and where it leads.
#[derive(Clone, Copy, Debug)]
pub(crate) struct Leaving {
    pub place: usize,
    pub turn: Turn,
}

/// The first character, from a place on, over which a set does not lead to itself.
#[inline(always)]
fn left_at(machine: &Machine, set: usize, text: &str, from: usize) -> Option<Leaving>
    requires set { set < state_count machine.now }
    requires size { length text.now < 2 ^ 32 }
    requires from { from ≤ length text.now }
    requires utf8 { IsUtf8 (drop from text.now) }
    ensures { IfSome result (Leaves machine.now set text.now from) }
{
    let mut place = from;
    'staying: while place < text.len() {
        let turn = turn_at(machine, set, text, place);
        if turn.to != set {
            return Some(Leaving { place, turn });
        }
        place += turn.len;
    }
    None
}

/// What stands at a place of a piece, by verdicts that were made ahead, whatever follows the piece:
/// a look-up each for the character's class and the next set, and one for the verdict of a set that
/// is reached. What it says is told once, behind the characters over which it stays.
#[inline(always)]
fn scan_within(
    machine: &Machine,
    rules: &Rules,
    row: &[Verdict],
    piece: &str,
    from: usize,
) -> Option<Scanned>
    requires count { length row.now ≡ state_count machine.now }
    requires size { length piece.now < 2 ^ 32 }
    requires from { from ≤ length piece.now }
    requires utf8 { IsUtf8 (drop from piece.now) }
    ensures some { OnSome result (from < length piece.now) }
    ensures scanned { (g : AnyGrammar) (valid : List AnySymbol) (first : Bool) (tail : Bytes)
        → IsRules g rules.now → AreVerdicts g valid first machine.now row.now
        → IsAutomaton g machine.now.automaton → IsUtf8 tail
        → IfSome result (IsScanned g valid first (drop from piece.now ++ tail)) }
{
    a_front_has_fronts();
    every_word_is_a_front();
    beginnings();
    one_character_at_a_time();
    if from >= piece.len() {
        return None;
    }
    let mut progress = NOTHING;
    let mut state = machine.first();
    let mut here = Leaving {
        place: from,
        turn: turn_at(machine, state, piece, from),
    };
    'reading: loop {
        let verdict = verdict_at(row, here.turn.to);
        let end = here.place + here.turn.len;
        if !verdict.lives {
            return Some(scanned(rules, &progress, end - from));
        }
        state = here.turn.to;
        let Some(next) = left_at(machine, state, piece, end) else {
            return None;
        };
        advance(rules, &mut progress, verdict, next.place - from);
        here = next;
    }
}

/// Passes separators until a valid token stands at a place, or none is left, whatever follows the
/// piece.
#[inline(always)]
pub(crate) fn pass_within(tables: &LexTables, pair: RowPair, piece: &str) -> Option<Passed>
    requires size { length piece.now < 2 ^ 32 }
    requires ready { (g : AnyGrammar) × (valid : List AnySymbol)
        × AreTablesOf g tables.now × HasPair g valid tables.now pair }
    ensures { (g : AnyGrammar) (valid : List AnySymbol) (tail : Bytes)
        → AreTablesOf g tables.now → HasPair g valid tables.now pair → IsUtf8 tail
        → IfSome result (IsFoundIn g valid (piece.now ++ tail)) }
{
    let mut row = row_for(tables, pair, true);
    let mut pad: usize = 0;
    let mut extent: usize = 0;
    'passing: loop {
        let Some(here) = scan_within(&tables.machine, &tables.rules, row, piece, pad) else {
            return None;
        };
        extent = farther(extent, pad, here.reach);
        match here.best {
            Some(found) => {
                return Some(Passed {
                    found: Some(found),
                    pad,
                    extent,
                });
            }
            None => {}
        }
        if here.separator == 0 {
            return Some(Passed {
                found: None,
                pad,
                extent,
            });
        }
        pad += here.separator;
        row = row_for(tables, pair, false);
    }
}

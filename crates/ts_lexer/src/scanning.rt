//! One place of a text, by tables: how far the reading has come and a piece of the text go in, and
//! what is known behind the piece comes out, of all valid tokens and all separators at once.
ghost use Rattle.std.specs.Prelude.{◌≡◌, ◌≤◌, ◌<◌, ◌+◌, ◌^◌, ◌++◌, ◌∷◌, [], ℕ, List, Bool, Option, Some, IsTrue, length, drop, slice_get};
ghost use Rattle.std.specs.Str.{IsUtf8};
ghost use Rattle.ts_base.specs.Bytes.{Bytes};
ghost use Rattle.ts_core.specs.declared.flat.FlatGrammar.{FlatGrammar as AnyGrammar};
ghost use Rattle.ts_core.specs.declared.symbol.Symbol.{Symbol as AnySymbol};
ghost use Rattle.ts_automata.specs.Automata.{IsAutomaton};
ghost use Rattle.ts_automata.specs.Machine.{HasRead, state_count};
ghost use Rattle.ts_lexer.specs.Rules.{IsRules};
ghost use Rattle.ts_lexer.specs.Views.{IsView};
ghost use Rattle.ts_lexer.specs.Scanned.{Stays, Turns};
ghost use Rattle.ts_lexer.specs.Runs.{IfOpen, IsRun, IsReadOn};
ghost use Rattle.ts_lexer.specs.Ahead.{AreVerdicts, HasPair, IsReady};

use crate::ahead::{LexTables, RowPair, row_at};
use crate::judging::judge;
use crate::progress::advance;
use crate::rules::Rules;
use crate::scanned::{Read, Run, Turn};
use crate::verdict::Verdict;
use crate::view::View;
use spec_lexing::{a_front_has_fronts, beginnings, every_word_is_a_front, one_character_at_a_time};
use ts_automata::Machine;

/// The verdict on a set.
pub(crate) fn verdict_at(row: &[Verdict], set: usize) -> &Verdict
    requires { set < length row.now }
    ensures { slice_get row.now set ≡ Some result.now }
{
    &row[set]
}

/// Where the first character of a text leads, by a search for its class where it is not ASCII.
#[cold]
#[inline(never)]
fn wide_turn(machine: &Machine, set: usize, text: &str) -> Turn
    requires set { set < state_count machine.now }
    requires some { 0 < length text.now }
    ensures { Turns machine.now set text.now result }
{
    let Some(c) = text.chars().next() else {
        unreachable!()
    };
    Turn {
        to: machine.next(set, c),
        len: c.len_utf8(),
    }
}

/// Where the character at a place of a text leads.
#[inline(always)]
pub(crate) fn turn_at(machine: &Machine, set: usize, text: &str, place: usize) -> Turn
    requires set { set < state_count machine.now }
    requires within { place < length text.now }
    requires utf8 { IsUtf8 (drop place text.now) }
    ensures { Turns machine.now set (drop place text.now) result }
{
    let byte = text.as_bytes()[place];
    if byte < 128 {
        return Turn {
            to: machine.next(set, byte as char),
            len: 1,
        };
    }
    let (_, rest) = text.split_at(place);
    wide_turn(machine, set, rest)
}

/// Whether a byte is an ASCII character that leads from a set to itself.
fn stays_over(machine: &Machine, set: usize, byte: u8) -> bool
    requires { set < state_count machine.now }
    ensures ascii { IsTrue result → byte < 128 }
    ensures stays { IsTrue result → (w : List ℕ) → HasRead machine.now w set
        → HasRead machine.now (w ++ byte ∷ []) set }
{
    if 128 <= byte {
        return false;
    }
    machine.next(set, byte as char) == set
}

/// The end of the ASCII characters, from a place on, over which a set leads to itself.
fn end_of_stay(machine: &Machine, set: usize, bytes: &[u8], from: usize) -> usize
    requires set { set < state_count machine.now }
    requires from { from ≤ length bytes.now }
    ensures rises { from ≤ result }
    ensures within { result ≤ length bytes.now }
    ensures stays { Stays machine.now set (drop from bytes.now) (drop result bytes.now) }
{
    let mut place = from;
    'staying: while place < bytes.len() {
        if !stays_over(machine, set, bytes[place]) {
            return place;
        }
        place += 1;
    }
    place
}

/// Reads a piece on by verdicts that were made ahead: a look-up each for the character's class and
/// the next set, and one for the verdict of a set that is reached. What it says is told once,
/// behind the characters over which it stays.
fn read_by_row(machine: &Machine, rules: &Rules, row: &[Verdict], run: &Run, piece: &str) -> Read
    requires count { length row.now ≡ state_count machine.now }
    requires set { run.now.state < state_count machine.now }
    requires size { run.now.size + length piece.now < 2 ^ 32 }
    ensures set { IfOpen result (λ r. r.state < state_count machine.now) }
    ensures size { IfOpen result (λ r. r.size ≡ run.now.size + length piece.now) }
    ensures read { (g : AnyGrammar) (valid : List AnySymbol) (first : Bool) (rest tail : Bytes)
        → IsRules g rules.now → AreVerdicts g valid first machine.now row.now
        → IsAutomaton g machine.now.automaton
        → IsRun (λ set w. HasRead machine.now w set) g valid first rest (piece.now ++ tail) run.now
        → IsReadOn (λ set w. HasRead machine.now w set) g valid first rest tail result }
{
    a_front_has_fronts();
    every_word_is_a_front();
    beginnings();
    one_character_at_a_time();
    let bytes = piece.as_bytes();
    let mut state = run.state;
    let mut place: usize = 0;
    let mut progress = run.progress;
    'reading: while place < bytes.len() {
        let turn = turn_at(machine, state, piece, place);
        let verdict = verdict_at(row, turn.to);
        if !verdict.lives {
            return Read::Ended(Run {
                state,
                size: run.size + place + turn.len,
                progress,
            });
        }
        state = turn.to;
        place = end_of_stay(machine, state, bytes, place + turn.len);
        advance(rules, &mut progress, verdict, run.size + place);
    }
    Read::Open(Run {
        state,
        size: run.size + place,
        progress,
    })
}

/// Reads a piece on, where what the valid tokens make of a set is folded from its nodes.
fn read_by_nodes(
    machine: &Machine,
    rules: &Rules,
    view: &View,
    first: bool,
    run: &Run,
    piece: &str,
) -> Read
    requires set { run.now.state < state_count machine.now }
    requires size { run.now.size + length piece.now < 2 ^ 32 }
    ensures set { IfOpen result (λ r. r.state < state_count machine.now) }
    ensures size { IfOpen result (λ r. r.size ≡ run.now.size + length piece.now) }
    ensures read { (g : AnyGrammar) (valid : List AnySymbol) (rest tail : Bytes)
        → IsRules g rules.now → IsView g valid view.now → IsAutomaton g machine.now.automaton
        → IsRun (λ set w. HasRead machine.now w set) g valid first rest (piece.now ++ tail) run.now
        → IsReadOn (λ set w. HasRead machine.now w set) g valid first rest tail result }
{
    a_front_has_fronts();
    every_word_is_a_front();
    beginnings();
    one_character_at_a_time();
    let mut state = run.state;
    let mut size = run.size;
    let mut progress = run.progress;
    for c in piece.chars() {
        let to = machine.next(state, c);
        let verdict = judge(rules, view, first, machine.automaton(), machine.members(to));
        if !verdict.lives {
            return Read::Ended(Run {
                state,
                size: size + c.len_utf8(),
                progress,
            });
        }
        state = to;
        size += c.len_utf8();
        advance(rules, &mut progress, &verdict, size);
    }
    Read::Open(Run {
        state,
        size,
        progress,
    })
}

/// Reads a piece on at the first place that is tried or at a later one, by tables.
pub(crate) fn read_by_tables(
    tables: &LexTables,
    pair: Option<RowPair>,
    view: &View,
    first: bool,
    run: &Run,
    piece: &str,
) -> Read
    requires set { run.now.state < state_count tables.now.machine }
    requires size { run.now.size + length piece.now < 2 ^ 32 }
    requires ready { (g : AnyGrammar) × (valid : List AnySymbol)
        × IsReady g valid tables.now view.now pair }
    ensures set { IfOpen result (λ r. r.state < state_count tables.now.machine) }
    ensures size { IfOpen result (λ r. r.size ≡ run.now.size + length piece.now) }
    ensures read { (g : AnyGrammar) (valid : List AnySymbol) (rest tail : Bytes)
        → IsRules g tables.now.rules → IsReady g valid tables.now view.now pair
        → IsAutomaton g tables.now.machine.automaton
        → IsRun (λ set w. HasRead tables.now.machine w set) g valid first rest
        (piece.now ++ tail) run.now
        → IsReadOn (λ set w. HasRead tables.now.machine w set) g valid first rest tail result }
{
    let Some(pair) = pair else {
        return read_by_nodes(&tables.machine, &tables.rules, view, first, run, piece);
    };
    let row = row_for(tables, pair, first);
    read_by_row(&tables.machine, &tables.rules, row, run, piece)
}

/// The row for the first place that is tried, or for a later one.
pub(crate) fn row_for(tables: &LexTables, pair: RowPair, first: bool) -> &[Verdict]
    requires { (g : AnyGrammar) × (valid : List AnySymbol) × HasPair g valid tables.now pair }
    ensures { (g : AnyGrammar) (valid : List AnySymbol) → HasPair g valid tables.now pair
        → AreVerdicts g valid first tables.now.machine result.now }
{
    if first {
        row_at(&tables.rows, pair.first)
    } else {
        row_at(&tables.rows, pair.later)
    }
}

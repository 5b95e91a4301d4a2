//! Verdicts made ahead: lists of valid tokens go in, and for each of them what its tokens make of
//! each set of a machine comes out.
ghost use Rattle.std.specs.Prelude.{◌≡◌, ◌<◌, ℕ, List, Option, Some, length, slice_get, true, false, IfOk, OnOk};
ghost use Rattle.ts_core.specs.declared.flat.FlatGrammar.{FlatGrammar as AnyGrammar};
ghost use Rattle.ts_core.specs.declared.symbol.Symbol.{Symbol as AnySymbol};
ghost use Rattle.ts_lexer.specs.Rules.{IsRules};
ghost use Rattle.ts_lexer.specs.Views.{IsView};
ghost use Rattle.ts_lexer.specs.Ahead.{contents_of, IsNumbered, AreVerdicts, HasMoreRows, HasPair, HavePairs};
ghost use Rattle.ts_lexer.specs.declared.ahead.RowPair.{RowPair as AnyPair};

use crate::judging::judge;
use crate::marking::look;
use crate::rules::Rules;
use crate::verdict::Verdict;
use crate::view::View;
use indexmap::IndexSet;
use std::alloc::{AllocError, Global};
use ts_automata::Machine;
use ts_core::Symbol;

/// The most verdicts that are made ahead. One has 12 bytes.
pub(crate) const MOST_VERDICTS: usize = 4_194_304;

/// The two rows of a list of valid tokens, by their numbers.
#[derive(Clone, Copy, Debug)]
pub(crate) struct RowPair {
    /// For the first place that is tried.
    pub first: usize,
    /// For the places after it.
    pub later: usize,
}

/// Tables that a lexer has made ahead of all texts.
#[derive(Drop)]
pub(crate) struct LexTables {
    pub machine: Machine,
    pub rules: Rules,
    /// Rows of verdicts, one for each set of the machine.
    pub rows: IndexSet<Vec<Verdict>>,
}

/// What the marked tokens make of each set of a machine.
fn verdicts_of(
    alloc: Global,
    rules: &Rules,
    view: &View,
    first: bool,
    machine: &Machine,
) -> Result<Vec<Verdict>, AllocError>
    ensures { IfOk result
        (λ row. (g : AnyGrammar) (valid : List AnySymbol) → IsRules g rules.now
        → IsView g valid view.now → AreVerdicts g valid first machine.now row.items) }
{
    let mut row: Vec<Verdict> = Vec::new(alloc);
    for state in 0..machine.states() {
        let members = machine.members(state);
        row.push(judge(rules, view, first, machine.automaton(), members))?;
    }
    Ok(row)
}

/// The number of a row, which is added at the end where it is new.
fn number_of(rows: &mut IndexSet<Vec<Verdict>>, row: Vec<Verdict>) -> Result<usize, AllocError>
    ensures { IfOk result
        (λ n. IsNumbered (contents_of rows.old.keys) (contents_of rows.new.keys) row.items n) }
{
    let (number, _) = rows.insert_full(row)?;
    Ok(number)
}

/// A row, by its number.
pub(crate) fn row_at(rows: &IndexSet<Vec<Verdict>>, at: usize) -> &[Verdict]
    requires { at < length rows.now.keys }
    ensures { slice_get (contents_of rows.now.keys) at ≡ Some result.now }
{
    let Some(row) = rows.get_index(at) else {
        unreachable!()
    };
    row.as_slice()
}

/// A list of tokens, by its number.
pub(crate) fn list_at(lists: &IndexSet<Vec<Symbol>>, at: usize) -> &[Symbol]
    requires { at < length lists.now.keys }
    ensures { slice_get (contents_of lists.now.keys) at ≡ Some result.now }
{
    let Some(list) = lists.get_index(at) else {
        unreachable!()
    };
    list.as_slice()
}

/// Whether two more rows would be too many.
fn is_full(rows: usize, states: usize) -> bool {
    if states == 0 {
        return false;
    }
    rows >= (MOST_VERDICTS / states).saturating_sub(1)
}

/// The rows of the marked tokens, where there is room for them.
fn pair_of(
    alloc: Global,
    tables: &mut LexTables,
    view: &View,
) -> Result<Option<RowPair>, AllocError>
    ensures grows { OnOk result (HasMoreRows tables.old tables.new) }
    ensures pair { IfOk result
        (λ o. (g : AnyGrammar) (valid : List AnySymbol) (p : AnyPair) → o ≡ Some p
        → IsRules g tables.old.rules → IsView g valid view.now → HasPair g valid tables.new p) }
{
    if is_full(tables.rows.len(), tables.machine.states()) {
        return Ok(None);
    }
    let early = verdicts_of(alloc, &tables.rules, view, true, &tables.machine)?;
    let first = number_of(&mut tables.rows, early)?;
    let late = verdicts_of(alloc, &tables.rules, view, false, &tables.machine)?;
    let later = number_of(&mut tables.rows, late)?;
    Ok(Some(RowPair { first, later }))
}

/// The rows of each list of tokens, as long as there is room for them.
pub(crate) fn pairs_of(
    alloc: Global,
    tables: &mut LexTables,
    view: &mut View,
    lists: &IndexSet<Vec<Symbol>>,
) -> Result<Vec<Option<RowPair>>, AllocError>
    ensures marks { length view.new.marks.items ≡ length view.old.marks.items }
    ensures grows { OnOk result (HasMoreRows tables.old tables.new) }
    ensures count { IfOk result (λ pairs. length pairs.items ≡ length lists.now.keys) }
    ensures pairs { IfOk result
        (λ pairs. (g : AnyGrammar) → IsRules g tables.old.rules
        → length view.old.marks.items ≡ length g.tokens
        → HavePairs g tables.new (contents_of lists.now.keys) pairs.items) }
{
    let mut pairs: Vec<Option<RowPair>> = Vec::new(alloc);
    for at in 0..lists.len() {
        look(&tables.rules, view, list_at(lists, at));
        let pair = pair_of(alloc, tables, view)?;
        pairs.push(pair)?;
    }
    Ok(pairs)
}

//! The rows of one state: a set of items goes in, and where it leads over each symbol, and what
//! stays on each token, come out.
ghost use Rattle.std.specs.Prelude.{◌≡◌, ℕ, ◌<◌, List, length, slice_get, Some, IfOk, IsTrue, ◌↔◌};
ghost use Rattle.std.specs.List.{Contains};
ghost use Rattle.ts_core.specs.declared.flat.FlatGrammar.{FlatGrammar as Flat};
ghost use Rattle.spec_grammar.specs.Symbols.{start_symbol};
ghost use Rattle.ts_items.specs.declared.part.Goto.{Goto as Gotos};
ghost use Rattle.ts_items.specs.declared.part.State.{State as States};
ghost use Rattle.ts_items.specs.Collection.{IsReachedBy};
ghost use Rattle.ts_table.specs.Rows.{AreGotoNumbers, IsAcceptPart, HasAccept, IsReadySet, IsTokenCell, IsEntryOn, DoesNothingOn, IsSource, AreRivalItems};
ghost use Rattle.ts_table.specs.Rules.{IsRefusedBy};
ghost use Rattle.ts_table.specs.Tables.{EachOnce};

use crate::arrays::{NO_STATE, state_of};
use crate::candidates::{
    Candidate, complete_parts, lookaheads, pool_has, reductions, shift_items, width_of,
};
use crate::cells::{Cell, actions_of, resolve_cell};
use crate::conflicts::{is_declared, rules_of};
use crate::marks::Marks;
use indexmap::IndexSet;
use std::alloc::{AllocError, Global};
use ts_bits::BitSet;
use ts_core::{Action, FlatGrammar, Symbol};
use ts_items::{Goto, Items, Part};

/// A set of items, made ready for its tokens.
#[derive(Debug, Drop)]
pub(crate) struct Ready {
    /// The number of the set.
    pub at: usize,
    /// The parts of complete items.
    pub complete: Vec<Part>,
    /// The tokens that come after them.
    pub ends: BitSet,
    /// For each symbol the state to which the set leads, or `NO_STATE`.
    pub gotos: Vec<u16>,
    /// Whether the start item is complete.
    pub accepts: bool,
}

/// What there is on a token: the actions, and the rules of a conflict that is not declared.
#[derive(Debug, Drop)]
pub(crate) struct Entry {
    pub actions: Vec<Action>,
    pub refused: Option<Vec<Symbol>>,
}

/// For each symbol the state to which a set leads, or `NO_STATE`.
fn goto_row(alloc: Global, count: usize, gotos: &[Goto]) -> Result<Vec<u16>, AllocError>
    requires inside { (e : Gotos) → Contains gotos.now e → e.symbol < count }
    requires rise { (j k : ℕ) (a b : Gotos) → j < k → slice_get gotos.now j ≡ Some a
        → slice_get gotos.now k ≡ Some b → a.symbol < b.symbol }
    ensures { IfOk result (λ v. AreGotoNumbers count gotos.now v.items) }
{
    let mut row = Vec::new(alloc);
    row.resize(count, NO_STATE)?;
    for goto in gotos {
        row[usize::from(goto.symbol)] = goto.state;
    }
    Ok(row)
}

/// Whether a part stands for the complete start item before the end.
fn is_accepting(pool: &IndexSet<BitSet>, part: Part) -> bool
    ensures { IsTrue result ↔ IsAcceptPart pool.now.keys part }
{
    if part.line != 0 {
        return false;
    }
    if part.dot != 1 {
        return false;
    }
    pool_has(pool, part.tokens, 0)
}

/// Whether the start item is complete in a set, before the end.
fn accepts(pool: &IndexSet<BitSet>, parts: &[Part]) -> bool
    ensures { IsTrue result ↔ HasAccept pool.now.keys parts.now }
{
    for part in parts {
        if is_accepting(pool, *part) {
            return true;
        }
    }
    false
}

/// A set of items, made ready for its tokens.
pub(crate) fn prepare(
    alloc: Global,
    marks: &Marks,
    items: &Items,
    at: usize,
) -> Result<Ready, AllocError>
    requires at { at < length items.now.states.items }
    requires known { (g : Flat) × IsSource g marks.now items.now }
    ensures ready { IfOk result (λ set. (g : Flat) → IsSource g marks.now items.now
        → IsReadySet g items.now set) }
    ensures at { IfOk result (λ set. set.at ≡ at) }
{
    let state = &items.states[at];
    let complete = complete_parts(alloc, marks, state.parts.as_slice())?;
    let width = width_of(items.firsts.as_slice());
    let ends = lookaheads(alloc, &items.tokens, complete.as_slice(), width)?;
    let gotos = goto_row(alloc, items.firsts.len(), state.gotos.as_slice())?;
    let accepting = accepts(&items.tokens, state.parts.as_slice());
    Ok(Ready {
        at,
        complete,
        ends,
        gotos,
        accepts: accepting,
    })
}

/// The shift items on a token, where there are a shift and reductions.
fn rivals(
    alloc: Global,
    marks: &Marks,
    items: &Items,
    at: usize,
    target: Option<u16>,
    reductions: &[Candidate],
    token: u16,
) -> Result<Vec<Candidate>, AllocError>
    requires at { at < length items.now.states.items }
    requires known { (g : Flat) × IsSource g marks.now items.now }
    ensures { IfOk result (λ v. (g : Flat) (s : States) → IsSource g marks.now items.now
        → slice_get items.now.states.items at ≡ Some s
        → AreRivalItems g items.now s token target reductions.now v.items) }
{
    if reductions.is_empty() {
        return Ok(Vec::new(alloc));
    }
    match target {
        None => Ok(Vec::new(alloc)),
        Some(_) => shift_items(
            alloc,
            marks,
            items.states[at].parts.as_slice(),
            items.firsts.as_slice(),
            token,
        ),
    }
}

/// What stays on a token.
fn cell_at(
    alloc: Global,
    grammar: &FlatGrammar,
    marks: &Marks,
    items: &Items,
    set: &Ready,
    token: u16,
) -> Result<Cell, AllocError>
    requires source { IsSource grammar.now marks.now items.now }
    requires ready { IsReadySet grammar.now items.now set.now }
    requires token { token < start_symbol grammar.now }
    ensures { IfOk result (λ cell. (read : List ℕ) → IsReachedBy items.now read set.now.at
        → IsTokenCell grammar.now items.now set.now.at read token cell) }
{
    let target = state_of(set.gotos[usize::from(token)]);
    let complete = set.complete.as_slice();
    let found = reductions(alloc, marks, complete, &items.tokens, token)?;
    let reduced = found.as_slice();
    let shifts = rivals(alloc, marks, items, set.at, target, reduced, token)?;
    resolve_cell(alloc, grammar, target, reduced, shifts)
}

/// Whether a set accepts the text on a token.
fn accepts_on(set: &Ready, token: u16) -> bool
    ensures { IsTrue result ↔ (IsTrue set.now.accepts × (token ≡ 0)) }
{
    if token != 0 {
        return false;
    }
    set.accepts
}

/// Whether a set does nothing on a token.
pub(crate) fn is_idle(set: &Ready, token: u16) -> bool
    requires { token < length set.now.gotos.items }
    ensures { IsTrue result ↔ DoesNothingOn set.now token }
{
    if set.gotos[usize::from(token)] != NO_STATE {
        return false;
    }
    if set.ends.contains(usize::from(token)) {
        return false;
    }
    !accepts_on(set, token)
}

/// The rules of what stays on a token with so many actions, where it is a conflict that the grammar
/// does not declare.
fn refused(
    alloc: Global,
    grammar: &FlatGrammar,
    cell: &Cell,
    actions: usize,
) -> Result<Option<Vec<Symbol>>, AllocError>
    ensures { IfOk result (IsRefusedBy grammar.now cell.now actions) }
{
    if actions < 2 {
        return Ok(None);
    }
    let rules = rules_of(alloc, grammar, cell)?;
    if is_declared(grammar.conflicts.as_slice(), rules.as_slice()) {
        return Ok(None);
    }
    Ok(Some(rules))
}

/// What a set of items has on a token.
pub(crate) fn entry_on(
    alloc: Global,
    grammar: &FlatGrammar,
    marks: &Marks,
    items: &Items,
    set: &Ready,
    token: u16,
) -> Result<Entry, AllocError>
    requires source { IsSource grammar.now marks.now items.now }
    requires ready { IsReadySet grammar.now items.now set.now }
    requires token { token < start_symbol grammar.now }
    ensures entry { IfOk result (λ e. (read : List ℕ) → IsReachedBy items.now read set.now.at
        → IsEntryOn grammar.now items.now set.now.at read token e) }
    ensures once { IfOk result (λ e. EachOnce e.actions.items) }
{
    let cell = cell_at(alloc, grammar, marks, items, set, token)?;
    let actions = actions_of(alloc, &cell, accepts_on(set, token))?;
    let refused = refused(alloc, grammar, &cell, actions.len())?;
    Ok(Entry { actions, refused })
}

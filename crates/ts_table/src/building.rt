//! The rows of all states: the sets of items go in, and the rows, and the least conflict that is
//! not declared, come out.
ghost use Rattle.std.specs.Prelude.{◌≡◌, ◌<◌, suc, length, IfOk, OnOk};
ghost use Rattle.spec_grammar.specs.Symbols.{start_symbol};
ghost use Rattle.ts_items.specs.Closing.{AddsSets};
ghost use Rattle.ts_table.specs.Rows.{IsReadySet, IsSource, HoldsList, AreListPlaces, IsLeastTo, AreRowsTo, IsStillLeast};

use crate::arrays::{Arrays, RowPlaces};
use crate::marks::Marks;
use crate::refusals::{Refusal, least};
use crate::rows::{Ready, entry_on, is_idle, prepare};
use indexmap::IndexSet;
use std::alloc::{AllocError, Global};
use ts_core::{Action, FlatGrammar, Symbol};
use ts_items::Items;

/// The rows of states, and the least conflict that is not declared, if there is one.
#[derive(Drop)]
pub(crate) struct Built {
    pub arrays: Arrays,
    pub least: Option<Refusal>,
}

/// The place of a list of actions, which is put at the end where it is new.
fn place_of_list(lists: &mut IndexSet<Vec<Action>>, list: Vec<Action>) -> Result<u32, AllocError>
    ensures grows { AddsSets lists.old.keys lists.new.keys }
    ensures place { IfOk result (λ k. HoldsList lists.new.keys k list.items) }
{
    let (place, _) = lists.insert_full(list)?;
    match u32::try_from(place) {
        Ok(place) => Ok(place),
        Err(_) => Err(AllocError),
    }
}

/// The place of a row of gotos, which is put at the end where it is new.
fn place_of_gotos(rows: &mut IndexSet<Vec<u16>>, row: Vec<u16>) -> Result<usize, AllocError>
    ensures grows { AddsSets rows.old.keys rows.new.keys }
    ensures place { IfOk result (λ k. HoldsList rows.new.keys k row.items) }
{
    let (place, _) = rows.insert_full(row)?;
    Ok(place)
}

/// The place of a row of lists, which is put at the end where it is new.
fn place_of_actions(rows: &mut IndexSet<Vec<u32>>, row: Vec<u32>) -> Result<usize, AllocError>
    ensures grows { AddsSets rows.old.keys rows.new.keys }
    ensures place { IfOk result (λ k. HoldsList rows.new.keys k row.items) }
{
    let (place, _) = rows.insert_full(row)?;
    Ok(place)
}

/// The lesser of two refusals.
fn with_entry(old: Option<Refusal>, token: u16, refused: Option<Vec<Symbol>>) -> Option<Refusal>
    ensures { IsStillLeast old token refused result }
{
    match refused {
        None => old,
        Some(rules) => Some(least(old, token, rules)),
    }
}

/// What there is on the tokens of a set.
#[derive(Debug, Drop)]
pub(crate) struct TokenRow {
    pub row: Vec<u32>,
    pub least: Option<Refusal>,
}

/// What a set has on all tokens.
fn token_row(
    alloc: Global,
    grammar: &FlatGrammar,
    marks: &Marks,
    items: &Items,
    set: &Ready,
    lists: &mut IndexSet<Vec<Action>>,
    old: Option<Refusal>,
) -> Result<TokenRow, AllocError>
    requires source { IsSource grammar.now marks.now items.now }
    requires ready { IsReadySet grammar.now items.now set.now }
    ensures grows { OnOk result (AddsSets lists.old.keys lists.new.keys) }
    ensures row { IfOk result (λ t. AreListPlaces grammar.now items.now set.now.at lists.new.keys
        (start_symbol grammar.now) t.row.items) }
    ensures least { IfOk result (λ t. IsLeastTo grammar.now items.now set.now.at 0 old
        → IsLeastTo grammar.now items.now set.now.at (start_symbol grammar.now) t.least) }
{
    let mut row = Vec::new(alloc);
    let mut least = old;
    let idle = place_of_list(lists, Vec::new(alloc))?;
    for token in 0..marks.start {
        if is_idle(set, token) {
            row.push(idle)?;
            continue;
        }
        let found = entry_on(alloc, grammar, marks, items, set, token)?;
        let place = place_of_list(lists, found.actions)?;
        row.push(place)?;
        least = with_entry(least, token, found.refused);
    }
    Ok(TokenRow { row, least })
}

/// Adds the rows of one state, and gives the least conflict up to it.
fn add_state(
    alloc: Global,
    grammar: &FlatGrammar,
    marks: &Marks,
    items: &Items,
    at: usize,
    arrays: &mut Arrays,
    old: Option<Refusal>,
) -> Result<Option<Refusal>, AllocError>
    requires source { IsSource grammar.now marks.now items.now }
    requires at { at < length items.now.states.items }
    requires rows { AreRowsTo grammar.now items.now arrays.old at }
    ensures rows { OnOk result (AreRowsTo grammar.now items.now arrays.new (suc at)) }
    ensures least { IfOk result (λ least. IsLeastTo grammar.now items.now at 0 old
        → IsLeastTo grammar.now items.now (suc at) 0 least) }
{
    let set = prepare(alloc, marks, items, at)?;
    let found = token_row(alloc, grammar, marks, items, &set, &mut arrays.lists, old)?;
    let actions = place_of_actions(&mut arrays.actions, found.row)?;
    let gotos = place_of_gotos(&mut arrays.gotos, set.gotos)?;
    arrays.states.push(RowPlaces { gotos, actions })?;
    Ok(found.least)
}

/// The rows of all states.
pub(crate) fn build(
    alloc: Global,
    grammar: &FlatGrammar,
    marks: &Marks,
    items: &Items,
) -> Result<Built, AllocError>
    requires source { IsSource grammar.now marks.now items.now }
    ensures rows { IfOk result (λ built. AreRowsTo grammar.now items.now built.arrays
        (length items.now.states.items)) }
    ensures least { IfOk result (λ built. IsLeastTo grammar.now items.now
        (length items.now.states.items) 0 built.least) }
{
    let mut arrays = Arrays {
        states: Vec::new(alloc),
        gotos: IndexSet::new(alloc),
        actions: IndexSet::new(alloc),
        lists: IndexSet::new(alloc),
    };
    let mut least = None;
    for at in 0..items.states.len() {
        least = add_state(alloc, grammar, marks, items, at, &mut arrays, least)?;
    }
    Ok(Built { arrays, least })
}

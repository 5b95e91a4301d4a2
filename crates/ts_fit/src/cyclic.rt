//! Symbols that derive themselves alone: what comes in is a grammar, and what goes out is the place
//! of the first such rule, or nothing.

ghost use Rattle.std.specs.Prelude.{◌≡◌, ℕ, ◌<◌, ◌↔◌, IfOk, IsTrue, OnOk, Some, length, slice_get};
ghost use Rattle.spec_tables.specs.Fit.{IsCyclic};
ghost use Rattle.ts_fit.specs.Misfits.{FindsFirst};
ghost use Rattle.ts_fit.specs.Searches.{Adds, LeadsAlone, LeadsTo};

use crate::leading::{add, has, led_to};
use crate::straight::is_straight;
use indexmap::IndexSet;
use std::alloc::{AllocError, Global};
use ts_core::{FlatGrammar, Production};

/// Adds the place to which a production leads, if any.
fn add_led(
    grammar: &FlatGrammar,
    found: &mut IndexSet<usize>,
    production: &Production,
) -> Result<(), AllocError>
    ensures { OnOk result (Adds (LeadsTo grammar.now production.now)
        found.old.keys found.new.keys) }
{
    match led_to(grammar, production) {
        Some(place) => add(found, place),
        None => Ok(()),
    }
}

/// Adds the places to which the rule at a place leads.
fn expand(grammar: &FlatGrammar, found: &mut IndexSet<usize>, from: usize) -> Result<(), AllocError>
    ensures { OnOk result (Adds (LeadsAlone grammar.now from) found.old.keys found.new.keys) }
{
    if from >= grammar.rules.len() {
        return Ok(());
    }
    for production in grammar.rules.get(from).productions.as_slice() {
        add_led(grammar, found, production)?;
    }
    Ok(())
}

fn place_at(found: &IndexSet<usize>, at: usize) -> usize
    requires { at < length found.now.keys }
    ensures { slice_get found.now.keys at ≡ Some result }
{
    let Some(place) = found.get_index(at) else {
        unreachable!()
    };
    *place
}

/// Whether the rule at a place derives itself alone.
fn leads_back(alloc: Global, grammar: &FlatGrammar, start: usize) -> Result<bool, AllocError>
    ensures { IfOk result (λ b. IsTrue b ↔ IsCyclic grammar.now start) }
{
    let mut found = IndexSet::new(alloc);
    expand(grammar, &mut found, start)?;
    let mut next = 0;
    while next < found.len() {
        let from = place_at(&found, next);
        expand(grammar, &mut found, from)?;
        next += 1;
    }
    Ok(has(&found, start))
}

/// The place of the first rule that derives itself alone, by a search from each rule.
fn search(alloc: Global, grammar: &FlatGrammar) -> Result<Option<usize>, AllocError>
    ensures { IfOk result (λ found. FindsFirst (IsCyclic grammar.now) found) }
{
    for place in 0..grammar.rules.len() {
        if leads_back(alloc, grammar, place)? {
            return Ok(Some(place));
        }
    }
    Ok(None)
}

/// The place of the first rule that derives itself alone, counted from 0. Its time is linear in the
/// grammar where there is none.
///
/// # Errors
///
/// `AllocError` where memory runs out.
pub fn first_cyclic(alloc: Global, grammar: &FlatGrammar) -> Result<Option<usize>, AllocError>
    ensures { IfOk result (λ found. FindsFirst (IsCyclic grammar.now) found) }
{
    if is_straight(alloc, grammar)? {
        return Ok(None);
    }
    search(alloc, grammar)
}

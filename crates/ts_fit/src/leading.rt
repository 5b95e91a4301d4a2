//! Rules that a production stands for alone: what comes in are a grammar and a production, and what
//! goes out is the place of the rule, or nothing; places are kept in sets.

ghost use Rattle.std.specs.Prelude.{◌≡◌, ◌↔◌, IsTrue, OnOk};
ghost use Rattle.std.specs.List.{Contains};
ghost use Rattle.ts_fit.specs.Searches.{Adds, IsLed};

use crate::places::rule_place;
use indexmap::IndexSet;
use std::alloc::AllocError;
use ts_core::{FlatGrammar, Production};

/// The place of the rule that a production is alone.
pub(crate) fn led_to(grammar: &FlatGrammar, production: &Production) -> Option<usize>
    ensures { IsLed grammar.now production.now result }
{
    match production.steps.as_slice() {
        [step] => rule_place(grammar, step.symbol),
        _ => None,
    }
}

/// Adds one place at the end, where it is new.
pub(crate) fn add(found: &mut IndexSet<usize>, place: usize) -> Result<(), AllocError>
    ensures { OnOk result (Adds (λ at. at ≡ place) found.old.keys found.new.keys) }
{
    found.insert(place)?;
    Ok(())
}

/// Whether a place is in the set.
pub(crate) fn has(found: &IndexSet<usize>, place: usize) -> bool
    ensures { IsTrue result ↔ Contains found.now.keys place }
{
    found.contains(&place)
}

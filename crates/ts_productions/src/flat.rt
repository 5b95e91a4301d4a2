//! Productions of the normal form: what comes in are expansions by numbers, and what goes out are
//! productions, each once.

ghost use Rattle.std.specs.Prelude.{◌≡◌, ◌++◌, [], map, IfOk, OnOk};
ghost use Rattle.ts_rules.specs.FirstSights.{AreFirstSights};
ghost use Rattle.ts_rules.specs.Productions.{alias_of, flat_step};
ghost use Rattle.ts_productions.specs.Expansions.{close};
ghost use Rattle.ts_productions.specs.Flat.{alias_in, aliased, flat};

use crate::expansion::Expansion;
use indexmap::IndexSet;
use std::alloc::{AllocError, Global};
use ts_core::{Alias, List, Production, Step, Str, Symbol};
use ts_rules::NumberedStep;

/// A copy of an alias.
fn alias_copy(alloc: Global, alias: &Alias) -> Result<Alias, AllocError>
    ensures { IfOk result (λ copy. copy ≡ alias.now) }
{
    let name = Str::from_text(alloc, alias.name.text())?;
    Ok(Alias {
        name,
        named: alias.named,
    })
}

/// The alias of a number. A number that has none stands for the empty one.
fn alias_at(alloc: Global, aliases: &[Alias], number: usize) -> Result<Alias, AllocError>
    ensures { IfOk result (λ alias. alias ≡ alias_in aliases.now number) }
{
    if number < aliases.len() {
        let alias = alias_copy(alloc, &aliases[number])?;
        return Ok(alias);
    }
    let name = Str::from_text(alloc, "")?;
    Ok(Alias { name, named: false })
}

/// The alias of a step, where it has one.
fn step_alias(
    alloc: Global,
    aliases: &[Alias],
    number: Option<usize>,
) -> Result<Option<Alias>, AllocError>
    ensures { IfOk result (λ alias. alias ≡ alias_of (aliased aliases.now) number) }
{
    match number {
        Some(number) => {
            let alias = alias_at(alloc, aliases, number)?;
            Ok(Some(alias))
        },
        None => Ok(None),
    }
}

/// A step of the normal form.
fn step_of(alloc: Global, aliases: &[Alias], step: &NumberedStep) -> Result<Step, AllocError>
    ensures { IfOk result (λ made. made ≡ flat_step (aliased aliases.now) step.now) }
{
    let alias = step_alias(alloc, aliases, step.alias)?;
    Ok(Step {
        symbol: Symbol(step.symbol),
        prec: step.prec,
        assoc: step.assoc,
        alias,
        field: step.field,
    })
}

/// Puts steps of the normal form at the end.
fn add_steps(
    alloc: Global,
    aliases: &[Alias],
    steps: &mut List<Step>,
    more: &[NumberedStep],
) -> Result<(), AllocError>
    ensures { OnOk result (steps.new ≡ steps.old
        ++ map (flat_step (aliased aliases.now)) more.now) }
{
    for step in more {
        let made = step_of(alloc, aliases, step)?;
        steps.push(made)?;
    }
    Ok(())
}

/// Puts the last step at the end, where there is one.
fn add_last(
    alloc: Global,
    aliases: &[Alias],
    steps: &mut List<Step>,
    last: Option<NumberedStep>,
) -> Result<(), AllocError>
    ensures { OnOk result (steps.new
        ≡ steps.old ++ map (flat_step (aliased aliases.now)) (close [] last)) }
{
    if let Some(step) = last {
        let made = step_of(alloc, aliases, &step)?;
        steps.push(made)?;
    }
    Ok(())
}

/// A production of the normal form.
fn production_of(
    alloc: Global,
    aliases: &[Alias],
    expansion: &Expansion,
) -> Result<Production, AllocError>
    ensures { IfOk result (λ made. made ≡ flat aliases.now expansion.now) }
{
    let mut steps = List::new(alloc);
    add_steps(alloc, aliases, &mut steps, expansion.steps.as_slice())?;
    add_last(alloc, aliases, &mut steps, expansion.last)?;
    Ok(Production {
        dynamic: expansion.dynamic,
        steps,
    })
}

/// Expansions as productions, each once.
fn first_sights(
    alloc: Global,
    aliases: &[Alias],
    expansions: &[Expansion],
) -> Result<IndexSet<Production>, AllocError>
    ensures { IfOk result (λ found. AreFirstSights (map (flat aliases.now) expansions.now)
        found.keys) }
{
    let mut found = IndexSet::new(alloc);
    for expansion in expansions {
        let made = production_of(alloc, aliases, expansion)?;
        found.insert(made)?;
    }
    Ok(found)
}

/// The productions of a set as a list.
fn listed(alloc: Global, found: IndexSet<Production>) -> Result<List<Production>, AllocError>
    ensures { IfOk result (λ productions. productions ≡ found.keys) }
{
    let productions: Vec<Production> = found.into_iter().collect(alloc)?;
    Ok(List::from_vec(productions))
}

/// Expansions as productions. Of equal ones the first stays.
pub(crate) fn distinct(
    alloc: Global,
    aliases: &[Alias],
    expansions: &[Expansion],
) -> Result<List<Production>, AllocError>
    ensures { IfOk result (λ found. AreFirstSights (map (flat aliases.now) expansions.now) found) }
{
    let found = first_sights(alloc, aliases, expansions)?;
    let productions = listed(alloc, found)?;
    Ok(productions)
}

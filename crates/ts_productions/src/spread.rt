//! Alternatives whose inlined steps are replaced: what comes in are alternatives and the expansions
//! of the inlined rules, and what goes out are expansions.

ghost use Rattle.std.specs.Prelude.{◌≡◌, ◌++◌, ◌∷◌, [], map, Some, None, option_map, All, IfOk, OnOk};
ghost use Rattle.std.specs.List.{flat_map};
ghost use Rattle.ts_rules.specs.Alternatives.{stronger};
ghost use Rattle.ts_rules.specs.Productions.{marked_by};
ghost use Rattle.ts_productions.specs.Expansions.{Expansions, Table, by_option, close, expansion, last_by, spread, spread_of, spread_all, onward};
ghost use Rattle.ts_productions.specs.Sizes.{look, IsUsable};

use crate::expansion::Expansion;
use crate::weights::{Weights, is_void, place_of};
use std::alloc::{AllocError, Global};
use ts_core::{Assoc, List, Prec};
use ts_rules::{Alternative, NumberedStep, Size};

/// The inlined rules from the symbol `first` on. Those that are too large to be used have no
/// expansions here.
#[derive(Clone, Copy)]
pub(crate) struct Inlined<'a> {
    pub(crate) first: u16,
    pub(crate) sizes: &'a [Size],
    pub(crate) full: &'a [List<Expansion>],
}

/// What has been put together: the steps of the expansion that grows, and the expansions that are
/// whole.
#[derive(Drop)]
struct Growth {
    steps: Vec<NumberedStep>,
    found: List<Expansion>,
}

/// The dynamic value of the expansion that grows, and the last step that it has so far, as long as
/// that takes the precedence and associativity of what is replaced.
#[derive(Clone, Copy)]
struct Head {
    dynamic: i32,
    last: Option<NumberedStep>,
}

/// The value of greater magnitude, the first on a tie.
fn stronger_of(first: i32, second: i32) -> i32
    ensures { result ≡ stronger first second }
{
    if first.unsigned_abs() < second.unsigned_abs() {
        second
    } else {
        first
    }
}

/// An inserted step with the replaced step's alias and field, where it has them.
fn marked(step: &NumberedStep, inner: &NumberedStep) -> NumberedStep
    ensures { result ≡ marked_by step.now inner.now }
{
    NumberedStep {
        alias: match step.alias {
            Some(alias) => Some(alias),
            None => inner.alias,
        },
        field: match step.field {
            Some(field) => Some(field),
            None => inner.field,
        },
        ..*inner
    }
}

/// The last inserted step, with the replaced step's precedence and associativity where it has none.
fn last_marked(step: &NumberedStep, inner: &NumberedStep) -> NumberedStep
    ensures { result ≡ last_by step.now inner.now }
{
    NumberedStep {
        prec: match inner.prec {
            Prec::Absent => step.prec,
            Prec::Number(_) => inner.prec,
            Prec::Name(_) => inner.prec,
        },
        assoc: match inner.assoc {
            Assoc::Absent => step.assoc,
            Assoc::Left => Assoc::Left,
            Assoc::Right => Assoc::Right,
        },
        ..marked(step, inner)
    }
}

/// The last inserted step, where there is one.
fn last_of(step: &NumberedStep, last: Option<NumberedStep>) -> Option<NumberedStep>
    ensures { result ≡ option_map (last_by step.now) last }
{
    match last {
        Some(inner) => Some(last_marked(step, &inner)),
        None => None,
    }
}

/// Before the first step of an alternative.
fn begin(alternative: &Alternative) -> Head
    ensures { result ≡ record { dynamic = alternative.now.dynamic; last = None } }
{
    Head {
        dynamic: alternative.dynamic,
        last: None,
    }
}

/// After a step that stays.
fn after_step(head: &Head, step: &NumberedStep) -> Head
    ensures { result ≡ record { dynamic = head.now.dynamic; last = Some step.now } }
{
    Head {
        dynamic: head.dynamic,
        last: Some(*step),
    }
}

/// After an expansion in place of a step.
fn after_inner(head: &Head, step: &NumberedStep, inner: &Expansion) -> Head
    ensures dynamic { result.dynamic ≡ stronger head.now.dynamic inner.now.dynamic }
    ensures last { result.last ≡ option_map (last_by step.now) inner.now.last }
{
    Head {
        dynamic: stronger_of(head.dynamic, inner.dynamic),
        last: last_of(step, inner.last),
    }
}

/// Puts the step at the end, where there is one.
fn close_steps(steps: &mut Vec<NumberedStep>, last: Option<NumberedStep>) -> Result<(), AllocError>
    ensures { OnOk result (steps.new.items ≡ close steps.old.items last) }
{
    if let Some(step) = last {
        steps.push(step)?;
    }
    Ok(())
}

/// Puts the steps at the end as they are inserted in place of a step.
fn insert(
    steps: &mut Vec<NumberedStep>,
    step: &NumberedStep,
    inner: &[NumberedStep],
) -> Result<(), AllocError>
    ensures { OnOk result (steps.new.items ≡ steps.old.items
        ++ map (marked_by step.now) inner.now) }
{
    for added in inner {
        steps.push(marked(step, added))?;
    }
    Ok(())
}

/// A copy of steps.
fn copied(alloc: Global, steps: &[NumberedStep]) -> Result<List<NumberedStep>, AllocError>
    ensures { IfOk result (λ copy. copy ≡ steps.now) }
{
    let mut copy = List::with_capacity(alloc, steps.len())?;
    for step in steps {
        copy.push(*step)?;
    }
    Ok(copy)
}

/// Puts the steps at the end of what is found, as an expansion that is whole.
fn add_whole(alloc: Global, growth: &mut Growth, head: &Head) -> Result<(), AllocError>
    ensures found { OnOk result (growth.new.found ≡ growth.old.found
        ++ expansion head.now.dynamic growth.old.steps.items head.now.last ∷ []) }
    ensures steps { OnOk result (growth.new.steps.items ≡ growth.old.steps.items) }
{
    let steps = copied(alloc, growth.steps.as_slice())?;
    growth.found.push(Expansion {
        dynamic: head.dynamic,
        steps,
        last: head.last,
    })?;
    Ok(())
}

/// Finds the expansions that begin with the steps and the head, and go on with those of `rest`.
#[cycle(spread)]
fn spread_steps(
    alloc: Global,
    inlined: &Inlined,
    growth: &mut Growth,
    head: &Head,
    rest: &[NumberedStep],
) -> Result<(), AllocError>
    ensures found { OnOk result (growth.new.found ≡ growth.old.found ++ spread (look inlined.now)
        head.now.dynamic growth.old.steps.items head.now.last rest.now) }
    ensures steps { OnOk result (growth.new.steps.items ≡ growth.old.steps.items) }
{
    match rest.split_first() {
        None => add_whole(alloc, growth, head),
        Some((step, after)) => {
            let before = growth.steps.len();
            close_steps(&mut growth.steps, head.last)?;
            spread_step(alloc, inlined, growth, head, step, after)?;
            growth.steps.truncate(before);
            Ok(())
        },
    }
}

/// Finds the expansions in which a step stays or is replaced.
#[cycle(spread)]
fn spread_step(
    alloc: Global,
    inlined: &Inlined,
    growth: &mut Growth,
    head: &Head,
    step: &NumberedStep,
    after: &[NumberedStep],
) -> Result<(), AllocError>
    ensures found { OnOk result (growth.new.found ≡ growth.old.found
        ++ by_option (look inlined.now step.now.symbol) (spread (look inlined.now)
        head.now.dynamic growth.old.steps.items (Some step.now) after.now)
        (λ (inner : Expansions). flat_map (onward (look inlined.now)
        head.now.dynamic growth.old.steps.items step.now after.now) inner)) }
    ensures steps { OnOk result (growth.new.steps.items ≡ growth.old.steps.items) }
{
    match place_of(inlined.first, inlined.full.len(), step.symbol) {
        None => spread_steps(alloc, inlined, growth, &after_step(head, step), after),
        Some(place) => {
            let inner = inlined.full[place].as_slice();
            spread_each(alloc, inlined, growth, head, step, inner, after)
        },
    }
}

/// Finds the expansions in which a step is replaced by each of `inner`.
#[cycle(spread)]
fn spread_each(
    alloc: Global,
    inlined: &Inlined,
    growth: &mut Growth,
    head: &Head,
    step: &NumberedStep,
    inner: &[Expansion],
    after: &[NumberedStep],
) -> Result<(), AllocError>
    ensures found { OnOk result (growth.new.found ≡ growth.old.found
        ++ flat_map (onward (look inlined.now)
        head.now.dynamic growth.old.steps.items step.now after.now) inner.now) }
    ensures steps { OnOk result (growth.new.steps.items ≡ growth.old.steps.items) }
{
    let before = growth.steps.len();
    for expansion in inner {
        insert(&mut growth.steps, step, expansion.steps.as_slice())?;
        let next = after_inner(head, step, expansion);
        spread_steps(alloc, inlined, growth, &next, after)?;
        growth.steps.truncate(before);
    }
    Ok(())
}

/// Finds the expansions of an alternative. Where some step has none, nothing is built.
fn spread_alternative(
    alloc: Global,
    inlined: &Inlined,
    growth: &mut Growth,
    alternative: &Alternative,
) -> Result<(), AllocError>
    requires { growth.old.steps.items ≡ [] }
    ensures found { (F : Table) → IsUsable F inlined.now alternative.now → OnOk result
        (growth.new.found ≡ growth.old.found ++ spread_of F alternative.now) }
    ensures steps { OnOk result (growth.new.steps.items ≡ []) }
{
    let rest = alternative.steps.as_slice();
    let weights = Weights {
        first: inlined.first,
        sizes: inlined.sizes,
    };
    if is_void(&weights, rest) {
        return Ok(());
    }
    spread_steps(alloc, inlined, growth, &begin(alternative), rest)?;
    Ok(())
}

/// The expansions of alternatives, one after another.
pub(crate) fn expansions_of(
    alloc: Global,
    inlined: &Inlined,
    alternatives: &[Alternative],
) -> Result<List<Expansion>, AllocError>
    ensures { (F : Table) → All (IsUsable F inlined.now) alternatives.now → IfOk result
        (λ found. found ≡ spread_all F alternatives.now) }
{
    let mut growth = Growth {
        steps: Vec::new(alloc),
        found: List::new(alloc),
    };
    for alternative in alternatives {
        spread_alternative(alloc, inlined, &mut growth, alternative)?;
    }
    let Growth { steps: _, found } = growth;
    Ok(found)
}

//! The productions of rules and repetitions: what comes in are the trees of a grammar and its
//! inlined rules, and what goes out are the productions of one rule or repetition.

ghost use Rattle.std.specs.Prelude.{◌≡◌, ◌+◌, ◌++◌, ◌∷◌, ◌<◌, Some, length, slice_get, IfOk, OnOk};
ghost use Rattle.std.specs.List.{flat_map};
ghost use Rattle.ts_core.specs.declared.rule.Rule.{Rule};
ghost use Rattle.ts_productions.specs.Grammars.{AreSourcesOf};
ghost use Rattle.ts_productions.specs.Limits.{AreFewSources, AllAreShort, AreInlined, AreInlinedRepeated, EachBecomesFew};
ghost use Rattle.ts_productions.specs.Roots.{AreOrderedSources, whole};
ghost use Rattle.ts_productions.specs.Thin.{IsThin};
ghost use Rattle.ts_rules.specs.Alternatives.{alternative, step_at};
ghost use Rattle.ts_rules.specs.Numbers.{Lists, Numbers, alts, outermost};
ghost use Rattle.ts_rules.specs.Productions.{AreProductions, AreRepeated, again, filled, unless_blank};
ghost use Rattle.ts_rules.specs.Sights.{NamedRule};

use crate::inlined::nothing_round;
use crate::prune::pruned;
use crate::rules::{InlinedRules, productions_of};
use crate::sources::Sources;
use std::alloc::{AllocError, Global};
use ts_core::{Assoc, List, Prec, Production};
use ts_rules::{Alternative, NumberedStep, Tree, alternatives};

/// The productions of the rule of a place among `sources.rules`.
///
/// # Errors
///
/// `AllocError` where memory runs out.
pub fn rule_productions(
    alloc: Global,
    sources: &Sources,
    inlined: &InlinedRules,
    place: usize,
) -> Result<List<Production>, AllocError>
    requires ordered { AreOrderedSources sources.now }
    requires inlined { AreInlined sources.now inlined.now }
    requires fits { AreFewSources sources.now × AllAreShort sources.now }
    requires place { place < length sources.now.rules.now }
    ensures { (n : Numbers) (x : Lists) (rule : NamedRule) → AreSourcesOf n x sources.now
        → slice_get x.rules place ≡ Some rule → IfOk result (AreProductions n x (alts n rule.1)) }
{
    let found = alternatives(alloc, &sources.rules[place], &nothing_round())?;
    let productions = productions_of(alloc, sources, inlined, found.as_slice())?;
    Ok(productions)
}

/// Puts an alternative at the end, unless it is empty.
fn push_filled(found: &mut List<Alternative>, alternative: Alternative) -> Result<(), AllocError>
    ensures { OnOk result (found.new ≡ found.old ++ unless_blank alternative alternative.steps) }
{
    if !alternative.steps.is_empty() {
        found.push(alternative)?;
    }
    Ok(())
}

/// The alternatives that are not empty.
fn without_blank(alloc: Global, all: List<Alternative>) -> Result<List<Alternative>, AllocError>
    ensures { IfOk result (λ found. found ≡ flat_map (λ p. unless_blank p p.steps) all) }
{
    let mut found = List::new(alloc);
    for alternative in all.into_vec() {
        push_filled(&mut found, alternative)?;
    }
    Ok(found)
}

/// The alternatives of a content that are not empty. Some that are equal to earlier ones are left
/// out.
fn filled_alternatives(alloc: Global, content: &Tree) -> Result<List<Alternative>, AllocError>
    ensures { IfOk result (IsThin (filled (whole content.now))) }
{
    let small = pruned(alloc, content)?;
    let all = alternatives(alloc, &small, &nothing_round())?;
    let found = without_blank(alloc, all)?;
    Ok(found)
}

/// A step without marks.
fn plain_step(symbol: u16) -> NumberedStep
    ensures { result ≡ step_at symbol outermost }
{
    NumberedStep {
        symbol,
        prec: Prec::Absent,
        assoc: Assoc::Absent,
        alias: None,
        field: None,
    }
}

/// The repetition itself, and then the alternative.
fn behind(alloc: Global, repetition: u16, after: &Alternative) -> Result<Alternative, AllocError>
    ensures { IfOk result (λ made. made ≡ alternative after.now.dynamic
        (step_at repetition outermost ∷ after.now.steps)) }
{
    let mut steps = List::new(alloc);
    steps.push(plain_step(repetition))?;
    for step in after.steps.as_slice() {
        steps.push(*step)?;
    }
    Ok(Alternative {
        dynamic: after.dynamic,
        steps,
    })
}

/// Each alternative behind the repetition itself.
fn repeated(
    alloc: Global,
    repetition: u16,
    once: &[Alternative],
) -> Result<List<Alternative>, AllocError>
    ensures { IfOk result (λ found. found ≡ again repetition once.now) }
{
    let mut found = List::with_capacity(alloc, once.len())?;
    for alternative in once {
        let made = behind(alloc, repetition, alternative)?;
        found.push(made)?;
    }
    Ok(found)
}

/// Puts productions at the end.
fn append(found: &mut List<Production>, more: List<Production>) -> Result<(), AllocError>
    ensures { OnOk result (found.new ≡ found.old ++ more) }
{
    for production in more.into_vec() {
        found.push(production)?;
    }
    Ok(())
}

/// The productions of a repetition, by its number and its content.
fn content_productions(
    alloc: Global,
    sources: &Sources,
    inlined: &InlinedRules,
    repetition: u16,
    content: &Tree,
) -> Result<List<Production>, AllocError>
    requires ordered { AreOrderedSources sources.now }
    requires inlined { AreInlined sources.now inlined.now }
    requires once { EachBecomesFew sources.now (filled (whole content.now)) }
    requires again { EachBecomesFew sources.now (again repetition (filled (whole content.now))) }
    ensures { IfOk result (AreInlinedRepeated sources.now repetition content.now) }
{
    let once = filled_alternatives(alloc, content)?;
    let more = repeated(alloc, repetition, once.as_slice())?;
    let mut found = productions_of(alloc, sources, inlined, once.as_slice())?;
    let rest = productions_of(alloc, sources, inlined, more.as_slice())?;
    append(&mut found, rest)?;
    Ok(found)
}

/// The number of the repetition of a place.
fn repetition_number(sources: &Sources, place: usize) -> u16
    requires ordered { AreOrderedSources sources.now }
    requires place { place < length sources.now.contents.now }
    ensures { result ≡ sources.now.first_repetition + place }
{
    sources.first_repetition + place as u16
}

/// The productions of the repetition of a place among `sources.contents`.
///
/// # Errors
///
/// `AllocError` where memory runs out.
pub fn repetition_productions(
    alloc: Global,
    sources: &Sources,
    inlined: &InlinedRules,
    place: usize,
) -> Result<List<Production>, AllocError>
    requires ordered { AreOrderedSources sources.now }
    requires inlined { AreInlined sources.now inlined.now }
    requires fits { AreFewSources sources.now × AllAreShort sources.now }
    requires place { place < length sources.now.contents.now }
    ensures { (n : Numbers) (x : Lists) (content : Rule) → AreSourcesOf n x sources.now
        → slice_get x.contents place ≡ Some content → IfOk result (AreRepeated n x content) }
{
    let number = repetition_number(sources, place);
    let found = content_productions(alloc, sources, inlined, number, &sources.contents[place])?;
    Ok(found)
}

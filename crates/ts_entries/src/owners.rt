//! The rules to which repetitions belong: what comes in are the rules of a grammar by numbers, and
//! what goes out is a symbol for the content of each repetition.

ghost use Rattle.std.specs.Prelude.{◌≡◌, ◌++◌, ◌<◌, map, length, All, IfOk, OnOk};
ghost use Rattle.ts_core.specs.declared.rule.Grammar.{Grammar as AnyGrammar};
ghost use Rattle.ts_numbering.specs.Keys.{told_tree, repeated_in};
ghost use Rattle.ts_numbering.specs.Numberings.{lists_of, numbers_of};
ghost use Rattle.ts_numbering.specs.Surveys.{IsSurvey};
ghost use Rattle.ts_rules.specs.FileGrammar.{IsFileGrammar};
ghost use Rattle.ts_rules.specs.FirstSights.{Each};
ghost use Rattle.ts_rules.specs.Numbers.{AreLists, AreNumbers, first_repetition};
ghost use Rattle.ts_rules.specs.Sights as sights;
ghost use Rattle.ts_entries.specs.Owners.{IsOwnerSymbol, IsChosenSymbol, AreOwned, content_place, places_in};

use crate::contents::repeated_at;
use crate::names::rule_symbol;
use std::alloc::{AllocError, Global};
use ts_core::{Grammar, Rule, Str, Symbol};
use ts_numbering::{Numbering, repetition_number};
use ts_rules::{Spot, sights_of};

/// The number of the first repetition.
fn first_repetition_of(numbering: &Numbering) -> usize
    ensures { result ≡ first_repetition (lists_of numbering.now) }
{
    1 + numbering.survey.tokens.len() + numbering.survey.rules.len()
}

/// The place of a content among those of the repetitions.
fn place_of_content(numbering: &Numbering, content: &Rule) -> usize
    ensures { result
        ≡ content_place (numbers_of numbering.now) (lists_of numbering.now) content.now }
{
    let number = usize::from(repetition_number(numbering, content));
    number.saturating_sub(first_repetition_of(numbering))
}

/// Puts the place of a content at the end, where there is one.
fn add_place(
    numbering: &Numbering,
    places: &mut Vec<usize>,
    content: Option<&Rule>,
) -> Result<(), AllocError>
    ensures { OnOk result (places.new.items ≡ places.old.items
        ++ map (content_place (numbers_of numbering.now) (lists_of numbering.now))
        (told_tree content.entry)) }
{
    if let Some(content) = content {
        places.push(place_of_content(numbering, content))?;
    }
    Ok(())
}

/// Puts the places of the repeated contents at the end.
fn add_places(
    numbering: &Numbering,
    places: &mut Vec<usize>,
    spots: &[Spot<'_>],
) -> Result<(), AllocError>
    ensures { OnOk result (places.new.items ≡ places.old.items
        ++ map (content_place (numbers_of numbering.now) (lists_of numbering.now))
        (repeated_in (sights.seen_trees spots.now))) }
{
    for spot in spots {
        add_place(numbering, places, repeated_at(*spot))?;
    }
    Ok(())
}

/// The places of the repeated contents of a rule.
fn places_of(alloc: Global, numbering: &Numbering, tree: &Rule) -> Result<Vec<usize>, AllocError>
    ensures { IfOk result (λ places. places.items
        ≡ places_in (numbers_of numbering.now) (lists_of numbering.now) tree.now) }
{
    let spots = sights_of(alloc, tree)?;
    let mut places = Vec::new(alloc);
    add_places(numbering, &mut places, spots.as_slice())?;
    Ok(places)
}

/// Puts an owner at places.
fn mark(owners: &mut [Symbol], places: &[usize], owner: Symbol)
    requires { All (λ k. k < length owners.old) places.now }
    ensures { AreOwned places.now owner owners.old owners.new }
{
    for place in places {
        owners[*place] = owner;
    }
}

/// The symbol of the rule to which the repetitions of a rule belong.
fn chosen_symbol(grammar: &Grammar, numbering: &Numbering, name: &Str) -> Symbol
    requires file { IsFileGrammar grammar.now }
    requires survey { IsSurvey grammar.now numbering.now.survey }
    ensures { IsChosenSymbol grammar.now (numbers_of numbering.now) name.now result }
{
    if numbering.survey.is_inlined(name) {
        rule_symbol(numbering, &grammar.rules.as_slice()[0].0)
    } else {
        rule_symbol(numbering, name)
    }
}

/// The symbol of the rule to which the repetition of each content belongs: the first rule in file
/// order in which the content stands, or the start rule where that rule is inlined.
///
/// # Errors
///
/// `AllocError` where memory runs out.
pub fn repetition_owners(
    alloc: Global,
    grammar: &Grammar,
    numbering: &Numbering,
) -> Result<Vec<Symbol>, AllocError>
    requires file { IsFileGrammar grammar.now }
    requires survey { IsSurvey grammar.now numbering.now.survey }
    requires lists { AreLists grammar.now (lists_of numbering.now) }
    requires numbers { AreNumbers grammar.now (numbers_of numbering.now) (lists_of numbering.now) }
    ensures { IfOk result (λ owners. Each (IsOwnerSymbol grammar.now (numbers_of numbering.now))
        (lists_of numbering.now).contents owners.items) }
{
    let rules = grammar.rules.as_slice();
    let mut owners = vec![in alloc; Symbol(0); numbering.survey.contents.len()]?;
    let mut left = rules.len();
    while left > 0 {
        left -= 1;
        let rule = &rules[left];
        let places = places_of(alloc, numbering, &rule.1)?;
        let owner = chosen_symbol(grammar, numbering, &rule.0);
        mark(owners.as_mut_slice(), places.as_slice(), owner);
    }
    Ok(owners)
}

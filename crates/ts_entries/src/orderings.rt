//! The conflicts and the orderings of precedences of a grammar: what comes in are its lists of
//! names, and what goes out are lists of symbols and precedence names by numbers, in which no
//! inlined rule stands.

ghost use Rattle.std.specs.Prelude.{◌≡◌, IfOk, MatchOption};
ghost use Rattle.ts_core.specs.declared.rule.Grammar.{Grammar as AnyGrammar};
ghost use Rattle.ts_numbering.specs.Numberings.{numbers_of};
ghost use Rattle.ts_numbering.specs.Surveys.{IsSurvey};
ghost use Rattle.ts_rules.specs.FirstSights.{Not, Each};
ghost use Rattle.ts_rules.specs.Normal.{AreSymbols, AreEntries, IsKeptEntry, entry};

use crate::names::rule_symbol;
use std::alloc::{AllocError, Global};
use ts_core::{Entry, Grammar, List, Ranked, Str, Symbol};
use ts_numbering::{Numbering, prec_number};

/// The symbols of the rules of a conflict.
fn conflict_symbols(
    alloc: Global,
    numbering: &Numbering,
    names: &[Str],
) -> Result<List<Symbol>, AllocError>
    ensures { (g : AnyGrammar) → IsSurvey g numbering.now.survey
        → IfOk result (AreSymbols g (numbers_of numbering.now) names.now) }
{
    let mut symbols = List::new(alloc);
    for name in names {
        if numbering.survey.is_inlined(name) {
            continue;
        }
        symbols.push(rule_symbol(numbering, name))?;
    }
    Ok(symbols)
}

/// The sets of rules whose conflicts are kept, in file order.
///
/// # Errors
///
/// `AllocError` where memory runs out.
pub fn conflict_sets(
    alloc: Global,
    grammar: &Grammar,
    numbering: &Numbering,
) -> Result<List<List<Symbol>>, AllocError>
    requires survey { IsSurvey grammar.now numbering.now.survey }
    ensures { IfOk result (Each (AreSymbols grammar.now (numbers_of numbering.now))
        grammar.now.conflicts) }
{
    let mut sets = List::with_capacity(alloc, grammar.conflicts.len())?;
    for names in grammar.conflicts.as_slice() {
        let symbols = conflict_symbols(alloc, numbering, names.as_slice())?;
        sets.push(symbols)?;
    }
    Ok(sets)
}

/// The entry of an ordering by numbers, unless it is an inlined rule.
fn kept_entry(numbering: &Numbering, ranked: &Ranked) -> Option<Entry>
    ensures { (g : AnyGrammar) → IsSurvey g numbering.now.survey → MatchOption result
        (Not (IsKeptEntry g ranked.now))
        (λ found. IsKeptEntry g ranked.now
        × (found ≡ entry (numbers_of numbering.now) ranked.now)) }
{
    match ranked {
        Ranked::Name(name) => Some(Entry::Name(prec_number(numbering, name))),
        Ranked::Rule(name) => {
            if numbering.survey.is_inlined(name) {
                None
            } else {
                Some(Entry::Rule(rule_symbol(numbering, name)))
            }
        },
    }
}

/// The entries of an ordering by numbers.
fn ordering(
    alloc: Global,
    numbering: &Numbering,
    ranked: &[Ranked],
) -> Result<List<Entry>, AllocError>
    ensures { (g : AnyGrammar) → IsSurvey g numbering.now.survey
        → IfOk result (AreEntries g (numbers_of numbering.now) ranked.now) }
{
    let mut entries = List::new(alloc);
    for one in ranked {
        match kept_entry(numbering, one) {
            Some(entry) => entries.push(entry)?,
            None => continue,
        }
    }
    Ok(entries)
}

/// The orderings of precedences, in file order.
///
/// # Errors
///
/// `AllocError` where memory runs out.
pub fn precedence_orderings(
    alloc: Global,
    grammar: &Grammar,
    numbering: &Numbering,
) -> Result<List<List<Entry>>, AllocError>
    requires survey { IsSurvey grammar.now numbering.now.survey }
    ensures { IfOk result (Each (AreEntries grammar.now (numbers_of numbering.now))
        grammar.now.precedences) }
{
    let mut orderings = List::with_capacity(alloc, grammar.precedences.len())?;
    for ranked in grammar.precedences.as_slice() {
        let entries = ordering(alloc, numbering, ranked.as_slice())?;
        orderings.push(entries)?;
    }
    Ok(orderings)
}

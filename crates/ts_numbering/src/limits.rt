//! The numbers of a grammar: what comes in is a grammar file with what its rules have, and what
//! goes out are its numbers, or why there are too many.

ghost use Rattle.std.specs.Prelude.{◌≡◌, ◌<◌, ◌↔◌, ◌⊎◌, ◌++◌, IsTrue, length, IfOk};
ghost use Rattle.std.specs.Result.{IsErrOf};
ghost use Rattle.spec_tables.specs.Fit.{most_symbols, most_names};
ghost use Rattle.ts_rules.specs.Causes as causes;
ghost use Rattle.ts_rules.specs.FileGrammar.{IsFileGrammar};
ghost use Rattle.ts_rules.specs.FirstSights.{Not, Clear, AreFirstSights};
ghost use Rattle.ts_rules.specs.Names.{told};
ghost use Rattle.ts_rules.specs.Numbers.{AreLists, AreNumbers};
ghost use Rattle.ts_rules.specs.Sights as sights;
ghost use Rattle.ts_numbering.specs.Keys.{aliases_told};
ghost use Rattle.ts_numbering.specs.Limits.{count_with_end, HasManySymbols, HasManyNames};
ghost use Rattle.ts_numbering.specs.Numberings.{lists_of, numbers_of};
ghost use Rattle.ts_numbering.specs.Surveys.{IsSurvey};

use crate::gather::aliases_of;
use crate::numbering::Numbering;
use crate::survey::Survey;
use indexmap::IndexSet;
use std::alloc::{AllocError, Global};
use thiserror::Error;
use ts_core::{Grammar, Str};
use ts_rules::{Spot, field_names, prec_names};

/// The most symbols, the end among them.
const MOST_SYMBOLS: usize = 16_384;

/// The most field names, and the most precedence names.
const MOST_NAMES: usize = 16_384;

/// Why a grammar has no numbers.
#[derive(Clone, Copy, Debug, PartialEq, Eq, Error)]
pub enum NumberFault {
    /// There are more than 16,384 symbols, the end among them.
    #[error("too many symbols")]
    Symbols,
    /// There are more than 16,384 field names, or as many precedence names.
    #[error("too many names")]
    Names,
    /// Memory runs out.
    #[error("out of memory")]
    Memory,
}

impl From<AllocError> for NumberFault {
    ghost use Rattle.std.specs.Prelude.{◌≡◌};
    ghost use Rattle.ts_numbering.specs.declared.limits.NumberFault.TheVariants.{Memory};

    ghost from_gives = { λ _ e. e ≡ Memory };

    fn from(_fault: AllocError) -> NumberFault {
        NumberFault::Memory
    }
}

/// Whether there are too many symbols, the end among them.
fn are_many_symbols(tokens: usize, rules: usize, contents: usize) -> bool
    ensures { IsTrue result ↔ (most_symbols < count_with_end tokens rules contents) }
{
    if tokens > MOST_SYMBOLS {
        return true;
    }
    if rules > MOST_SYMBOLS {
        return true;
    }
    if contents > MOST_SYMBOLS {
        return true;
    }
    1 + tokens + rules + contents > MOST_SYMBOLS
}

/// Whether the rules of a grammar have too many symbols.
fn has_many_symbols(survey: &Survey) -> bool
    ensures { IsTrue result ↔ (most_symbols < count_with_end (length survey.now.tokens.keys)
        (length survey.now.rules.entries) (length survey.now.contents.keys)) }
{
    are_many_symbols(
        survey.tokens.len(),
        survey.rules.len(),
        survey.contents.len(),
    )
}

/// Whether there are too many names of one kind.
fn are_many_names(fields: &IndexSet<&Str>, precs: &IndexSet<&Str>) -> bool
    ensures { IsTrue result
        ↔ ((most_names < length fields.now.keys) ⊎ (most_names < length precs.now.keys)) }
{
    if fields.len() > MOST_NAMES {
        return true;
    }
    precs.len() > MOST_NAMES
}

/// The names of a grammar, by first sight.
#[derive(Drop)]
struct Names<'a> {
    fields: IndexSet<&'a Str>,
    precs: IndexSet<&'a Str>,
    aliases: IndexSet<(&'a Str, bool)>,
}

/// The names of a grammar.
fn names_of<'a>(
    alloc: Global,
    grammar: &'a Grammar,
    walk: &[Spot<'a>],
) -> Result<Names<'a>, AllocError>
    requires walk { sights.seen_trees walk.now ≡ sights.walk grammar.now }
    ensures fields { IfOk result (λ names. AreFirstSights
        (sights.fields_in (sights.walk grammar.now)) (told names.fields.keys)) }
    ensures precs { IfOk result (λ names. AreFirstSights
        (sights.precs_in (sights.walk grammar.now) ++ sights.ranked_names grammar.now)
        (told names.precs.keys)) }
    ensures aliases { IfOk result (λ names. AreFirstSights
        (sights.aliases_in (sights.walk grammar.now)) (aliases_told names.aliases.keys)) }
{
    let fields = field_names(alloc, walk)?;
    let precs = prec_names(alloc, grammar, walk)?;
    let aliases = aliases_of(alloc, walk)?;
    Ok(Names {
        fields,
        precs,
        aliases,
    })
}

/// The names of a grammar, where there are neither too many symbols nor too many of them.
fn names_within<'a>(
    alloc: Global,
    grammar: &'a Grammar,
    walk: &[Spot<'a>],
    survey: &Survey<'a>,
) -> Result<Names<'a>, NumberFault>
    requires walk { sights.seen_trees walk.now ≡ sights.walk grammar.now }
    requires survey { IsSurvey grammar.now survey.now }
    ensures fields { IfOk result (λ names. AreFirstSights
        (sights.fields_in (sights.walk grammar.now)) (told names.fields.keys)) }
    ensures precs { IfOk result (λ names. AreFirstSights
        (sights.precs_in (sights.walk grammar.now) ++ sights.ranked_names grammar.now)
        (told names.precs.keys)) }
    ensures aliases { IfOk result (λ names. AreFirstSights
        (sights.aliases_in (sights.walk grammar.now)) (aliases_told names.aliases.keys)) }
    ensures symbols { IsErrOf result NumberFault.Symbols ↔ HasManySymbols grammar.now }
    ensures names { IsErrOf result NumberFault.Names
        → Not (HasManySymbols grammar.now) × HasManyNames grammar.now }
    ensures fits { IfOk result (λ _. Not (HasManySymbols grammar.now)
        × Not (HasManyNames grammar.now)) }
{
    if has_many_symbols(survey) {
        return Err(NumberFault::Symbols);
    }
    let names = names_of(alloc, grammar, walk)?;
    if are_many_names(&names.fields, &names.precs) {
        return Err(NumberFault::Names);
    }
    Ok(names)
}

/// The numbers of a grammar, from its walk and from what its rules have. Nothing is copied. They
/// are those that the normal form asks for where no rule is inlined that must not be.
///
/// # Errors
///
/// `Symbols` exactly where there are more than 16,384 symbols, the end among them, before any
/// memory is taken; else `Names` where there are more than 16,384 field names or precedence names;
/// `Memory` where memory runs out.
pub fn numbering_of<'a>(
    alloc: Global,
    grammar: &'a Grammar,
    walk: &[Spot<'a>],
    survey: Survey<'a>,
) -> Result<Numbering<'a>, NumberFault>
    requires file { IsFileGrammar grammar.now }
    requires walk { sights.seen_trees walk.now ≡ sights.walk grammar.now }
    requires survey { IsSurvey grammar.now survey }
    ensures survey { IfOk result (λ n. n.survey ≡ survey.entry) }
    ensures lists { IfOk result (λ n. AreLists grammar.now (lists_of n)) }
    ensures numbers { IfOk result (λ n. Clear (causes.IsBadInline grammar.now)
        (causes.rule_names grammar.now) → AreNumbers grammar.now (numbers_of n) (lists_of n)) }
    ensures symbols { IsErrOf result NumberFault.Symbols ↔ HasManySymbols grammar.now }
    ensures names { IsErrOf result NumberFault.Names
        → Not (HasManySymbols grammar.now) × HasManyNames grammar.now }
    ensures fits { IfOk result (λ _. Not (HasManySymbols grammar.now)
        × Not (HasManyNames grammar.now)) }
{
    let Names {
        fields,
        precs,
        aliases,
    } = names_within(alloc, grammar, walk, &survey)?;
    Ok(Numbering {
        survey,
        fields,
        precs,
        aliases,
    })
}

//! Names that are lent: what comes in are names of a grammar, and what goes out is a copy of one,
//! or the set of those that name a token.

ghost use Rattle.std.specs.Prelude.{◌≡◌, ◌↔◌, ◌⊎◌, IfOk, OnOk};
ghost use Rattle.std.specs.List.{Contains};
ghost use Rattle.ts_base.specs.Bytes.{Bytes};
ghost use Rattle.ts_core.specs.declared.rule.Grammar.{Grammar as AnyGrammar};
ghost use Rattle.ts_numbering.specs.Surveys.{IsSurvey};
ghost use Rattle.ts_rules.specs.Names.{told};
ghost use Rattle.ts_rules.specs.Numbers.{NamesSome};
ghost use Rattle.ts_tokens.specs.Names.{AreTokenNames};

use indexmap::IndexSet;
use std::alloc::{AllocError, Global};
use ts_core::{Grammar, Str};
use ts_numbering::Survey;

/// A copy of a name.
pub(crate) fn copy_of(alloc: Global, name: &Str) -> Result<Str, AllocError>
    ensures { IfOk result (λ copy. copy ≡ name.now) }
{
    Str::from_text(alloc, name.text())
}

/// Puts the name of a rule in, where the rule names a token.
fn add_named<'a>(
    names: &mut IndexSet<&'a Str>,
    survey: &Survey,
    name: &'a Str,
) -> Result<(), AllocError>
    ensures { OnOk result ((g : AnyGrammar) → IsSurvey g survey.now → (x : Bytes)
        → Contains (told names.new.keys) x
        ↔ (Contains (told names.old.keys) x ⊎ ((name.now ≡ x) × NamesSome g x))) }
{
    if survey.names_token(name) {
        names.insert(name)?;
    }
    Ok(())
}

/// The names of the rules that name a token.
pub(crate) fn token_names<'a>(
    alloc: Global,
    grammar: &'a Grammar,
    survey: &Survey,
) -> Result<IndexSet<&'a Str>, AllocError>
    requires survey { IsSurvey grammar.now survey.now }
    ensures { IfOk result (λ names. AreTokenNames grammar.now (told names.keys)) }
{
    let mut names = IndexSet::new(alloc);
    for rule in grammar.rules.as_slice() {
        add_named(&mut names, survey, &rule.0)?;
    }
    Ok(names)
}

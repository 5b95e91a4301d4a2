//! The numbers of a grammar: what comes in is a grammar with what its rules have, and what goes out
//! are its numbers, or the limit that they pass.

ghost use Rattle.std.specs.Prelude.{◌≡◌, IfOk, IfErr};
ghost use Rattle.ts_form.specs.Forms.{IsNumbering, of_numbers};
ghost use Rattle.ts_form.specs.Limits.{IsFormFault};
ghost use Rattle.ts_numbering.specs.Limits.{HasManySymbols, HasManyNames};
ghost use Rattle.ts_numbering.specs.Surveys.{IsSurvey};
ghost use Rattle.ts_rules.specs.Causes.{IsBadInline, rule_names};
ghost use Rattle.ts_rules.specs.FileGrammar.{IsFileGrammar};
ghost use Rattle.ts_rules.specs.FirstSights.{Clear, Not};
ghost use Rattle.ts_rules.specs.Sights as sights;

use crate::fault::FormFault;
use std::alloc::Global;
use ts_core::{Grammar, Limited};
use ts_numbering::{NumberFault, Numbering, Survey, numbering_of};
use ts_rules::Spot;

/// What a fault of numbers is here.
fn number_fault(fault: NumberFault) -> FormFault
    ensures { result ≡ of_numbers fault }
{
    match fault {
        NumberFault::Symbols => FormFault::Limit(Limited::Symbols),
        NumberFault::Names => FormFault::Limit(Limited::Fields),
        NumberFault::Memory => FormFault::Memory,
    }
}

/// The numbers of a grammar.
pub(crate) fn numbered<'a>(
    alloc: Global,
    grammar: &'a Grammar,
    walk: &[Spot<'a>],
    survey: Survey<'a>,
) -> Result<Numbering<'a>, FormFault>
    requires file { IsFileGrammar grammar.now }
    requires walk { sights.seen_trees walk.now ≡ sights.walk grammar.now }
    requires survey { IsSurvey grammar.now survey }
    requires inline { Clear (IsBadInline grammar.now) (rule_names grammar.now) }
    ensures numbering { IfOk result (IsNumbering grammar.now) }
    ensures fits { IfOk result (λ _. Not (HasManySymbols grammar.now)
        × Not (HasManyNames grammar.now)) }
    ensures refused { IfErr result (IsFormFault grammar.now) }
{
    match numbering_of(alloc, grammar, walk, survey) {
        Ok(numbering) => Ok(numbering),
        Err(fault) => Err(number_fault(fault)),
    }
}

//! The rules of a normal form: what comes in is a grammar with its numbers, and what goes out are
//! its rules with their productions, or the limit that these pass.

ghost use Rattle.std.specs.Prelude.{◌≡◌, IfOk, IfErr};
ghost use Rattle.ts_flat.specs.Rules.{AreFlatRules};
ghost use Rattle.ts_form.specs.Forms.{IsNumbering, of_productions};
ghost use Rattle.ts_form.specs.Limits.{HasManyProductions, HasManySteps, IsFormFault};
ghost use Rattle.ts_numbering.specs.Limits.{HasManySymbols, HasManyNames};
ghost use Rattle.ts_numbering.specs.Numberings.{lists_of, numbers_of};
ghost use Rattle.ts_rules.specs.Causes.{IsUndefined, names_used};
ghost use Rattle.ts_rules.specs.FileGrammar.{IsFileGrammar};
ghost use Rattle.ts_rules.specs.FirstSights.{Clear, Not};
ghost use Rattle.ts_tokens.specs.Inlining.{AreInlineRanks};

use crate::fault::FormFault;
use crate::laws::counts_agree;
use std::alloc::Global;
use ts_core::{FlatRule, Grammar, Limited, List};
use ts_flat::flat_rules;
use ts_numbering::Numbering;
use ts_productions::ProductionFault;

/// What a fault of productions is here.
fn production_fault(fault: ProductionFault) -> FormFault
    ensures { result ≡ of_productions fault }
{
    match fault {
        ProductionFault::Productions => FormFault::Limit(Limited::Productions),
        ProductionFault::Steps => FormFault::Limit(Limited::Steps),
        ProductionFault::Memory => FormFault::Memory,
    }
}

/// The rules of a grammar in normal form.
pub(crate) fn formed_rules(
    alloc: Global,
    grammar: &Grammar,
    numbering: &Numbering,
    ranks: &[usize],
) -> Result<List<FlatRule>, FormFault>
    requires file { IsFileGrammar grammar.now }
    requires numbering { IsNumbering grammar.now numbering.now }
    requires names { Clear (IsUndefined grammar.now) (names_used grammar.now) }
    requires ranks { AreInlineRanks grammar.now ranks.now }
    requires fits { Not (HasManySymbols grammar.now) × Not (HasManyNames grammar.now) }
    ensures rules { IfOk result (AreFlatRules grammar.now (numbers_of numbering.now)
        (lists_of numbering.now)) }
    ensures fits { IfOk result (λ _. Not (HasManyProductions grammar.now)
        × Not (HasManySteps grammar.now)) }
    ensures refused { IfErr result (IsFormFault grammar.now) }
{
    counts_agree();
    match flat_rules(alloc, grammar, numbering, ranks) {
        Ok(rules) => Ok(rules),
        Err(fault) => Err(production_fault(fault)),
    }
}

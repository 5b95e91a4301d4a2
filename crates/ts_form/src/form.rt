//! The normal form of a grammar: what comes in is a grammar with what is known of its rules, and
//! what goes out is its normal form, or the first limit that it passes.

ghost use Rattle.std.specs.Prelude.{◌≡◌, Some, IfOk, IfErr};
ghost use Rattle.ts_base.specs.Bytes.{Bytes};
ghost use Rattle.ts_core.specs.declared.limits.Limited.{Limited as AnyLimit};
ghost use Rattle.ts_core.specs.declared.rule.Grammar.{Grammar as AnyGrammar};
ghost use Rattle.ts_flat.specs.Rules.{AreFlatRules};
ghost use Rattle.ts_form.specs.Forms.{IsNumbering};
ghost use Rattle.ts_form.specs.Limits.{HasManyPositions, IsFormFault, IsWithinLimits};
ghost use Rattle.ts_form.specs.declared.fault.FormFault.{FormFault as AnyFault};
ghost use Rattle.ts_numbering.specs.Numberings.{lists_of, numbers_of};
ghost use Rattle.ts_numbering.specs.Surveys.{IsSurvey};
ghost use Rattle.ts_pattern.specs.Reads.{Reads};
ghost use Rattle.ts_rules.specs.Causes.{IsUndefined, IsBadInline, IsBadWord, names_used, rule_names};
ghost use Rattle.ts_rules.specs.FileGrammar.{IsFileGrammar};
ghost use Rattle.ts_rules.specs.FirstSights.{Clear, Not};
ghost use Rattle.ts_rules.specs.Normal.{ArePatterns, IsNormal};
ghost use Rattle.ts_rules.specs.Sights as sights;
ghost use Rattle.ts_tokens.specs.Inlining.{AreInlineRanks};
ghost use Rattle.ts_tokens.specs.Patterns.{meaning};

use crate::fault::FormFault;
use crate::laws::normal_forms_agree;
use crate::numbers::numbered;
use crate::rules::formed_rules;
use crate::tokens::{extras_of, name_list, separators_of, tokens_of};
use std::alloc::{AllocError, Global};
use ts_core::{FlatGrammar, FlatRule, Grammar, Limited, List, Str};
use ts_entries::{conflict_sets, precedence_orderings, supertype_symbols, word_symbol};
use ts_fit::has_few_positions;
use ts_numbering::{Numbering, Survey};
use ts_rules::Spot;
use ts_tokens::PatternTable;

/// The normal form that has these rules.
fn assembled(
    alloc: Global,
    grammar: &Grammar,
    numbering: &Numbering,
    patterns: &PatternTable,
    rules: List<FlatRule>,
) -> Result<FlatGrammar, AllocError>
    requires file { IsFileGrammar grammar.now }
    requires numbering { IsNumbering grammar.now numbering.now }
    requires patterns { ArePatterns Reads grammar.now (meaning patterns.now) }
    requires word { (name : Bytes) → grammar.now.word ≡ Some name
        → Not (IsBadWord grammar.now name) }
    requires rules { AreFlatRules grammar.now (numbers_of numbering.now) (lists_of numbering.now)
        rules }
    ensures { IfOk result (IsNormal Reads grammar.now) }
{
    let name = Str::from_text(alloc, grammar.name.text())?;
    let tokens = tokens_of(alloc, grammar, numbering, patterns)?;
    let separators = separators_of(alloc, grammar, numbering, patterns)?;
    let extras = extras_of(alloc, grammar, numbering)?;
    let fields = name_list(alloc, &numbering.fields)?;
    let precs = name_list(alloc, &numbering.precs)?;
    let conflicts = conflict_sets(alloc, grammar, numbering)?;
    let precedences = precedence_orderings(alloc, grammar, numbering)?;
    let supertypes = supertype_symbols(alloc, grammar, numbering)?;
    Ok(FlatGrammar {
        name,
        tokens,
        rules,
        separators,
        extras,
        word: word_symbol(grammar, numbering),
        fields,
        precs,
        conflicts,
        precedences,
        supertypes,
    })
}

/// The normal form, where its tokens and separators have few positions.
fn within_positions(form: FlatGrammar) -> Result<FlatGrammar, FormFault>
    ensures same { IfOk result (λ f. f ≡ form) }
    ensures fits { IfOk result (λ _. (g : AnyGrammar) → Clear (IsUndefined g) (names_used g)
        → IsNormal Reads g form → Not (HasManyPositions g)) }
    ensures refused { IfErr result (λ e. (g : AnyGrammar) → IsNormal Reads g form
        → (e ≡ AnyFault.Limit AnyLimit.Positions) × HasManyPositions g) }
{
    normal_forms_agree();
    if has_few_positions(&form) {
        Ok(form)
    } else {
        Err(FormFault::Limit(Limited::Positions))
    }
}

/// The normal form of a grammar, from its walk, from what its rules have, from the ranks of its
/// rules along inlining and from its patterns.
///
/// # Errors
///
/// `Limit` with the first of these limits that is passed: 16,384 symbols, the end among them;
/// 16,384 field names, and as many precedence names; 65,535 productions, counted before and after
/// inlining; 255 steps of one of them; 8,192 positions of one token, and 65,536 of all tokens and
/// separators. `Memory` may come at any time.
pub fn normal_form<'a>(
    alloc: Global,
    grammar: &'a Grammar,
    walk: &[Spot<'a>],
    survey: Survey<'a>,
    ranks: &[usize],
    patterns: &PatternTable,
) -> Result<FlatGrammar, FormFault>
    requires file { IsFileGrammar grammar.now }
    requires walk { sights.seen_trees walk.now ≡ sights.walk grammar.now }
    requires survey { IsSurvey grammar.now survey }
    requires ranks { AreInlineRanks grammar.now ranks.now }
    requires patterns { ArePatterns Reads grammar.now (meaning patterns.now) }
    requires names { Clear (IsUndefined grammar.now) (names_used grammar.now) }
    requires inline { Clear (IsBadInline grammar.now) (rule_names grammar.now) }
    requires word { (name : Bytes) → grammar.now.word ≡ Some name
        → Not (IsBadWord grammar.now name) }
    ensures normal { IfOk result (IsNormal Reads grammar.now) }
    ensures within { IfOk result (λ _. IsWithinLimits grammar.now) }
    ensures refused { IfErr result (IsFormFault grammar.now) }
{
    let numbering = numbered(alloc, grammar, walk, survey)?;
    let rules = formed_rules(alloc, grammar, &numbering, ranks)?;
    let whole = assembled(alloc, grammar, &numbering, patterns, rules)?;
    let form = within_positions(whole)?;
    Ok(form)
}

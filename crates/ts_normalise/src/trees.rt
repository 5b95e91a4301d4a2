//! What the rule trees of a grammar alone refuse: the grammar comes in, and what is known of it
//! goes out, or the first cause why it is refused.

ghost use Rattle.std.specs.Prelude.{◌≡◌, IfOk, IfErr};
ghost use Rattle.ts_core.specs.declared.rule.Grammar.{Grammar as AnyGrammar};
ghost use Rattle.ts_normalise.specs.Refusals.{Nothing, HasCause, FindsUndefined, FindsSymbolInToken, FindsBadWord, FindsBadExtra, FindsInWords, FindsInRules, FindsInTrees};
ghost use Rattle.ts_normalise.specs.Texts.{HasFitTexts};
ghost use Rattle.ts_numbering.specs.Surveys.{IsSurvey};
ghost use Rattle.ts_rules.specs.FileGrammar.{IsFileGrammar};
ghost use Rattle.ts_rules.specs.Names.{told};
ghost use Rattle.ts_rules.specs.Sights as sights;
ghost use Rattle.ts_tokens.specs.Inlining.{AreInlineRanks};
ghost use Rattle.ts_tokens.specs.Names.{AreTokenNames};

use crate::fault::NFault;
use crate::names::{copy_of, token_names};
use crate::texts::have_fit_texts;
use indexmap::IndexSet;
use std::alloc::Global;
use ts_core::{Grammar, Str};
use ts_numbering::{Survey, survey_of};
use ts_rules::{Spot, first_inside, first_undefined, rule_names, used_names, walk_of};
use ts_tokens::{bad_extra, bad_word, inline_ranks};

/// What is known of a grammar whose rule trees have no fault.
#[derive(Drop)]
pub(crate) struct Trees<'a> {
    /// All trees of the rules and the extras, in preorder.
    pub walk: Vec<Spot<'a>>,
    pub survey: Survey<'a>,
    /// A rank for each rule in file order, above those of the inlined rules to which it steps.
    pub ranks: Vec<usize>,
}

/// Refuses a name that no rule has.
fn check_names(alloc: Global, grammar: &Grammar, walk: &[Spot<'_>]) -> Result<(), NFault>
    requires walk { sights.seen_trees walk.now ≡ sights.walk grammar.now }
    ensures none { IfOk result (λ _. Nothing (FindsUndefined grammar.now)) }
    ensures refused { IfErr result (HasCause (FindsUndefined grammar.now)) }
{
    let rules = rule_names(alloc, grammar.rules.as_slice())?;
    let used = used_names(alloc, grammar, walk)?;
    match first_undefined(&rules, used.as_slice()) {
        None => Ok(()),
        Some(name) => Err(NFault::Undefined(copy_of(alloc, name)?)),
    }
}

/// Refuses a SYMBOL inside a token.
fn check_tokens(alloc: Global, walk: &[Spot<'_>]) -> Result<(), NFault>
    ensures none { IfOk result (λ _. (g : AnyGrammar) → sights.seen_trees walk.now ≡ sights.walk g
        → Nothing (FindsSymbolInToken g)) }
    ensures refused { IfErr result (λ e. (g : AnyGrammar)
        → sights.seen_trees walk.now ≡ sights.walk g → HasCause (FindsSymbolInToken g) e) }
{
    match first_inside(walk) {
        None => Ok(()),
        Some(name) => Err(NFault::SymbolInToken(copy_of(alloc, name)?)),
    }
}

/// Refuses a word that is no token.
fn check_word(alloc: Global, grammar: &Grammar, token_names: &IndexSet<&Str>) -> Result<(), NFault>
    requires names { AreTokenNames grammar.now (told token_names.now.keys) }
    ensures none { IfOk result (λ _. Nothing (FindsBadWord grammar.now)) }
    ensures refused { IfErr result (HasCause (FindsBadWord grammar.now)) }
{
    match bad_word(grammar, token_names) {
        None => Ok(()),
        Some(name) => Err(NFault::BadWord(copy_of(alloc, name)?)),
    }
}

/// Refuses a SYMBOL of an extra that is no token.
fn check_extras(
    alloc: Global,
    grammar: &Grammar,
    token_names: &IndexSet<&Str>,
) -> Result<(), NFault>
    requires names { AreTokenNames grammar.now (told token_names.now.keys) }
    ensures none { IfOk result (λ _. Nothing (FindsBadExtra grammar.now)) }
    ensures refused { IfErr result (HasCause (FindsBadExtra grammar.now)) }
{
    match bad_extra(alloc, grammar, token_names)? {
        None => Ok(()),
        Some(name) => Err(NFault::NonTerminalExtra(copy_of(alloc, name)?)),
    }
}

/// Refuses a word or an extra that is no token.
fn check_words(alloc: Global, grammar: &Grammar, token_names: &IndexSet<&Str>) -> Result<(), NFault>
    requires names { AreTokenNames grammar.now (told token_names.now.keys) }
    ensures none { IfOk result (λ _. Nothing (FindsInWords grammar.now)) }
    ensures refused { IfErr result (HasCause (FindsInWords grammar.now)) }
{
    check_word(alloc, grammar, token_names)?;
    check_extras(alloc, grammar, token_names)?;
    Ok(())
}

/// Refuses what the walk tells: a name that no rule has, and a SYMBOL inside a token. Texts that
/// are too long for a normal form count as more than memory can hold.
fn check_walk(alloc: Global, grammar: &Grammar, walk: &[Spot<'_>]) -> Result<(), NFault>
    requires walk { sights.seen_trees walk.now ≡ sights.walk grammar.now }
    ensures names { IfOk result (λ _. Nothing (FindsUndefined grammar.now)) }
    ensures tokens { IfOk result (λ _. Nothing (FindsSymbolInToken grammar.now)) }
    ensures texts { IfOk result (λ _. HasFitTexts grammar.now) }
    ensures refused { IfErr result (HasCause (FindsInTrees grammar.now)) }
{
    if !have_fit_texts(walk) {
        return Err(NFault::Memory);
    }
    check_names(alloc, grammar, walk)?;
    check_tokens(alloc, walk)?;
    Ok(())
}

/// Refuses what the tokens tell, and gives the ranks of the rules: an inlined rule that can't be
/// one, a word or an extra that is no token.
fn check_rules(alloc: Global, grammar: &Grammar, survey: &Survey) -> Result<Vec<usize>, NFault>
    requires file { IsFileGrammar grammar.now }
    requires survey { IsSurvey grammar.now survey.now }
    ensures ranks { IfOk result (λ ranks. AreInlineRanks grammar.now ranks.items) }
    ensures none { IfOk result (λ _. Nothing (FindsInRules grammar.now)) }
    ensures refused { IfErr result (HasCause (FindsInRules grammar.now)) }
{
    let names = token_names(alloc, grammar, survey)?;
    let ranks = inline_ranks(alloc, grammar, &names)?;
    check_words(alloc, grammar, &names)?;
    Ok(ranks)
}

/// What is known of a grammar whose rule trees have no fault.
///
/// # Errors
///
/// The first of these: a name that no rule has, a SYMBOL inside a token, an inlined rule that can't
/// be inlined, a word that is no token, a SYMBOL of an extra that is no token. `Memory` may come at
/// any time.
pub(crate) fn trees_of<'a>(alloc: Global, grammar: &'a Grammar) -> Result<Trees<'a>, NFault>
    requires file { IsFileGrammar grammar.now }
    ensures walk { IfOk result (λ t. sights.seen_trees t.walk.items ≡ sights.walk grammar.now) }
    ensures survey { IfOk result (λ t. IsSurvey grammar.now t.survey) }
    ensures ranks { IfOk result (λ t. AreInlineRanks grammar.now t.ranks.items) }
    ensures texts { IfOk result (λ _. HasFitTexts grammar.now) }
    ensures none { IfOk result (λ _. Nothing (FindsInTrees grammar.now)) }
    ensures refused { IfErr result (HasCause (FindsInTrees grammar.now)) }
{
    let walk = walk_of(alloc, grammar)?;
    check_walk(alloc, grammar, walk.as_slice())?;
    let survey = survey_of(alloc, grammar)?;
    let ranks = check_rules(alloc, grammar, &survey)?;
    Ok(Trees {
        walk,
        survey,
        ranks,
    })
}

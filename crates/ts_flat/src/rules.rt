//! Rules in normal form: what comes in are a grammar file, its numbers and ranks of its rules, and
//! what goes out are the rules with their productions.

ghost use Rattle.std.specs.Prelude.{◌≡◌, ◌<◌, ◌++◌, List, slice_get, length, Some, IfOk, OnOk, take};
ghost use Rattle.std.specs.Result.{IsErrOf};
ghost use Rattle.ts_core.specs.declared.flat.FlatRule.{FlatRule as AnyRule};
ghost use Rattle.ts_core.specs.declared.rule.Rule.{Rule};
ghost use Rattle.ts_numbering.specs.Keys.{aliases_told, rules_told};
ghost use Rattle.ts_numbering.specs.Numberings.{numbers_of, lists_of};
ghost use Rattle.ts_numbering.specs.Surveys.{IsSurvey};
ghost use Rattle.ts_productions.specs.Grammars.{AreSourcesOf, CountsLong, CountsMany, IsInlineOrder};
ghost use Rattle.ts_productions.specs.Limits.{AllAreShort, AreFewSources, AreInlined};
ghost use Rattle.ts_productions.specs.Roots.{AreOrderedSources};
ghost use Rattle.ts_rules.specs.Causes.{IsUndefined, names_used};
ghost use Rattle.ts_rules.specs.FileGrammar.{IsFileGrammar};
ghost use Rattle.ts_rules.specs.FirstSights.{Clear, Each, Not};
ghost use Rattle.ts_rules.specs.Names.{told};
ghost use Rattle.ts_rules.specs.Normal.{IsOwnRule, IsRepetition};
ghost use Rattle.ts_rules.specs.Numbers.{AreLists, AreNumbers, Lists};
ghost use Rattle.ts_core.specs.declared.rule.Grammar.{Grammar as AnyGrammar};
ghost use Rattle.ts_rules.specs.Sights.{NamedRule};
ghost use Rattle.ts_tokens.specs.Inlining.{AreInlineRanks};
ghost use Rattle.ts_tokens.specs.Names.{HaveSame};
ghost use Rattle.ts_entries.specs.Owners.{IsOwnerSymbol};
ghost use Rattle.ts_flat.specs.Rules.{AreFlatRules};
ghost use Rattle.ts_flat.specs.Trees.{AreTreesOf};

use crate::trees::{RuleTrees, trees_of};
use indexmap::{IndexMap, IndexSet};
use std::alloc::{AllocError, Global};
use ts_core::{FlatRule, Grammar, Kind, List, Rule, Str, Symbol};
use ts_entries::{repetition_owners, rule_symbol};
use ts_numbering::Numbering;
use ts_productions::{
    InlinedRules, ProductionFault, Sources, inline_order, inlined_rules, limits_of_sources,
    ordered_sources, repetition_productions, rule_productions,
};
use ts_tokens::{kind_of, name_set};

/// The sources of a grammar's productions.
fn sources_of<'a>(numbering: &Numbering, trees: &'a RuleTrees, order: &'a [usize]) -> Sources<'a>
    requires { AreTreesOf (numbers_of numbering.now) (lists_of numbering.now)
        (aliases_told numbering.now.aliases.keys) trees.now }
    ensures order { result.order.now ≡ order.now }
    ensures sources { (g : AnyGrammar)
        → AreNumbers g (numbers_of numbering.now) (lists_of numbering.now)
        → AreSourcesOf (numbers_of numbering.now) (lists_of numbering.now) result }
{
    let survey = &numbering.survey;
    let first_repetition = 1 + survey.tokens.len() + survey.rules.len();
    Sources {
        rules: trees.rules.as_slice(),
        contents: trees.contents.as_slice(),
        first_repetition: first_repetition as u16,
        inlined: trees.inlined.as_slice(),
        first_inlined: (first_repetition + survey.contents.len()) as u16,
        order,
        aliases: trees.aliases.as_slice(),
    }
}

/// The places of the inlined rules, each after those of the inlined rules to which it steps.
fn order_of(alloc: Global, grammar: &Grammar, ranks: &[usize]) -> Result<Vec<usize>, AllocError>
    requires { AreInlineRanks grammar.now ranks.now }
    ensures { (x : Lists) → AreLists grammar.now x
        → IfOk result (λ order. IsInlineOrder grammar.now x order.items) }
{
    let inline = name_set(alloc, grammar.inline.as_slice())?;
    inline_order(alloc, grammar, &inline, ranks)
}

/// The name of the rule of a place.
fn name_at<'a>(rules: &IndexMap<&'a Str, &'a Rule>, at: usize) -> &'a Str
    requires { at < length rules.now.entries }
    ensures { (rule : NamedRule) → slice_get (rules_told rules.now.entries) at ≡ Some rule
        → rule.0 ≡ result.now }
{
    let Some((name, _)) = rules.get_index(at) else {
        unreachable!()
    };
    *name
}

/// A rule of the file.
fn own_rule(
    alloc: Global,
    numbering: &Numbering,
    supertypes: &IndexSet<&Str>,
    sources: &Sources,
    inlined: &InlinedRules,
    at: usize,
) -> Result<FlatRule, AllocError>
    requires ordered { AreOrderedSources sources.now }
    requires inlined { AreInlined sources.now inlined.now }
    requires fits { AreFewSources sources.now × AllAreShort sources.now }
    requires sources { AreSourcesOf (numbers_of numbering.now) (lists_of numbering.now)
        sources.now }
    requires place { at < length numbering.now.survey.rules.entries }
    ensures { (g : AnyGrammar) (rule : NamedRule) → HaveSame (told supertypes.now.keys) g.supertypes
        → slice_get (lists_of numbering.now).rules at ≡ Some rule
        → IfOk result (IsOwnRule g (numbers_of numbering.now) (lists_of numbering.now) rule) }
{
    let name = name_at(&numbering.survey.rules, at);
    let productions = rule_productions(alloc, sources, inlined, at)?;
    let copy = Str::from_text(alloc, name.text())?;
    Ok(FlatRule {
        name: copy,
        kind: kind_of(supertypes, name),
        owner: rule_symbol(numbering, name),
        productions,
    })
}

/// The rules of the file that have symbols.
fn own_rules(
    alloc: Global,
    grammar: &Grammar,
    numbering: &Numbering,
    sources: &Sources,
    inlined: &InlinedRules,
) -> Result<List<FlatRule>, AllocError>
    requires ordered { AreOrderedSources sources.now }
    requires inlined { AreInlined sources.now inlined.now }
    requires fits { AreFewSources sources.now × AllAreShort sources.now }
    requires sources { AreSourcesOf (numbers_of numbering.now) (lists_of numbering.now)
        sources.now }
    ensures { IfOk result (Each (IsOwnRule grammar.now (numbers_of numbering.now)
        (lists_of numbering.now)) (lists_of numbering.now).rules) }
{
    let supertypes = name_set(alloc, grammar.supertypes.as_slice())?;
    let mut rules = List::new(alloc);
    let mut at = 0;
    while at < numbering.survey.rules.len() {
        let rule = own_rule(alloc, numbering, &supertypes, sources, inlined, at)?;
        rules.push(rule)?;
        at += 1;
    }
    Ok(rules)
}

/// A repetition.
fn repetition(
    alloc: Global,
    numbering: &Numbering,
    sources: &Sources,
    inlined: &InlinedRules,
    owner: Symbol,
    at: usize,
) -> Result<FlatRule, AllocError>
    requires ordered { AreOrderedSources sources.now }
    requires inlined { AreInlined sources.now inlined.now }
    requires fits { AreFewSources sources.now × AllAreShort sources.now }
    requires sources { AreSourcesOf (numbers_of numbering.now) (lists_of numbering.now)
        sources.now }
    requires place { at < length (lists_of numbering.now).contents }
    ensures { (g : AnyGrammar) (content : Rule)
        → slice_get (lists_of numbering.now).contents at ≡ Some content
        → IsOwnerSymbol g (numbers_of numbering.now) content owner
        → IfOk result (IsRepetition g (numbers_of numbering.now) (lists_of numbering.now) content) }
{
    let productions = repetition_productions(alloc, sources, inlined, at)?;
    let name = Str::from_text(alloc, "")?;
    Ok(FlatRule {
        name,
        kind: Kind::Hidden,
        owner,
        productions,
    })
}

/// The owner of the repetition of a place.
fn owner_at(owners: &[Symbol], at: usize) -> Symbol
    requires { at < length owners.now }
    ensures { slice_get owners.now at ≡ Some result }
{
    owners[at]
}

/// The repetitions, in symbol order.
fn repetitions(
    alloc: Global,
    numbering: &Numbering,
    sources: &Sources,
    inlined: &InlinedRules,
    owners: &[Symbol],
) -> Result<List<FlatRule>, AllocError>
    requires ordered { AreOrderedSources sources.now }
    requires inlined { AreInlined sources.now inlined.now }
    requires fits { AreFewSources sources.now × AllAreShort sources.now }
    requires sources { AreSourcesOf (numbers_of numbering.now) (lists_of numbering.now)
        sources.now }
    requires owners { length owners.now ≡ length (lists_of numbering.now).contents }
    ensures { (g : AnyGrammar) → Each (IsOwnerSymbol g (numbers_of numbering.now))
        (lists_of numbering.now).contents owners.now
        → IfOk result (Each (IsRepetition g (numbers_of numbering.now) (lists_of numbering.now))
        (lists_of numbering.now).contents) }
{
    let mut rules = List::new(alloc);
    let mut at = 0;
    while at < owners.len() {
        let owner = owner_at(owners, at);
        let rule = repetition(alloc, numbering, sources, inlined, owner, at)?;
        rules.push(rule)?;
        at += 1;
    }
    Ok(rules)
}

/// Puts rules at the end.
fn append(rules: &mut List<FlatRule>, more: List<FlatRule>) -> Result<(), AllocError>
    ensures { OnOk result (rules.new ≡ rules.old ++ more) }
{
    for rule in more.into_vec() {
        rules.push(rule)?;
    }
    Ok(())
}

/// The rules of a grammar with their productions, by its sources.
fn rules_by(
    alloc: Global,
    grammar: &Grammar,
    numbering: &Numbering,
    sources: &Sources,
    inlined: &InlinedRules,
) -> Result<List<FlatRule>, AllocError>
    requires file { IsFileGrammar grammar.now }
    requires survey { IsSurvey grammar.now numbering.now.survey }
    requires lists { AreLists grammar.now (lists_of numbering.now) }
    requires numbers { AreNumbers grammar.now (numbers_of numbering.now) (lists_of numbering.now) }
    requires ordered { AreOrderedSources sources.now }
    requires inlined { AreInlined sources.now inlined.now }
    requires fits { AreFewSources sources.now × AllAreShort sources.now }
    requires sources { AreSourcesOf (numbers_of numbering.now) (lists_of numbering.now)
        sources.now }
    ensures { IfOk result (AreFlatRules grammar.now (numbers_of numbering.now)
        (lists_of numbering.now)) }
{
    let owners = repetition_owners(alloc, grammar, numbering)?;
    let mut rules = own_rules(alloc, grammar, numbering, sources, inlined)?;
    let more = repetitions(alloc, numbering, sources, inlined, owners.as_slice())?;
    append(&mut rules, more)?;
    Ok(rules)
}

/// The rules of a grammar in normal form: those of the file that neither name a token nor are
/// inlined, and then one for each repetition, each with its productions. `ranks` has one for each
/// rule of the file, above those of the inlined rules to which it steps.
///
/// # Errors
///
/// `Productions` exactly where there are more than 65,535 productions before or after inlining;
/// else `Steps` exactly where one has more than 255 steps; both before any is built. `Memory` where
/// memory runs out.
pub fn flat_rules(
    alloc: Global,
    grammar: &Grammar,
    numbering: &Numbering,
    ranks: &[usize],
) -> Result<List<FlatRule>, ProductionFault>
    requires file { IsFileGrammar grammar.now }
    requires survey { IsSurvey grammar.now numbering.now.survey }
    requires lists { AreLists grammar.now (lists_of numbering.now) }
    requires numbers { AreNumbers grammar.now (numbers_of numbering.now) (lists_of numbering.now) }
    requires defined { Clear (IsUndefined grammar.now) (names_used grammar.now) }
    requires ranks { AreInlineRanks grammar.now ranks.now }
    ensures rules { IfOk result (AreFlatRules grammar.now (numbers_of numbering.now)
        (lists_of numbering.now)) }
    ensures many { IsErrOf result ProductionFault.Productions
        → CountsMany (numbers_of numbering.now) (lists_of numbering.now) }
    ensures long { IsErrOf result ProductionFault.Steps
        → Not (CountsMany (numbers_of numbering.now) (lists_of numbering.now))
        × CountsLong (numbers_of numbering.now) (lists_of numbering.now) }
    ensures fits { IfOk result
        (λ _. Not (CountsMany (numbers_of numbering.now) (lists_of numbering.now))
        × Not (CountsLong (numbers_of numbering.now) (lists_of numbering.now))) }
{
    ordered_sources();
    limits_of_sources();
    let trees = trees_of(alloc, numbering)?;
    let order = order_of(alloc, grammar, ranks)?;
    let sources = sources_of(numbering, &trees, order.as_slice());
    let inlined = inlined_rules(alloc, &sources)?;
    let rules = rules_by(alloc, grammar, numbering, &sources, &inlined)?;
    Ok(rules)
}

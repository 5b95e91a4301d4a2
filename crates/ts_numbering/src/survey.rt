//! What has a number in the rules of a grammar: what comes in is a grammar file, and what goes out
//! are its tokens and repeated contents, and its rules, sorted into those that are inlined, those
//! that name a token, and the others.

ghost use Rattle.std.specs.Prelude.{◌≡◌, ◌↔◌, ◌<◌, true, IsTrue, IfOk, OnOk};
ghost use Rattle.std.specs.List.{Contains};
ghost use Rattle.ts_core.specs.declared.rule.Grammar.{Grammar as AnyGrammar};
ghost use Rattle.ts_rules.specs.FileGrammar.{IsFileGrammar};
ghost use Rattle.ts_rules.specs.FirstSights.{Not, AreFirstSights, Picks};
ghost use Rattle.ts_rules.specs.Names.{told};
ghost use Rattle.ts_rules.specs.Numbers.{HasSymbol, IsInlined, NamesSome};
ghost use Rattle.ts_rules.specs.Sights as sights;
ghost use Rattle.ts_numbering.specs.Keys.{trees, told_tree, rules_told, AreSeenTokens};
ghost use Rattle.ts_numbering.specs.Surveys.{IsAdded, IsInlinedRule, NamesItsToken, IsSurvey, tree_named, listed_tree};

use crate::gather::{Tokens, first_sights, gather, is_token, tokens_of};
use indexmap::{IndexMap, IndexSet};
use std::alloc::{AllocError, Global};
use ts_core::{Grammar, Rule, Str};
use ts_rules::is_among;

/// What has a number in the rules of a grammar. Rules are kept by name, in file order.
#[derive(Drop)]
pub struct Survey<'a> {
    /// The tokens by first sight.
    pub tokens: IndexSet<&'a Rule>,
    /// The contents of REPEAT and REPEAT1 that have a non-empty alternative, by first sight.
    pub contents: IndexSet<&'a Rule>,
    /// The rules that neither name a token nor are inlined.
    pub rules: IndexMap<&'a Str, &'a Rule>,
    /// The rules that are inlined.
    pub inlined: IndexMap<&'a Str, &'a Rule>,
    /// The rules that name a token, each with that token.
    pub named: IndexMap<&'a Str, &'a Rule>,
}

impl<'a> Survey<'a> {
    /// Whether a rule is inlined.
    pub fn is_inlined(&self, name: &Str) -> bool
        ensures { (g : AnyGrammar) → IsSurvey g self.now → IsTrue result ↔ IsInlined g name.now }
    {
        self.inlined.contains_key(&name)
    }

    /// Whether a rule names a token.
    pub fn names_token(&self, name: &Str) -> bool
        ensures { (g : AnyGrammar) → IsSurvey g self.now → IsTrue result ↔ NamesSome g name.now }
    {
        self.named.contains_key(&name)
    }

    /// The token that a rule names.
    pub(crate) fn named_token(&self, name: &Str) -> Option<&'a Rule>
        ensures { told_tree result
            ≡ listed_tree (tree_named (rules_told self.now.named.entries) name.now) }
    {
        match self.named.get(&name) {
            Some(tree) => Some(*tree),
            None => None,
        }
    }
}

/// The rules of a grammar, sorted.
#[derive(Drop)]
struct Sorted<'a> {
    rules: IndexMap<&'a Str, &'a Rule>,
    inlined: IndexMap<&'a Str, &'a Rule>,
    named: IndexMap<&'a Str, &'a Rule>,
}

/// Puts a rule at the end, where it is wanted.
fn put<'a>(
    rules: &mut IndexMap<&'a Str, &'a Rule>,
    rule: &'a (Str, Rule),
    wanted: bool,
) -> Result<(), AllocError>
    ensures { OnOk result (IsAdded (rules_told rules.old.entries) rule.now wanted
        (rules_told rules.new.entries)) }
{
    if wanted {
        rules.insert(&rule.0, &rule.1)?;
    }
    Ok(())
}

/// Names by first sight.
fn name_set<'a>(alloc: Global, names: &'a [Str]) -> Result<IndexSet<&'a Str>, AllocError>
    ensures { IfOk result (λ found. AreFirstSights names.now (told found.keys)) }
{
    let mut found = IndexSet::new(alloc);
    for name in names {
        found.insert(name)?;
    }
    Ok(found)
}

/// Whether a token stands more than once in the rules.
fn stands_again(tokens: &Tokens, tree: &Rule) -> bool
    ensures { IsTrue result ↔ Contains (trees tokens.now.again.keys) tree.now }
{
    tokens.again.contains(&tree)
}

/// Whether a rule's tree is a token that stands once in the rules, and the rule isn't the first.
fn is_named(tokens: &Tokens, tree: &Rule, place: usize) -> bool
    ensures { IsTrue result ↔ ((0 < place) × (sights.is_token tree.now ≡ true)
        × Not (Contains (trees tokens.now.again.keys) tree.now)) }
{
    place > 0 && is_token(tree) && !stands_again(tokens, tree)
}

/// Which lists a rule belongs to.
#[derive(Clone, Copy)]
struct Marks {
    own: bool,
    inlined: bool,
    named: bool,
}

/// Which lists the rule at a place belongs to.
fn marks_of(tokens: &Tokens, inline: &IndexSet<&Str>, rule: &(Str, Rule), place: usize) -> Marks
    ensures inlined { IsTrue result.inlined ↔ Contains (told inline.now.keys) rule.now.0 }
    ensures named { IsTrue result.named ↔ ((0 < place) × (sights.is_token rule.now.1 ≡ true)
        × Not (Contains (trees tokens.now.again.keys) rule.now.1)) }
    ensures own { IsTrue result.own ↔ (Not (IsTrue result.named) × Not (IsTrue result.inlined)) }
{
    let inlined = is_among(inline, &rule.0);
    let named = is_named(tokens, &rule.1, place);
    Marks {
        own: !named && !inlined,
        inlined,
        named,
    }
}

/// Puts a rule into the lists that it belongs to.
fn add_rule<'a>(
    sorted: &mut Sorted<'a>,
    rule: &'a (Str, Rule),
    marks: Marks,
) -> Result<(), AllocError>
    ensures rules { OnOk result (IsAdded (rules_told sorted.old.rules.entries) rule.now marks.own
        (rules_told sorted.new.rules.entries)) }
    ensures inlined { OnOk result (IsAdded (rules_told sorted.old.inlined.entries) rule.now
        marks.inlined (rules_told sorted.new.inlined.entries)) }
    ensures named { OnOk result (IsAdded (rules_told sorted.old.named.entries) rule.now marks.named
        (rules_told sorted.new.named.entries)) }
{
    put(&mut sorted.rules, rule, marks.own)?;
    put(&mut sorted.inlined, rule, marks.inlined)?;
    put(&mut sorted.named, rule, marks.named)?;
    Ok(())
}

/// Sorts the rules of a grammar.
fn sort<'a>(
    alloc: Global,
    grammar: &'a Grammar,
    tokens: &Tokens<'a>,
) -> Result<Sorted<'a>, AllocError>
    requires file { IsFileGrammar grammar.now }
    requires tokens { AreSeenTokens (sights.tokens_in (sights.rule_sights grammar.now))
        (trees tokens.now.first.keys) (trees tokens.now.again.keys) }
    ensures rules { IfOk result (λ found. Picks (HasSymbol grammar.now) grammar.now.rules
        (rules_told found.rules.entries)) }
    ensures inlined { IfOk result (λ found. Picks (IsInlinedRule grammar.now) grammar.now.rules
        (rules_told found.inlined.entries)) }
    ensures named { IfOk result (λ found. Picks (NamesItsToken grammar.now) grammar.now.rules
        (rules_told found.named.entries)) }
{
    let inline = name_set(alloc, grammar.inline.as_slice())?;
    let all = grammar.rules.as_slice();
    let mut sorted = Sorted {
        rules: IndexMap::new(alloc),
        inlined: IndexMap::new(alloc),
        named: IndexMap::new(alloc),
    };
    for place in 0..all.len() {
        let rule = &all[place];
        let marks = marks_of(tokens, &inline, rule, place);
        add_rule(&mut sorted, rule, marks)?;
    }
    Ok(sorted)
}

/// What has a number in the rules of a grammar. A rule that is inlined and also names a token is in
/// both lists.
///
/// # Errors
///
/// `AllocError` where memory runs out.
pub fn survey_of<'a>(alloc: Global, grammar: &'a Grammar) -> Result<Survey<'a>, AllocError>
    requires file { IsFileGrammar grammar.now }
    ensures { IfOk result (IsSurvey grammar.now) }
{
    let gathered = gather(alloc, grammar.rules.as_slice())?;
    let tokens = tokens_of(alloc, gathered.tokens.as_slice())?;
    let contents = first_sights(alloc, gathered.contents.as_slice())?;
    let sorted = sort(alloc, grammar, &tokens)?;
    let Tokens { first, again: _ } = tokens;
    let Sorted {
        rules,
        inlined,
        named,
    } = sorted;
    Ok(Survey {
        tokens: first,
        contents,
        rules,
        inlined,
        named,
    })
}

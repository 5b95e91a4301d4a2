//! Names of tokens: what comes in is a numbering, and what goes out are its tokens, each with the
//! rule that names it, and the token that the word names.

ghost use Rattle.std.specs.Prelude.{◌≡◌, ◌<◌, ◌-◌, Some, IfOk, length, slice_get, All};
ghost use Rattle.ts_base.specs.Bytes.{Bytes};
ghost use Rattle.ts_core.specs.declared.rule.Grammar.{Grammar as AnyGrammar};
ghost use Rattle.ts_form.specs.Forms.{AreNamesOf, IsNothing, IsNumbering, names_in};
ghost use Rattle.ts_numbering.specs.Keys.{rules_told, trees};
ghost use Rattle.ts_numbering.specs.Numberings.{lists_of, numbers_of};
ghost use Rattle.ts_rules.specs.Causes.{IsBadWord};
ghost use Rattle.ts_rules.specs.FirstSights.{Not};
ghost use Rattle.ts_rules.specs.Numbers.{NamesSome, NamesToken};
ghost use Rattle.ts_rules.specs.Sights.{NamedRule};
ghost use Rattle.ts_tokens.specs.Definitions.{IsNaming, IsWordTree, trees_of};

use indexmap::IndexMap;
use std::alloc::{AllocError, Global};
use ts_core::{Grammar, Rule, Str};
use ts_numbering::{Numbering, rule_number, token_number};
use ts_tokens::NamedToken;

/// A rule that names a token.
#[derive(Clone, Copy)]
struct NamingRule<'a> {
    name: &'a Str,
    tree: &'a Rule,
}

/// The rule of a place.
fn rule_at<'a>(rules: &IndexMap<&'a Str, &'a Rule>, at: usize) -> NamingRule<'a>
    requires { at < length rules.now.entries }
    ensures { (rule : NamedRule) → slice_get (rules_told rules.now.entries) at ≡ Some rule
        → rule ≡ (result.name.now, result.tree.now) }
{
    let Some((name, tree)) = rules.get_index(at) else {
        unreachable!()
    };
    NamingRule {
        name: *name,
        tree: *tree,
    }
}

/// The place of a token, by its number.
fn place_of(numbering: &Numbering, tree: &Rule) -> usize
    ensures { result ≡ (numbers_of numbering.now).token tree.now - 1 }
{
    usize::from(token_number(numbering, tree)).saturating_sub(1)
}

/// As many places without a name.
fn no_names<'a>(alloc: Global, count: usize) -> Result<Vec<Option<&'a Str>>, AllocError>
    ensures count { IfOk result (λ names. length names.items ≡ count) }
    ensures none { IfOk result (λ names. All IsNothing names.items) }
{
    let mut names = Vec::new(alloc);
    for _ in 0..count {
        names.push(None)?;
    }
    Ok(names)
}

/// The names of the rules that name tokens, each at the place of its token.
fn names_by_token<'a>(
    alloc: Global,
    numbering: &Numbering<'a>,
) -> Result<Vec<Option<&'a Str>>, AllocError>
    requires { (g : AnyGrammar) × IsNumbering g numbering.now }
    ensures { IfOk result (λ names. AreNamesOf (rules_told numbering.now.survey.named.entries)
        (lists_of numbering.now).tokens names.items) }
{
    let mut names = no_names(alloc, numbering.survey.tokens.len())?;
    let mut at = 0;
    while at < numbering.survey.named.len() {
        let rule = rule_at(&numbering.survey.named, at);
        names[place_of(numbering, rule.tree)] = Some(rule.name);
        at += 1;
    }
    Ok(names)
}

/// The tokens with their names.
fn with_names<'a>(
    alloc: Global,
    tokens: &[&'a Rule],
    names: &[Option<&'a Str>],
) -> Result<Vec<NamedToken<'a>>, AllocError>
    requires { length names.now ≡ length tokens.now }
    ensures trees { IfOk result (λ found. trees_of found.items ≡ trees tokens.now) }
    ensures names { IfOk result (λ found. names_in found.items ≡ names.now) }
{
    let mut found = Vec::new(alloc);
    let mut at = 0;
    while at < tokens.len() {
        found.push(NamedToken {
            tree: tokens[at],
            name: names[at],
        })?;
        at += 1;
    }
    Ok(found)
}

/// The tokens of a grammar, each with the name of the rule that names it, if there is one.
pub(crate) fn named_tokens<'a>(
    alloc: Global,
    grammar: &'a Grammar,
    numbering: &Numbering<'a>,
) -> Result<Vec<NamedToken<'a>>, AllocError>
    requires { IsNumbering grammar.now numbering.now }
    ensures trees { IfOk result (λ found. trees_of found.items ≡ (lists_of numbering.now).tokens) }
    ensures names { IfOk result (λ found. All (IsNaming grammar.now) found.items) }
{
    let names = names_by_token(alloc, numbering)?;
    let found = with_names(alloc, numbering.survey.tokens.as_slice(), names.as_slice())?;
    Ok(found)
}

/// The token that a rule names.
fn token_named<'a>(grammar: &'a Grammar, numbering: &Numbering<'a>, name: &Str) -> &'a Rule
    requires numbering { IsNumbering grammar.now numbering.now }
    requires names { NamesSome grammar.now name.now }
    ensures { NamesToken grammar.now name.now result.now }
{
    let number = usize::from(rule_number(numbering, name));
    numbering.survey.tokens.as_slice()[number - 1]
}

/// The token that the word of a grammar names, if it has one.
pub(crate) fn word_token<'a>(grammar: &'a Grammar, numbering: &Numbering<'a>) -> Option<&'a Rule>
    requires numbering { IsNumbering grammar.now numbering.now }
    requires word { (name : Bytes) → grammar.now.word ≡ Some name
        → Not (IsBadWord grammar.now name) }
    ensures { IsWordTree grammar.now result }
{
    match &grammar.word {
        None => None,
        Some(name) => {
            if numbering.survey.names_token(name) {
                Some(token_named(grammar, numbering, name))
            } else {
                unreachable!()
            }
        },
    }
}

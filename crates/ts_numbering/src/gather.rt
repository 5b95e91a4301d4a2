//! What stands in the rules of a grammar: what comes in are rules or a walk, and what goes out are
//! the tokens, the repeated contents and the aliases in them, in preorder or by first sight.

ghost use Rattle.std.specs.Prelude.{◌≡◌, ◌++◌, ◌∷◌, [], List as Values, IfOk, OnOk};
ghost use Rattle.ts_core.specs.declared.rule.Rule.{Rule};
ghost use Rattle.ts_core.specs.declared.rule.Rule.TheViews.{out-Rule};
ghost use Rattle.ts_rules.specs.FirstSights.{AreFirstSights};
ghost use Rattle.ts_rules.specs.Sights as sights;
ghost use Rattle.ts_numbering.specs.Keys as keys;
ghost use Rattle.ts_numbering.specs.Keys.{trees, told_tree, aliases_told, told_alias, repeated_in, AreSeenTokens};

use crate::shape::shape_of;
use indexmap::IndexSet;
use std::alloc::{AllocError, Global};
use ts_core::{Rule, Str};
use ts_rules::{Spot, sights_of};

/// Whether a tree is a STRING, PATTERN, TOKEN or IMMEDIATE_TOKEN.
pub(crate) fn is_token(tree: &Rule) -> bool
    ensures { result ≡ sights.is_token tree.now }
{
    match tree {
        Rule::Literal(_) => true,
        Rule::Pattern {
            value: _,
            ignore_case: _,
        } => true,
        Rule::Token(_) => true,
        Rule::ImmediateToken(_) => true,
        Rule::Blank => false,
        Rule::Symbol(_) => false,
        Rule::Seq(_) => false,
        Rule::Choice(_) => false,
        Rule::Repeat(_) => false,
        Rule::Repeat1(_) => false,
        Rule::Field {
            name: _,
            content: _,
        } => false,
        Rule::Alias {
            content: _,
            named: _,
            value: _,
        } => false,
        Rule::Prec {
            value: _,
            content: _,
        } => false,
        Rule::PrecLeft {
            value: _,
            content: _,
        } => false,
        Rule::PrecRight {
            value: _,
            content: _,
        } => false,
        Rule::PrecDynamic {
            value: _,
            content: _,
        } => false,
    }
}

/// The tree, where it is a token that stands in no other token.
fn token_at<'a>(spot: Spot<'a>) -> Option<&'a Rule>
    ensures { told_tree result ≡ sights.token_at spot.entry.tree.now spot.entry.inside }
{
    if spot.inside {
        None
    } else if is_token(spot.tree) {
        Some(spot.tree)
    } else {
        None
    }
}

/// The content of a REPEAT or REPEAT1.
fn content_of<'a>(tree: &'a Rule) -> Option<&'a Rule>
    ensures { told_tree result ≡ sights.content_layer (out-Rule tree.now) }
{
    match tree {
        Rule::Repeat(content) => Some(content.get()),
        Rule::Repeat1(content) => Some(content.get()),
        Rule::Blank => None,
        Rule::Literal(_) => None,
        Rule::Pattern {
            value: _,
            ignore_case: _,
        } => None,
        Rule::Symbol(_) => None,
        Rule::Seq(_) => None,
        Rule::Choice(_) => None,
        Rule::Token(_) => None,
        Rule::ImmediateToken(_) => None,
        Rule::Field {
            name: _,
            content: _,
        } => None,
        Rule::Alias {
            content: _,
            named: _,
            value: _,
        } => None,
        Rule::Prec {
            value: _,
            content: _,
        } => None,
        Rule::PrecLeft {
            value: _,
            content: _,
        } => None,
        Rule::PrecRight {
            value: _,
            content: _,
        } => None,
        Rule::PrecDynamic {
            value: _,
            content: _,
        } => None,
    }
}

/// Whether a content has an alternative with steps.
fn is_repeated(content: &Rule) -> bool
    ensures { result ≡ keys.is_repeated content.now }
{
    shape_of(content).filled
}

/// The content of a REPEAT or REPEAT1 outside tokens, where it is repeated.
fn repeated_at<'a>(spot: Spot<'a>) -> Option<&'a Rule>
    ensures { told_tree result ≡ keys.repeated_at spot.entry.tree.now spot.entry.inside }
{
    if spot.inside {
        return None;
    }
    match content_of(spot.tree) {
        Some(content) => {
            if is_repeated(content) {
                Some(content)
            } else {
                None
            }
        },
        None => None,
    }
}

/// Puts a tree at the end, where there is one.
fn add_tree<'a>(found: &mut Vec<&'a Rule>, tree: Option<&'a Rule>) -> Result<(), AllocError>
    ensures { OnOk result (trees found.new.items ≡ trees found.old.items ++ told_tree tree.entry) }
{
    if let Some(tree) = tree {
        found.push(tree)?;
    }
    Ok(())
}

/// Puts the tokens at the end.
fn add_tokens<'a>(found: &mut Vec<&'a Rule>, spots: &[Spot<'a>]) -> Result<(), AllocError>
    ensures { OnOk result (trees found.new.items
        ≡ trees found.old.items ++ sights.tokens_in (sights.seen_trees spots.now)) }
{
    for spot in spots {
        add_tree(found, token_at(*spot))?;
    }
    Ok(())
}

/// Puts the repeated contents at the end.
fn add_repeated<'a>(found: &mut Vec<&'a Rule>, spots: &[Spot<'a>]) -> Result<(), AllocError>
    ensures { OnOk result (trees found.new.items
        ≡ trees found.old.items ++ repeated_in (sights.seen_trees spots.now)) }
{
    for spot in spots {
        add_tree(found, repeated_at(*spot))?;
    }
    Ok(())
}

/// What stands in rules, in preorder.
#[derive(Drop)]
pub(crate) struct Gathered<'a> {
    pub tokens: Vec<&'a Rule>,
    pub contents: Vec<&'a Rule>,
}

/// The tokens and the repeated contents of rules.
pub(crate) fn gather<'a>(
    alloc: Global,
    rules: &'a [(Str, Rule)],
) -> Result<Gathered<'a>, AllocError>
    ensures tokens { IfOk result (λ found. trees found.tokens.items
        ≡ sights.tokens_in (sights.seen_rules rules.now)) }
    ensures contents { IfOk result (λ found. trees found.contents.items
        ≡ repeated_in (sights.seen_rules rules.now)) }
{
    let mut tokens = Vec::new(alloc);
    let mut contents = Vec::new(alloc);
    for rule in rules {
        let spots = sights_of(alloc, &rule.1)?;
        add_tokens(&mut tokens, spots.as_slice())?;
        add_repeated(&mut contents, spots.as_slice())?;
    }
    Ok(Gathered { tokens, contents })
}

/// Trees by first sight.
pub(crate) fn first_sights<'a>(
    alloc: Global,
    seen: &[&'a Rule],
) -> Result<IndexSet<&'a Rule>, AllocError>
    ensures { IfOk result (λ found. AreFirstSights (trees seen.now) (trees found.keys)) }
{
    let mut found = IndexSet::new(alloc);
    for tree in seen {
        found.insert(*tree)?;
    }
    Ok(found)
}

/// Tokens by first sight, and those of them that stand more than once.
#[derive(Drop)]
pub(crate) struct Tokens<'a> {
    pub first: IndexSet<&'a Rule>,
    pub again: IndexSet<&'a Rule>,
}

/// One more token.
fn note<'a>(tokens: &mut Tokens<'a>, tree: &'a Rule) -> Result<(), AllocError>
    ensures { OnOk result ((seen : Values Rule)
        → AreSeenTokens seen (trees tokens.old.first.keys) (trees tokens.old.again.keys)
        → AreSeenTokens (seen ++ tree.now ∷ []) (trees tokens.new.first.keys)
        (trees tokens.new.again.keys)) }
{
    if !tokens.first.insert(tree)? {
        tokens.again.insert(tree)?;
    }
    Ok(())
}

/// Tokens by first sight, and which stand more than once.
pub(crate) fn tokens_of<'a>(alloc: Global, seen: &[&'a Rule]) -> Result<Tokens<'a>, AllocError>
    ensures { IfOk result (λ found. AreSeenTokens (trees seen.now) (trees found.first.keys)
        (trees found.again.keys)) }
{
    let mut tokens = Tokens {
        first: IndexSet::new(alloc),
        again: IndexSet::new(alloc),
    };
    for tree in seen {
        note(&mut tokens, *tree)?;
    }
    Ok(tokens)
}

/// The name and the kind of an ALIAS.
fn alias_of<'a>(tree: &'a Rule) -> Option<(&'a Str, bool)>
    ensures { told_alias result ≡ sights.alias_layer (out-Rule tree.now) }
{
    match tree {
        Rule::Alias {
            content: _,
            named,
            value,
        } => Some((value, *named)),
        Rule::Blank => None,
        Rule::Literal(_) => None,
        Rule::Pattern {
            value: _,
            ignore_case: _,
        } => None,
        Rule::Symbol(_) => None,
        Rule::Seq(_) => None,
        Rule::Choice(_) => None,
        Rule::Repeat(_) => None,
        Rule::Repeat1(_) => None,
        Rule::Token(_) => None,
        Rule::ImmediateToken(_) => None,
        Rule::Field {
            name: _,
            content: _,
        } => None,
        Rule::Prec {
            value: _,
            content: _,
        } => None,
        Rule::PrecLeft {
            value: _,
            content: _,
        } => None,
        Rule::PrecRight {
            value: _,
            content: _,
        } => None,
        Rule::PrecDynamic {
            value: _,
            content: _,
        } => None,
    }
}

/// Puts an alias at the end, where there is one.
fn add_alias<'a>(
    found: &mut Vec<(&'a Str, bool)>,
    alias: Option<(&'a Str, bool)>,
) -> Result<(), AllocError>
    ensures { OnOk result (aliases_told found.new.items
        ≡ aliases_told found.old.items ++ told_alias alias.entry) }
{
    if let Some(alias) = alias {
        found.push(alias)?;
    }
    Ok(())
}

/// Puts the aliases at the end.
fn add_aliases<'a>(found: &mut Vec<(&'a Str, bool)>, spots: &[Spot<'a>]) -> Result<(), AllocError>
    ensures { OnOk result (aliases_told found.new.items
        ≡ aliases_told found.old.items ++ sights.aliases_in (sights.seen_trees spots.now)) }
{
    for spot in spots {
        add_alias(found, alias_of(spot.tree))?;
    }
    Ok(())
}

/// Aliases by first sight.
fn first_aliases<'a>(
    alloc: Global,
    seen: &[(&'a Str, bool)],
) -> Result<IndexSet<(&'a Str, bool)>, AllocError>
    ensures { IfOk result (λ found. AreFirstSights (aliases_told seen.now)
        (aliases_told found.keys)) }
{
    let mut found = IndexSet::new(alloc);
    for alias in seen {
        found.insert(*alias)?;
    }
    Ok(found)
}

/// The aliases of a walk by first sight, each by its name and whether it is named.
pub(crate) fn aliases_of<'a>(
    alloc: Global,
    walk: &[Spot<'a>],
) -> Result<IndexSet<(&'a Str, bool)>, AllocError>
    ensures { IfOk result (λ found. AreFirstSights (sights.aliases_in (sights.seen_trees walk.now))
        (aliases_told found.keys)) }
{
    let mut seen = Vec::new(alloc);
    add_aliases(&mut seen, walk)?;
    let found = first_aliases(alloc, seen.as_slice())?;
    Ok(found)
}

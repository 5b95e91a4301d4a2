//! Where patterns stand: a grammar comes in, and its patterns go out in the order of its walk, each
//! with its rule.

ghost use Rattle.std.specs.Prelude.{◌≡◌, ◌++◌, [], ◌∷◌, IfOk, OnOk};
ghost use Rattle.ts_core.specs.declared.rule.Rule.TheViews.{out-Rule};
ghost use Rattle.ts_rules.specs.Sights as sights;
ghost use Rattle.ts_tokens.specs.Patterns.{placed_in, rule_patterns, extra_patterns, placed_patterns, placed_sources};
ghost use Rattle.ts_tokens.specs.Placed.{told_patterns, told_source, name_told};

use std::alloc::{AllocError, Global};
use ts_core::{Grammar, Rule, Str};
use ts_rules::{Spot, sights_of};

/// A pattern's source, and whether it has the flag `i`.
#[derive(Clone, Copy)]
pub(crate) struct Source<'a> {
    pub text: &'a Str,
    pub ignore_case: bool,
}

/// A pattern, and the name of its rule. An extra has none.
#[derive(Clone, Copy)]
pub(crate) struct Placed<'a> {
    pub rule: Option<&'a Str>,
    pub source: Source<'a>,
}

/// The source of a PATTERN.
fn source_of<'a>(tree: &'a Rule) -> Option<Source<'a>>
    ensures { told_source result ≡ sights.pattern_layer (out-Rule tree.now) }
{
    match tree {
        Rule::Pattern { value, ignore_case } => Some(Source {
            text: value,
            ignore_case: *ignore_case,
        }),
        Rule::Blank => None,
        Rule::Literal(_) => None,
        Rule::Symbol(_) => None,
        Rule::Seq(_) => None,
        Rule::Choice(_) => None,
        Rule::Repeat(_) => None,
        Rule::Repeat1(_) => None,
        Rule::Token(_) => None,
        Rule::ImmediateToken(_) => None,
        Rule::Field {
            name: _,
            content: _,
        } => None,
        Rule::Alias {
            content: _,
            named: _,
            value: _,
        } => None,
        Rule::Prec {
            value: _,
            content: _,
        } => None,
        Rule::PrecLeft {
            value: _,
            content: _,
        } => None,
        Rule::PrecRight {
            value: _,
            content: _,
        } => None,
        Rule::PrecDynamic {
            value: _,
            content: _,
        } => None,
    }
}

/// Puts a pattern at the end, where there is one.
fn add_source<'a>(
    placed: &mut Vec<Placed<'a>>,
    rule: Option<&'a Str>,
    source: Option<Source<'a>>,
) -> Result<(), AllocError>
    ensures { OnOk result (told_patterns placed.new.items
        ≡ told_patterns placed.old.items
        ++ placed_sources (name_told rule.entry) (told_source source.entry)) }
{
    if let Some(source) = source {
        placed.push(Placed { rule, source })?;
    }
    Ok(())
}

/// Puts the patterns of a rule or extra at the end.
fn add_patterns<'a>(
    placed: &mut Vec<Placed<'a>>,
    rule: Option<&'a Str>,
    spots: &[Spot<'a>],
) -> Result<(), AllocError>
    ensures { OnOk result (told_patterns placed.new.items
        ≡ told_patterns placed.old.items
        ++ placed_in (name_told rule.entry) (sights.seen_trees spots.now)) }
{
    for spot in spots {
        add_source(placed, rule, source_of(spot.tree))?;
    }
    Ok(())
}

/// Puts the patterns of rules at the end, the rules in file order.
fn add_rules<'a>(
    alloc: Global,
    placed: &mut Vec<Placed<'a>>,
    rules: &'a [(Str, Rule)],
) -> Result<(), AllocError>
    ensures { OnOk result (told_patterns placed.new.items
        ≡ told_patterns placed.old.items ++ rule_patterns rules.now) }
{
    for rule in rules {
        let spots = sights_of(alloc, &rule.1)?;
        add_patterns(placed, Some(&rule.0), spots.as_slice())?;
    }
    Ok(())
}

/// Puts the patterns of extras at the end.
fn add_extras<'a>(
    alloc: Global,
    placed: &mut Vec<Placed<'a>>,
    extras: &'a [Rule],
) -> Result<(), AllocError>
    ensures { OnOk result (told_patterns placed.new.items
        ≡ told_patterns placed.old.items ++ extra_patterns extras.now) }
{
    for tree in extras {
        let spots = sights_of(alloc, tree)?;
        add_patterns(placed, None, spots.as_slice())?;
    }
    Ok(())
}

/// The patterns of a grammar, in the order of its walk.
pub(crate) fn patterns_of<'a>(
    alloc: Global,
    grammar: &'a Grammar,
) -> Result<Vec<Placed<'a>>, AllocError>
    ensures { IfOk result (λ placed. told_patterns placed.items ≡ placed_patterns grammar.now) }
{
    let mut placed = Vec::new(alloc);
    add_rules(alloc, &mut placed, grammar.rules.as_slice())?;
    add_extras(alloc, &mut placed, grammar.extras.as_slice())?;
    Ok(placed)
}

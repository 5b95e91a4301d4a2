//! The field names and precedence names of a grammar by first sight: what comes in is its walk, and
//! what goes out are sets in which each name's place is its number.

ghost use Rattle.std.specs.Prelude.{◌≡◌, ◌++◌, IfOk, OnOk};
ghost use Rattle.std.specs.List.{flat_map};
ghost use Rattle.ts_core.specs.declared.rule.Rule.TheViews.{out-Rule};
ghost use Rattle.ts_rules.specs.FirstSights.{AreFirstSights};
ghost use Rattle.ts_rules.specs.Names.{told, told_option};
ghost use Rattle.ts_rules.specs.Sights as sights;

use crate::names::add_option;
use crate::sights::Spot;
use indexmap::IndexSet;
use std::alloc::{AllocError, Global};
use ts_core::{Grammar, List, PrecValue, Ranked, Rule, Str};

/// Names by first sight.
fn first_sights<'a>(alloc: Global, seen: &[&'a Str]) -> Result<IndexSet<&'a Str>, AllocError>
    ensures { IfOk result (λ found. AreFirstSights (told seen.now) (told found.keys)) }
{
    let mut found = IndexSet::new(alloc);
    for name in seen {
        found.insert(*name)?;
    }
    Ok(found)
}

/// The name of a FIELD.
fn field_name<'a>(tree: &'a Rule) -> Option<&'a Str>
    ensures { told_option result ≡ sights.field_layer (out-Rule tree.now) }
{
    match tree {
        Rule::Field { name, content: _ } => Some(name),
        Rule::Blank => None,
        Rule::Literal(_) => None,
        Rule::Pattern {
            value: _,
            ignore_case: _,
        } => None,
        Rule::Symbol(_) => None,
        Rule::Seq(_) => None,
        Rule::Choice(_) => None,
        Rule::Repeat(_) => None,
        Rule::Repeat1(_) => None,
        Rule::Token(_) => None,
        Rule::ImmediateToken(_) => None,
        Rule::Alias {
            content: _,
            named: _,
            value: _,
        } => None,
        Rule::Prec {
            value: _,
            content: _,
        } => None,
        Rule::PrecLeft {
            value: _,
            content: _,
        } => None,
        Rule::PrecRight {
            value: _,
            content: _,
        } => None,
        Rule::PrecDynamic {
            value: _,
            content: _,
        } => None,
    }
}

/// Puts the names of FIELDs at the end.
fn add_fields<'a>(names: &mut Vec<&'a Str>, spots: &[Spot<'a>]) -> Result<(), AllocError>
    ensures { OnOk result (told names.new.items
        ≡ told names.old.items ++ sights.fields_in (sights.seen_trees spots.now)) }
{
    for spot in spots {
        add_option(names, field_name(spot.tree))?;
    }
    Ok(())
}

/// The field names of a grammar by first sight in its walk.
///
/// # Errors
///
/// `AllocError` where memory runs out.
pub fn field_names<'a>(alloc: Global, walk: &[Spot<'a>]) -> Result<IndexSet<&'a Str>, AllocError>
    ensures { IfOk result (λ found. AreFirstSights (sights.fields_in (sights.seen_trees walk.now))
        (told found.keys)) }
{
    let mut names = Vec::new(alloc);
    add_fields(&mut names, walk)?;
    let found = first_sights(alloc, names.as_slice())?;
    Ok(found)
}

/// The name of a precedence, where it has one.
fn name_in<'a>(value: &'a PrecValue) -> Option<&'a Str>
    ensures { told_option result ≡ sights.name_in value.now }
{
    match value {
        PrecValue::Number(_) => None,
        PrecValue::Name(name) => Some(name),
    }
}

/// The name of the precedence of a PREC, PREC_LEFT or PREC_RIGHT, where it has one.
fn prec_name<'a>(tree: &'a Rule) -> Option<&'a Str>
    ensures { told_option result ≡ sights.prec_layer (out-Rule tree.now) }
{
    match tree {
        Rule::Prec { value, content: _ } => name_in(value),
        Rule::PrecLeft { value, content: _ } => name_in(value),
        Rule::PrecRight { value, content: _ } => name_in(value),
        Rule::Blank => None,
        Rule::Literal(_) => None,
        Rule::Pattern {
            value: _,
            ignore_case: _,
        } => None,
        Rule::Symbol(_) => None,
        Rule::Seq(_) => None,
        Rule::Choice(_) => None,
        Rule::Repeat(_) => None,
        Rule::Repeat1(_) => None,
        Rule::Token(_) => None,
        Rule::ImmediateToken(_) => None,
        Rule::Field {
            name: _,
            content: _,
        } => None,
        Rule::Alias {
            content: _,
            named: _,
            value: _,
        } => None,
        Rule::PrecDynamic {
            value: _,
            content: _,
        } => None,
    }
}

/// Puts the names of precedences at the end.
fn add_precs<'a>(names: &mut Vec<&'a Str>, spots: &[Spot<'a>]) -> Result<(), AllocError>
    ensures { OnOk result (told names.new.items
        ≡ told names.old.items ++ sights.precs_in (sights.seen_trees spots.now)) }
{
    for spot in spots {
        add_option(names, prec_name(spot.tree))?;
    }
    Ok(())
}

/// Puts the precedence name of an entry at the end, if it is one.
fn add_ranked<'a>(names: &mut Vec<&'a Str>, entry: &'a Ranked) -> Result<(), AllocError>
    ensures { OnOk result (told names.new.items
        ≡ told names.old.items ++ sights.ranked_name entry.now) }
{
    match entry {
        Ranked::Name(name) => add_option(names, Some(name)),
        Ranked::Rule(_) => Ok(()),
    }
}

/// Puts the precedence names of an ordering at the end.
fn add_entries<'a>(names: &mut Vec<&'a Str>, entries: &'a [Ranked]) -> Result<(), AllocError>
    ensures { OnOk result (told names.new.items
        ≡ told names.old.items ++ flat_map sights.ranked_name entries.now) }
{
    for entry in entries {
        add_ranked(names, entry)?;
    }
    Ok(())
}

/// Puts the precedence names of all orderings at the end.
fn add_orders<'a>(names: &mut Vec<&'a Str>, lists: &'a [List<Ranked>]) -> Result<(), AllocError>
    ensures { OnOk result (told names.new.items
        ≡ told names.old.items ++ sights.names_ranked lists.now) }
{
    for list in lists {
        add_entries(names, list.as_slice())?;
    }
    Ok(())
}

/// The precedence names of a grammar by first sight in its walk, and then in its orderings.
///
/// # Errors
///
/// `AllocError` where memory runs out.
pub fn prec_names<'a>(
    alloc: Global,
    grammar: &'a Grammar,
    walk: &[Spot<'a>],
) -> Result<IndexSet<&'a Str>, AllocError>
    ensures { IfOk result (λ found. AreFirstSights
        (sights.precs_in (sights.seen_trees walk.now) ++ sights.ranked_names grammar.now)
        (told found.keys)) }
{
    let mut names = Vec::new(alloc);
    add_precs(&mut names, walk)?;
    add_orders(&mut names, grammar.precedences.as_slice())?;
    let found = first_sights(alloc, names.as_slice())?;
    Ok(found)
}

//! The names that a grammar uses: what comes in is a grammar and its walk, and what goes out is the
//! first name that no rule has, or nothing.

ghost use Rattle.std.specs.Prelude.{◌≡◌, ◌++◌, [], ◌↔◌, map, IfOk, OnOk, MatchOption, IsTrue};
ghost use Rattle.std.specs.List.{Contains, flat_map};
ghost use Rattle.ts_base.specs.Bytes.{Bytes};
ghost use Rattle.ts_core.specs.declared.rule.Rule.TheViews.{out-Rule};
ghost use Rattle.ts_rules.specs.FirstSights.{AreFirstSights, Clear, First};
ghost use Rattle.ts_rules.specs.Names.{told, told_option, BeginsWith, IsAbsent};
ghost use Rattle.ts_rules.specs.Causes as causes;
ghost use Rattle.ts_rules.specs.Sights as sights;

use crate::sights::Spot;
use indexmap::IndexSet;
use std::alloc::{AllocError, Global};
use ts_core::{Grammar, List, Ranked, Rule, Str};

/// The name of a SYMBOL.
pub fn symbol_name<'a>(tree: &'a Rule) -> Option<&'a Str>
    ensures { told_option result ≡ sights.symbol_layer (out-Rule tree.now) }
{
    match tree {
        Rule::Symbol(name) => Some(name),
        Rule::Blank => None,
        Rule::Literal(_) => None,
        Rule::Pattern {
            value: _,
            ignore_case: _,
        } => None,
        Rule::Seq(_) => None,
        Rule::Choice(_) => None,
        Rule::Repeat(_) => None,
        Rule::Repeat1(_) => None,
        Rule::Token(_) => None,
        Rule::ImmediateToken(_) => None,
        Rule::Field {
            name: _,
            content: _,
        } => None,
        Rule::Alias {
            content: _,
            named: _,
            value: _,
        } => None,
        Rule::Prec {
            value: _,
            content: _,
        } => None,
        Rule::PrecLeft {
            value: _,
            content: _,
        } => None,
        Rule::PrecRight {
            value: _,
            content: _,
        } => None,
        Rule::PrecDynamic {
            value: _,
            content: _,
        } => None,
    }
}

/// Puts a name at the end, where there is one.
pub(crate) fn add_option<'a>(
    names: &mut Vec<&'a Str>,
    name: Option<&'a Str>,
) -> Result<(), AllocError>
    ensures { OnOk result (told names.new.items ≡ told names.old.items ++ told_option name.entry) }
{
    if let Some(name) = name {
        names.push(name)?;
    }
    Ok(())
}

/// Puts the SYMBOLs' names at the end.
fn add_symbols<'a>(names: &mut Vec<&'a Str>, spots: &[Spot<'a>]) -> Result<(), AllocError>
    ensures { OnOk result (told names.new.items
        ≡ told names.old.items ++ sights.symbols_in (sights.seen_trees spots.now)) }
{
    for spot in spots {
        add_option(names, symbol_name(spot.tree))?;
    }
    Ok(())
}

/// Puts names at the end.
fn add_names<'a>(names: &mut Vec<&'a Str>, more: &'a [Str]) -> Result<(), AllocError>
    ensures { OnOk result (told names.new.items ≡ told names.old.items ++ more.now) }
{
    for name in more {
        names.push(name)?;
    }
    Ok(())
}

/// Puts the names of all lists at the end.
fn add_lists<'a>(names: &mut Vec<&'a Str>, lists: &'a [List<Str>]) -> Result<(), AllocError>
    ensures { OnOk result (told names.new.items ≡ told names.old.items ++ causes.merged lists.now) }
{
    for list in lists {
        add_names(names, list.as_slice())?;
    }
    Ok(())
}

/// Puts the rule of an entry at the end, if it is one.
fn add_rule<'a>(names: &mut Vec<&'a Str>, entry: &'a Ranked) -> Result<(), AllocError>
    ensures { OnOk result (told names.new.items
        ≡ told names.old.items ++ sights.ranked_rule entry.now) }
{
    match entry {
        Ranked::Name(_) => Ok(()),
        Ranked::Rule(name) => add_option(names, Some(name)),
    }
}

/// Puts the rules of an ordering at the end.
fn add_rules<'a>(names: &mut Vec<&'a Str>, entries: &'a [Ranked]) -> Result<(), AllocError>
    ensures { OnOk result (told names.new.items
        ≡ told names.old.items ++ flat_map sights.ranked_rule entries.now) }
{
    for entry in entries {
        add_rule(names, entry)?;
    }
    Ok(())
}

/// Puts the rules of all orderings at the end.
fn add_orderings<'a>(names: &mut Vec<&'a Str>, lists: &'a [List<Ranked>]) -> Result<(), AllocError>
    ensures { OnOk result (told names.new.items
        ≡ told names.old.items ++ sights.rules_ranked lists.now) }
{
    for list in lists {
        add_rules(names, list.as_slice())?;
    }
    Ok(())
}

/// Puts the word at the end, if there is one.
fn add_word<'a>(names: &mut Vec<&'a Str>, word: &'a Option<Str>) -> Result<(), AllocError>
    ensures { OnOk result (told names.new.items ≡ told names.old.items ++ causes.listed word.now) }
{
    match word {
        Some(word) => add_option(names, Some(word)),
        None => Ok(()),
    }
}

/// The names that a grammar uses, in order: of SYMBOLs, of the word, and in its lists.
pub fn used_names<'a>(
    alloc: Global,
    grammar: &'a Grammar,
    walk: &[Spot<'a>],
) -> Result<Vec<&'a Str>, AllocError>
    requires walk { sights.seen_trees walk.now ≡ sights.walk grammar.now }
    ensures { IfOk result (λ names. told names.items ≡ causes.names_used grammar.now) }
{
    let mut names = Vec::new(alloc);
    add_symbols(&mut names, walk)?;
    add_word(&mut names, &grammar.word)?;
    add_lists(&mut names, grammar.conflicts.as_slice())?;
    add_orderings(&mut names, grammar.precedences.as_slice())?;
    add_names(&mut names, grammar.supertypes.as_slice())?;
    Ok(names)
}

/// Whether a name is among names.
pub fn is_among(names: &IndexSet<&Str>, name: &Str) -> bool
    ensures { IsTrue result ↔ Contains (told names.now.keys) name.now }
{
    names.contains(&name)
}

/// The names of the rules by first sight.
pub fn rule_names<'a>(
    alloc: Global,
    rules: &'a [(Str, Rule)],
) -> Result<IndexSet<&'a Str>, AllocError>
    ensures { IfOk result (λ names. AreFirstSights (causes.names_of rules.now) (told names.keys)) }
{
    let mut names = IndexSet::new(alloc);
    for rule in rules {
        names.insert(&rule.0)?;
    }
    Ok(names)
}

/// The first name that is not among names.
pub fn first_undefined<'a>(names: &IndexSet<&Str>, used: &[&'a Str]) -> Option<&'a Str>
    ensures { MatchOption result (Clear (IsAbsent (told names.now.keys)) (told used.now))
        (λ name. First (IsAbsent (told names.now.keys)) (told used.now) name.now) }
{
    for name in used {
        if !is_among(names, name) {
            return Some(*name);
        }
    }
    None
}

/// The name of a SYMBOL that is seen inside a token.
fn inside_name<'a>(spot: Spot<'a>) -> Option<&'a Str>
    ensures { told_option result ≡ sights.symbol_inside spot.entry.tree.now spot.entry.inside }
{
    if spot.inside {
        symbol_name(spot.tree)
    } else {
        None
    }
}

/// The name of the first SYMBOL inside a token.
pub fn first_inside<'a>(walk: &[Spot<'a>]) -> Option<&'a Str>
    ensures { MatchOption result (sights.symbols_inside (sights.seen_trees walk.now) ≡ [])
        (λ name. BeginsWith name.now (sights.symbols_inside (sights.seen_trees walk.now))) }
{
    for spot in walk {
        if let Some(name) = inside_name(*spot) {
            return Some(name);
        }
    }
    None
}

//! Inlining of a grammar's rules: the grammar comes in, with the names of the rules that name a
//! token, and ranks of its rules go out, or the first rule that can't be inlined.

ghost use Rattle.std.specs.Prelude.{◌≡◌, ◌↔◌, ◌++◌, ◌<◌, ℕ, List, length, Some, true, ◌⊎◌, IsTrue, IfOk, IfErr, OnOk, MatchOption, option_copied};
ghost use Rattle.std.specs.List.{Contains};
ghost use Rattle.ts_base.specs.Bytes.{Bytes};
ghost use Rattle.ts_rules.specs.Causes.{IsBadInline, names_of, rule_names, uses};
ghost use Rattle.ts_rules.specs.FileGrammar.{IsFileGrammar};
ghost use Rattle.ts_rules.specs.FirstSights.{Clear, First};
ghost use Rattle.ts_rules.specs.Names.{told};
ghost use Rattle.ts_rules.specs.Numbers.{start_of};
ghost use Rattle.ts_tokens.specs.Inlining.{AreInlineRanks, IsInlineFault, IsDirect, ArePlaces, NamesApart, IsTarget, IsRuleGraph, place_list};
ghost use Rattle.ts_tokens.specs.Names.{AreTokenNames, HaveSame};
ghost use Rattle.ts_tokens.specs.Paths.{graph_of, Path, HasNoCircle, StaysInside};

use crate::names::name_set;
use crate::paths::{comes_back, ranks_of};
use crate::uses::uses_of;
use indexmap::{IndexMap, IndexSet};
use std::alloc::{AllocError, Global};
use thiserror::Error;
use ts_core::{Grammar, Rule, Str};
use ts_rules::is_among;

/// Why the inlined rules of a grammar are refused.
#[derive(Debug, Error, PartialEq, Eq, Drop)]
pub enum InlineFault {
    /// The rule of this name is inlined, and is the start rule, names a token, or comes back to
    /// itself through inlined rules.
    #[error("a rule can't be inlined")]
    Bad(Str),
    /// Memory ran out.
    #[error("out of memory")]
    Memory,
}

impl From<AllocError> for InlineFault {
    ghost use Rattle.std.specs.Prelude.{◌≡◌};
    ghost use Rattle.ts_tokens.specs.declared.inlining.InlineFault.TheVariants.{Memory};

    ghost from_gives = { λ _ e. e ≡ Memory };

    fn from(_: AllocError) -> InlineFault {
        InlineFault::Memory
    }
}

/// The places of the rules that are inlined, by their names.
fn places_of<'a>(
    alloc: Global,
    rules: &'a [(Str, Rule)],
    inline: &IndexSet<&Str>,
) -> Result<IndexMap<&'a Str, usize>, AllocError>
    ensures { IfOk result (ArePlaces (names_of rules.now) (told inline.now.keys)) }
{
    let mut places = IndexMap::new(alloc);
    for place in 0..rules.len() {
        if !is_among(inline, &rules[place].0) {
            continue;
        }
        places.insert(&rules[place].0, place)?;
    }
    Ok(places)
}

/// Puts a place at the end, where there is one.
fn add_place(targets: &mut Vec<usize>, place: Option<&usize>) -> Result<(), AllocError>
    ensures { OnOk result (targets.new.items
        ≡ targets.old.items ++ place_list (option_copied place.entry)) }
{
    if let Some(place) = place {
        targets.push(*place)?;
    }
    Ok(())
}

/// The places of the inlined rules to which a tree steps.
fn targets_of<'a>(
    alloc: Global,
    places: &IndexMap<&'a Str, usize>,
    tree: &'a Rule,
) -> Result<Vec<usize>, AllocError>
    ensures { IfOk result (λ targets. (names inline : List Bytes)
        → ArePlaces names inline places.now
        → NamesApart names
        → (k : ℕ) → Contains targets.items k ↔ IsTarget names inline (uses tree.now) k) }
{
    let used = uses_of(alloc, tree)?;
    let mut targets = Vec::new(alloc);
    for name in used.as_slice() {
        add_place(&mut targets, places.get(name))?;
    }
    Ok(targets)
}

/// For each rule the places of the inlined rules to which it steps.
fn rows_of<'a>(
    alloc: Global,
    rules: &'a [(Str, Rule)],
    inline: &IndexSet<&Str>,
) -> Result<Vec<Vec<usize>>, AllocError>
    requires { NamesApart (names_of rules.now) }
    ensures { IfOk result (λ rows. IsRuleGraph rules.now (told inline.now.keys) (length rules.now)
        (graph_of rows.items)) }
{
    let places = places_of(alloc, rules, inline)?;
    let mut rows = Vec::with_capacity(alloc, rules.len())?;
    for rule in rules {
        let row = targets_of(alloc, &places, &rule.1)?;
        rows.push(row)?;
    }
    Ok(rows)
}

/// Whether the start rule has this name.
fn is_start(rules: &[(Str, Rule)], name: &Str) -> bool
    ensures { IsTrue result ↔ (start_of rules.now ≡ Some name.now) }
{
    match rules.first() {
        Some(rule) => rule.0 == *name,
        None => false,
    }
}

/// Whether a rule is the start rule or names a token.
fn is_direct(grammar: &Grammar, token_names: &IndexSet<&Str>, name: &Str) -> bool
    requires { AreTokenNames grammar.now (told token_names.now.keys) }
    ensures { IsTrue result ↔ IsDirect grammar.now name.now }
{
    is_start(grammar.rules.as_slice(), name) || is_among(token_names, name)
}

/// Whether the inlined rule at a place can't be inlined. Where there are ranks, no rule comes back
/// to itself.
fn is_bad(
    alloc: Global,
    direct: bool,
    ranked: bool,
    rows: &[Vec<usize>],
    place: usize,
) -> Result<bool, AllocError>
    requires closed { StaysInside (graph_of rows.now) }
    requires place { place < length (graph_of rows.now) }
    requires ranked { ranked ≡ true → HasNoCircle (graph_of rows.now) }
    ensures { IfOk result (λ bad. IsTrue bad
        ↔ (IsTrue direct ⊎ Path (graph_of rows.now) place place)) }
{
    if direct {
        return Ok(true);
    }
    if ranked {
        return Ok(false);
    }
    comes_back(alloc, rows, place)
}

/// The name of a fault.
fn refusal(alloc: Global, name: &Str) -> InlineFault
    ensures { (told : Bytes) → result ≡ InlineFault.Bad told → told ≡ name.now }
{
    match Str::from_text(alloc, name.text()) {
        Ok(name) => InlineFault::Bad(name),
        Err(_) => InlineFault::Memory,
    }
}

/// The first rule that can't be inlined.
fn first_bad<'a>(
    alloc: Global,
    grammar: &'a Grammar,
    token_names: &IndexSet<&Str>,
    inline: &IndexSet<&Str>,
    rows: &[Vec<usize>],
    ranked: bool,
) -> Result<Option<&'a Str>, AllocError>
    requires file { IsFileGrammar grammar.now }
    requires names { AreTokenNames grammar.now (told token_names.now.keys) }
    requires inline { HaveSame (told inline.now.keys) grammar.now.inline }
    requires graph { IsRuleGraph grammar.now.rules (told inline.now.keys)
        (length grammar.now.rules) (graph_of rows.now) }
    requires ranked { ranked ≡ true → HasNoCircle (graph_of rows.now) }
    ensures { IfOk result (λ found. MatchOption found
        (Clear (IsBadInline grammar.now) (rule_names grammar.now))
        (λ name. First (IsBadInline grammar.now) (rule_names grammar.now) name.now)) }
{
    let rules = grammar.rules.as_slice();
    for place in 0..rules.len() {
        let name = &rules[place].0;
        if !is_among(inline, name) {
            continue;
        }
        let direct = is_direct(grammar, token_names, name);
        if is_bad(alloc, direct, ranked, rows, place)? {
            return Ok(Some(name));
        }
    }
    Ok(None)
}

/// Ranks of the rules of a grammar, in file order, that fall from each rule to the inlined rules to
/// which it steps. So inlined rules can be expanded in the order of their ranks, each once.
///
/// The time is linear in the grammar where it is not refused.
///
/// # Errors
///
/// `Bad` with the first rule in file order that is inlined and can't be. `Memory` may come at any
/// time.
pub fn inline_ranks(
    alloc: Global,
    grammar: &Grammar,
    token_names: &IndexSet<&Str>,
) -> Result<Vec<usize>, InlineFault>
    requires file { IsFileGrammar grammar.now }
    requires names { AreTokenNames grammar.now (told token_names.now.keys) }
    ensures none_bad { IfOk result (λ _. Clear (IsBadInline grammar.now) (rule_names grammar.now)) }
    ensures ranks { IfOk result (λ ranks. AreInlineRanks grammar.now ranks.items) }
    ensures refused { IfErr result (IsInlineFault grammar.now) }
{
    let inline = name_set(alloc, grammar.inline.as_slice())?;
    let rows = rows_of(alloc, grammar.rules.as_slice(), &inline)?;
    let ranks = ranks_of(alloc, rows.as_slice())?;
    let ranked = ranks.is_some();
    match first_bad(
        alloc,
        grammar,
        token_names,
        &inline,
        rows.as_slice(),
        ranked,
    )? {
        Some(name) => Err(refusal(alloc, name)),
        None => match ranks {
            Some(ranks) => Ok(ranks),
            None => unreachable!(),
        },
    }
}

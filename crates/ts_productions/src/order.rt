//! The order in which inlined rules are put into each other: what comes in are ranks of the rules,
//! and what goes out are the places of the inlined ones by rising rank.

ghost use Rattle.std.specs.Prelude.{◌≡◌, ◌↔◌, ◌++◌, length, map, IfOk, OnOk};
ghost use Rattle.std.specs.List.{Contains};
ghost use Rattle.std.specs.List.Sorted.{IsPermutation, IsNonDecreasingBy};
ghost use Rattle.ts_base.specs.Bytes.{Bytes};
ghost use Rattle.ts_productions.specs.Grammars.{FallAlong, IsInlineOrder};
ghost use Rattle.ts_productions.specs.Orders.{AreRanksAmong, ArePlaced, rank_of, place_of, ranked_if};
ghost use Rattle.ts_rules.specs.Names.{told};
ghost use Rattle.ts_rules.specs.Numbers.{AreLists, Lists};

use indexmap::IndexSet;
use std::alloc::{AllocError, Global};
use ts_core::{Grammar, Str};
use ts_rules::is_among;

/// An inlined rule.
#[derive(Clone, Copy)]
struct Ranked {
    rank: usize,
    /// Among the inlined rules, in file order.
    place: usize,
}

/// Puts a rule of that rank at the end, where it is inlined.
fn push_ranked(found: &mut Vec<Ranked>, inlined: bool, rank: usize) -> Result<(), AllocError>
    ensures { OnOk result (found.new.items
        ≡ found.old.items ++ ranked_if inlined rank (length found.old.items)) }
{
    if inlined {
        let place = found.len();
        found.push(Ranked { rank, place })?;
    }
    Ok(())
}

/// The inlined rules in file order.
fn inlined_ranks(
    alloc: Global,
    grammar: &Grammar,
    inline: &IndexSet<&Str>,
    ranks: &[usize],
) -> Result<Vec<Ranked>, AllocError>
    requires inline { (name : Bytes) → Contains (told inline.now.keys) name
        ↔ Contains grammar.now.inline name }
    requires ranks { length ranks.now ≡ length grammar.now.rules }
    ensures ranks { IfOk result (λ found. AreRanksAmong grammar.now grammar.now.rules ranks.now
        found.items) }
    ensures placed { IfOk result (λ found. ArePlaced found.items) }
{
    let rules = grammar.rules.as_slice();
    let mut found = Vec::new(alloc);
    for at in 0..rules.len() {
        let inlined = is_among(inline, &rules[at].0);
        push_ranked(&mut found, inlined, ranks[at])?;
    }
    Ok(found)
}

/// Puts the rules into the order of their ranks.
fn sort_by_rank(rules: &mut Vec<Ranked>)
    ensures same { IsPermutation rules.old.items rules.new.items }
    ensures sorted { IsNonDecreasingBy rank_of rules.new.items }
{
    rules.sort_unstable_by_key(|rule| rule.rank);
}

/// The places of rules.
fn places_of(alloc: Global, rules: &[Ranked]) -> Result<Vec<usize>, AllocError>
    ensures { IfOk result (λ places. places.items ≡ map place_of rules.now) }
{
    let mut places = Vec::new(alloc);
    for rule in rules {
        places.push(rule.place)?;
    }
    Ok(places)
}

/// The places of the inlined rules among themselves, each after those of the inlined rules to which
/// it steps. `ranks` has one for each rule of the file, and `inline` has the names that are
/// inlined.
///
/// # Errors
///
/// `AllocError` where memory runs out.
pub fn inline_order(
    alloc: Global,
    grammar: &Grammar,
    inline: &IndexSet<&Str>,
    ranks: &[usize],
) -> Result<Vec<usize>, AllocError>
    requires inline { (name : Bytes) → Contains (told inline.now.keys) name
        ↔ Contains grammar.now.inline name }
    requires ranks { length ranks.now ≡ length grammar.now.rules }
    ensures { (x : Lists) → AreLists grammar.now x
        → FallAlong grammar.now grammar.now.rules ranks.now
        → IfOk result (λ order. IsInlineOrder grammar.now x order.items) }
{
    let mut rules = inlined_ranks(alloc, grammar, inline, ranks)?;
    sort_by_rank(&mut rules);
    let places = places_of(alloc, rules.as_slice())?;
    Ok(places)
}

//! The search for embeddings: items and a list of siblings go in, and the ways in which the items
//! fully embed in the siblings come out.
ghost use Rattle.std.specs.Prelude.{◌≡◌, ℕ, ◌+◌, ◌-◌, ◌<◌, ◌^◌, ◌↔◌, ◌≤◌, ◌∷◌, [], cond, drop, length, IsTrue, IfOk, OnOk, true, false, None, List as Values};
ghost use Rattle.std.specs.List.{Contains};
ghost use Rattle.ts_search.specs.Adding.{Adds, FindsLike, FindsMost, Gains, OfSome};
ghost use Rattle.spec_matches.specs.Embedding.{Rounds, Placed, Unnamed, IsWayFrom};
ghost use Rattle.ts_search.specs.Table.{Takes};
ghost use Rattle.std.specs.HashMap.{get};
ghost use Rattle.ts_search.specs.Memory.{Begun, HasSameCaptures, IsMemo, IsThere, Told, WaysOf, key_eq};
ghost use Rattle.ts_search.specs.Passing.{IsFree};
ghost use Rattle.ts_search.specs.declared.stand.Wanted.TheVariants as asked;
ghost use Rattle.ts_search.specs.Steps.{AnyStays, HeadFrom, HeadNone, HeadTaken, NoneBefore, NoneTaken, RunBefore, TakenFrom};
ghost use Rattle.spec_matches.specs.declared.placing.Placing.{Placing as Way};

use crate::limit::{Limit, stops};
use crate::memo::{is_kept, kept, remember};
use crate::once::{add_placed, bare, once_each};
use crate::passing::{from_number, is_free, settled};
use crate::places::{
    are_rounds, begins, begins_late, first_taken, grows, is_anchored, is_unnamed, reach,
    wanted_after, widens,
};
use crate::products::{add_behind, along, joined};
use crate::siblings::{is_silent_by, next_counted, next_taken};
use crate::stand::{Key, Siblings, Stand, Wanted};
use spec_matches::{Capture, Placing, Run, Slot};
use std::alloc::{AllocError, Global};
use std::collections::HashMap;
use ts_base::List;

/// Adds a tail behind an item that takes nothing, where it could take nothing there.
fn add_none(
    alloc: Global,
    out: &mut Vec<Placing>,
    siblings: &Siblings,
    rest: &[Slot],
    at: Stand,
    from: usize,
    tail: &Placing,
) -> Result<(), AllocError>
    requires { NoneTaken siblings.now at from }
    ensures { OnOk result (Adds (NoneBefore siblings.now rest.now at tail.now)
        out.old.items out.new.items) }
{
    if widens(siblings, rest, at, from, None, tail) {
        return Ok(());
    }
    let captures = joined(alloc, &[], tail.captures.as_slice())?;
    out.push(Placing {
        first: tail.first,
        near: false,
        captures,
    })?;
    Ok(())
}

/// Adds the tails behind an item that takes nothing.
fn add_nones(
    alloc: Global,
    out: &mut Vec<Placing>,
    siblings: &Siblings,
    rest: &[Slot],
    at: Stand,
    tails: &[Placing],
) -> Result<(), AllocError>
    ensures { OnOk result (Adds (OfSome (NoneBefore siblings.now rest.now at) tails.now)
        out.old.items out.new.items) }
{
    let from = first_taken(siblings, at);
    for tail in tails {
        add_none(alloc, out, siblings, rest, at, from, tail)?;
    }
    Ok(())
}

/// Adds the captures of a run in each way, and then those of a tail, where the item could take no
/// more there.
fn add_run(
    alloc: Global,
    out: &mut Vec<List<Capture>>,
    siblings: &Siblings,
    rest: &[Slot],
    at: Stand,
    run: Run,
    fronts: &[List<Capture>],
    tail: &Placing,
) -> Result<(), AllocError>
    ensures { OnOk result (Adds (RunBefore siblings.now rest.now at run fronts.now tail.now)
        out.old.items out.new.items) }
{
    if grows(siblings, rest, at, run, tail) {
        return Ok(());
    }
    add_behind(alloc, out, fronts, tail.captures.as_slice())?;
    Ok(())
}

/// Adds the captures of a run in each way, and then those of each of the tails.
fn add_runs(
    alloc: Global,
    limit: &mut Limit,
    out: &mut Vec<List<Capture>>,
    siblings: &Siblings,
    rest: &[Slot],
    at: Stand,
    run: Run,
    fronts: &[List<Capture>],
    tails: &[Placing],
) -> Result<(), AllocError>
    ensures { OnOk result (Gains
        (OfSome (RunBefore siblings.now rest.now at run fronts.now) tails.now)
        limit.old.cut limit.new.cut out.old.items out.new.items) }
{
    for tail in tails {
        if stops(limit, out.len()) {
            return Ok(());
        }
        add_run(alloc, out, siblings, rest, at, run, fronts, tail)?;
    }
    Ok(())
}

/// Whether the item could take no more than a run before one of some tails.
fn any_stays(siblings: &Siblings, rest: &[Slot], at: Stand, run: Run, tails: &[Placing]) -> bool
    ensures { IsTrue result ↔ AnyStays siblings.now rest.now at run tails.now }
{
    for tail in tails {
        if !grows(siblings, rest, at, run, tail) {
            return true;
        }
    }
    false
}

/// Adds the captures of the ways in which the item takes a run.
#[cycle(ways)]
fn add_at(
    alloc: Global,
    limit: &mut Limit,
    memo: &mut HashMap<Key, List<Placing>>,
    out: &mut Vec<List<Capture>>,
    siblings: &Siblings,
    all: &[Slot],
    rest: &[Slot],
    at: Stand,
    run: Run,
) -> Result<(), AllocError>
    requires place { Placed (Takes siblings.now.table) siblings.now.named
        at.slot at.number at.lo at.beside run }
    requires inside { at.number < length all.now }
    requires few { length all.now < 2 ^ 64 }
    requires rest { rest.now ≡ drop (at.number + 1) all.now }
    requires memo { IsMemo siblings.now all.now limit.now.cut (get key_eq memo.now) }
    ensures adds { OnOk result (Gains (HeadTaken siblings.now rest.now at run)
        limit.old.cut limit.new.cut out.old.items out.new.items) }
    ensures memo { OnOk result (IsMemo siblings.now all.now limit.new.cut (get key_eq memo.new)) }
{
    let wanted = wanted_after(siblings, at, run.past);
    let asked = Key {
        number: at.number + 1,
        lo: run.past,
        beside: true,
        wanted,
    };
    let Some(key) = settled(siblings, all, asked) else {
        return Ok(());
    };
    fill(alloc, limit, memo, siblings, all, key)?;
    let tails = kept(memo, key);
    if !any_stays(siblings, rest, at, run, tails) {
        return Ok(());
    }
    let fronts = along(
        alloc,
        limit,
        siblings.table.as_slice(),
        at.number,
        at.slot,
        run,
    )?;
    add_runs(
        alloc,
        limit,
        out,
        siblings,
        rest,
        at,
        run,
        fronts.as_slice(),
        tails,
    )?;
    Ok(())
}

/// Adds the captures of the ways in which the item takes a run, if that has whole rounds.
#[cycle(ways)]
fn add_last(
    alloc: Global,
    limit: &mut Limit,
    memo: &mut HashMap<Key, List<Placing>>,
    out: &mut Vec<List<Capture>>,
    siblings: &Siblings,
    all: &[Slot],
    rest: &[Slot],
    at: Stand,
    run: Run,
) -> Result<(), AllocError>
    requires place { Rounds at.slot (run.past - run.first)
        → Placed (Takes siblings.now.table) siblings.now.named
        at.slot at.number at.lo at.beside run }
    requires some { run.first < run.past }
    requires inside { at.number < length all.now }
    requires few { length all.now < 2 ^ 64 }
    requires rest { rest.now ≡ drop (at.number + 1) all.now }
    requires memo { IsMemo siblings.now all.now limit.now.cut (get key_eq memo.now) }
    ensures adds { OnOk result (Gains (HeadTaken siblings.now rest.now at run)
        limit.old.cut limit.new.cut out.old.items out.new.items) }
    ensures memo { OnOk result (IsMemo siblings.now all.now limit.new.cut (get key_eq memo.new)) }
{
    if !are_rounds(at.slot, run.past - run.first) {
        return Ok(());
    }
    add_at(alloc, limit, memo, out, siblings, all, rest, at, run)?;
    Ok(())
}

/// The captures of the ways in which the item takes a run from `first` up to a place before `end`
/// or up to `end`.
#[cycle(ways)]
fn runs_from(
    alloc: Global,
    limit: &mut Limit,
    memo: &mut HashMap<Key, List<Placing>>,
    siblings: &Siblings,
    all: &[Slot],
    rest: &[Slot],
    at: Stand,
    first: usize,
) -> Result<Vec<List<Capture>>, AllocError>
    requires after { at.lo ≤ first }
    requires anchored { at.slot.tied ≡ true → at.beside ≡ true
        → Unnamed siblings.now.named at.lo first }
    requires inside { at.number < length all.now }
    requires few { length all.now < 2 ^ 64 }
    requires rest { rest.now ≡ drop (at.number + 1) all.now }
    requires memo { IsMemo siblings.now all.now limit.now.cut (get key_eq memo.now) }
    ensures all { IfOk result (λ captures. FindsMost (TakenFrom siblings.now rest.now at first)
        limit.old.cut limit.new.cut captures.items) }
    ensures memo { OnOk result (IsMemo siblings.now all.now limit.new.cut (get key_eq memo.new)) }
{
    let end = reach(siblings, at, first);
    let mut out = Vec::new(alloc);
    for last in first..end {
        if stops(limit, out.len()) {
            return Ok(out);
        }
        add_last(
            alloc,
            limit,
            memo,
            &mut out,
            siblings,
            all,
            rest,
            at,
            Run {
                first,
                past: last + 1,
            },
        )?;
    }
    Ok(out)
}

/// Adds the ways in which the item takes a run that begins at `first`.
#[cycle(ways)]
fn add_first(
    alloc: Global,
    limit: &mut Limit,
    memo: &mut HashMap<Key, List<Placing>>,
    out: &mut Vec<Placing>,
    siblings: &Siblings,
    all: &[Slot],
    rest: &[Slot],
    at: Stand,
    first: usize,
) -> Result<(), AllocError>
    requires after { at.lo ≤ first }
    requires inside { at.number < length all.now }
    requires few { length all.now < 2 ^ 64 }
    requires rest { rest.now ≡ drop (at.number + 1) all.now }
    requires memo { IsMemo siblings.now all.now limit.now.cut (get key_eq memo.now) }
    ensures adds { OnOk result (Gains (HeadFrom siblings.now rest.now at first)
        limit.old.cut limit.new.cut out.old.items out.new.items) }
    ensures memo { OnOk result (IsMemo siblings.now all.now limit.new.cut (get key_eq memo.new)) }
{
    if !begins(siblings, at, first) {
        return Ok(());
    }
    if begins_late(siblings, at, first) {
        return Ok(());
    }
    if !is_anchored(siblings.named.as_slice(), at.slot, at.lo, at.beside, first) {
        return Ok(());
    }
    let captures = runs_from(alloc, limit, memo, siblings, all, rest, at, first)?;
    let kept = once_each(captures);
    add_placed(alloc, out, Some(first), true, kept.as_slice())?;
    Ok(())
}

/// Adds the ways in which the item takes nothing, or those of them that begin right here.
#[cycle(ways)]
fn add_nothing(
    alloc: Global,
    limit: &mut Limit,
    memo: &mut HashMap<Key, List<Placing>>,
    out: &mut Vec<Placing>,
    siblings: &Siblings,
    all: &[Slot],
    rest: &[Slot],
    at: Stand,
    here: bool,
) -> Result<(), AllocError>
    requires inside { at.number < length all.now }
    requires few { length all.now < 2 ^ 64 }
    requires rest { rest.now ≡ drop (at.number + 1) all.now }
    requires memo { IsMemo siblings.now all.now limit.now.cut (get key_eq memo.now) }
    ensures adds { OnOk result (Gains (HeadNone siblings.now rest.now at here)
        limit.old.cut limit.new.cut out.old.items out.new.items) }
    ensures memo { OnOk result (IsMemo siblings.now all.now limit.new.cut (get key_eq memo.new)) }
{
    if !at.slot.optional {
        return Ok(());
    }
    let wanted = begun(here);
    let key = Key {
        number: at.number + 1,
        lo: at.lo,
        beside: false,
        wanted,
    };
    fill(alloc, limit, memo, siblings, all, key)?;
    let tails = kept(memo, key);
    add_nones(alloc, out, siblings, rest, at, tails)?;
    Ok(())
}

/// All ways, or those that begin right here.
fn begun(here: bool) -> Wanted
    ensures { result ≡ cond here asked.Here asked.All }
{
    if here { Wanted::Here } else { Wanted::All }
}

/// Whether the items may end here.
fn may_end(siblings: &Siblings, lo: usize, beside: bool) -> bool
    ensures { IsTrue result ↔ (siblings.now.closed ≡ true → beside ≡ true
        → Unnamed siblings.now.named lo (length siblings.now.named)) }
{
    if siblings.closed && beside {
        return is_unnamed(siblings.named.as_slice(), lo, siblings.named.len());
    }
    true
}

/// The way that takes nothing, alone.
fn empty_way(alloc: Global) -> Result<Vec<Placing>, AllocError>
    ensures { IfOk result (λ v. v.items
        ≡ record { first = None; near = false; captures = [] } ∷ []) }
{
    let mut out = Vec::new(alloc);
    out.push(Placing {
        first: None,
        near: false,
        captures: List::new(alloc),
    })?;
    Ok(out)
}

/// The ways of no items.
fn ending(
    alloc: Global,
    siblings: &Siblings,
    number: usize,
    lo: usize,
    beside: bool,
) -> Result<Vec<Placing>, AllocError>
    ensures { IfOk result (λ v. (f : Way) → Contains v.items f
        ↔ IsWayFrom (Takes siblings.now.table) siblings.now.named siblings.now.closed
        [] number lo beside f) }
{
    if !may_end(siblings, lo, beside) {
        return Ok(Vec::new(alloc));
    }
    let out = empty_way(alloc)?;
    Ok(out)
}

/// The ways of no items, or none where they are to begin right here.
fn ending_begun(
    alloc: Global,
    siblings: &Siblings,
    number: usize,
    lo: usize,
    beside: bool,
    here: bool,
) -> Result<Vec<Placing>, AllocError>
    ensures { IfOk result (λ v. (f : Way) → Contains v.items f
        ↔ Begun here lo (WaysOf siblings.now [] number lo beside) f) }
{
    if here {
        return Ok(Vec::new(alloc));
    }
    let out = ending(alloc, siblings, number, lo, beside)?;
    Ok(out)
}

/// The end of the places where the first run may begin: all from `lo` on, or `lo` alone.
fn starts_end(siblings: &Siblings, lo: usize, here: bool) -> usize
    ensures all { (p : ℕ) → lo ≤ p → p < length siblings.now.named → (here ≡ true → p ≡ lo)
        → p < result }
    ensures only { (p : ℕ) → lo ≤ p → p < result → here ≡ true → p ≡ lo }
{
    if !here {
        return siblings.named.len();
    }
    if lo < siblings.named.len() {
        lo + 1
    } else {
        lo
    }
}

/// Makes the ways to embed the items from a number on in the siblings from `lo` on, or those of
/// them that begin at `lo`.
#[cycle(ways)]
fn made(
    alloc: Global,
    limit: &mut Limit,
    memo: &mut HashMap<Key, List<Placing>>,
    siblings: &Siblings,
    all: &[Slot],
    slots: &[Slot],
    number: usize,
    lo: usize,
    beside: bool,
    here: bool,
) -> Result<Vec<Placing>, AllocError>
    requires few { length all.now < 2 ^ 64 }
    requires slots { slots.now ≡ drop number all.now }
    requires memo { IsMemo siblings.now all.now limit.now.cut (get key_eq memo.now) }
    ensures ways { IfOk result (λ v. FindsMost
        (Begun here lo (WaysOf siblings.now slots.now number lo beside))
        limit.old.cut limit.new.cut v.items) }
    ensures memo { OnOk result (IsMemo siblings.now all.now limit.new.cut (get key_eq memo.new)) }
{
    let Some((slot, rest)) = slots.split_first() else {
        let none = ending_begun(alloc, siblings, number, lo, beside, here)?;
        return Ok(none);
    };
    let at = Stand {
        slot: *slot,
        number,
        lo,
        beside,
    };
    let mut out = Vec::new(alloc);
    add_nothing(alloc, limit, memo, &mut out, siblings, all, rest, at, here)?;
    let end = starts_end(siblings, lo, here);
    let mut first = next_taken(siblings, number, lo);
    while first < end {
        if stops(limit, out.len()) {
            return Ok(out);
        }
        add_first(alloc, limit, memo, &mut out, siblings, all, rest, at, first)?;
        first = next_taken(siblings, number, first + 1);
    }
    Ok(out)
}

/// Makes ways with the captures of all ways in which an item without anchors takes one sibling.
/// Behind a place at which it captures nothing no more such places are tried.
#[cycle(ways)]
fn made_counted(
    alloc: Global,
    limit: &mut Limit,
    memo: &mut HashMap<Key, List<Placing>>,
    siblings: &Siblings,
    all: &[Slot],
    rest: &[Slot],
    at: Stand,
) -> Result<Vec<Placing>, AllocError>
    requires free { IsFree siblings.now at.slot rest.now }
    requires inside { at.number < length all.now }
    requires few { length all.now < 2 ^ 64 }
    requires rest { rest.now ≡ drop (at.number + 1) all.now }
    requires memo { IsMemo siblings.now all.now limit.now.cut (get key_eq memo.now) }
    ensures ways { IfOk result (λ v. FindsLike HasSameCaptures
        (WaysOf siblings.now (at.slot ∷ rest.now) at.number at.lo at.beside)
        limit.old.cut limit.new.cut v.items) }
    ensures memo { OnOk result (IsMemo siblings.now all.now limit.new.cut (get key_eq memo.new)) }
{
    let mut out = Vec::new(alloc);
    let mut silent = false;
    let mut first = next_taken(siblings, at.number, at.lo);
    while first < siblings.named.len() {
        if stops(limit, out.len()) {
            return Ok(out);
        }
        add_first(alloc, limit, memo, &mut out, siblings, all, rest, at, first)?;
        silent = is_silent_by(siblings, at.number, first, silent);
        first = next_counted(siblings, at.number, silent, first + 1);
    }
    Ok(out)
}

/// Makes ways with the captures of all ways to embed the items from a number on in the siblings
/// from `lo` on.
#[cycle(ways)]
fn made_captures(
    alloc: Global,
    limit: &mut Limit,
    memo: &mut HashMap<Key, List<Placing>>,
    siblings: &Siblings,
    all: &[Slot],
    slots: &[Slot],
    number: usize,
    lo: usize,
    beside: bool,
) -> Result<Vec<Placing>, AllocError>
    requires few { length all.now < 2 ^ 64 }
    requires slots { slots.now ≡ drop number all.now }
    requires memo { IsMemo siblings.now all.now limit.now.cut (get key_eq memo.now) }
    ensures ways { IfOk result (λ v. FindsLike HasSameCaptures
        (WaysOf siblings.now slots.now number lo beside) limit.old.cut limit.new.cut v.items) }
    ensures memo { OnOk result (IsMemo siblings.now all.now limit.new.cut (get key_eq memo.new)) }
{
    let Some((slot, rest)) = slots.split_first() else {
        let none = ending(alloc, siblings, number, lo, beside)?;
        return Ok(none);
    };
    if !is_free(siblings, *slot, rest) {
        let found = made(
            alloc, limit, memo, siblings, all, slots, number, lo, beside, false,
        )?;
        return Ok(found);
    }
    let at = Stand {
        slot: *slot,
        number,
        lo,
        beside,
    };
    let found = made_counted(alloc, limit, memo, siblings, all, rest, at)?;
    Ok(found)
}

/// Makes the ways to embed the items from a number on in the siblings from `lo` on, as they are
/// asked for.
#[cycle(ways)]
fn told(
    alloc: Global,
    limit: &mut Limit,
    memo: &mut HashMap<Key, List<Placing>>,
    siblings: &Siblings,
    all: &[Slot],
    slots: &[Slot],
    number: usize,
    lo: usize,
    beside: bool,
    wanted: Wanted,
) -> Result<Vec<Placing>, AllocError>
    requires few { length all.now < 2 ^ 64 }
    requires slots { slots.now ≡ drop number all.now }
    requires memo { IsMemo siblings.now all.now limit.now.cut (get key_eq memo.now) }
    ensures ways { IfOk result (λ v. FindsMost
        (Told wanted lo (WaysOf siblings.now slots.now number lo beside))
        limit.old.cut limit.new.cut v.items) }
    ensures memo { OnOk result (IsMemo siblings.now all.now limit.new.cut (get key_eq memo.new)) }
{
    match wanted {
        Wanted::All => {
            let found = made(
                alloc, limit, memo, siblings, all, slots, number, lo, beside, false,
            )?;
            Ok(found)
        }
        Wanted::Here => {
            let found = made(
                alloc, limit, memo, siblings, all, slots, number, lo, beside, true,
            )?;
            Ok(found)
        }
        Wanted::Captures => {
            let found = made_captures(
                alloc, limit, memo, siblings, all, slots, number, lo, beside,
            )?;
            let ways = bare(alloc, found)?;
            Ok(ways)
        }
    }
}

/// Makes the ways that a key asks for, where they are not kept.
#[cycle(ways)]
fn fill(
    alloc: Global,
    limit: &mut Limit,
    memo: &mut HashMap<Key, List<Placing>>,
    siblings: &Siblings,
    all: &[Slot],
    key: Key,
) -> Result<(), AllocError>
    requires inside { key.number ≤ length all.now }
    requires few { length all.now < 2 ^ 64 }
    requires memo { IsMemo siblings.now all.now limit.now.cut (get key_eq memo.now) }
    ensures there { OnOk result (IsThere (get key_eq memo.new) key) }
    ensures earlier { OnOk result (limit.new.cut ≡ false → limit.old.cut ≡ false) }
    ensures memo { OnOk result (IsMemo siblings.now all.now limit.new.cut (get key_eq memo.new)) }
{
    if is_kept(memo, key) {
        return Ok(());
    }
    let slots = from_number(all, key.number);
    let found = told(
        alloc, limit, memo, siblings, all, slots, key.number, key.lo, key.beside, key.wanted,
    )?;
    remember(memo, key, found)?;
    Ok(())
}

/// The full embeddings of items in a list of siblings, as they are asked for: for each the place of
/// the first sibling taken, and all captures in the order of the siblings.
///
/// # Errors
///
/// `AllocError` where memory runs out.
pub(crate) fn embeddings(
    alloc: Global,
    limit: &mut Limit,
    siblings: &Siblings,
    all: &[Slot],
    wanted: Wanted,
) -> Result<Vec<Placing>, AllocError>
    requires few { length all.now < 2 ^ 64 }
    ensures { IfOk result (λ v. FindsMost (Told wanted 0 (WaysOf siblings.now all.now 0 0 true))
        limit.old.cut limit.new.cut v.items) }
{
    let asked = Key {
        number: 0,
        lo: 0,
        beside: true,
        wanted,
    };
    let Some(key) = settled(siblings, all, asked) else {
        return Ok(Vec::new(alloc));
    };
    let mut memo = HashMap::new(alloc);
    let slots = from_number(all, key.number);
    let found = told(
        alloc, limit, &mut memo, siblings, all, slots, key.number, key.lo, key.beside, key.wanted,
    )?;
    Ok(found)
}

//! The captures of several siblings: those of each way in which an item takes one sibling go in,
//! and the lists that come of them, one sibling after another, come out.
ghost use Rattle.std.specs.Prelude.{◌≡◌, ◌++◌, ◌∷◌, ◌+◌, ◌-◌, ◌<◌, ◌≤◌, [], IfOk, IsTrue, OnOk, MatchOption, ◌↔◌, List as Values};
ghost use Rattle.std.specs.List.{Contains};
ghost use Rattle.ts_search.specs.Adding.{Adds, FindsMost, OfSome};
ghost use Rattle.spec_matches.specs.Embedding.{Along};
ghost use Rattle.ts_search.specs.Table.{Takes};
ghost use Rattle.ts_search.specs.Steps.{AreBare, Joined, JoinedTo, Before, Joins, TakenBefore};
ghost use Rattle.spec_matches.specs.declared.found.Capture.{Capture as Mark};

use crate::limit::{Limit, stops};
use crate::places::place_in_round;
use spec_matches::{Capture, Run, Slot};
use std::alloc::{AllocError, Global};
use ts_base::List;

/// One list after another.
pub(crate) fn joined(
    alloc: Global,
    front: &[Capture],
    back: &[Capture],
) -> Result<List<Capture>, AllocError>
    ensures { IfOk result (λ c. c ≡ front.now ++ back.now) }
{
    let mut items = Vec::with_capacity(alloc, front.len().saturating_add(back.len()))?;
    items.extend_from_slice(front)?;
    items.extend_from_slice(back)?;
    Ok(List::from_vec(items))
}

/// Adds a list at the end.
fn add(
    alloc: Global,
    out: &mut Vec<List<Capture>>,
    front: &[Capture],
    back: &[Capture],
) -> Result<(), AllocError>
    ensures { OnOk result (Adds (Joined front.now back.now) out.old.items out.new.items) }
{
    out.push(joined(alloc, front, back)?)?;
    Ok(())
}

/// Adds a list before each of the others.
fn add_front(
    alloc: Global,
    out: &mut Vec<List<Capture>>,
    front: &[Capture],
    backs: &[List<Capture>],
) -> Result<(), AllocError>
    ensures { OnOk result (Adds (Before backs.now front.now) out.old.items out.new.items) }
{
    for back in backs {
        add(alloc, out, front, back.as_slice())?;
    }
    Ok(())
}

/// A list before each of the others.
pub(crate) fn led(
    alloc: Global,
    front: List<Capture>,
    backs: Vec<List<Capture>>,
) -> Result<Vec<List<Capture>>, AllocError>
    ensures { IfOk result (λ all. Adds (Before backs.items front) [] all.items) }
{
    if has_only_empty(backs.as_slice()) {
        let mut one = backs;
        one.clear();
        one.push(front)?;
        return Ok(one);
    }
    let mut all = Vec::new(alloc);
    add_front(alloc, &mut all, front.as_slice(), backs.as_slice())?;
    Ok(all)
}

/// Adds each of some lists before another.
pub(crate) fn add_behind(
    alloc: Global,
    out: &mut Vec<List<Capture>>,
    fronts: &[List<Capture>],
    back: &[Capture],
) -> Result<(), AllocError>
    ensures { OnOk result (Adds (OfSome (JoinedTo back.now) fronts.now)
        out.old.items out.new.items) }
{
    for front in fronts {
        add(alloc, out, front.as_slice(), back)?;
    }
    Ok(())
}

/// Each of the lists, and then each of the others.
pub(crate) fn product(
    alloc: Global,
    limit: &mut Limit,
    fronts: &[List<Capture>],
    backs: &[List<Capture>],
) -> Result<Vec<List<Capture>>, AllocError>
    ensures { IfOk result (λ cs. FindsMost (Joins fronts.now backs.now)
        limit.old.cut limit.new.cut cs.items) }
{
    let mut out = Vec::new(alloc);
    for front in fronts {
        if stops(limit, out.len()) {
            return Ok(out);
        }
        add_front(alloc, &mut out, front.as_slice(), backs)?;
    }
    Ok(out)
}

/// The captures of the ways in which the item at `k` takes a sibling.
fn ways(
    table: &[List<List<List<List<Capture>>>>],
    k: usize,
    at: usize,
    place: usize,
) -> Option<&List<List<Capture>>>
    ensures { MatchOption result ((c : Values Mark) → Takes table.now k at place c → ⊥)
        (λ ways. (c : Values Mark) → Takes table.now k at place c ↔ Contains ways.now c) }
{
    if k < table.len() && at < table[k].len() && place < table[k].get(at).len() {
        return Some(table[k].get(at).get(place));
    }
    None
}

/// The list that has the empty list alone.
fn only_empty(alloc: Global) -> Result<Vec<List<Capture>>, AllocError>
    ensures { IfOk result (λ cs. cs.items ≡ [] ∷ []) }
{
    let mut out = Vec::new(alloc);
    out.push(List::new(alloc))?;
    Ok(out)
}

/// The captures of one more sibling before each of the lists.
fn longer(
    alloc: Global,
    limit: &mut Limit,
    table: &[List<List<List<List<Capture>>>>],
    k: usize,
    at: usize,
    place: usize,
    backs: &[List<Capture>],
) -> Result<Vec<List<Capture>>, AllocError>
    ensures { IfOk result (λ cs. FindsMost (TakenBefore table.now k at place backs.now)
        limit.old.cut limit.new.cut cs.items) }
{
    let Some(fronts) = ways(table, k, at, place) else {
        return Ok(Vec::new(alloc));
    };
    let all = product(alloc, limit, fronts.as_slice(), backs)?;
    Ok(all)
}

/// The captures of one sibling of a run in each way.
fn alone(
    alloc: Global,
    limit: &mut Limit,
    table: &[List<List<List<List<Capture>>>>],
    k: usize,
    slot: Slot,
    first: usize,
    place: usize,
) -> Result<Vec<List<Capture>>, AllocError>
    requires { first ≤ place }
    ensures { IfOk result (λ cs. FindsMost (Along (Takes table.now) k slot first 1 place)
        limit.old.cut limit.new.cut cs.items) }
{
    let empty = only_empty(alloc)?;
    let o = place_in_round(slot, first, place);
    let cs = longer(alloc, limit, table, k, o, place, empty.as_slice())?;
    Ok(cs)
}

/// A place between two others.
fn middle_of(from: usize, to: usize) -> usize
    requires { from + 2 ≤ to }
    ensures low { from < result }
    ensures high { result < to }
{
    from + (to - from) / 2
}

/// The captures of the siblings of a run from one place up to another, one after another, in each
/// way. Each half is made first, so that few lists are copied often.
#[cycle(between)]
fn between(
    alloc: Global,
    limit: &mut Limit,
    table: &[List<List<List<List<Capture>>>>],
    k: usize,
    slot: Slot,
    first: usize,
    from: usize,
    to: usize,
) -> Result<Vec<List<Capture>>, AllocError>
    requires begun { first ≤ from }
    requires order { from ≤ to }
    ensures { IfOk result (λ cs. FindsMost (Along (Takes table.now) k slot first (to - from) from)
        limit.old.cut limit.new.cut cs.items) }
{
    let count = to - from;
    if count == 0 {
        let none = only_empty(alloc)?;
        return Ok(none);
    }
    if count == 1 {
        let one = alone(alloc, limit, table, k, slot, first, from)?;
        return Ok(one);
    }
    let middle = middle_of(from, to);
    let fronts = between(alloc, limit, table, k, slot, first, from, middle)?;
    let backs = between(alloc, limit, table, k, slot, first, middle, to)?;
    let all = product(alloc, limit, fronts.as_slice(), backs.as_slice())?;
    Ok(all)
}

/// Whether a list has the empty list alone.
fn has_only_empty(ways: &[List<Capture>]) -> bool
    ensures { IsTrue result → ways.now ≡ [] ∷ [] }
{
    ways.len() == 1 && ways[0].is_empty()
}

/// Whether the item at `k` takes a sibling in one way, with no captures.
fn is_bare(table: &[List<List<List<List<Capture>>>>], k: usize, at: usize, place: usize) -> bool
    ensures { IsTrue result → (c : Values Mark) → Takes table.now k at place c ↔ (c ≡ []) }
{
    match ways(table, k, at, place) {
        None => false,
        Some(ways) => has_only_empty(ways.as_slice()),
    }
}

/// Whether the item at `k` takes each sibling of a run in one way, with no captures.
fn are_bare(table: &[List<List<List<List<Capture>>>>], k: usize, slot: Slot, run: Run) -> bool
    ensures { IsTrue result → AreBare table.now k slot run.first run.past }
{
    for place in run.first..run.past {
        if !is_bare(table, k, place_in_round(slot, run.first, place), place) {
            return false;
        }
    }
    true
}

/// The captures of the siblings of a run, one after another, in each way.
pub(crate) fn along(
    alloc: Global,
    limit: &mut Limit,
    table: &[List<List<List<List<Capture>>>>],
    k: usize,
    slot: Slot,
    run: Run,
) -> Result<Vec<List<Capture>>, AllocError>
    requires { run.first ≤ run.past }
    ensures { IfOk result (λ cs. FindsMost
        (Along (Takes table.now) k slot run.first (run.past - run.first) run.first)
        limit.old.cut limit.new.cut cs.items) }
{
    if are_bare(table, k, slot, run) {
        let none = only_empty(alloc)?;
        return Ok(none);
    }
    let all = between(alloc, limit, table, k, slot, run.first, run.first, run.past)?;
    Ok(all)
}

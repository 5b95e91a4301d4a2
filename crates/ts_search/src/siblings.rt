//! A list of siblings as the items see it: a table of what the items take goes in, and the list
//! comes out, and of it for an item and a place where the item takes a sibling next.
ghost use Rattle.std.specs.Prelude.{◌≡◌, ◌⊎◌, [], IfOk, IsTrue, false, true};
ghost use Rattle.std.specs.List.{Contains};
ghost use Rattle.ts_search.specs.Next.{IsNextAt, Passes, TakesFirst, TakesSilently};
ghost use Rattle.ts_search.specs.Table.{Takes};

use crate::next::next_over;
use crate::silent::silents;
use crate::stand::Siblings;
use spec_matches::Capture;
use std::alloc::{AllocError, Global};
use ts_base::List;

/// A list of siblings as the items see it.
pub(crate) fn siblings_of(
    alloc: Global,
    table: List<List<List<List<List<Capture>>>>>,
    named: List<bool>,
    closed: bool,
) -> Result<Siblings, AllocError>
    ensures table { IfOk result (λ s. s.table ≡ table) }
    ensures named { IfOk result (λ s. s.named ≡ named) }
    ensures closed { IfOk result (λ s. s.closed ≡ closed) }
{
    let silent = silents(alloc, table.as_slice())?;
    let taken = next_over(alloc, table.as_slice(), false, named.len())?;
    let capturing = next_over(alloc, table.as_slice(), true, named.len())?;
    Ok(Siblings {
        table,
        named,
        closed,
        silent,
        taken,
        capturing,
    })
}

/// What lists of next places have for an item and a place, or else that place.
fn next_at(next: &[List<usize>], k: usize, place: usize) -> usize
    ensures { IsNextAt next.now k place result }
{
    if k >= next.len() {
        return place;
    }
    let places = next[k].as_slice();
    if place >= places.len() {
        return place;
    }
    places[place]
}

/// The next place where the item at `k` takes a sibling as the first of a round.
pub(crate) fn next_taken(siblings: &Siblings, k: usize, place: usize) -> usize
    ensures { Passes (TakesFirst siblings.now.table false k) place result }
{
    next_at(siblings.taken.as_slice(), k, place)
}

/// The same, or the next place where it captures something.
pub(crate) fn next_counted(siblings: &Siblings, k: usize, capturing: bool, place: usize) -> usize
    ensures { Passes (TakesFirst siblings.now.table capturing k) place result }
{
    if capturing {
        return next_at(siblings.capturing.as_slice(), k, place);
    }
    next_taken(siblings, k, place)
}

/// Whether one of some ways captures nothing.
fn has_silent(ways: &[List<Capture>]) -> bool
    ensures { IsTrue result → Contains ways.now [] }
{
    for way in ways {
        if way.is_empty() {
            return true;
        }
    }
    false
}

/// Whether a row takes the sibling at a place in a way that captures nothing.
fn is_silent_in(row: &[List<List<Capture>>], place: usize) -> bool
    ensures { IsTrue result → TakesSilently row.now place }
{
    if place >= row.len() {
        return false;
    }
    has_silent(row[place].as_slice())
}

/// Whether the item at `k` takes the sibling at a place as the first of a round in a way that
/// captures nothing.
pub(crate) fn is_silent_at(siblings: &Siblings, k: usize, place: usize) -> bool
    ensures { IsTrue result → Takes siblings.now.table k 0 place [] }
{
    let table = siblings.table.as_slice();
    if k < table.len() && !table[k].is_empty() {
        return is_silent_in(table[k].get(0).as_slice(), place);
    }
    false
}

/// Whether that is so, or was known before of another place.
pub(crate) fn is_silent_by(siblings: &Siblings, k: usize, place: usize, before: bool) -> bool
    ensures { IsTrue result → (before ≡ true) ⊎ Takes siblings.now.table k 0 place [] }
{
    before || is_silent_at(siblings, k, place)
}

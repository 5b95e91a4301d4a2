//! Where items take siblings next: a table of what items take goes in, and for each item and place
//! the next place where the item takes a sibling comes out.
ghost use Rattle.std.specs.Prelude.{◌≡◌, ℕ, ◌≤◌, [], IfOk, List as Values, false};
ghost use Rattle.std.specs.List.{Contains};
ghost use Rattle.spec_matches.specs.declared.found.Capture.{Capture as Mark};
ghost use Rattle.ts_search.specs.Next.{AreNext, AreNextIn, Counts, Passes, TakesIn, TakesOf};

use crate::silent::are_silent_ways;
use spec_matches::Capture;
use std::alloc::{AllocError, Global};
use ts_base::List;

/// Whether there are ways with captures that are asked for.
fn counts(ways: &[List<Capture>], capturing: bool) -> bool
    ensures { result ≡ false → (c : Values Mark) → Contains ways.now c → Counts capturing c → ⊥ }
{
    if capturing {
        return !are_silent_ways(ways);
    }
    !ways.is_empty()
}

/// The first place from `from` on where a row takes the sibling so.
fn next_place(row: &[List<List<Capture>>], capturing: bool, from: usize) -> usize
    ensures { Passes (TakesIn row.now capturing) from result }
{
    for place in from..row.len() {
        if counts(row[place].as_slice(), capturing) {
            return place;
        }
    }
    if from < row.len() {
        return row.len();
    }
    from
}

/// The same where it is known for an earlier place.
fn next_after(row: &[List<List<Capture>>], capturing: bool, known: usize, place: usize) -> usize
    requires { (from : ℕ) × (from ≤ place) × Passes (TakesIn row.now capturing) from known }
    ensures { Passes (TakesIn row.now capturing) place result }
{
    if known < place {
        return next_place(row, capturing, place);
    }
    known
}

/// The next places where a row takes a sibling, for each place.
fn next_places(
    alloc: Global,
    row: &[List<List<Capture>>],
    capturing: bool,
) -> Result<List<usize>, AllocError>
    ensures { IfOk result (λ next. AreNextIn (TakesIn row.now capturing) next) }
{
    let mut out = Vec::with_capacity(alloc, row.len())?;
    let mut next = next_place(row, capturing, 0);
    for place in 0..row.len() {
        next = next_after(row, capturing, next, place);
        out.push(next)?;
    }
    Ok(List::from_vec(out))
}

/// The next places where an item takes a sibling as the first of a round.
fn next_of(
    alloc: Global,
    rows: &[List<List<List<Capture>>>],
    capturing: bool,
) -> Result<List<usize>, AllocError>
    ensures { IfOk result (λ next. AreNextIn (TakesOf rows.now capturing) next) }
{
    if rows.is_empty() {
        return Ok(List::new(alloc));
    }
    let next = next_places(alloc, rows[0].as_slice(), capturing)?;
    Ok(next)
}

/// The fewest siblings over which next places are made: where there are fewer, each is looked at.
const LEAST_SIBLINGS: usize = 32;

/// The next places for each item of a table, or for none where there are few siblings.
pub(crate) fn next_over(
    alloc: Global,
    table: &[List<List<List<List<Capture>>>>],
    capturing: bool,
    siblings: usize,
) -> Result<List<List<usize>>, AllocError>
    ensures { IfOk result (λ next. AreNext table.now capturing next) }
{
    if siblings < LEAST_SIBLINGS {
        return Ok(List::new(alloc));
    }
    let next = next_of_all(alloc, table, capturing)?;
    Ok(next)
}

/// The next places for each item of a table.
fn next_of_all(
    alloc: Global,
    table: &[List<List<List<List<Capture>>>>],
    capturing: bool,
) -> Result<List<List<usize>>, AllocError>
    ensures { IfOk result (λ next. AreNext table.now capturing next) }
{
    let mut out = Vec::with_capacity(alloc, table.len())?;
    for rows in table {
        let next = next_of(alloc, rows.as_slice(), capturing)?;
        out.push(next)?;
    }
    Ok(List::from_vec(out))
}

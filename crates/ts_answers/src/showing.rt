//! A query and its matches in; the matches as lines tell them out.
ghost use Rattle.std.specs.Prelude.{◌≡◌, [], map, slice_get, unwrap_or, IfOk};
ghost use Rattle.spec_history.specs.Queries.{shown_capture, shown_match};

use spec_matches::{Capture, Match};
use std::alloc::{AllocError, Global};
use ts_base::{List, Str};
use ts_query_syntax::ReadQuery;
use ts_replies::{ShownCapture, ShownMatch};

/// The matches, each with the names of its captures.
pub(crate) fn matches_shown(
    alloc: Global,
    query: &ReadQuery,
    matches: &[Match],
) -> Result<List<ShownMatch>, AllocError>
    ensures { IfOk result (λ shown. shown ≡ map (shown_match query.now) matches.now) }
{
    let mut shown = List::with_capacity(alloc, matches.len())?;
    for found in matches {
        shown.push(match_shown(alloc, query, found)?)?;
    }
    Ok(shown)
}

/// A match with the names of its captures.
fn match_shown(alloc: Global, query: &ReadQuery, found: &Match) -> Result<ShownMatch, AllocError>
    ensures { IfOk result (λ shown. shown ≡ shown_match query.now found.now) }
{
    Ok(ShownMatch {
        pattern: found.pattern,
        captures: captures_shown(alloc, query, found.captures.as_slice())?,
    })
}

/// The captures with their names.
fn captures_shown(
    alloc: Global,
    query: &ReadQuery,
    captures: &[Capture],
) -> Result<List<ShownCapture>, AllocError>
    ensures { IfOk result (λ shown. shown ≡ map (shown_capture query.now) captures.now) }
{
    let mut shown = List::with_capacity(alloc, captures.len())?;
    for capture in captures {
        shown.push(capture_shown(alloc, query, capture)?)?;
    }
    Ok(shown)
}

/// A capture with its name.
fn capture_shown(
    alloc: Global,
    query: &ReadQuery,
    capture: &Capture,
) -> Result<ShownCapture, AllocError>
    ensures { IfOk result (λ shown. shown ≡ shown_capture query.now capture.now) }
{
    Ok(ShownCapture {
        name: Str::from_text(alloc, name_of(query, capture.name))?,
        start: capture.start,
        end: capture.end,
    })
}

/// The name of the capture of this number. Each capture of a match is one of its query.
fn name_of(query: &ReadQuery, number: u16) -> &str
    ensures { result.now ≡ unwrap_or (slice_get query.now.captures number) [] }
{
    let names = query.captures.as_slice();
    if (number as usize) < names.len() {
        names[number as usize].text()
    } else {
        ""
    }
}

//! Items by which nothing is captured: a table of what items take goes in, and for each item whether
//! it captures nothing comes out.
ghost use Rattle.std.specs.Prelude.{[], IfOk, IsTrue, List as Values};
ghost use Rattle.std.specs.List.{Contains};
ghost use Rattle.spec_matches.specs.declared.found.Capture.{Capture as Mark};
ghost use Rattle.ts_search.specs.Table.{AreSilent, AreSilentRows, IsSilentRow, AreSilentWays};

use spec_matches::Capture;
use std::alloc::{AllocError, Global};
use ts_base::List;

/// Whether each of some ways captures nothing.
pub(crate) fn are_silent_ways(ways: &[List<Capture>]) -> bool
    ensures { IsTrue result → AreSilentWays ways.now }
{
    for way in ways {
        if !way.is_empty() {
            return false;
        }
    }
    true
}

/// Whether nothing is captured in a row.
fn is_silent_row(row: &[List<List<Capture>>]) -> bool
    ensures { IsTrue result → IsSilentRow row.now }
{
    for ways in row {
        if !are_silent_ways(ways.as_slice()) {
            return false;
        }
    }
    true
}

/// Whether nothing is captured in some rows.
fn are_silent_rows(rows: &[List<List<List<Capture>>>]) -> bool
    ensures { IsTrue result → AreSilentRows rows.now }
{
    for row in rows {
        if !is_silent_row(row.as_slice()) {
            return false;
        }
    }
    true
}

/// For each item of a table whether it captures nothing.
pub(crate) fn silents(
    alloc: Global,
    table: &[List<List<List<List<Capture>>>>],
) -> Result<List<bool>, AllocError>
    ensures { IfOk result (λ silent. AreSilent table.now silent) }
{
    let mut out = Vec::with_capacity(alloc, table.len())?;
    for rows in table {
        out.push(are_silent_rows(rows.as_slice()))?;
    }
    Ok(List::from_vec(out))
}

//! Matches that are gathered: matches go in, and a set of them comes out, which takes one more than
//! there may be, and no more.
ghost use Rattle.std.specs.Prelude.{◌≡◌, ◌↔◌, IfOk, OnOk, IsTrue};
ghost use Rattle.std.specs.List.Sorted.{IsStrictlySortedBy};
ghost use Rattle.spec_matches.specs.Matches.{match_cmp};
ghost use Rattle.ts_search.specs.Gathering.{Gathers, IsFull};

use crate::keep::Keep;
use spec_matches::{Match, one_order};
use std::alloc::{AllocError, Global};
use std::collections::BTreeSet;

/// How many matches there may be.
pub(crate) const MOST: usize = 100_000;

/// Whether there are more matches than there may be.
pub(crate) fn is_full(found: &BTreeSet<Match>) -> bool
    ensures full { IsTrue result ↔ IsFull found.now }
    ensures order { IsStrictlySortedBy match_cmp found.now.keys }
{
    found.len() > MOST
}

/// Adds a match, unless there are too many.
fn put(found: &mut BTreeSet<Match>, one: Match) -> Result<(), AllocError>
    ensures { OnOk result (Gathers (λ m. m ≡ one) found.old found.new) }
{
    one_order();
    if is_full(found) {
        return Ok(());
    }
    found.insert(one)?;
    Ok(())
}

/// Adds a match, where it is kept.
pub(crate) fn put_kept<K: Keep>(
    alloc: Global,
    found: &mut BTreeSet<Match>,
    keep: &mut K,
    one: Match,
) -> Result<(), AllocError>
    ensures adds { OnOk result (Gathers (λ m. (m ≡ one) × K.kept keep.old m) found.old found.new) }
    ensures same { keep.new ≡ keep.old }
{
    if keep.keeps(alloc, &one)? {
        put(found, one)?;
        return Ok(());
    }
    Ok(())
}

/// The matches in order.
pub(crate) fn listed(alloc: Global, found: BTreeSet<Match>) -> Result<Vec<Match>, AllocError>
    ensures matches { IfOk result (λ all. all.items ≡ found.keys) }
    ensures order { IfOk result (λ all. IsStrictlySortedBy match_cmp all.items) }
{
    let all: Vec<Match> = found.into_iter().collect(alloc)?;
    Ok(all)
}

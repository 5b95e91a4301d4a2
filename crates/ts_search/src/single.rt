//! A pattern of one plain item and nodes in; the matches at those nodes added to a set out.
ghost use Rattle.std.specs.Prelude.{◌≡◌, IfSome, IsTrue, OnOk};
ghost use Rattle.ts_search.specs.Adding.{OfSome};
ghost use Rattle.ts_search.specs.Gathering.{Gathers, GathersSome};
ghost use Rattle.ts_search.specs.Single.{HitAt, HitsAt, IsAlone, IsSingle};

use crate::gathering::put_kept;
use crate::keep::Keep;
use crate::limit::Limit;
use crate::once::in_order;
use crate::sight::Sight;
use crate::taking::{is_once, item_ways};
use spec_matches::{Capture, Match, one_order};
use std::alloc::{AllocError, Global};
use std::collections::BTreeSet;
use ts_base::List;
use ts_query_syntax::{Item, Pattern};

/// Whether an item takes one sibling, with no anchor before it.
fn is_single(item: &Item) -> bool
    ensures { IsTrue result → IsSingle item.now }
{
    !item.tied && is_once(item)
}

/// The item of a pattern that is one item, where it takes one sibling and no anchor stands by it.
pub(crate) fn single(pattern: &Pattern) -> Option<&Item>
    ensures { IfSome result (λ item. IsAlone item.now pattern.now) }
{
    if pattern.closed || pattern.items.len() != 1 {
        return None;
    }
    let item = pattern.items.get(0);
    if !is_single(item) {
        return None;
    }
    Some(item)
}

/// Adds the match at a node with these captures, where it is kept.
fn add_way<K: Keep>(
    alloc: Global,
    out: &mut BTreeSet<Match>,
    keep: &mut K,
    pattern: u32,
    n: u32,
    captures: List<Capture>,
) -> Result<(), AllocError>
    ensures adds { OnOk result (Gathers (HitAt (K.kept keep.old) pattern n captures)
        out.old out.new) }
    ensures same { keep.new ≡ keep.old }
{
    one_order();
    let captures = in_order(captures);
    let one = Match {
        root: n,
        pattern,
        captures,
    };
    put_kept(alloc, out, keep, one)?;
    Ok(())
}

/// Adds the matches at a node with captures in each of some ways, where they are kept.
fn add_ways<K: Keep>(
    alloc: Global,
    out: &mut BTreeSet<Match>,
    keep: &mut K,
    pattern: u32,
    n: u32,
    ways: Vec<List<Capture>>,
) -> Result<(), AllocError>
    ensures adds { OnOk result (Gathers (OfSome (HitAt (K.kept keep.old) pattern n) ways.items)
        out.old out.new) }
    ensures same { keep.new ≡ keep.old }
{
    for way in ways {
        add_way(alloc, out, keep, pattern, n, way)?;
    }
    Ok(())
}

/// Adds the matches at a node that an item takes.
fn add_taken<K: Keep>(
    alloc: Global,
    limit: &mut Limit,
    out: &mut BTreeSet<Match>,
    keep: &mut K,
    sight: &Sight,
    pattern: u32,
    item: &Item,
    n: u32,
) -> Result<(), AllocError>
    ensures adds { OnOk result (GathersSome (HitsAt sight.now (K.kept keep.old) pattern item.now n)
        limit.old.cut limit.new.cut out.old out.new) }
    ensures same { keep.new ≡ keep.old }
{
    let ways = item_ways(alloc, limit, sight, item, 0, n)?;
    add_ways(alloc, out, keep, pattern, n, ways)?;
    Ok(())
}

/// Adds the matches at each of some siblings that an item takes.
pub(crate) fn add_single<K: Keep>(
    alloc: Global,
    limit: &mut Limit,
    out: &mut BTreeSet<Match>,
    keep: &mut K,
    sight: &Sight,
    pattern: u32,
    item: &Item,
    siblings: &[u32],
) -> Result<(), AllocError>
    ensures adds { OnOk result (GathersSome
        (OfSome (HitsAt sight.now (K.kept keep.old) pattern item.now) siblings.now)
        limit.old.cut limit.new.cut out.old out.new) }
    ensures same { keep.new ≡ keep.old }
{
    for n in siblings {
        add_taken(alloc, limit, out, keep, sight, pattern, item, *n)?;
    }
    Ok(())
}

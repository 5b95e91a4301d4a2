//! The expansions of the inlined rules: what comes in are their trees and sizes, and what goes out
//! is a list of expansions for each.

ghost use Rattle.std.specs.Prelude.{◌≡◌, ◌<◌, ◌↔◌, length, slice_get, Some, All, IfOk, IsTrue};
ghost use Rattle.ts_rules.specs.Counts.{many, long};
ghost use Rattle.ts_rules.specs.Numbers.{outermost};
ghost use Rattle.ts_rules.specs.declared.size.Size.{Size as SizeValue};
ghost use Rattle.ts_rules.specs.declared.tree.Tree.{Tree as TreeValue};
ghost use Rattle.ts_productions.specs.Expansions.{Table, spread_all};
ghost use Rattle.ts_productions.specs.Roots.{AreOrderedSources, whole};
ghost use Rattle.ts_productions.specs.Sizes.{IsSizeOf, IsUsable, AreWithin, SizesHold, FullHold};

use crate::expansion::Expansion;
use crate::measure::{LONG, MANY};
use crate::sources::Sources;
use crate::spread::{Inlined, expansions_of};
use std::alloc::{AllocError, Global};
use ts_core::{Assoc, List, Prec};
use ts_rules::{Around, Size, Tree, alternatives};

/// What stands round a whole rule.
pub(crate) fn nothing_round() -> Around
    ensures { result ≡ outermost }
{
    Around {
        prec: Prec::Absent,
        assoc: Assoc::Absent,
        alias: None,
        field: None,
        dynamic: 0,
        at_end: true,
    }
}

/// Whether an inlined rule can stand in a grammar within the limits.
fn is_usable(size: Size) -> bool
    ensures { IsTrue result ↔ ((size.many < many) × (size.longest < long)) }
{
    size.many < MANY && size.longest < LONG
}

/// The expansions of a tree, or none where it is too large to be used.
fn tree_expansions(
    alloc: Global,
    inlined: &Inlined,
    size: Size,
    tree: &Tree,
) -> Result<List<Expansion>, AllocError>
    ensures { (F : Table) → IsSizeOf (spread_all F (whole tree.now)) size
        → AreWithin (spread_all F (whole tree.now))
        → All (IsUsable F inlined.now) (whole tree.now)
        → IfOk result (λ found. found ≡ spread_all F (whole tree.now)) }
{
    if !is_usable(size) {
        return Ok(List::new(alloc));
    }
    let found = alternatives(alloc, tree, &nothing_round())?;
    let found = expansions_of(alloc, inlined, found.as_slice())?;
    Ok(found)
}

/// The expansions of the tree of a place, or none where it is too large to be used.
fn place_expansions(
    alloc: Global,
    trees: &[Tree],
    inlined: &Inlined,
    place: usize,
) -> Result<List<Expansion>, AllocError>
    requires tree { place < length trees.now }
    requires size { place < length inlined.now.sizes.now }
    ensures { (F : Table) (tree : TreeValue) (size : SizeValue)
        → slice_get trees.now place ≡ Some tree → slice_get inlined.now.sizes.now place ≡ Some size
        → IsSizeOf (spread_all F (whole tree)) size → AreWithin (spread_all F (whole tree))
        → All (IsUsable F inlined.now) (whole tree)
        → IfOk result (λ found. found ≡ spread_all F (whole tree)) }
{
    let found = tree_expansions(alloc, inlined, inlined.sizes[place], &trees[place])?;
    Ok(found)
}

/// A list without entries for each inlined rule.
fn empty_lists(alloc: Global, count: usize) -> Result<Vec<List<Expansion>>, AllocError>
    ensures { IfOk result (λ lists. length lists.items ≡ count) }
{
    let mut lists = Vec::new(alloc);
    for _ in 0..count {
        lists.push(List::new(alloc))?;
    }
    Ok(lists)
}

/// The expansions of each inlined rule that is not too large to be used, by its place.
pub(crate) fn inlined_expansions(
    alloc: Global,
    sources: &Sources,
    sizes: &[Size],
) -> Result<Vec<List<Expansion>>, AllocError>
    requires ordered { AreOrderedSources sources.now }
    requires sizes { SizesHold sources.now sources.now.order.now sizes.now }
    ensures { IfOk result (λ full. FullHold sources.now sources.now.order.now full.items) }
{
    let mut full = empty_lists(alloc, sources.inlined.len())?;
    for place in sources.order {
        let inlined = Inlined {
            first: sources.first_inlined,
            sizes,
            full: full.as_slice(),
        };
        let found = place_expansions(alloc, sources.inlined, &inlined, *place)?;
        full[*place] = found;
    }
    Ok(full)
}

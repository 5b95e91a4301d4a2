//! How many productions a grammar has in all, and how long the longest is: what comes in are its
//! rule trees, and what goes out are the sizes before and after inlining.

ghost use Rattle.std.specs.Prelude.{◌≡◌, ◌+◌, ◌<◌, ◌≤◌, min, max, length, slice_get, Some, IfOk};
ghost use Rattle.ts_rules.specs.Alternatives.{longest_of};
ghost use Rattle.ts_rules.specs.declared.tree.Tree.{Tree as TreeValue};
ghost use Rattle.ts_rules.specs.Counts.{many, long};
ghost use Rattle.ts_productions.specs.Expansions.{Table, IsFull, spread_all};
ghost use Rattle.ts_productions.specs.Roots.{AreOrderedSources, inlined_at, whole, whole_all, filled_all, repeated_all, roots_of, before_of};
ghost use Rattle.ts_productions.specs.Sizes.{IsSmallMeasure, IsSmallSize, IsSizeBy, IsSizeOf, SizesHold};

use crate::measure::{LONG, MANY, Measure, measure_of};
use crate::sources::Sources;
use crate::weights::Weights;
use std::alloc::{AllocError, Global};
use ts_rules::{Size, Tree};

/// The size of what a measure counts.
fn size_of(measure: Measure) -> Size
    requires { IsSmallMeasure measure }
    ensures many { result.many ≡ min many (measure.blank + measure.filled) }
    ensures longest { result.longest ≡ measure.longest }
    ensures small { IsSmallSize result }
{
    Size {
        many: (measure.blank + measure.filled).min(MANY),
        longest: measure.longest,
    }
}

/// The sizes of two lists together.
fn both(first: Size, second: Size) -> Size
    requires { IsSmallSize first × IsSmallSize second }
    ensures many { result.many ≡ min many (first.many + second.many) }
    ensures longest { result.longest ≡ max first.longest second.longest }
    ensures small { IsSmallSize result }
{
    Size {
        many: (first.many + second.many).min(MANY),
        longest: first.longest.max(second.longest),
    }
}

/// The size of all alternatives of trees.
fn trees_size(trees: &[Tree], weights: &Weights) -> Size
    ensures size { IsSizeBy weights.now (whole_all trees.now) result }
    ensures small { IsSmallSize result }
{
    let mut all = Size {
        many: 0,
        longest: 0,
    };
    for tree in trees {
        all = both(all, size_of(measure_of(tree, weights)));
    }
    all
}

/// The size of all alternatives of trees that are not empty.
fn filled_size(trees: &[Tree], weights: &Weights) -> Size
    ensures size { IsSizeBy weights.now (filled_all trees.now) result }
    ensures small { IsSmallSize result }
{
    let mut all = Size {
        many: 0,
        longest: 0,
    };
    for tree in trees {
        let found = measure_of(tree, weights);
        all = both(
            all,
            Size {
                many: found.filled,
                longest: found.longest,
            },
        );
    }
    all
}

/// The size of all productions of repetitions, by that of the filled alternatives of their
/// contents.
fn repeated_size(filled: Size) -> Size
    requires { IsSmallSize filled }
    ensures many { result.many ≡ min many (filled.many + filled.many) }
    ensures none { filled.many ≡ 0 → result.longest ≡ filled.longest }
    ensures some { 1 ≤ filled.many → result.longest ≡ min long (filled.longest + 1) }
    ensures small { IsSmallSize result }
{
    if filled.many == 0 {
        filled
    } else {
        Size {
            many: (filled.many + filled.many).min(MANY),
            longest: (filled.longest + 1).min(LONG),
        }
    }
}

/// The size of all productions of rules and repetitions.
fn roots_size(sources: &Sources, weights: &Weights) -> Size
    requires { sources.now.first_repetition + length sources.now.contents.now ≤ weights.now.first }
    ensures size { IsSizeBy weights.now (roots_of sources.now) result }
    ensures small { IsSmallSize result }
{
    both(
        trees_size(sources.rules, weights),
        repeated_size(filled_size(sources.contents, weights)),
    )
}

/// The size of all productions before inlining, those of the inlined rules among them.
pub(crate) fn size_before(sources: &Sources) -> Size
    requires { AreOrderedSources sources.now }
    ensures many { result.many ≡ min many (length (before_of sources.now)) }
    ensures longest { result.longest ≡ min long (longest_of (before_of sources.now)) }
{
    let weights = Weights {
        first: sources.first_inlined,
        sizes: &[],
    };
    both(
        trees_size(sources.inlined, &weights),
        roots_size(sources, &weights),
    )
}

/// The size of the tree of a place.
fn place_size(trees: &[Tree], place: usize, weights: &Weights) -> Size
    requires { place < length trees.now }
    ensures { (tree : TreeValue) → slice_get trees.now place ≡ Some tree
        → IsSizeBy weights.now (whole tree) result }
{
    size_of(measure_of(&trees[place], weights))
}

/// The sizes of the inlined rules once inlined themselves.
pub(crate) fn inlined_sizes(alloc: Global, sources: &Sources) -> Result<Vec<Size>, AllocError>
    requires { AreOrderedSources sources.now }
    ensures { IfOk result (λ sizes. SizesHold sources.now sources.now.order.now sizes.items) }
{
    let none = Size {
        many: 0,
        longest: 0,
    };
    let mut sizes = vec![in alloc; none; sources.inlined.len()]?;
    for place in sources.order {
        let weights = Weights {
            first: sources.first_inlined,
            sizes: sizes.as_slice(),
        };
        let size = place_size(sources.inlined, *place, &weights);
        sizes[*place] = size;
    }
    Ok(sizes)
}

/// The size of all productions after inlining.
pub(crate) fn size_after(sources: &Sources, sizes: &[Size]) -> Size
    requires ordered { AreOrderedSources sources.now }
    requires sizes { SizesHold sources.now sources.now.order.now sizes.now }
    ensures { (F : Table) → IsFull (inlined_at sources.now) F
        → IsSizeOf (spread_all F (roots_of sources.now)) result }
{
    let weights = Weights {
        first: sources.first_inlined,
        sizes,
    };
    roots_size(sources, &weights)
}

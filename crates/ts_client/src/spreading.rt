//! Queries of one step, the version that is held, its tree and what is kept in; what each of the
//! queries finds out. They are asked on several threads where that is worth while.
ghost use Rattle.std.specs.Prelude.{◌≡◌, ℕ, ◌<◌, All, IfOk, IfSome, Some, None, map, length, slice_get, slice_index_or};
ghost use Rattle.spec_runs.specs.Outcomes.{tree_outcome, Fresh};
ghost use Rattle.ts_replay.specs.Sights.{IsSightOf, StandsFor};

use spec_history::{Finder, found_one_by_one};
use std::alloc::{AllocError, Global};
use std::thread::{self, Threads};
use ts_base::{List, Shared};
use ts_docs::Version;
use ts_match::VisibleTree;
use ts_node::Node;
use ts_replay::{Sighted, sight_of};
use ts_replies::ShownResult;
use ts_text::Text;

/// How many nodes a tree has at least where its visible tree is kept, and where queries are asked
/// on several threads. In a smaller one most are answered within a millisecond.
const FEWEST_NODES: u32 = 1000;

/// What queries of these numbers find in the text of a version. Where its tree is not small, they
/// are asked in the visible tree that is kept, if it is of that text, and else in a new one, which
/// is kept then.
///
/// # Errors
///
/// `AllocError` where memory runs out. Then none is kept of a tree that is not small.
pub(crate) fn found_in<'g, R: Threads + Sync, F: Finder + Sync>(
    rt: &R,
    alloc: Global,
    finder: &'g F,
    kept: &mut Option<Sighted<'g>>,
    held: &Shared<Version>,
    root: &Node,
    numbers: &[u32],
) -> Result<List<ShownResult>, AllocError>
    requires fresh { Fresh (F.form finder.now) held.now.text (tree_outcome root.now) }
    requires there { All (λ (number : ℕ). number < F.count finder.now) numbers.now }
    requires kept { StandsFor (F.form finder.now) kept.old }
    ensures kept { StandsFor (F.form finder.now) kept.new }
    ensures finds { IfOk result (F.finds finder.now held.now.text numbers.now) }
{
    let text = held.get().text();
    if root.nodes() < FEWEST_NODES {
        return finder.find(alloc, text, root, numbers);
    }
    let sighted = sight_of(alloc, finder.grammar(), kept.take(), held, root)?;
    let results = found_at_once(rt, alloc, finder, text, &sighted.tree, numbers)?;
    *kept = Some(sighted);
    Ok(results)
}

/// What the queries find in the visible tree of a text, each asked on a thread of its own.
fn found_at_once<R: Threads + Sync, F: Finder + Sync>(
    rt: &R,
    alloc: Global,
    finder: &F,
    text: &Text,
    tree: &VisibleTree,
    numbers: &[u32],
) -> Result<List<ShownResult>, AllocError>
    requires tree { IsSightOf (F.form finder.now) text.now tree.now }
    requires there { All (λ (number : ℕ). number < F.count finder.now) numbers.now }
    ensures { IfOk result (F.finds finder.now text.now numbers.now) }
{
    found_one_by_one(finder);
    let places = found_each(rt, alloc, finder, text, tree, numbers)?;
    all_found(alloc, places)
}

/// What each query comes to, at its place, and nothing there where memory runs out. All but one are
/// asked on new threads. Where no thread can be started, the one that would have started it asks.
fn found_each<R: Threads + Sync, F: Finder + Sync>(
    rt: &R,
    alloc: Global,
    finder: &F,
    text: &Text,
    tree: &VisibleTree,
    numbers: &[u32],
) -> Result<Vec<Option<ShownResult>>, AllocError>
    requires there { All (λ (number : ℕ). number < F.count finder.now) numbers.now }
    ensures count { IfOk result (λ places. length places.items ≡ length numbers.now) }
    ensures each { IfOk result (λ places. (index number : ℕ)
        → slice_get numbers.now index ≡ Some number
        → IfSome (slice_index_or places.items index None)
        (F.finds_one finder.now text.now tree.now number)) }
{
    thread::map_indices(
        rt,
        alloc,
        numbers.len(),
        &|index: usize| -> Option<ShownResult>
            requires { All (λ (number : ℕ). number < F.count finder.now) numbers.now
                × (index < length numbers.now) }
            ensures { (number : ℕ) → slice_get numbers.entry.now index ≡ Some number
                → IfSome result
                (F.finds_one finder.entry.now text.entry.now tree.entry.now number) }
        { finder.find_one(alloc, text, tree, numbers[index]).ok() },
    )
}

/// What stands at all places, if there is something at each.
fn all_found(
    alloc: Global,
    places: Vec<Option<ShownResult>>,
) -> Result<List<ShownResult>, AllocError>
    ensures { IfOk result (λ results. places.items ≡ map Some results) }
{
    let mut results = List::with_capacity(alloc, places.len())?;
    for place in places {
        match place {
            Some(result) => results.push(result)?,
            None => return Err(AllocError),
        }
    }
    Ok(results)
}

//! Queries of a step: their numbers, the version that is held, its tree and what is kept of the
//! version that was asked last go in; what they find comes out, and this version is kept.
ghost use Rattle.std.specs.Prelude.{◌≡◌, ℕ, ◌<◌, All, IfOk};
ghost use Rattle.ts_script.specs.declared.plan.ScriptStep.TheVariants as script_step;
ghost use Rattle.spec_runs.specs.Outcomes.{tree_outcome, Fresh};
ghost use Rattle.ts_replay.specs.Sights.{IsSightOf, StandsFor};
ghost use Rattle.ts_replay.specs.Steps.{Place, Does};

use crate::keeping::sight_of;
use crate::sighted::Sighted;
use spec_history::{Finder, found_one_by_one};
use std::alloc::{AllocError, Global};
use ts_base::{List, Shared};
use ts_docs::Version;
use ts_match::VisibleTree;
use ts_node::Node;
use ts_replies::{Reply, ShownResult};
use ts_text::Text;

/// What queries find in the tree of the held version. Where memory runs out nothing is kept.
pub(crate) fn found<'f, F: Finder>(
    alloc: Global,
    finder: &'f F,
    kept: &mut Option<Sighted<'f>>,
    held: &Shared<Version>,
    root: &Node,
    queries: &[u32],
) -> Reply
    requires form { F.form finder.now ≡ held.now.table.grammar }
    requires fresh { Fresh held.now.table.grammar held.now.text (tree_outcome root.now) }
    requires there { All (λ (number : ℕ). number < F.count finder.now) queries.now }
    requires kept { StandsFor (F.form finder.now) kept.old }
    ensures kept { StandsFor (F.form finder.now) kept.new }
    ensures does { (client number at : ℕ) (before : Place) → before.held ≡ held.now
        → Does (F.finds finder.now) client number before (script_step.Query at queries.now) result
        before }
{
    let version = held.get().number();
    match found_in(alloc, finder, kept, held, root, queries) {
        Ok(results) => Reply::Results { results, version },
        Err(_) => Reply::Memory { version },
    }
}

/// What queries of these numbers find in the text of a version: they are asked in the visible tree
/// that is kept, if it is of that text, and else in a new one, which is kept then.
fn found_in<'f, F: Finder>(
    alloc: Global,
    finder: &'f F,
    kept: &mut Option<Sighted<'f>>,
    held: &Shared<Version>,
    root: &Node,
    numbers: &[u32],
) -> Result<List<ShownResult>, AllocError>
    requires fresh { Fresh (F.form finder.now) held.now.text (tree_outcome root.now) }
    requires there { All (λ (number : ℕ). number < F.count finder.now) numbers.now }
    requires kept { StandsFor (F.form finder.now) kept.old }
    ensures kept { StandsFor (F.form finder.now) kept.new }
    ensures finds { IfOk result (F.finds finder.now held.now.text numbers.now) }
{
    let sighted = sight_of(alloc, finder.grammar(), kept.take(), held, root)?;
    let results = found_each(alloc, finder, held.get().text(), &sighted.tree, numbers)?;
    *kept = Some(sighted);
    Ok(results)
}

/// What the queries find in the visible tree of a text, one after the other.
fn found_each<F: Finder>(
    alloc: Global,
    finder: &F,
    text: &Text,
    tree: &VisibleTree,
    numbers: &[u32],
) -> Result<List<ShownResult>, AllocError>
    requires sight { IsSightOf (F.form finder.now) text.now tree.now }
    requires there { All (λ (number : ℕ). number < F.count finder.now) numbers.now }
    ensures { IfOk result (F.finds finder.now text.now numbers.now) }
{
    found_one_by_one(finder);
    let mut results = List::with_capacity(alloc, numbers.len())?;
    for number in numbers {
        results.push(finder.find_one(alloc, text, tree, *number)?)?;
    }
    Ok(results)
}

//! Queries at a desk: their numbers and the tree of the version that is held go in; what they find
//! in it comes out.
ghost use Rattle.std.specs.Prelude.{◌≡◌, ℕ, ◌<◌, All};
ghost use Rattle.spec_runs.specs.Outcomes.{tree_outcome, Fresh};
ghost use Rattle.ts_script.specs.declared.plan.ScriptStep.TheVariants as script_step;
ghost use Rattle.ts_replay.specs.Sights.{StandsFor};
ghost use Rattle.ts_client.specs.Steps.{standing_at, Serves};

use crate::desk::Desk;
use crate::spreading::found_in;
use spec_history::Finder;
use std::alloc::Global;
use std::thread::Threads;
use ts_node::Node;
use ts_replay::Sighted;
use ts_replies::Reply;

/// What queries find in the tree of the held version, whose visible tree may be kept.
pub(crate) fn found<'g, R: Threads + Sync, F: Finder + Sync>(
    rt: &R,
    alloc: Global,
    finder: &'g F,
    kept: &mut Option<Sighted<'g>>,
    desk: &Desk,
    root: &Node,
    queries: &[u32],
) -> Reply
    requires form { F.form finder.now ≡ desk.now.version.table.grammar }
    requires fresh { Fresh desk.now.version.table.grammar desk.now.version.text
        (tree_outcome root.now) }
    requires there { All (λ (number : ℕ). number < F.count finder.now) queries.now }
    requires kept { StandsFor (F.form finder.now) kept.old }
    ensures kept { StandsFor (F.form finder.now) kept.new }
    ensures serves { (client number document : ℕ) → Serves (F.finds finder.now) client number
        (standing_at desk.now) (script_step.Query document queries.now) result
        (standing_at desk.now) }
{
    let version = desk.number;
    match found_in(rt, alloc, finder, kept, &desk.version, root, queries) {
        Ok(results) => Reply::Results { results, version },
        Err(_) => Reply::Memory { version },
    }
}

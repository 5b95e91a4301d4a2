//! Acceptance: a stack with the start rule alone on it goes in, and its root with all extras comes
//! out.
ghost use Rattle.std.specs.Prelude.{◌≡◌, ◌≤◌, ℕ, length, IfOk, None};
ghost use Rattle.ts_base.specs.Bytes.{Bytes};
ghost use Rattle.spec_tables.specs.Actions.{Act, accept as accepting_on};
ghost use Rattle.spec_trees.specs.Trees.{bare, children_of, span_of, state_of};
ghost use Rattle.spec_trees.specs.Choice.{IsInForm};
ghost use Rattle.spec_forced.specs.Sound.{States, IsSound};
ghost use Rattle.ts_gss.specs.Stacks.{stack_at, trees_on};
ghost use Rattle.ts_steps.specs.Good.{EachTree};
ghost use Rattle.ts_steps.specs.LiveHeads.{config_of, read_on, IsRootOf};
ghost use Rattle.ts_steps.specs.Accepting.{IsWholeRoot};
ghost use Rattle.ts_steps.specs.Settings.{IsParseSetting};
ghost use Rattle.ts_steps.specs.Heads.{AreStatesOf, IsOwnWithin, IsOwnHead, StandOnHead};

use crate::head::StackHead;
use crate::laws::{laws_hold, sound_laws_hold};
use crate::setting::ParseSetting;
use std::alloc::{AllocError, Global};
use ts_gss::{Graph, Lifted};
use ts_node::{Node, accept as accepted_root};
use ts_table::Table;

/// The accepted root of a stack: the extras before and after it are its children too. It
/// examined the whole text, and its end, and has no state.
///
/// # Errors
///
/// `AllocError` where memory runs out.
pub fn accept(
    alloc: Global,
    table: &Table,
    setting: &ParseSetting,
    graph: &Graph,
    head: StackHead,
) -> Result<Node, AllocError>
    requires setting { IsParseSetting table.now setting.now.size setting.now }
    requires live { IsOwnHead table.now setting.now.size graph.now head }
    requires stays { (token : ℕ)
        × Act table.now.grammar (read_on graph.now head) token accepting_on }
    ensures made { IfOk result
        (IsWholeRoot setting.now.size (trees_on (stack_at graph.now head.top))) }
    ensures root { IfOk result (λ node. IsRootOf (config_of graph.now head).stack (bare node)) }
    ensures form { IfOk result (IsInForm table.now.grammar) }
    ensures within { IfOk result (λ node. span_of node ≤ setting.now.size) }
    ensures state { IfOk result (λ node. state_of node ≡ None) }
    ensures own { IfOk result
        (λ node. EachTree (IsOwnWithin table.now.grammar) (children_of node)) }
    ensures sound { IfOk result (λ node. (states : States) (text : Bytes)
        → length text ≡ setting.now.size → AreStatesOf table.now states
        → StandOnHead table.now states text graph.now head
        → IsSound table.now.grammar states text node) }
{
    laws_hold();
    sound_laws_hold();
    table.stands();
    let Lifted {
        extras: mut after,
        under,
    } = graph.lift(alloc, head.top)?;
    let root = graph.node(under);
    let lowest = graph.lift(alloc, graph.below(under))?;
    let mut before = lowest.extras;
    after.reverse();
    before.reverse();
    let node = accepted_root(
        alloc,
        root,
        before.as_slice(),
        after.as_slice(),
        setting.size + 1,
    )?;
    Ok(node)
}

//! The best tree that a graph accepts: heads that accept go in, and the best of the trees on all
//! ways down from them comes out.
ghost use Rattle.std.specs.Prelude.{◌≡◌, ℕ, ◌∷◌, [], IfOk, OnOk, Option};
ghost use Rattle.ts_base.specs.Bytes.{Bytes};
ghost use Rattle.spec_trees.specs.declared.tree.Tree.{Tree};
ghost use Rattle.ts_table.specs.declared.view.ParseTable.{ParseTable};
ghost use Rattle.ts_places.specs.Choosing.{HasForm};
ghost use Rattle.ts_places.specs.Best.{CanChoose, KeepsRoots, IsBestOn};

use crate::choosing::keep;
use crate::end_laws::end_laws_hold;
use crate::roots::root_on;
use std::alloc::{AllocError, Global};
use ts_graph::Graph;
use ts_node::Node;

/// Keeps the best of the trees that a head accepts, and of the best one so far.
fn keep_roots(
    alloc: Global,
    graph: &Graph,
    size: u32,
    head: usize,
    best: &mut Option<Node>,
) -> Result<(), AllocError>
    requires { (t : ParseTable) × (text : Bytes)
        × CanChoose t text graph.now size (head ∷ []) × HasForm t.grammar best.old }
    ensures { OnOk result ((t : ParseTable) (text : Bytes)
        → CanChoose t text graph.now size (head ∷ []) → HasForm t.grammar best.old
        → KeepsRoots t text graph.now (head ∷ []) best.old best.new) }
{
    end_laws_hold();
    let ways = graph.ways(alloc, head, 1)?;
    for way in ways.as_slice() {
        let node = root_on(alloc, graph, size, way)?;
        keep(best, node);
    }
    Ok(())
}

/// The best tree that the graph accepts at some heads, and none where there are no heads. Each of
/// them accepts on the token that it sees.
///
/// # Errors
///
/// `AllocError` where memory runs out.
pub fn best_of(
    alloc: Global,
    graph: &Graph,
    size: u32,
    heads: &[usize],
) -> Result<Option<Node>, AllocError>
    requires { (t : ParseTable) × (text : Bytes) × CanChoose t text graph.now size heads.now }
    ensures { IfOk result (λ best. (t : ParseTable) (text : Bytes)
        → CanChoose t text graph.now size heads.now
        → IsBestOn t text graph.now heads.now best) }
{
    end_laws_hold();
    let mut best = None;
    for head in heads {
        keep_roots(alloc, graph, size, *head, &mut best)?;
    }
    Ok(best)
}

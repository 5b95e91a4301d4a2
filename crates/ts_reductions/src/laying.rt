//! Trees on heads: a tree and the head below it go in, and the graph with a link for the tree comes
//! out, together with the number of the head above it.
ghost use Rattle.std.specs.Prelude.{ℕ, ◌≡◌, ◌+◌, get_or, IfOk, OnOk};
ghost use Rattle.spec_trees.specs.Trees.{all_spans};
ghost use Rattle.spec_graph.specs.Laying.{Parsing};
ghost use Rattle.ts_graph.specs.Down.{place_at};
ghost use Rattle.ts_reductions.specs.Laying.{CanLayOn, IsLaid, CanLayExtras, AreExtrasLaid, CanLayMade, end_of, IsMadeLaid, CanLayAll, AreAllLaid};

use crate::laying_laws::laws_hold;
use crate::made::{Made, Piece};
use spec_graph::Head;
use std::alloc::AllocError;
use ts_graph::Graph;
use ts_node::Node;

/// Lays a tree on a head: the link up to the head behind it is made, or the tree is packed into it.
/// That head is sought beside one that stands where the tree ends, if one is known.
///
/// # Errors
///
/// `AllocError` where memory runs out. A head may be there then that no link leads down from.
pub fn lay(
    graph: &mut Graph,
    below: usize,
    piece: Piece,
    beside: Option<usize>,
) -> Result<usize, AllocError>
    requires { (P : Parsing)
        × CanLayOn P graph.old below piece.node piece.depth piece.state }
    ensures { IfOk result (λ above. (P : Parsing)
        → CanLayOn P graph.old below piece.node piece.depth piece.state
        → IsLaid P graph.old graph.new below (place_at graph.old.heads below) piece.node
        piece.depth piece.state above) }
{
    laws_hold();
    let Piece { node, depth, state } = piece;
    let from = graph.head(below);
    let above = graph.open(
        Head {
            state,
            place: from.place + (node.pad() + node.size()),
        },
        beside,
    )?;
    match graph.between(above, below) {
        Some(link) => graph.pack(link, node, depth),
        None => graph.push(above, below, node, depth)?,
    }
    Ok(above)
}

/// The head that stands where so many trees of a reduction end, and one more.
fn head_at_end(under: &[usize], last: usize, count: usize) -> usize
    ensures { result ≡ get_or under.now count last }
{
    if count < under.len() {
        under[count]
    } else {
        last
    }
}

/// Lays extras on a head, the first of them the lowest. The state is the same behind each of them.
///
/// # Errors
///
/// `AllocError` where memory runs out. Some of the extras may be laid then.
pub(crate) fn lay_extras(
    graph: &mut Graph,
    base: usize,
    extras: &[Node],
    state: u16,
    under: &[usize],
    last: usize,
) -> Result<(), AllocError>
    requires { (P : Parsing) × CanLayExtras P graph.old base extras.now state }
    ensures { OnOk result ((P : Parsing) → CanLayExtras P graph.old base extras.now state
        → AreExtrasLaid P graph.old graph.new base
        (place_at graph.old.heads base + all_spans extras.now) extras.now) }
{
    laws_hold();
    let mut top = base;
    let mut count = 1;
    for extra in extras {
        let piece = Piece {
            node: extra.try_clone()?,
            depth: 1,
            state,
        };
        top = lay(graph, top, piece, Some(head_at_end(under, last, count)))?;
        count = count.saturating_add(1);
    }
    Ok(())
}

/// Lays the node of a reduction on the head below it, and the extras on the node.
///
/// # Errors
///
/// `AllocError` where memory runs out. Some of the trees may be laid then.
pub(crate) fn lay_made(graph: &mut Graph, made: &Made) -> Result<(), AllocError>
    requires { (P : Parsing) × CanLayMade P graph.old made.now }
    ensures { OnOk result ((P : Parsing) → CanLayMade P graph.old made.now
        → IsMadeLaid P graph.old graph.new (end_of graph.old made.now) made.now) }
{
    laws_hold();
    let piece = Piece {
        node: made.piece.node.try_clone()?,
        depth: made.piece.depth,
        state: made.piece.state,
    };
    let under = made.under.as_slice();
    let beside = Some(head_at_end(under, made.top.head, 0));
    let base = lay(graph, made.below, piece, beside)?;
    let extras = made.extras.as_slice();
    let last = made.top.head;
    lay_extras(graph, base, extras, made.piece.state, under, last)?;
    Ok(())
}

/// Lays what reductions make, one after another. All of it ends at one place.
///
/// # Errors
///
/// `AllocError` where memory runs out. Some of the trees may be laid then.
pub(crate) fn lay_all(graph: &mut Graph, mades: &[Made]) -> Result<(), AllocError>
    requires { (P : Parsing) × (look : ℕ) × CanLayAll P graph.old look mades.now }
    ensures { OnOk result ((P : Parsing) (look : ℕ) → CanLayAll P graph.old look mades.now
        → AreAllLaid P graph.old graph.new look mades.now) }
{
    laws_hold();
    for made in mades {
        lay_made(graph, made)?;
    }
    Ok(())
}

//! Goes on over what is seen at the heads of a place: the graph and the tokens go in, and the graph
//! with a leaf for each that is shifted, and for each extra that is passed, comes out.
ghost use Rattle.std.specs.Prelude.{◌≡◌, ℕ, ◌+◌, ◌<◌, ◌^◌, length, IfSome, OnOk};
ghost use Rattle.ts_graph.specs.Down.{place_at};
ghost use Rattle.ts_base.specs.Bytes.{Bytes};
ghost use Rattle.ts_table.specs.declared.view.ParseTable.{ParseTable};
ghost use Rattle.ts_reductions.specs.Sound.{Base as AnyBase};
ghost use Rattle.ts_places.specs.Shifting.{IsOnward, CanOpen, CanShift, CanPass, AreAllSights, IsHeadOpened, AreShifted};

use crate::shift_laws::{leaf_laws_hold, look_laws_hold};
use crate::sights::{Sights, Span};
use std::alloc::AllocError;
use ts_core::Action;
use ts_graph::Graph;
use ts_node::Node;
use ts_reductions::{Piece, Top, lay};
use ts_table::Table;

/// What actions on a token ask for beside reductions.
#[derive(Clone, Copy)]
pub(crate) enum Onward {
    /// To shift it, to this state.
    Shift(u16),
    /// To pass it as an extra.
    Pass,
    Stay,
}

/// What actions on a token ask for beside reductions.
fn way_on(actions: &[Action]) -> Onward
    ensures { IsOnward actions.now result }
{
    if actions.is_empty() {
        return Onward::Pass;
    }
    for action in actions {
        match action {
            Action::Shift(state) => return Onward::Shift(*state),
            Action::Reduce(_) => continue,
            Action::Accept => continue,
        }
    }
    Onward::Stay
}

/// Where a token ends that is seen at a place.
fn end_of(place: u32, span: Span) -> u32
    ensures { place + (span.pad + span.size) < 2 ^ 32 → result ≡ place + (span.pad + span.size) }
{
    place.saturating_add(span.pad).saturating_add(span.size)
}

/// A head at a place, if one is found there among some that wait and those that came since there
/// were so many, the newest first.
fn beside(graph: &Graph, waiting: &[usize], from: usize, place: u32) -> Option<usize>
    ensures { IfSome result (λ head. (head < length graph.now.heads)
        × (place_at graph.now.heads head ≡ place)) }
{
    for number in (from..graph.count()).rev() {
        if graph.stands_at(number, place) {
            return Some(number);
        }
    }
    for number in waiting {
        if graph.stands_at(*number, place) {
            return Some(*number);
        }
    }
    None
}

/// Lays the leaf of a token that is shifted on the head that sees it.
fn shift(
    graph: &mut Graph,
    top: Top,
    span: Span,
    state: u16,
    beside: Option<usize>,
) -> Result<(), AllocError>
    requires { (t : ParseTable) × (text : Bytes) × (base : AnyBase) × (look : ℕ)
        × CanShift t text base graph.old look top span state }
    ensures { OnOk result ((t : ParseTable) (text : Bytes) (base : AnyBase) (look : ℕ)
        → CanShift t text base graph.old look top span state
        → IsHeadOpened t text base graph.old graph.new look top.head) }
{
    look_laws_hold();
    leaf_laws_hold();
    let node = Node::leaf(top.token, span.pad, span.size, top.ahead, None);
    let _ = node.nodes();
    let piece = Piece {
        node,
        depth: 1,
        state,
    };
    lay(graph, top.head, piece, beside)?;
    Ok(())
}

/// Lays an extra that is passed on the head that sees it. The state stays.
fn pass(
    graph: &mut Graph,
    top: Top,
    span: Span,
    state: u16,
    beside: Option<usize>,
) -> Result<(), AllocError>
    requires { (t : ParseTable) × (text : Bytes) × (base : AnyBase) × (look : ℕ)
        × CanPass t text base graph.old look top span state }
    ensures { OnOk result ((t : ParseTable) (text : Bytes) (base : AnyBase) (look : ℕ)
        → CanPass t text base graph.old look top span state
        → IsHeadOpened t text base graph.old graph.new look top.head) }
{
    look_laws_hold();
    leaf_laws_hold();
    let leaf = Node::leaf(top.token, span.pad, span.size, top.ahead, None);
    let node = leaf.as_extra();
    let _ = node.nodes();
    let piece = Piece {
        node,
        depth: 1,
        state,
    };
    lay(graph, top.head, piece, beside)?;
    Ok(())
}

/// Goes on over the token that a head sees. The head behind it is sought beside one of those that
/// wait, or that came since there were so many.
fn open(
    table: &Table,
    graph: &mut Graph,
    top: Top,
    span: Span,
    waiting: &[usize],
    from: usize,
) -> Result<(), AllocError>
    requires { (text : Bytes) × (base : AnyBase) × (look : ℕ)
        × CanOpen table.now text base graph.old look top span }
    ensures { OnOk result ((text : Bytes) (base : AnyBase) (look : ℕ)
        → CanOpen table.now text base graph.old look top span
        → IsHeadOpened table.now text base graph.old graph.new look top.head) }
{
    look_laws_hold();
    leaf_laws_hold();
    let head = graph.head(top.head);
    let beside = beside(graph, waiting, from, end_of(head.place, span));
    match way_on(table.actions(head.state, top.token)) {
        Onward::Shift(state) => {
            shift(graph, top, span, state, beside)?;
            Ok(())
        }
        Onward::Pass => {
            pass(graph, top, span, head.state, beside)?;
            Ok(())
        }
        Onward::Stay => Ok(()),
    }
}

/// Goes on over all tokens that the heads of a place see: a token that is shifted gets a leaf, and
/// so does an extra that has no action there. The heads behind them are sought beside those that
/// wait, and those that came since there were so many.
///
/// # Errors
///
/// `AllocError` where memory runs out. Some of the leaves may be laid then.
pub(crate) fn shift_all(
    table: &Table,
    graph: &mut Graph,
    sights: &Sights,
    waiting: &[usize],
    from: usize,
) -> Result<(), AllocError>
    requires { (text : Bytes) × (base : AnyBase) × (look : ℕ)
        × AreAllSights table.now text base graph.old look sights.now }
    ensures { OnOk result ((text : Bytes) (base : AnyBase) (look : ℕ)
        → AreAllSights table.now text base graph.old look sights.now
        → AreShifted table.now text base graph.old graph.new look) }
{
    look_laws_hold();
    leaf_laws_hold();
    table.stands();
    let tops = sights.tops.as_slice();
    let spans = sights.spans.as_slice();
    for place in 0..tops.len() {
        open(table, graph, tops[place], spans[place], waiting, from)?;
    }
    Ok(())
}

//! Follows a graph of stacks over one place of a text: the graph and the heads that stand there or
//! past it go in; the graph with all reductions, shifts and passed extras of the place comes out,
//! with what was seen there and the next place at which a head stands.
ghost use Rattle.std.specs.Prelude.{◌≡◌, ℕ, ◌≤◌, IfOk, OnOk};
ghost use Rattle.ts_reductions.specs.Again.{LedNone};
ghost use Rattle.ts_reductions.specs.Sound.{Base as AnyBase, IsSoundBy, IsSoundOver};
ghost use Rattle.ts_places.specs.Looking.{AllStandAt, HasAllAt};
ghost use Rattle.ts_places.specs.Shifting.{AreAllSights};
ghost use Rattle.ts_places.specs.Following.{CanPass, Passes, CanFollow, next_at, Follows};

use crate::frontier::{Frontier, advance, those_at, those_past};
use crate::kept::Kept;
use crate::laws::place_laws_hold;
use crate::looking::look_all;
use crate::shifting::shift_all;
use crate::sights::Sights;
use crate::sweep_laws::key_laws_hold;
use crate::sweeping::sweep;
use std::alloc::{AllocError, Global};
use ts_graph::Graph;
use ts_lexer::Tokens;
use ts_reductions::{Reduced, Room, Setting};
use ts_table::Table;

/// Where a graph goes on behind a place.
#[derive(Clone, Copy, Debug, PartialEq, Eq)]
pub enum Next {
    /// At this place, the least one past it at which a head stands.
    Place(u32),
    /// No head stands past the place.
    Nowhere,
    /// A node would have been too deep.
    TooDeep,
}

/// What the heads of a place see, all of which these are.
fn look_at<L: Tokens>(
    table: &Table,
    lexer: &mut L,
    text: &L::Text,
    graph: &Graph,
    heads: &[usize],
    room: &Room,
    sights: &mut Sights,
) -> Result<(), AllocError>
    requires made { L.made_for lexer.old table.now }
    requires sound { IsSoundOver table.now (L.Text.bytes text.now) graph.now }
    requires stand { (look : ℕ) × AllStandAt graph.now look heads.now }
    requires none { LedNone room.now }
    ensures made { L.made_for lexer.new table.now }
    ensures sights { OnOk result ((base : AnyBase) (look : ℕ)
        → IsSoundBy table.now (L.Text.bytes text.now) base graph.now → base.place ≤ look
        → AllStandAt graph.now look heads.now → HasAllAt graph.now look heads.now
        → AreAllSights table.now (L.Text.bytes text.now) base graph.now look sights.new) }
{
    sights.clear();
    look_all(table, lexer, text, graph, heads, room, sights)?;
    Ok(())
}

/// Does all reductions of a place, and then all shifts and passed extras.
fn pass_place<L: Tokens>(
    alloc: Global,
    table: &Table,
    setting: &Setting,
    lexer: &mut L,
    text: &L::Text,
    graph: &mut Graph,
    place: u32,
    sights: &mut Sights,
    waiting: &[usize],
    kept: &mut Kept,
) -> Result<Reduced, AllocError>
    requires made { L.made_for lexer.old table.now }
    requires ready { (base : AnyBase) × (most : ℕ) × CanPass table.now (L.Text.bytes text.now)
        setting.now base most graph.old place sights.old }
    ensures made { L.made_for lexer.new table.now }
    ensures passes { IfOk result (λ reduced. (base : AnyBase) (most : ℕ)
        → CanPass table.now (L.Text.bytes text.now) setting.now base most graph.old place
        sights.old
        → Passes table.now (L.Text.bytes text.now) base most graph.old graph.new place sights.new
        reduced) }
{
    place_laws_hold();
    key_laws_hold();
    table.stands();
    let count = graph.count();
    match sweep(
        alloc, table, setting, lexer, text, graph, place, sights, kept,
    )? {
        Reduced::TooDeep => Ok(Reduced::TooDeep),
        Reduced::Done => {
            shift_all(table, graph, sights, waiting, count)?;
            Ok(Reduced::Done)
        }
    }
}

/// Where a graph goes on, by the next place at which a head stands.
fn as_next(place: Option<u32>) -> Next
    ensures { result ≡ next_at place }
{
    match place {
        Some(next) => Next::Place(next),
        None => Next::Nowhere,
    }
}

/// Does all that is asked for at a place, on a graph that is whole up to its first key: the graph
/// is then whole up to the first key of the next place at which a head stands, and up to each place
/// past this one where none does. The frontier goes on with it.
///
/// # Errors
///
/// `AllocError` where memory runs out. Some of it may be done then.
pub fn follow_place<L: Tokens>(
    alloc: Global,
    table: &Table,
    setting: &Setting,
    lexer: &mut L,
    text: &L::Text,
    graph: &mut Graph,
    frontier: &mut Frontier,
    place: u32,
    sights: &mut Sights,
) -> Result<Next, AllocError>
    requires made { L.made_for lexer.old table.now }
    requires ready { (base : AnyBase) × (most : ℕ) × CanFollow table.now
        (L.Text.bytes text.now) setting.now base most graph.old place frontier.old }
    ensures made { L.made_for lexer.new table.now }
    ensures follows { IfOk result (λ next. (base : AnyBase) (most : ℕ)
        → CanFollow table.now (L.Text.bytes text.now) setting.now base most graph.old place
        frontier.old
        → Follows table.now (L.Text.bytes text.now) base most graph.old graph.new place
        frontier.old frontier.new sights.new next) }
{
    place_laws_hold();
    let count = graph.count();
    let waiting = frontier.heads.as_slice();
    those_at(graph, waiting, place, &mut frontier.kept.heads)?;
    those_past(graph, waiting, place, &mut frontier.past)?;
    frontier.kept.room.forget();
    let here = frontier.kept.heads.as_slice();
    let room = &frontier.kept.room;
    look_at(table, lexer, text, graph, here, room, sights)?;
    match pass_place(
        alloc,
        table,
        setting,
        lexer,
        text,
        graph,
        place,
        sights,
        frontier.past.as_slice(),
        &mut frontier.kept,
    )? {
        Reduced::Done => {
            let next = as_next(advance(graph, count, place, frontier)?);
            Ok(next)
        }
        Reduced::TooDeep => Ok(Next::TooDeep),
    }
}

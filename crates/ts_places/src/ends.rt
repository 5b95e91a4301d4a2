//! The ends at a place: what is seen at its heads goes in, and the heads that accept, and the
//! greatest place at which one stops, are put to those of earlier places.
ghost use Rattle.std.specs.Prelude.{◌≡◌, ℕ, ◌<◌, ◌≤◌, ◌↔◌, ◌⊎◌, suc, [], length, IsTrue, Some, None, OnOk};
ghost use Rattle.std.specs.List.{Contains};
ghost use Rattle.ts_base.specs.Bytes.{Bytes};
ghost use Rattle.ts_core.specs.declared.action.Action.TheVariants.{Accept};
ghost use Rattle.ts_reductions.specs.Asking.{HasAction};
ghost use Rattle.ts_reductions.specs.Sound.{Base as AnyBase};
ghost use Rattle.ts_places.specs.Shifting.{AreAllSights};
ghost use Rattle.ts_places.specs.Choosing.{IsPastStuck};
ghost use Rattle.ts_places.specs.Ends.{AreEnds};

use crate::choosing::stick;
use crate::sights::Sights;
use std::alloc::{AllocError, Global};
use ts_core::Action;
use ts_graph::Graph;
use ts_reductions::Top;
use ts_table::Table;

/// What ended so far.
#[derive(Drop)]
pub struct Ends {
    /// The heads that accept, by their numbers.
    pub accepting: Vec<usize>,
    /// The greatest place at which a head stops.
    pub stuck: Option<u32>,
}

impl Ends {
    /// Nothing ended yet. It takes no memory.
    pub fn new(alloc: Global) -> Ends
        ensures heads { result.accepting.items ≡ [] }
        ensures stuck { result.stuck ≡ None }
    {
        Ends {
            accepting: Vec::new(alloc),
            stuck: None,
        }
    }
}

/// Whether acceptance is one of the actions.
fn has_accept(actions: &[Action]) -> bool
    ensures { IsTrue result ↔ Contains actions.now Accept }
{
    for action in actions {
        match action {
            Action::Accept => return true,
            Action::Shift(_) => continue,
            Action::Reduce(_) => continue,
        }
    }
    false
}

/// Whether a head accepts on the token that it sees.
fn accepts(table: &Table, graph: &Graph, top: Top) -> bool
    requires there { top.head < length graph.now.heads }
    ensures { IsTrue result ↔ HasAction table.now graph.now top Accept }
{
    let head = graph.head(top.head);
    has_accept(table.actions(head.state, top.token))
}

/// Keeps the greater place, where there is one more.
fn see_stop(stuck: &mut Option<u32>, stop: Option<u32>)
    ensures mine { (q : ℕ) → stop ≡ Some q → IsPastStuck stuck.new q }
    ensures others { (q : ℕ) → IsPastStuck stuck.old q → IsPastStuck stuck.new q }
    ensures from { (q : ℕ) → stuck.new ≡ Some q → (stuck.old ≡ Some q) ⊎ (stop ≡ Some q) }
{
    match stop {
        Some(place) => stick(stuck, place),
        None => {}
    }
}

/// Puts the ends at a place to those of the places before it: the heads that accept on the token
/// that they see, and the place at which a head stops, where it is the greatest.
///
/// # Errors
///
/// `AllocError` where memory runs out. Some of the heads may be there then.
pub fn see_ends(
    table: &Table,
    graph: &Graph,
    sights: &Sights,
    ends: &mut Ends,
) -> Result<(), AllocError>
    requires { (text : Bytes) × (base : AnyBase) × (look : ℕ)
        × AreAllSights table.now text base graph.now look sights.now }
    ensures { OnOk result ((text : Bytes) (base : AnyBase) (from look : ℕ)
        → AreAllSights table.now text base graph.now look sights.now → from ≤ look
        → AreEnds table.now text graph.now from look ends.old
        → AreEnds table.now text graph.now from (suc look) ends.new) }
{
    table.stands();
    for top in sights.tops.as_slice() {
        if !accepts(table, graph, *top) {
            continue;
        }
        ends.accepting.push(top.head)?;
    }
    see_stop(&mut ends.stuck, sights.stop);
    Ok(())
}

//! The heads that stand at a place or past it: a graph and a place go in, and the numbers of these
//! heads come out.
ghost use Rattle.std.specs.Prelude.{◌≡◌, ℕ, suc, length, IfOk, OnOk};
ghost use Rattle.ts_graph.specs.declared.view.GraphView.{GraphView};
ghost use Rattle.ts_graph.specs.Down.{KeepNumbers};
ghost use Rattle.ts_places.specs.Frontiers.{AllStandFrom, AreOpen, IsAloneFrom, AreThoseAt, AreThosePast, AddsPast, sooner, IsLeastPlace, IsNextOpen};

use crate::kept::Kept;
use std::alloc::{AllocError, Global};
use std::mem::swap;
use ts_graph::Graph;

/// The heads that stand at a place or past it, by their numbers.
#[derive(Drop)]
pub struct Frontier {
    pub heads: Vec<usize>,
    /// A list for those that wait behind a place. Its memory goes to and fro.
    pub(crate) past: Vec<usize>,
    pub(crate) kept: Kept,
}

/// Puts the heads that stand past a place, of those from a number on, to others.
fn add_past(
    graph: &Graph,
    from: usize,
    place: u32,
    heads: &mut Vec<usize>,
) -> Result<(), AllocError>
    ensures { OnOk result (AddsPast graph.now from place heads.old.items heads.new.items) }
{
    for number in from..graph.count() {
        if graph.head(number).place <= place {
            continue;
        }
        heads.push(number)?;
    }
    Ok(())
}

impl Frontier {
    /// No heads. It takes no memory.
    pub fn new(alloc: Global) -> Frontier {
        Frontier {
            heads: Vec::new(alloc),
            past: Vec::new(alloc),
            kept: Kept::new(alloc),
        }
    }

    /// Takes the head of the stack over which a graph lies, which alone stands at a place or past
    /// it.
    ///
    /// # Errors
    ///
    /// `AllocError` where memory runs out.
    pub fn begin(&mut self, graph: &Graph) -> Result<(), AllocError>
        ensures { OnOk result ((place : ℕ) → IsAloneFrom graph.now place
            → AreOpen graph.now place self.new.heads.items) }
    {
        self.heads.clear();
        self.heads.push(graph.base())?;
        Ok(())
    }
}

/// Puts those of the heads that stand at a place into a list in the place of others.
pub(crate) fn those_at(
    graph: &Graph,
    heads: &[usize],
    place: u32,
    here: &mut Vec<usize>,
) -> Result<(), AllocError>
    requires { AllStandFrom graph.now 0 heads.now }
    ensures { OnOk result (AreThoseAt graph.now place heads.now here.new.items) }
{
    here.clear();
    for number in heads {
        if graph.head(*number).place != place {
            continue;
        }
        here.push(*number)?;
    }
    Ok(())
}

/// Puts those of the heads that stand past a place into a list in the place of others.
pub(crate) fn those_past(
    graph: &Graph,
    heads: &[usize],
    place: u32,
    past: &mut Vec<usize>,
) -> Result<(), AllocError>
    requires { AllStandFrom graph.now 0 heads.now }
    ensures { OnOk result (AreThosePast graph.now place heads.now past.new.items) }
{
    past.clear();
    for number in heads {
        if graph.head(*number).place <= place {
            continue;
        }
        past.push(*number)?;
    }
    Ok(())
}

/// The lesser of two places, or the one that there is.
fn lesser(least: Option<u32>, place: u32) -> Option<u32>
    ensures { result ≡ sooner least place }
{
    match least {
        Some(other) => Some(other.min(place)),
        None => Some(place),
    }
}

/// The least place at which one of the heads stands.
fn least_place(graph: &Graph, heads: &[usize]) -> Option<u32>
    requires { AllStandFrom graph.now 0 heads.now }
    ensures { IsLeastPlace graph.now heads.now result }
{
    let mut least = None;
    for number in heads {
        let head = graph.head(*number);
        least = lesser(least, head.place);
    }
    least
}

/// Goes on behind a place: the heads that stood past it when there were so many heads, and those
/// that came since, wait now; and it gives the least place at which one of them stands.
pub(crate) fn advance(
    graph: &Graph,
    count: usize,
    place: u32,
    frontier: &mut Frontier,
) -> Result<Option<u32>, AllocError>
    requires { (old : GraphView) × (count ≡ length old.heads)
        × KeepNumbers old.heads graph.now.heads
        × AreOpen old (suc place) frontier.old.past.items }
    ensures { IfOk result (λ next. (old : GraphView) → count ≡ length old.heads
        → KeepNumbers old.heads graph.now.heads
        → AreOpen old (suc place) frontier.old.past.items
        → IsNextOpen graph.now place frontier.new.heads.items next) }
{
    add_past(graph, count, place, &mut frontier.past)?;
    let next = least_place(graph, frontier.past.as_slice());
    swap(&mut frontier.heads, &mut frontier.past);
    Ok(next)
}

//! Accepted roots: a way down from a head that accepts goes in, as far as the root, and the root
//! with all extras before and after it comes out.
ghost use Rattle.std.specs.Prelude.{◌≡◌, ℕ, suc, ◌-◌, ◌<◌, ◌≤◌, List, length, reverse, IfOk};
ghost use Rattle.ts_base.specs.Bytes.{Bytes};
ghost use Rattle.spec_trees.specs.Made.{most_span};
ghost use Rattle.spec_graph.specs.declared.graph.Link.{Link as AnyLink};
ghost use Rattle.spec_graph.specs.Links.{IsWay, way_trees};
ghost use Rattle.ts_graph.specs.Ways.{AreAt};
ghost use Rattle.ts_table.specs.declared.view.ParseTable.{ParseTable};
ghost use Rattle.ts_reductions.specs.Sound.{IsSoundOver};
ghost use Rattle.ts_places.specs.Best.{CanTakeRoot, IsRootBy};

use crate::end_laws::end_laws_hold;
use std::alloc::{AllocError, Global};
use ts_graph::{Graph, Way};
use ts_node::{Node, accept};

/// The trees of some links, the last one first.
fn trees_up(alloc: Global, graph: &Graph, numbers: &[usize]) -> Result<Vec<Node>, AllocError>
    requires { (way : List AnyLink) × AreAt graph.now.links numbers.now way }
    ensures { IfOk result (λ nodes. (way : List AnyLink) → AreAt graph.now.links numbers.now way
        → nodes.items ≡ reverse (way_trees way)) }
{
    let mut nodes = Vec::new(alloc);
    for number in numbers {
        nodes.push(graph.node(*number).try_clone()?)?;
    }
    nodes.reverse();
    Ok(nodes)
}

/// The links of some way from a head down to the empty stack, the topmost first.
fn way_down(alloc: Global, graph: &Graph, head: usize) -> Result<Vec<usize>, AllocError>
    requires there { head < length graph.now.heads }
    requires sound { (t : ParseTable) × (text : Bytes) × IsSoundOver t text graph.now }
    ensures { IfOk result (λ numbers. (way : List AnyLink)
        × AreAt graph.now.links numbers.items way × IsWay graph.now.links head way 0) }
{
    let mut numbers = Vec::new(alloc);
    let _ = graph.count();
    let mut at = head;
    let mut next = graph.first_down(at);
    while let Some(link) = next {
        numbers.push(link)?;
        at = graph.link(link).below;
        next = graph.first_down(at);
    }
    Ok(numbers)
}

/// How many numbers stand before the last one.
fn before_last(numbers: &[usize]) -> usize
    requires { 0 < length numbers.now }
    ensures { result ≡ length numbers.now - 1 }
{
    numbers.len() - 1
}

/// What was examined for a root: a text of this size, and its end.
fn past_end(size: u32) -> u32
    requires { size ≤ most_span }
    ensures { result ≡ suc size }
{
    size + 1
}

/// The root at the end of a way from a head that accepts, with the extras before and after it. It
/// examined the whole text, and its end.
pub(crate) fn root_on(
    alloc: Global,
    graph: &Graph,
    size: u32,
    way: &Way,
) -> Result<Node, AllocError>
    requires { (t : ParseTable) × (text : Bytes) × (h : ℕ)
        × CanTakeRoot t text graph.now size h way.now }
    ensures { IfOk result (λ node. (t : ParseTable) (text : Bytes) (h : ℕ)
        → CanTakeRoot t text graph.now size h way.now
        → IsRootBy t.grammar graph.now size h way.now node) }
{
    end_laws_hold();
    let numbers = way.links.as_slice();
    let count = before_last(numbers);
    let (above, _) = numbers.split_at(count);
    let after = trees_up(alloc, graph, above)?;
    let below = way_down(alloc, graph, way.below)?;
    let before = trees_up(alloc, graph, below.as_slice())?;
    let last = *way.links.get(count);
    let root = graph.node(last);
    let extent = past_end(size);
    let node = accept(alloc, root, before.as_slice(), after.as_slice(), extent)?;
    Ok(node)
}

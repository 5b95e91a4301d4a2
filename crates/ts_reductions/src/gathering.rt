//! What lies on a way: the numbers of its links go in, the topmost first, and their trees come out,
//! how many of them are the extras above the children, and how deep the node over the children is.
ghost use Rattle.std.specs.Prelude.{◌≡◌, ◌<◌, ◌≤◌, List as AnyList, length, reverse, map, IfOk, OnOk};
ghost use Rattle.spec_trees.specs.Trees.{maximum};
ghost use Rattle.spec_trees.specs.Made.{most_depth};
ghost use Rattle.spec_graph.specs.declared.graph.Link.{Link as AnyLink};
ghost use Rattle.spec_graph.specs.Links.{way_trees, depths_of};
ghost use Rattle.ts_graph.specs.Ways.{AreAt};
ghost use Rattle.ts_reductions.specs.Asking.{outer_of};
ghost use Rattle.ts_reductions.specs.Depths.{depth_when, AreShallow};

use std::alloc::{AllocError, Global};
use ts_core::List;
use ts_graph::Graph;
use ts_node::Node;

/// How many extras lie above the children.
pub(crate) fn lifted(graph: &Graph, numbers: &[usize]) -> usize
    requires { (way : AnyList AnyLink) × AreAt graph.now.links numbers.now way }
    ensures { (way : AnyList AnyLink) → AreAt graph.now.links numbers.now way
        → result ≡ length (outer_of way) }
{
    let mut count = 0;
    for number in numbers {
        if !graph.node(*number).extra() {
            return count;
        }
        count += 1;
    }
    count
}

/// Puts the trees into a list in the place of others, the lowest first.
pub(crate) fn trees_up(
    graph: &Graph,
    numbers: &[usize],
    nodes: &mut Vec<Node>,
) -> Result<(), AllocError>
    requires { (way : AnyList AnyLink) × AreAt graph.now.links numbers.now way }
    ensures { OnOk result ((way : AnyList AnyLink) → AreAt graph.now.links numbers.now way
        → nodes.new.items ≡ reverse (way_trees way)) }
{
    nodes.clear();
    let mut left = numbers.len();
    while left > 0 {
        left -= 1;
        nodes.push(graph.node(numbers[left]).try_clone()?)?;
    }
    Ok(())
}

/// The heads below the links, the lowest first.
pub(crate) fn heads_up(
    alloc: Global,
    graph: &Graph,
    numbers: &[usize],
) -> Result<List<usize>, AllocError>
    requires { (way : AnyList AnyLink) × AreAt graph.now.links numbers.now way }
    ensures { IfOk result (λ heads. (way : AnyList AnyLink) → AreAt graph.now.links numbers.now way
        → heads ≡ reverse (map (λ (l : AnyLink). l.below) way)) }
{
    let mut heads = Vec::with_capacity(alloc, numbers.len())?;
    let mut left = numbers.len();
    while left > 0 {
        left -= 1;
        heads.push(graph.link(numbers[left]).below)?;
    }
    Ok(List::from_vec(heads))
}

/// The greatest depth of the links, 0 where there is none.
fn deepest(graph: &Graph, numbers: &[usize]) -> u32
    requires { (way : AnyList AnyLink) × AreAt graph.now.links numbers.now way
        × AreShallow way }
    ensures depth { (way : AnyList AnyLink) → AreAt graph.now.links numbers.now way
        → result ≡ maximum (depths_of way) }
    ensures shallow { result ≤ most_depth }
{
    let mut depth = 0;
    for number in numbers {
        depth = graph.link(*number).depth.max(depth);
    }
    depth
}

/// How deep the node over what lies on a way is. A repetition that is lengthened is its first
/// child, the lowest, and gives its children to the new one.
pub(crate) fn depth_over(graph: &Graph, numbers: &[usize], lengthens: bool) -> u32
    requires way { (way : AnyList AnyLink) × AreAt graph.now.links numbers.now way
        × AreShallow way }
    requires some { 0 < length numbers.now }
    ensures { (way : AnyList AnyLink) → AreAt graph.now.links numbers.now way
        → result ≡ depth_when lengthens (reverse (depths_of way)) }
{
    if lengthens {
        let (more, first) = numbers.split_at(numbers.len() - 1);
        deepest(graph, first).max(1 + deepest(graph, more))
    } else {
        1 + deepest(graph, numbers)
    }
}

//! Nodes for one regular expression: it goes in with the node to go on at, and its first node comes
//! out.
ghost use Rattle.std.specs.Prelude.{◌≡◌, Some, None, map, IfOk};
ghost use Rattle.spec_lexing.specs.Words.{regular_of, all_of, any_of, repeat};
ghost use Rattle.ts_automata.specs.Grows.{Grows, Put, Repeats};

use crate::node::Node;
use std::alloc::{AllocError, Global};
use ts_base::List;
use ts_core::Re;

/// Puts a node at the end, and answers its place.
fn put(nodes: &mut Vec<Node>, node: Node) -> Result<usize, AllocError>
    ensures { IfOk result (Put nodes.old.items nodes.new.items node) }
{
    let place = nodes.len();
    nodes.push(node)?;
    Ok(place)
}

/// A copy of the ranges.
fn copy(alloc: Global, ranges: &[(u32, u32)]) -> Result<List<(u32, u32)>, AllocError>
    ensures { IfOk result (λ xs. xs ≡ ranges.now) }
{
    Ok(List::from_vec(Vec::from_slice(alloc, ranges)?))
}

/// Adds nodes that read the expression and then go on at `next`. Answers the first of them.
#[cycle(compile)]
pub(crate) fn add(
    alloc: Global,
    nodes: &mut Vec<Node>,
    re: &Re,
    next: usize,
) -> Result<usize, AllocError>
    ensures { IfOk result (Grows (regular_of re.now) next nodes.old.items nodes.new.items) }
{
    match re {
        Re::Empty => Ok(next),
        Re::Set(ranges) => put(nodes, Node::Take(copy(alloc, ranges.as_slice())?, next)),
        Re::Cat(parts) => add_all(alloc, nodes, parts.as_slice(), next),
        Re::Alt(parts) => add_any(alloc, nodes, parts.as_slice(), next),
        Re::Repeat(inner, least, most) => match most {
            None => add_without_end(alloc, nodes, inner.get(), *least, next),
            Some(most) => add_between(alloc, nodes, inner.get(), *least, *most, next),
        },
    }
}

#[cycle(compile)]
fn add_all(
    alloc: Global,
    nodes: &mut Vec<Node>,
    parts: &[Re],
    next: usize,
) -> Result<usize, AllocError>
    ensures { IfOk result
        (Grows (all_of (map regular_of parts.now)) next nodes.old.items nodes.new.items) }
{
    let mut to = next;
    for i in (0..parts.len()).rev() {
        to = add(alloc, nodes, &parts[i], to)?;
    }
    Ok(to)
}

#[cycle(compile)]
fn add_any(
    alloc: Global,
    nodes: &mut Vec<Node>,
    parts: &[Re],
    next: usize,
) -> Result<usize, AllocError>
    ensures { IfOk result
        (Grows (any_of (map regular_of parts.now)) next nodes.old.items nodes.new.items) }
{
    let mut to = put(nodes, Node::Take(List::new(alloc), next))?;
    for i in (0..parts.len()).rev() {
        let part = add(alloc, nodes, &parts[i], next)?;
        to = put(nodes, Node::Split(part, to))?;
    }
    Ok(to)
}

/// Adds the expression so many times in front of what a node reads.
#[cycle(compile)]
fn add_times(
    alloc: Global,
    nodes: &mut Vec<Node>,
    inner: &Re,
    count: u32,
    to: usize,
) -> Result<usize, AllocError>
    ensures { IfOk result
        (Repeats (regular_of inner.now) count nodes.old.items to nodes.new.items) }
{
    let mut place = to;
    for _done in 0..count {
        place = add(alloc, nodes, inner, place)?;
    }
    Ok(place)
}

/// Adds the expression up to so many times.
#[cycle(compile)]
fn add_up_to(
    alloc: Global,
    nodes: &mut Vec<Node>,
    inner: &Re,
    count: u32,
    next: usize,
) -> Result<usize, AllocError>
    ensures { IfOk result
        (Grows
        (repeat (regular_of inner.now) 0 (Some count)) next nodes.old.items nodes.new.items) }
{
    let mut place = next;
    for _done in 0..count {
        let part = add(alloc, nodes, inner, place)?;
        place = put(nodes, Node::Split(part, next))?;
    }
    Ok(place)
}

#[cycle(compile)]
fn add_between(
    alloc: Global,
    nodes: &mut Vec<Node>,
    inner: &Re,
    least: u32,
    most: u32,
    next: usize,
) -> Result<usize, AllocError>
    ensures { IfOk result
        (Grows
        (repeat (regular_of inner.now) least (Some most)) next nodes.old.items nodes.new.items) }
{
    if most < least {
        let never = put(nodes, Node::Take(List::new(alloc), next))?;
        add_times(alloc, nodes, inner, most, never)
    } else {
        let rest = add_up_to(alloc, nodes, inner, most - least, next)?;
        add_times(alloc, nodes, inner, least, rest)
    }
}

#[cycle(compile)]
fn add_without_end(
    alloc: Global,
    nodes: &mut Vec<Node>,
    inner: &Re,
    least: u32,
    next: usize,
) -> Result<usize, AllocError>
    ensures { IfOk result
        (Grows (repeat (regular_of inner.now) least None) next nodes.old.items nodes.new.items) }
{
    let round = put(nodes, Node::Split(next, next))?;
    let body = add(alloc, nodes, inner, round)?;
    nodes[round] = Node::Split(body, next);
    if least == 0 {
        Ok(round)
    } else {
        add_times(alloc, nodes, inner, least - 1, body)
    }
}

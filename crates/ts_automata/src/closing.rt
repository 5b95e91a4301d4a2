//! Closed sets of nodes: some nodes go in, and the set of those to which they go on without a
//! character comes out, or those to which a character leads.
ghost use Rattle.std.specs.Prelude.{◌≡◌, ℕ, ◌<◌, ◌⊎◌, length, IfOk, OnOk, IsTrue, slice_get, Some, ◌↔◌};
ghost use Rattle.std.specs.List.{Contains};
ghost use Rattle.spec_lexing.specs.Words.{IsInRanges};
ghost use Rattle.ts_automata.specs.Reads.{Takes, Splits};
ghost use Rattle.ts_automata.specs.Sets.{Adds, Closure, Moves};

use crate::node::Node;
use indexmap::IndexSet;
use std::alloc::{AllocError, Global};

/// Adds one node at the end, where it is new.
fn add(found: &mut IndexSet<usize>, node: usize) -> Result<(), AllocError>
    ensures { OnOk result (Adds (λ i. i ≡ node) found.old.keys found.new.keys) }
{
    found.insert(node)?;
    Ok(())
}

/// Adds both.
fn add_two(found: &mut IndexSet<usize>, left: usize, right: usize) -> Result<(), AllocError>
    ensures { OnOk result (Adds (λ i. (i ≡ left) ⊎ (i ≡ right)) found.old.keys found.new.keys) }
{
    add(found, left)?;
    add(found, right)?;
    Ok(())
}

/// Adds the nodes to which one goes on.
fn expand(nodes: &[Node], found: &mut IndexSet<usize>, from: usize) -> Result<(), AllocError>
    ensures { OnOk result (Adds (Splits nodes.now from) found.old.keys found.new.keys) }
{
    if from >= nodes.len() {
        return Ok(());
    }
    match &nodes[from] {
        Node::Take(_, _) => Ok(()),
        Node::Split(left, right) => add_two(found, *left, *right),
        Node::End => Ok(()),
    }
}

fn node_at(found: &IndexSet<usize>, at: usize) -> usize
    requires { at < length found.now.keys }
    ensures { slice_get found.now.keys at ≡ Some result }
{
    let Some(node) = found.get_index(at) else {
        unreachable!()
    };
    *node
}

/// The least set that has the given nodes and those to which each of its nodes goes on.
pub(crate) fn closure(
    alloc: Global,
    nodes: &[Node],
    kernel: &[usize],
) -> Result<IndexSet<usize>, AllocError>
    ensures { IfOk result (λ set. (i : ℕ) → Contains set.keys i ↔ Closure nodes.now kernel.now i) }
{
    let mut found = IndexSet::new(alloc);
    for node in kernel {
        add(&mut found, *node)?;
    }
    let mut next = 0;
    while next < found.len() {
        let from = node_at(&found, next);
        expand(nodes, &mut found, from)?;
        next += 1;
    }
    Ok(found)
}

/// The nodes of a set in order, each once.
fn in_order(alloc: Global, found: &IndexSet<usize>) -> Result<Vec<usize>, AllocError>
    ensures { IfOk result (λ v. (i : ℕ) → Contains v.items i ↔ Contains found.now.keys i) }
{
    let mut nodes = Vec::new(alloc);
    for at in 0..found.len() {
        nodes.push(node_at(found, at))?;
    }
    nodes.sort_unstable();
    nodes.dedup();
    Ok(nodes)
}

/// The closed set of some nodes, in order.
pub(crate) fn set_of(
    alloc: Global,
    nodes: &[Node],
    kernel: &[usize],
) -> Result<Vec<usize>, AllocError>
    ensures { IfOk result (λ v. (i : ℕ) → Contains v.items i ↔ Closure nodes.now kernel.now i) }
{
    let found = closure(alloc, nodes, kernel)?;
    in_order(alloc, &found)
}

/// Whether a character is in one of the ranges.
pub(crate) fn is_in(ranges: &[(u32, u32)], c: u32) -> bool
    ensures { IsTrue result ↔ IsInRanges ranges.now c }
{
    ranges.iter().any(|range| range.0 <= c && c <= range.1)
}

/// The node to which a character leads from this one, in a list.
fn push_taken(
    nodes: &[Node],
    kernel: &mut Vec<usize>,
    from: usize,
    c: u32,
) -> Result<(), AllocError>
    ensures { OnOk result (Adds (Takes nodes.now from c) kernel.old.items kernel.new.items) }
{
    if from >= nodes.len() {
        return Ok(());
    }
    match &nodes[from] {
        Node::Take(ranges, to) => {
            if is_in(ranges.as_slice(), c) {
                kernel.push(*to)?;
            }
            Ok(())
        }
        Node::Split(_, _) => Ok(()),
        Node::End => Ok(()),
    }
}

/// The nodes to which a character leads.
pub(crate) fn moved(
    alloc: Global,
    nodes: &[Node],
    set: &[usize],
    c: u32,
) -> Result<Vec<usize>, AllocError>
    ensures { IfOk result (λ v. (a : ℕ) → Contains v.items a ↔ Moves nodes.now set.now c a) }
{
    let mut kernel = Vec::new(alloc);
    for from in set {
        push_taken(nodes, &mut kernel, *from, c)?;
    }
    Ok(kernel)
}

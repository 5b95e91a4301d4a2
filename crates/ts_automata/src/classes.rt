//! Classes of characters: the nodes go in, and the first character of each class comes out. The
//! characters of a class lead to the same nodes from everywhere.
ghost use Rattle.std.specs.Prelude.{◌≡◌, ℕ, ◌+◌, ◌-◌, ◌<◌, ◌^◌, List, length, slice_get, Some, IfOk, OnOk};
ghost use Rattle.std.specs.List.{Contains};
ghost use Rattle.ts_automata.specs.Sets.{EachAt};
ghost use Rattle.ts_automata.specs.Classes.{IsClassOf, IsCut, HasBounds, OfNode};

use crate::node::Node;
use std::alloc::{AllocError, Global};

/// The class of each ASCII character.
pub(crate) fn ascii_of(alloc: Global, bounds: &[u32]) -> Result<Vec<usize>, AllocError>
    requires { slice_get bounds.now 0 ≡ Some 0 }
    ensures count { IfOk result (λ v. length v.items ≡ 128) }
    ensures class { IfOk result (λ v. EachAt (λ c k. IsClassOf bounds.now c k) v.items) }
{
    let mut ascii = Vec::new(alloc);
    for c in 0..128u32 {
        ascii.push(class_by_search(bounds, c))?;
    }
    Ok(ascii)
}

/// Adds the bounds of one range.
fn push_bound(all: &mut Vec<u32>, range: (u32, u32)) -> Result<(), AllocError>
    ensures { OnOk result (HasBounds (λ r. r ≡ range) all.old.items all.new.items) }
{
    all.push(range.0)?;
    if range.1 == u32::MAX {
        return Ok(());
    }
    all.push(range.1 + 1)?;
    Ok(())
}

fn push_ranges(all: &mut Vec<u32>, ranges: &[(u32, u32)]) -> Result<(), AllocError>
    ensures { OnOk result (HasBounds (Contains ranges.now) all.old.items all.new.items) }
{
    for range in ranges {
        push_bound(all, *range)?;
    }
    Ok(())
}

fn push_node(all: &mut Vec<u32>, node: &Node) -> Result<(), AllocError>
    ensures { OnOk result (HasBounds (OfNode node.now) all.old.items all.new.items) }
{
    match node {
        Node::Take(ranges, _) => push_ranges(all, ranges.as_slice()),
        Node::Split(_, _) => Ok(()),
        Node::End => Ok(()),
    }
}

/// The first characters of the classes.
pub(crate) fn bounds_of(alloc: Global, nodes: &[Node]) -> Result<Vec<u32>, AllocError>
    ensures { IfOk result (λ v. IsCut nodes.now v.items) }
{
    let mut all = Vec::new(alloc);
    all.push(0)?;
    for node in nodes {
        push_node(&mut all, node)?;
    }
    all.sort_unstable();
    all.dedup();
    Ok(all)
}

/// The class of a character.
pub(crate) fn class_by_search(bounds: &[u32], c: u32) -> usize
    requires { slice_get bounds.now 0 ≡ Some 0 }
    ensures { IsClassOf bounds.now c result }
{
    let mut low = 0;
    let mut high = bounds.len();
    while low + 1 < high {
        let middle = low + (high - low) / 2;
        if bounds[middle] <= c {
            low = middle;
        } else {
            high = middle;
        }
    }
    low
}

pub(crate) fn class_of(bounds: &[u32], ascii: &[usize], c: u32) -> usize
    requires bound { slice_get bounds.now 0 ≡ Some 0 }
    requires count { length ascii.now ≡ 128 }
    requires class { EachAt (λ x k. IsClassOf bounds.now x k) ascii.now }
    ensures { IsClassOf bounds.now c result }
{
    if c < 128 {
        ascii[c as usize]
    } else {
        class_by_search(bounds, c)
    }
}

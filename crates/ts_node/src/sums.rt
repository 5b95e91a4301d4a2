//! Sums over children: a list of nodes goes in, and what a node over them has to know comes out.
ghost use Rattle.std.specs.Prelude.{◌≡◌, ◌+◌, ◌<◌, ◌≤◌, ◌^◌, ◌++◌, ◌∷◌, [], length, IfOk, OnOk};
ghost use Rattle.std.specs.Int.RustNames.{unsigned_abs};
ghost use lib.IntN.{◌+ℤ◌};
ghost use Rattle.spec_trees.specs.Trees.{first_pad};
ghost use Rattle.ts_node.specs.Held.{IsSum};

use crate::node::{Node, Sums};
use std::alloc::{AllocError, Global};
use ts_base::List;

/// The nodes, bytes and totals of all children together, and the greatest depth.
#[tactic(auto, using(crate::proofs::WholeLemmas::whole_more))]
pub(crate) fn sums(children: &[Node]) -> Sums
    requires { length children.now < 2 ^ 32 }
    ensures { IsSum result children.now }
{
    let mut nodes = 0u64;
    let mut spans = 0u64;
    let mut depth = 0u16;
    let mut totals = 0i128;
    for child in children {
        let summary = child.summary();
        nodes += summary.nodes as u64;
        spans += summary.pad as u64 + summary.size as u64;
        depth = depth.max(summary.depth);
        totals = with_total(totals, summary.dynamic);
    }
    Sums {
        nodes,
        spans,
        depth,
        totals,
    }
}

/// The sum of two totals.
#[tactic(auto, using(crate::proofs::TotalLemmas::sum_fits, crate::proofs::TotalLemmas::abs_sum))]
pub(crate) fn plus(first: i64, second: i64) -> i64
    requires { unsigned_abs first + unsigned_abs second < 2 ^ 63 }
    ensures sum { result ≡ first +ℤ second }
    ensures modest { unsigned_abs result ≤ unsigned_abs first + unsigned_abs second }
{
    first + second
}

/// The sum of two totals that may be those of more nodes than a tree has.
#[tactic(auto, using(crate::proofs::TotalLemmas::wide_sum_fits, crate::proofs::TotalLemmas::abs_sum))]
pub(crate) fn wide_plus(first: i128, second: i128) -> i128
    requires { unsigned_abs first + unsigned_abs second < 2 ^ 127 }
    ensures sum { result ≡ first +ℤ second }
    ensures modest { unsigned_abs result ≤ unsigned_abs first + unsigned_abs second }
{
    first + second
}

/// A total of many nodes and that of one more.
fn with_total(total: i128, one: i64) -> i128
    requires { unsigned_abs total + unsigned_abs one < 2 ^ 127 }
    ensures sum { result ≡ total +ℤ one }
    ensures modest { unsigned_abs result ≤ unsigned_abs total + unsigned_abs one }
{
    wide_plus(total, one as i128)
}

/// A total that is one of nodes of one tree.
pub(crate) fn narrowed(total: i128) -> i64
    requires { unsigned_abs total < 2 ^ 63 }
    ensures { result ≡ total }
{
    total as i64
}

/// A total and the value of one more production.
#[tactic(auto, using(crate::proofs::TotalLemmas::value_fits))]
pub(crate) fn with_value(value: i32, total: i64) -> i64
    requires { unsigned_abs total + 2 ^ 31 < 2 ^ 63 }
    ensures { result ≡ value +ℤ total }
{
    value as i64 + total
}

/// The pad of the first child.
pub(crate) fn pad_of_first(children: &[Node]) -> u32
    ensures { result ≡ first_pad children.now }
{
    match children {
        [] => 0,
        [first, ..] => first.pad(),
    }
}

/// Puts the nodes at the end of the list, shared.
pub(crate) fn copy(nodes: &[Node], to: &mut List<Node>) -> Result<(), AllocError>
    ensures { OnOk result (to.new ≡ to.old ++ nodes.now) }
{
    for node in nodes {
        to.push(node.try_clone()?)?;
    }
    Ok(())
}

/// Puts all nodes of a vector at the end of another. None is copied.
#[inline(always)]
pub(crate) fn append(nodes: &mut Vec<Node>, more: &mut Vec<Node>) -> Result<(), AllocError>
    ensures { OnOk result (nodes.new.items ≡ nodes.old.items ++ more.old.items) }
{
    nodes.append(more)?;
    Ok(())
}

/// A list of all nodes of a vector, which are taken out of it.
pub(crate) fn moved(alloc: Global, nodes: &mut Vec<Node>) -> Result<List<Node>, AllocError>
    ensures { IfOk result (λ all. all ≡ nodes.old.items) }
{
    let mut all = Vec::with_capacity(alloc, nodes.len())?;
    append(&mut all, nodes)?;
    Ok(List::from_vec(all))
}

/// A list of one node.
pub(crate) fn only(alloc: Global, node: Node) -> Result<List<Node>, AllocError>
    ensures { IfOk result (λ list. list ≡ node ∷ []) }
{
    let mut list = List::with_capacity(alloc, 1)?;
    list.push(node)?;
    Ok(list)
}

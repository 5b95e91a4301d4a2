//! Nodes of reductions: the children of a reduction go in; how many bytes were examined for its
//! node, and the node itself come out.
ghost use Rattle.std.specs.Prelude.{◌≡◌, ℕ, ◌+◌, ◌<◌, ◌≤◌, ◌^◌, IfOk, None};
ghost use Rattle.spec_trees.specs.Trees.{all_spans};
ghost use Rattle.spec_trees.specs.Made.{EndBy, reduced};
ghost use Rattle.ts_node.specs.Standing.{CanBeReduced};

use crate::laws::node_laws_hold;
use crate::setting::Setting;
use std::alloc::{AllocError, Global};
use ts_node::{Node, reduce};

/// How many bytes nodes take, one after another.
fn spans(nodes: &[Node]) -> u32
    requires { all_spans nodes.now < 2 ^ 32 }
    ensures { result ≡ all_spans nodes.now }
{
    let mut sum = 0;
    for node in nodes {
        sum += node.pad() + node.size();
    }
    sum
}

/// How far the text was looked at for nodes one after another from a place on, and no less than
/// `least`.
fn examined(nodes: &[Node], from: u32, least: u32) -> u32
    requires room { (limit : ℕ) × (limit < 2 ^ 32) × EndBy limit from nodes.now }
    requires short { from + all_spans nodes.now < 2 ^ 32 }
    ensures covers { EndBy result from nodes.now }
    ensures least { least ≤ result }
    ensures most { (start limit : ℕ) → start + least ≤ limit
        → EndBy limit (start + from) nodes.now → start + result ≤ limit }
{
    let mut place = from;
    let mut end = least;
    for node in nodes {
        end = (place + node.extent()).max(end);
        place += node.pad() + node.size();
    }
    end
}

/// How many bytes a reduction's node examined, from its first byte on: what its children did, what
/// the extras behind them did, and what was looked at ahead.
pub(crate) fn extent_over(children: &[Node], extras: &[Node], ahead: u32) -> u32
    requires room { (limit start : ℕ) × (limit < 2 ^ 31) × EndBy limit start children.now
        × EndBy limit (start + all_spans children.now) extras.now
        × (start + (all_spans children.now + (all_spans extras.now + ahead)) ≤ limit) }
    requires some { 0 < ahead }
    ensures covers { EndBy result 0 children.now }
    ensures past { all_spans children.now < result }
    ensures most { (start limit : ℕ)
        → start + (all_spans children.now + (all_spans extras.now + ahead)) ≤ limit
        → EndBy limit start children.now
        → EndBy limit (start + all_spans children.now) extras.now
        → start + result ≤ limit }
{
    let own = spans(children);
    let behind = own + (spans(extras) + ahead);
    let reach = examined(extras, own, behind);
    examined(children, 0, reach)
}

/// The node of a reduction that is not too deep.
///
/// # Errors
///
/// `AllocError` where memory runs out.
pub(crate) fn node_of(
    alloc: Global,
    setting: &Setting,
    number: u32,
    children: &mut Vec<Node>,
    extent: u32,
) -> Result<Node, AllocError>
    requires { CanBeReduced setting.now.productions number extent None children.old.items }
    ensures { IfOk result
        (λ node. node ≡ reduced setting.now.productions number extent None children.old.items) }
{
    node_laws_hold();
    let node = reduce(alloc, &setting.productions, number, children, extent, None)?;
    Ok(node)
}

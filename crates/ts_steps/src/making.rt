//! Nodes of reductions: the children of a reduction, or their depths, go in; how deep its node is,
//! how many bytes were examined for it, and the node itself come out.
ghost use Rattle.std.specs.Prelude.{◌≡◌, ℕ, ◌+◌, ◌<◌, ◌≤◌, ◌^◌, ◌↔◌, ◌&&◌, ◌∷◌, [], max, IfOk, IsTrue, MatchOption};
ghost use Rattle.ts_core.specs.declared.flat.Production.{Production};
ghost use Rattle.spec_trees.specs.Trees.{all_spans, tree_depth};
ghost use Rattle.spec_trees.specs.Made.{EndBy, form_of, most_depth, reduced};
ghost use Rattle.spec_forced.specs.Sound.{EachHasState};
ghost use Rattle.ts_steps.specs.Lines.{lengthens_by};
ghost use Rattle.ts_steps.specs.Good.{CanReduce};
ghost use Rattle.ts_steps.specs.Making.{depth_by, depth_when, IsSeenOf};

use crate::laws::laws_hold;
use crate::setting::ParseSetting;
use std::alloc::{AllocError, Global};
use ts_node::{Node, Outline, reduce as reduced_node, reduce_one as reduced_one};

/// The greatest depth of a node.
pub(crate) const MOST_DEPTH: u32 = 1000;

/// How deep the node is over a first child and others of these depths. A repetition that is
/// lengthened gives its children to the new one. None where it is deeper than a node may be.
pub(crate) fn depth_over(first: u32, others: u32, lengthens: bool) -> Option<u32>
    ensures { MatchOption result (most_depth < depth_by lengthens first others)
        (λ depth. (depth ≡ depth_by lengthens first others) × (depth ≤ most_depth)) }
{
    let depth = if lengthens {
        first.max(others.saturating_add(1))
    } else {
        first.max(others).saturating_add(1)
    };
    if depth > MOST_DEPTH {
        None
    } else {
        Some(depth)
    }
}

/// How many bytes nodes take, one after another.
pub(crate) fn spans(nodes: &[Node]) -> u32
    requires { all_spans nodes.now < 2 ^ 32 }
    ensures { result ≡ all_spans nodes.now }
{
    let mut sum = 0;
    for node in nodes {
        sum += node.pad() + node.size();
    }
    sum
}

/// What is known of nodes one after another: how far the text was looked at from the first of them
/// on, and whether they all have states.
#[derive(Clone, Copy)]
pub(crate) struct Seen {
    pub extent: u32,
    pub stated: bool,
}

/// What is known of a node and of those behind it.
#[inline(always)]
fn with_those_behind(node: Outline, behind: Seen) -> Seen
    requires { node.span + behind.extent < 2 ^ 32 }
    ensures extent { result.extent ≡ max (node.span + behind.extent) node.extent }
    ensures stated { result.stated ≡ (behind.stated && node.stated) }
{
    Seen {
        extent: (node.span + behind.extent).max(node.extent),
        stated: behind.stated && node.stated,
    }
}

/// What is known of nodes one after another, where the text was looked at for so many bytes behind
/// them.
#[inline(always)]
pub(crate) fn seen_over(nodes: &[Node], behind: u32) -> Seen
    requires { (limit start : ℕ) × (limit < 2 ^ 31) × EndBy limit start nodes.now
        × (start + (all_spans nodes.now + behind) ≤ limit) }
    ensures { IsSeenOf nodes.now behind result }
{
    let mut seen = Seen {
        extent: behind,
        stated: true,
    };
    let mut left = nodes.len();
    while left > 0 {
        left -= 1;
        seen = with_those_behind(nodes[left].outline(), seen);
    }
    seen
}

/// What is known of one node, where the text was looked at for so many bytes behind it.
#[inline(always)]
pub(crate) fn seen_of(node: &Node, behind: u32) -> Seen
    requires { (limit start : ℕ) × (limit < 2 ^ 31) × EndBy limit start (node.now ∷ [])
        × (start + (all_spans (node.now ∷ []) + behind) ≤ limit) }
    ensures { IsSeenOf (node.now ∷ []) behind result }
{
    let none = Seen {
        extent: behind,
        stated: true,
    };
    with_those_behind(node.outline(), none)
}

/// Whether each of some nodes has a state.
pub(crate) fn have_states(nodes: &[Node]) -> bool
    ensures { IsTrue result ↔ EachHasState nodes.now }
{
    for node in nodes {
        if node.state().is_none() {
            return false;
        }
    }
    true
}

/// The node of a reduction, which is not too deep. The children are taken out of their vector.
pub(crate) fn node_of(
    alloc: Global,
    setting: &ParseSetting,
    number: u32,
    lengthens: bool,
    children: &mut Vec<Node>,
    extent: u32,
    state: Option<u16>,
) -> Result<Node, AllocError>
    requires can { (left : ℕ) × (p : Production)
        × CanReduce setting.now.productions number left p extent children.old.items
        × (lengthens_by (form_of setting.now.productions left number) ≡ lengthens) }
    requires shallow { depth_when lengthens children.old.items ≤ most_depth }
    ensures node { IfOk result (λ node.
        node ≡ reduced setting.now.productions number extent state children.old.items) }
    ensures shallow { IfOk result (λ node. tree_depth node ≤ most_depth) }
{
    laws_hold();
    let node = reduced_node(alloc, &setting.productions, number, children, extent, state)?;
    Ok(node)
}

/// The same of an only child, which is given by value.
#[inline(always)]
pub(crate) fn node_of_one(
    alloc: Global,
    setting: &ParseSetting,
    number: u32,
    lengthens: bool,
    child: Node,
    extent: u32,
    state: Option<u16>,
) -> Result<Node, AllocError>
    requires can { (left : ℕ) × (p : Production)
        × CanReduce setting.now.productions number left p extent (child ∷ [])
        × (lengthens_by (form_of setting.now.productions left number) ≡ lengthens) }
    requires shallow { depth_when lengthens (child ∷ []) ≤ most_depth }
    ensures node { IfOk result (λ node.
        node ≡ reduced setting.now.productions number extent state (child ∷ [])) }
    ensures shallow { IfOk result (λ node. tree_depth node ≤ most_depth) }
{
    laws_hold();
    let node = reduced_one(alloc, &setting.productions, number, child, extent, state)?;
    Ok(node)
}

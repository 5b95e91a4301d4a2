//! What an edit leaves of a node: a node, its new pad and size and its changed children go in, and
//! the node with these, not settled, comes out.
ghost use Rattle.std.specs.Prelude.{◌≡◌, ◌+◌, ◌<◌, ◌^◌, false, All, IfOk, length, set};
ghost use Rattle.spec_trees.specs.Trees.{children_of, elements_of};
ghost use Rattle.spec_trees.specs.Made.{loosened, loosened_at, remade, replaced, IsNode};
ghost use Rattle.ts_node.specs.Held.{stretch};

use crate::node::{Kind, Node, Repetition, Run, Summary, Sums};
use crate::rule::RuleNode;
use crate::sums::{copy, sums};
use std::alloc::{AllocError, Global};
use ts_base::{List, Shared};

/// The node with another pad and size, its children of these numbers replaced, and not settled, nor
/// its elements of these numbers. All else stays, its dynamic total too. It shares all other
/// children.
///
/// # Errors
///
/// `AllocError` where memory runs out.
#[tactic(auto, using(crate::proofs::RemakeLemmas::remade_leaf_is, crate::proofs::RemakeLemmas::remade_leaf_node))]
pub fn remake(
    alloc: Global,
    node: &Node,
    pad: u32,
    size: u32,
    changed: &[(u32, Node)],
    loose: &[u32],
) -> Result<Node, AllocError>
    requires within { All (λ change. change.0 < length (children_of node.now)) changed.now }
    requires known { All (λ k. k < length (elements_of node.now)) loose.now }
    requires node { IsNode (remade node.now pad size changed.now loose.now) }
    ensures { IfOk result (λ new. new ≡ remade node.now pad size changed.now loose.now) }
{
    match &node.kind {
        Kind::Leaf(leaf) => Ok(Node {
            kind: Kind::Leaf(leaf.remade(pad, size)),
        }),
        Kind::Rule(rule) => rule.remake(alloc, pad, size, changed, loose),
        Kind::Repetition(repetition) => repetition.get().remake(alloc, pad, size, changed, loose),
        Kind::Single(single) => {
            let repetition = single.repetition(alloc)?;
            repetition.remake(alloc, pad, size, changed, loose)
        }
    }
}

impl Summary {
    fn remade(&self, pad: u32, size: u32, elements: u32, sums: Sums) -> Summary
        requires few { 1 + (elements + sums.nodes) < 2 ^ 32 }
        requires shallow { 1 + sums.depth < 2 ^ 16 }
        ensures symbol { result.symbol ≡ self.now.symbol }
        ensures depth { result.depth ≡ 1 + sums.depth }
        ensures nodes { result.nodes ≡ 1 + (elements + sums.nodes) }
        ensures pad { result.pad ≡ pad }
        ensures size { result.size ≡ size }
        ensures extent { result.extent ≡ self.now.extent }
        ensures state { result.state ≡ self.now.state }
        ensures settled { result.settled ≡ false }
        ensures production { result.production ≡ self.now.production }
        ensures dynamic { result.dynamic ≡ self.now.dynamic }
    {
        Summary {
            symbol: self.symbol,
            depth: 1 + sums.depth,
            nodes: 1 + (elements + sums.nodes as u32),
            pad,
            size,
            extent: self.extent,
            state: self.state,
            settled: false,
            production: self.production,
            dynamic: self.dynamic,
        }
    }
}

impl RuleNode {
    fn remake(
        &self,
        alloc: Global,
        pad: u32,
        size: u32,
        changed: &[(u32, Node)],
        loose: &[u32],
    ) -> Result<Node, AllocError>
        requires within { All (λ change. change.0 < length (children_of self.now)) changed.now }
        requires node { IsNode (remade self.now pad size changed.now loose.now) }
        ensures { IfOk result (λ new. new ≡ remade self.now pad size changed.now loose.now) }
    {
        let (old, children) = self.parts();
        let children = with_changes(alloc, children, changed)?;
        let summary = old.remade(pad, size, 0, sums(children.as_slice()));
        let rule = RuleNode::new(alloc, summary, children)?;
        Ok(Node {
            kind: Kind::Rule(rule),
        })
    }
}

impl Repetition {
    fn remake(
        &self,
        alloc: Global,
        pad: u32,
        size: u32,
        changed: &[(u32, Node)],
        loose: &[u32],
    ) -> Result<Node, AllocError>
        requires within { All (λ change. change.0 < length (children_of self.now)) changed.now }
        requires known { All (λ k. k < length (elements_of self.now)) loose.now }
        requires node { IsNode (remade self.now pad size changed.now loose.now) }
        ensures { IfOk result (λ new. new ≡ remade self.now pad size changed.now loose.now) }
    {
        let run = remade_run(alloc, &self.run, changed, loose)?;
        let counts = run.get().counts();
        let summary = self.summary.remade(pad, size, counts.elements, counts.sums);
        let body = Shared::new(alloc, Repetition { summary, run })?;
        Ok(Node {
            kind: Kind::Repetition(body),
        })
    }
}

/// The nodes, shared, with those of these numbers replaced.
fn with_changes(
    alloc: Global,
    nodes: &[Node],
    changed: &[(u32, Node)],
) -> Result<List<Node>, AllocError>
    requires { All (λ change. change.0 < length nodes.now) changed.now }
    ensures { IfOk result (λ new. new ≡ replaced changed.now nodes.now) }
{
    let mut kept = List::with_capacity(alloc, nodes.len())?;
    copy(nodes, &mut kept)?;
    let mut kept = kept.into_vec();
    for (k, node) in changed {
        kept[*k as usize] = node.try_clone()?;
    }
    Ok(List::from_vec(kept))
}

/// The run with those of its children replaced, and those of its elements not settled.
fn remade_run(
    alloc: Global,
    run: &Shared<Run>,
    changed: &[(u32, Node)],
    loose: &[u32],
) -> Result<Shared<Run>, AllocError>
    requires within { All (λ change. change.0 < length run.now.children) changed.now }
    requires known { All (λ k. k < length run.now.elements) loose.now }
    ensures { IfOk result (λ new. new
        ≡ stretch (loosened loose.now run.now.elements) (replaced changed.now run.now.children)) }
{
    if changed.len() == 1 && loose.len() == 1 {
        return run_with_one(alloc, run, &changed[0], loose[0]);
    }
    let over = run_with_changes(alloc, run, changed)?;
    run_loosened(alloc, &over, loose)
}

/// The run with one of its children replaced, and one of its elements not settled.
fn run_with_one(
    alloc: Global,
    run: &Shared<Run>,
    change: &(u32, Node),
    e: u32,
) -> Result<Shared<Run>, AllocError>
    requires within { change.now.0 < length run.now.children }
    requires known { e < length run.now.elements }
    ensures { IfOk result (λ new. new ≡ stretch (loosened_at e run.now.elements)
        (set run.now.children change.now.0 change.now.1)) }
{
    let (k, node) = change;
    Run::with_both(alloc, run, *k, node.try_clone()?, e)
}

/// The run with those of its children replaced.
fn run_with_changes(
    alloc: Global,
    run: &Shared<Run>,
    changed: &[(u32, Node)],
) -> Result<Shared<Run>, AllocError>
    requires { All (λ change. change.0 < length run.now.children) changed.now }
    ensures { IfOk result
        (λ new. new ≡ stretch run.now.elements (replaced changed.now run.now.children)) }
{
    let mut run = run.try_clone()?;
    for (k, node) in changed {
        run = Run::with_child(alloc, &run, *k, node.try_clone()?)?;
    }
    Ok(run)
}

/// The run with those of its elements not settled.
fn run_loosened(alloc: Global, run: &Shared<Run>, loose: &[u32]) -> Result<Shared<Run>, AllocError>
    requires { All (λ k. k < length run.now.elements) loose.now }
    ensures { IfOk result
        (λ new. new ≡ stretch (loosened loose.now run.now.elements) run.now.children) }
{
    let mut run = run.try_clone()?;
    for k in loose {
        run = Run::with_loose(alloc, &run, *k)?;
    }
    Ok(run)
}

//! Ways down a stack: its number goes in; the extras on top of it, or its topmost nodes that are no
//! extras with the extras between them, come out, and the stack that is left.
ghost use Rattle.std.specs.Prelude.{◌≡◌, ◌<◌, ◌≤◌, ℕ, max, length, reverse, IfOk, Some};
ghost use Rattle.spec_trees.specs.Made.{filling};
ghost use Rattle.ts_gss.specs.Stacks.{stack_at, tree_on, trees_on};
ghost use Rattle.ts_gss.specs.Paths.{IsLifted, IsTakenOff, AreDepthsOf, depths_of, still_wanting};

use crate::graph::{Cell, Graph};
use std::alloc::{AllocError, Global};
use ts_node::Node;

/// The extras on top of a stack, the topmost first, and the stack under them.
#[derive(Drop)]
pub struct Lifted {
    pub extras: Vec<Node>,
    pub under: usize,
}

/// Nodes from the top of a stack, the lowest first; the depth of the lowest layer of them, and the
/// greatest of the others, 0 where there is none; and the stack under them.
#[derive(Drop)]
pub struct Taken {
    pub nodes: Vec<Node>,
    pub first: u32,
    pub others: u32,
    pub below: usize,
}

impl Graph {
    /// Lifts the extras from a stack, which stays as it is.
    ///
    /// # Errors
    ///
    /// `AllocError` where memory runs out.
    #[inline(always)]
    pub fn lift(&self, alloc: Global, head: usize) -> Result<Lifted, AllocError>
        requires { head < length self.now }
        ensures extras { IfOk result (λ lifted. IsLifted (stack_at self.now head)
            lifted.extras.items (stack_at self.now lifted.under)) }
        ensures there { IfOk result (λ lifted. lifted.under < length self.now) }
    {
        if self.extra(head) {
            self.lift_all(alloc, head)
        } else {
            let extras = Vec::new(alloc);
            Ok(Lifted {
                extras,
                under: head,
            })
        }
    }

    /// The same, one extra after another.
    fn lift_all(&self, alloc: Global, head: usize) -> Result<Lifted, AllocError>
        requires { head < length self.now }
        ensures extras { IfOk result (λ lifted. IsLifted (stack_at self.now head)
            lifted.extras.items (stack_at self.now lifted.under)) }
        ensures there { IfOk result (λ lifted. lifted.under < length self.now) }
    {
        let mut extras = Vec::new(alloc);
        let mut at = head;
        while self.extra(at) {
            extras.push(self.node(at).try_clone()?)?;
            at = self.below(at);
        }
        Ok(Lifted { extras, under: at })
    }

    /// Takes so many nodes that are no extras from the top of a stack, with the extras between
    /// them. The stack stays as it is.
    ///
    /// # Errors
    ///
    /// `AllocError` where memory runs out.
    pub fn take(&self, alloc: Global, head: usize, count: usize) -> Result<Taken, AllocError>
        requires there { head < length self.now }
        requires enough { count ≤ length (filling (trees_on (stack_at self.now head))) }
        ensures nodes { IfOk result (λ taken. IsTakenOff (stack_at self.now head) count
            taken.nodes.items (stack_at self.now taken.below)) }
        ensures depths { IfOk result (λ taken. AreDepthsOf
            (depths_of (length taken.nodes.items) (stack_at self.now head))
            taken.first taken.others) }
        ensures there { IfOk result (λ taken. taken.below < length self.now) }
    {
        let mut nodes = Vec::with_capacity(alloc, count)?;
        let mut at = head;
        let mut wanting = count;
        let mut first = 0;
        let mut others = 0;
        while wanting > 0 {
            let node = self.node(at);
            nodes.push(node.try_clone()?)?;
            wanting = left_to_take(node, wanting);
            others = greater(first, others);
            first = self.depth(at);
            at = self.below(at);
        }
        turn(&mut nodes);
        Ok(Taken {
            nodes,
            first,
            others,
            below: at,
        })
    }

    /// Takes the node on top off a stack. All stacks that were put there after it are taken out.
    #[inline(always)]
    pub fn take_node(&mut self, head: usize) -> Node
        requires there { head < length self.old }
        requires some { 0 < length (stack_at self.old head) }
        ensures node { Some result ≡ tree_on (stack_at self.old head) }
        ensures kept { (j : ℕ) → j < head → stack_at self.new j ≡ stack_at self.old j }
        ensures there { length self.new ≡ head }
    {
        let Cell {
            node,
            below: _,
            depth: _,
            state: _,
        } = self.take_top(head);
        node
    }

    /// Takes so many nodes that are no extras off the top of a stack, with the extras between them.
    /// None is copied: all stacks that were put there after the lowest of them are taken out.
    ///
    /// # Errors
    ///
    /// `AllocError` where memory runs out.
    pub fn take_off(
        &mut self,
        alloc: Global,
        head: usize,
        count: usize,
    ) -> Result<Taken, AllocError>
        requires there { head < length self.old }
        requires enough { count ≤ length (filling (trees_on (stack_at self.old head))) }
        ensures nodes { IfOk result (λ taken. IsTakenOff (stack_at self.old head) count
            taken.nodes.items (stack_at self.old taken.below)) }
        ensures depths { IfOk result (λ taken. AreDepthsOf
            (depths_of (length taken.nodes.items) (stack_at self.old head))
            taken.first taken.others) }
        ensures same { IfOk result (λ taken. (k : ℕ) → k ≤ taken.below
            → stack_at self.new k ≡ stack_at self.old k) }
        ensures low { IfOk result (λ taken. taken.below ≤ head) }
        ensures there { IfOk result (λ taken. taken.below < length self.new) }
    {
        let mut taken = self.spare(alloc);
        let mut at = head;
        let mut wanting = count;
        let mut first = 0;
        let mut others = 0;
        while wanting > 0 {
            let left = left_to_take(self.node(at), wanting);
            let Cell {
                node,
                below,
                depth,
                state: _,
            } = self.take_top(at);
            taken.push(node)?;
            wanting = left;
            others = greater(first, others);
            first = depth;
            at = below;
        }
        turn(&mut taken);
        Ok(Taken {
            nodes: taken,
            first,
            others,
            below: at,
        })
    }
}

/// Turns nodes round. Mostly there is one of them or none, which is left as it is.
#[inline(always)]
#[tactic(auto, using(crate::proofs::PathLemmas::short_turned))]
pub fn turn(nodes: &mut Vec<Node>)
    ensures { nodes.new.items ≡ reverse nodes.old.items }
{
    if nodes.len() > 1 {
        nodes.reverse();
    }
}

/// The greater of two depths.
fn greater(one: u32, other: u32) -> u32
    ensures { result ≡ max one other }
{
    one.max(other)
}

/// How many nodes are left to take after this one.
fn left_to_take(node: &Node, wanting: usize) -> usize
    requires { 0 < wanting }
    ensures { result ≡ still_wanting node.now wanting }
{
    if node.extra() { wanting } else { wanting - 1 }
}

//! Plain stacks in one arena: a node and the number of a stack go in, and the number of the stack
//! with the node on top comes out.
ghost use Rattle.std.specs.Prelude.{◌≡◌, ℕ, ◌<◌, ◌≤◌, ◌+◌, ◌++◌, ◌∷◌, [], ◌-◌, true, false, length, slice_get, take, Some, IfOk, IfErr};
ghost use Rattle.spec_trees.specs.Trees.{maximum};
ghost use Rattle.ts_gss.specs.Stacks.{stack_at, AreExact, packed_layer, layer_with, state_on, depth_on, depths_on, tree_on, under_top, begins_with_extra, layer_of, IsOneStack};

use std::alloc::{AllocError, Global};
use std::marker::Model;
use std::mem::replace;
use ts_node::Node;

/// The topmost layer of a stack, and the number of the stack below it.
#[derive(Drop)]
pub(crate) struct Cell {
    pub node: Node,
    pub below: usize,
    pub depth: u32,
    pub state: u16,
}

/// Stacks of nodes by their numbers, their heads. Head 0 is the empty stack. Contracts see the list
/// of all stacks, each with its topmost layer first.
#[derive(Drop)]
pub struct Graph {
    cells: Vec<Cell>,
    /// Memory for the nodes that are taken off next.
    spare: Vec<Node>,
    /// No cell has a greater depth.
    deepest: u32,
    /// The first so many cells are as deep as their nodes.
    exact: usize,
}

impl Model for Graph {
    ghost use Rattle.std.specs.Prelude.{List};
    ghost use Rattle.ts_gss.specs.declared.layer.Layer.{Layer};
    ghost use Rattle.ts_gss.specs.contracts.layer.Layer as contract;
    ghost use Rattle.std.specs.Coded.{codes};

    ghost Value = { List (List Layer) };

    ghost coded = { Prim.hlevel (codes, contract.the_row.coded) };

    ghost use Rattle.ts_gss.specs.Cells.{stacks_of, LieAbove, NoneIsDeeper, AreExactTo};

    ghost view = { λ a. stacks_of a.cells.items };

    ghost invariant = { λ a. LieAbove a.cells.items × NoneIsDeeper a.deepest a.cells.items
        × AreExactTo a.exact a.cells.items };
}

/// The cell of a stack that is not empty.
fn cell_at(cells: &[Cell], head: usize) -> &Cell
    requires some { 0 < head }
    requires within { head - 1 < length cells.now }
    ensures { slice_get cells.now (head - 1) ≡ Some result.now }
{
    &cells[head - 1]
}

/// Takes the last cell out.
fn last_of(cells: &mut Vec<Cell>) -> Cell
    requires { 0 < length cells.old.items }
    ensures { cells.old.items ≡ cells.new.items ++ result ∷ [] }
{
    match cells.pop() {
        Some(cell) => cell,
        None => unreachable!(),
    }
}

/// How many cells are as deep as their nodes, of so many and one more, and of those before.
fn exact_with(exact: usize, before: usize, count: usize, own: bool) -> usize
    requires { count ≡ before + 1 }
    ensures low { result ≤ before + 1 }
    ensures kept { result ≤ before → result ≤ exact }
    ensures old { before < result → before ≤ exact }
    ensures last { before < result → own ≡ true }
{
    if exact < before {
        exact
    } else if own {
        count
    } else {
        before
    }
}

impl Graph {
    /// The empty stack alone.
    pub fn new(alloc: Global) -> Graph
        ensures { result ≡ [] ∷ [] }
    {
        Graph {
            cells: Vec::new(alloc),
            spare: Vec::new(alloc),
            deepest: 0,
            exact: 0,
        }
    }

    /// No layer of a stack is deeper.
    pub fn deepest(&self) -> u32
        ensures { (head : ℕ) → head < length self.now
            → maximum (depths_on (stack_at self.now head)) ≤ result }
    {
        self.deepest
    }

    /// Whether each layer of a stack is as deep as its node. It may be so where this is not told.
    pub fn is_exact(&self, head: usize) -> bool
        requires { head < length self.now }
        ensures { result ≡ true → AreExact (stack_at self.now head) }
    {
        let _ = &self.cells;
        head <= self.exact
    }

    /// Whether a stack is empty.
    pub fn is_empty(&self, head: usize) -> bool
        requires { head < length self.now }
        ensures first { result ≡ true → head ≡ 0 }
        ensures empty { result ≡ true → stack_at self.now head ≡ [] }
        ensures some { result ≡ false → 0 < length (stack_at self.now head) }
    {
        let _ = &self.cells;
        head == 0
    }

    /// The cell on top of a stack that is not empty.
    fn cell(&self, head: usize) -> &Cell
        requires there { head < length self.now }
        requires some { 0 < length (stack_at self.now head) }
        ensures stack { stack_at self.now head
            ≡ layer_of result.now ∷ stack_at self.now result.now.below }
        ensures below { result.now.below < head }
    {
        cell_at(self.cells.as_slice(), head)
    }

    /// The state on top of a stack; 0 for the empty one.
    pub fn state(&self, head: usize) -> u16
        requires { head < length self.now }
        ensures { result ≡ state_on (stack_at self.now head) }
    {
        if self.is_empty(head) {
            0
        } else {
            self.cell(head).state
        }
    }

    /// Whether an extra is on top of a stack.
    pub fn extra(&self, head: usize) -> bool
        requires { head < length self.now }
        ensures { result ≡ begins_with_extra (stack_at self.now head) }
    {
        if self.is_empty(head) {
            false
        } else {
            self.cell(head).node.extra()
        }
    }

    /// The node on top of a stack that is not empty.
    pub fn node(&self, head: usize) -> &Node
        requires there { head < length self.now }
        requires some { 0 < length (stack_at self.now head) }
        ensures { Some result.now ≡ tree_on (stack_at self.now head) }
    {
        &self.cell(head).node
    }

    /// The depth of the layer on top of a stack that is not empty.
    pub fn depth(&self, head: usize) -> u32
        requires there { head < length self.now }
        requires some { 0 < length (stack_at self.now head) }
        ensures { Some result ≡ depth_on (stack_at self.now head) }
    {
        self.cell(head).depth
    }

    /// The stack below the top of one that is not empty.
    pub fn below(&self, head: usize) -> usize
        requires there { head < length self.now }
        requires some { 0 < length (stack_at self.now head) }
        ensures stack { stack_at self.now result ≡ under_top (stack_at self.now head) }
        ensures lower { result < head }
    {
        self.cell(head).below
    }

    /// Puts a node that stands for itself alone on a stack, with the state above it, and gives the
    /// head of the new stack. All stacks that were there stay.
    ///
    /// # Errors
    ///
    /// `AllocError` where memory runs out. No stack is added then.
    #[inline(always)]
    pub fn push(&mut self, below: usize, node: Node, state: u16) -> Result<usize, AllocError>
        requires { below < length self.old }
        ensures head { IfOk result (λ head. head ≡ length self.old) }
        ensures pushed { IfOk result (λ head. self.new
            ≡ self.old ++ (layer_with node state ∷ stack_at self.old below) ∷ []) }
        ensures one { IfOk result (λ head. IsOneStack self.old below
            → IsOneStack self.new head) }
        ensures kept { IfErr result (λ e. self.new ≡ self.old) }
    {
        let depth = node.depth();
        let head = self.push_packed(below, node, state, depth)?;
        Ok(head)
    }

    /// Puts a node on a stack, with the state above it and the greatest depth of the nodes for
    /// which it stands, and gives the head of the new stack. All stacks that were there stay.
    ///
    /// # Errors
    ///
    /// `AllocError` where memory runs out. No stack is added then.
    #[inline(always)]
    pub fn push_packed(
        &mut self,
        below: usize,
        node: Node,
        state: u16,
        depth: u32,
    ) -> Result<usize, AllocError>
        requires { below < length self.old }
        ensures head { IfOk result (λ head. head ≡ length self.old) }
        ensures pushed { IfOk result (λ head. self.new
            ≡ self.old ++ (packed_layer node state depth ∷ stack_at self.old below) ∷ []) }
        ensures one { IfOk result (λ head. IsOneStack self.old below
            → IsOneStack self.new head) }
        ensures kept { IfErr result (λ e. self.new ≡ self.old) }
    {
        let own = depth == node.depth();
        let before = self.cells.len();
        self.cells.push(Cell {
            node,
            below,
            depth,
            state,
        })?;
        let count = self.cells.len();
        self.deepest = self.deepest.max(depth);
        self.exact = exact_with(self.exact, before, count, own);
        Ok(count)
    }

    /// Takes the top off a stack, and takes out all stacks that were put there after it.
    pub(crate) fn take_top(&mut self, head: usize) -> Cell
        requires there { head < length self.old }
        requires some { 0 < length (stack_at self.old head) }
        ensures top { stack_at self.old head ≡ layer_of result ∷ stack_at self.old result.below }
        ensures lower { result.below < head }
        ensures left { self.new ≡ take head self.old }
    {
        let cells = &mut self.cells;
        cells.truncate(head);
        last_of(cells)
    }

    /// An empty vector, with the memory that was kept.
    pub(crate) fn spare(&mut self, alloc: Global) -> Vec<Node>
        ensures empty { result.items ≡ [] }
        ensures kept { self.new ≡ self.old }
    {
        let mut nodes = replace(&mut self.spare, Vec::new(alloc));
        nodes.clear();
        nodes
    }

    /// Keeps the memory of a vector for the nodes that are taken off next.
    pub fn keep(&mut self, nodes: Vec<Node>)
        ensures { self.new ≡ self.old }
    {
        self.spare = nodes;
    }

    /// Takes out all stacks that were put there after this one, and gives their memory back. All
    /// others stay.
    pub fn cut(&mut self, head: usize)
        requires { head < length self.old }
        ensures cut { self.new ≡ take (head + 1) self.old }
        ensures stack { stack_at self.new head ≡ stack_at self.old head }
        ensures there { head < length self.new }
    {
        self.cells.truncate(head);
    }
}

//! The graph and its heads: a stack, which its lowest heads and links are, and a state and a place
//! go in; the number of the head comes out.
ghost use Rattle.std.specs.Prelude.{◌≡◌, ◌<◌, ◌≤◌, ◌++◌, ◌∷◌, [], length, slice_get, Some, List as AnyList, IsTrue, IfSome, IfOk, OnOk, OnErr, MatchOption};
ghost use Rattle.spec_trees.specs.Trees.{all_spans};
ghost use Rattle.spec_graph.specs.declared.graph.Head.{Head as AnyHead};
ghost use Rattle.spec_graph.specs.declared.graph.Link.{Link as AnyLink};
ghost use Rattle.spec_graph.specs.Links.{IsWay};
ghost use Rattle.ts_gss.specs.Stacks.{IsOneStack, stack_at, trees_on};
ghost use Rattle.ts_graph.specs.Down.{HoldsEachOnce, KeepNumbers, OpensAt, links_down, links_from, place_at};
ghost use Rattle.ts_graph.specs.Cells.{heads_of, newest_of};
ghost use Rattle.ts_graph.specs.Under.{graph_over, head_over, layers_of, HaveBytes, LiesOver};

use spec_graph::Head;
use std::alloc::{AllocError, Global};
use std::marker::Model;
use std::mem::replace;
use ts_gss::Graph as Stacks;
use ts_node::Node;

/// A head, the newest link that leads down from it, and another head at its place: by these one
/// comes to each head there, and back.
#[derive(Clone, Copy, Drop)]
pub(crate) struct Row {
    pub head: Head,
    pub newest: Option<usize>,
    pub beside: usize,
}

/// A link, the newest of the earlier links that lead down from the same head, and the lowest place
/// to which it or one of these leads.
#[derive(Drop)]
pub(crate) struct Cell {
    pub above: usize,
    pub below: usize,
    pub node: Node,
    pub depth: u32,
    pub earlier: Option<usize>,
    pub lowest: u32,
}

/// A graph of stacks, which contracts see as its heads and its links by their numbers. It lies
/// over one stack: its lowest heads and links are those of the stack, which stays where it is, and
/// takes no more links. All others are taken out only all at once.
#[derive(Drop)]
pub struct Graph {
    /// The stack, alone: each layer has the number of the head above it.
    pub(crate) stack: Stacks,
    /// How many layers the stack has, which is the number of its own head.
    pub(crate) base: usize,
    /// The place where it ends.
    pub(crate) place: u32,
    /// Another head at that place, or its own.
    beside: usize,
    /// The heads past that one.
    pub(crate) rows: Vec<Row>,
    /// The links past those of the stack.
    pub(crate) cells: Vec<Cell>,
    /// Whether there was a tree of these that is an extra.
    pub(crate) extras: bool,
}

/// Whether two heads are the same.
fn is_same(one: Head, other: Head) -> bool
    ensures { IsTrue result → one ≡ other }
{
    one == other
}

/// A row with another one beside it.
fn with_beside(row: Row, beside: usize) -> Row
    ensures head { result.head ≡ row.head }
    ensures newest { result.newest ≡ row.newest }
{
    Row {
        head: row.head,
        newest: row.newest,
        beside,
    }
}

/// The next head in the ring of a head, where the head of the stack, which has no row, has `first`
/// beside it. A head of another number has itself beside it.
fn next_in(rows: &[Row], base: usize, first: usize, number: usize) -> usize {
    if number == base {
        return first;
    }
    if number < base {
        return number;
    }
    match rows.get(number - base - 1) {
        Some(row) => row.beside,
        None => number,
    }
}

/// Puts another head beside that of a number, if it has a row.
fn set_beside(rows: &mut Vec<Row>, base: usize, number: usize, beside: usize)
    ensures heads { heads_of rows.new.items ≡ heads_of rows.old.items }
    ensures newest { newest_of rows.new.items ≡ newest_of rows.old.items }
{
    if number <= base {
        return;
    }
    let row = number - base - 1;
    if row >= rows.len() {
        return;
    }
    rows[row] = with_beside(rows[row], beside);
}

/// Puts the head of a number into the ring of another one, if there is that, and it is none below
/// the stack's own. The answer is the head beside that one.
fn join_ring(
    rows: &mut Vec<Row>,
    base: usize,
    first: usize,
    number: usize,
    beside: Option<usize>,
) -> usize
    ensures heads { heads_of rows.new.items ≡ heads_of rows.old.items }
    ensures newest { newest_of rows.new.items ≡ newest_of rows.old.items }
{
    let Some(other) = beside else {
        return first;
    };
    if other < base {
        return first;
    }
    let own = if other == base { number } else { first };
    let next = next_in(rows.as_slice(), base, first, other);
    set_beside(rows, base, number, next);
    set_beside(rows, base, other, number);
    own
}

/// The place where one of the stacks ends that lie in one, which ends at a place. It costs the
/// layers between both.
fn place_under(stack: &Stacks, top: usize, place: u32, number: usize) -> u32
    requires one { IsOneStack stack.now top }
    requires spans { all_spans (trees_on (stack_at stack.now top)) ≡ place }
    requires under { number ≤ top }
    ensures { result ≡ all_spans (trees_on (stack_at stack.now number)) }
{
    let mut at = top;
    let mut end = place;
    while at > number {
        let node = stack.node(at);
        end -= node.pad() + node.size();
        at -= 1;
    }
    end
}

/// The head of one of the stacks that lie in one, which ends at a place.
fn head_under(stack: &Stacks, top: usize, place: u32, number: usize) -> Head
    requires one { IsOneStack stack.now top }
    requires spans { all_spans (trees_on (stack_at stack.now top)) ≡ place }
    requires under { number ≤ top }
    ensures { result ≡ head_over (stack_at stack.now number) }
{
    Head {
        state: stack.state(number),
        place: place_under(stack, top, place, number),
    }
}

impl Model for Graph {
    ghost use Rattle.ts_graph.specs.declared.view.GraphView.{GraphView};
    ghost use Rattle.ts_graph.specs.contracts.view.GraphView as contract;
    ghost use Rattle.std.specs.Coded.{codes};

    ghost Value = { GraphView };

    ghost coded = { Prim.hlevel (codes, contract.the_row.coded) };

    ghost use Rattle.ts_gss.specs.Stacks.{stack_at};
    ghost use Rattle.ts_graph.specs.Cells.{graph_of, heads_of, newest_of, links_of};
    ghost use Rattle.ts_graph.specs.Cells.{IsSound, IsKept};
    ghost use Rattle.ts_graph.specs.Under.{rows_over, cells_over, LiesUnder};

    ghost view = { λ a. graph_of (heads_of (rows_over (stack_at a.stack a.base) a.rows.items))
        (links_of (cells_over (stack_at a.stack a.base) a.cells.items)) a.base };

    ghost invariant = { λ a. IsSound (heads_of (rows_over (stack_at a.stack a.base) a.rows.items))
        (newest_of (rows_over (stack_at a.stack a.base) a.rows.items))
        (cells_over (stack_at a.stack a.base) a.cells.items)
        × IsKept (heads_of (rows_over (stack_at a.stack a.base) a.rows.items)) a.base
        (cells_over (stack_at a.stack a.base) a.cells.items) a.extras
        × LiesUnder a.stack a.base a.place a.cells.items };
}

impl Graph {
    /// A graph over the empty stack, with its head alone. It takes no memory.
    pub fn new(alloc: Global) -> Graph
        ensures { result ≡ graph_over [] }
    {
        Graph {
            stack: Stacks::new(alloc),
            base: 0,
            place: 0,
            beside: 0,
            rows: Vec::new(alloc),
            cells: Vec::new(alloc),
            extras: false,
        }
    }

    /// Takes out all heads and links, and lies over a stack that ends at a place. Their memory
    /// stays for others.
    pub fn lie_over(&mut self, stack: Stacks, top: usize, place: u32)
        requires one { IsOneStack stack top }
        requires spans { all_spans (trees_on (stack_at stack top)) ≡ place }
        requires bytes { HaveBytes (trees_on (stack_at stack top)) }
        ensures { self.new ≡ graph_over (stack_at stack top) }
    {
        self.stack = stack;
        self.base = top;
        self.place = place;
        self.beside = top;
        self.rows.clear();
        self.cells.clear();
        self.extras = false;
    }

    /// Takes out all heads and links, and gives back the stack of one of the stack's heads.
    pub fn take_stack(&mut self, alloc: Global, head: usize) -> Stacks
        requires { head ≤ self.old.base }
        ensures one { IsOneStack result head }
        ensures layers { (way : AnyList AnyLink) → IsWay self.old.links head way 0
            → stack_at result head ≡ layers_of self.old.heads way }
        ensures left { self.new ≡ graph_over [] }
    {
        let mut stack = replace(&mut self.stack, Stacks::new(alloc));
        stack.cut(head);
        self.base = 0;
        self.place = 0;
        self.beside = 0;
        self.rows.clear();
        self.cells.clear();
        self.extras = false;
        stack
    }

    /// How many heads there are.
    pub fn count(&self) -> usize
        ensures count { result ≡ length self.now.heads }
        ensures once { HoldsEachOnce self.now.heads self.now.links }
    {
        let _place = self.place;
        let first = self.base + 1;
        first + self.rows.len()
    }

    /// The head of the stack over which the graph lies.
    pub fn base(&self) -> usize
        ensures is { result ≡ self.now.base }
        ensures lies { LiesOver self.now }
    {
        let _ = &self.rows;
        self.base
    }

    /// A head as it is kept, and none where it is one of the stack's.
    fn row(&self, number: usize) -> Option<&Row>
        requires { number < length self.now.heads }
        ensures { MatchOption result (number ≤ self.now.base)
            (λ row. (self.now.base < number)
            × (slice_get self.now.heads number ≡ Some row.now.head)
            × (links_from self.now.links number row.now.newest
            ≡ links_down self.now.links number)) }
    {
        if number <= self.base {
            None
        } else {
            Some(&self.rows[number - self.base - 1])
        }
    }

    /// The head of a number. One of the stack's costs the layers above it.
    pub fn head(&self, number: usize) -> Head
        requires { number < length self.now.heads }
        ensures { slice_get self.now.heads number ≡ Some result }
    {
        match self.row(number) {
            Some(row) => row.head,
            None => head_under(&self.stack, self.base, self.place, number),
        }
    }

    /// The state of the head of a number.
    pub fn state(&self, number: usize) -> u16
        requires { number < length self.now.heads }
        ensures { (h : AnyHead) → slice_get self.now.heads number ≡ Some h → result ≡ h.state }
    {
        match self.row(number) {
            Some(row) => row.head.state,
            None => self.stack.state(number),
        }
    }

    /// The newest link that leads down from a head.
    pub fn first_down(&self, head: usize) -> Option<usize>
        requires { head < length self.now.heads }
        ensures { links_from self.now.links head result ≡ links_down self.now.links head }
    {
        let _ = &self.rows;
        match self.row(head) {
            Some(row) => row.newest,
            None => { if head == 0 { None } else { Some(head - 1) } }
        }
    }

    /// Whether a head stands at a place, if there is one of this number.
    pub fn stands_at(&self, number: usize, place: u32) -> bool
        ensures { IsTrue result → (number < length self.now.heads)
            × (place_at self.now.heads number ≡ place) }
    {
        if number >= self.count() {
            return false;
        }
        self.head(number).place == place
    }

    /// Whether it is the head of a number, if there is one of this number past those of the stack.
    fn has_at(&self, number: usize, head: Head) -> bool
        ensures own { IsTrue result → self.now.base < number }
        ensures at { IsTrue result → slice_get self.now.heads number ≡ Some head }
    {
        if number >= self.count() {
            return false;
        }
        match self.row(number) {
            Some(row) => is_same(row.head, head),
            None => false,
        }
    }

    /// The number of a head past those of the stack, if it is found beside another one, which
    /// stands at its place.
    fn find(&self, head: Head, beside: Option<usize>) -> Option<usize>
        ensures own { IfSome result (λ number. self.now.base < number) }
        ensures at { IfSome result (λ number. slice_get self.now.heads number ≡ Some head) }
    {
        let Some(first) = beside else {
            return None;
        };
        let mut at = first;
        for _ in 0..self.count() {
            if self.has_at(at, head) {
                return Some(at);
            }
            at = next_in(self.rows.as_slice(), self.base, self.beside, at);
            if at == first {
                return None;
            }
        }
        None
    }

    /// Puts a head at the end, beside another one, if there is that.
    fn add(&mut self, head: Head, beside: Option<usize>) -> Result<usize, AllocError>
        ensures number { IfOk result (λ number. number ≡ length self.old.heads) }
        ensures added { OnOk result (self.new.heads ≡ self.old.heads ++ head ∷ []) }
        ensures links { self.new.links ≡ self.old.links }
        ensures base { self.new.base ≡ self.old.base }
        ensures kept { OnErr result (self.new ≡ self.old) }
    {
        let number = self.count();
        self.rows.push(Row {
            head,
            newest: None,
            beside: number,
        })?;
        self.beside = join_ring(&mut self.rows, self.base, self.beside, number, beside);
        Ok(number)
    }

    /// The number of a head, which is put at the end where it is not found. It is sought among the
    /// heads at its place, if one of these is told, but those of the stack.
    ///
    /// # Errors
    ///
    /// `AllocError` where memory runs out. No head is added then.
    pub fn open(&mut self, head: Head, beside: Option<usize>) -> Result<usize, AllocError>
        ensures opened { IfOk result
            (λ number. OpensAt self.old.heads self.new.heads head number) }
        ensures own { IfOk result (λ number. self.new.base < number) }
        ensures stay { KeepNumbers self.old.heads self.new.heads }
        ensures links { self.new.links ≡ self.old.links }
        ensures base { self.new.base ≡ self.old.base }
        ensures kept { OnErr result (self.new ≡ self.old) }
    {
        match self.find(head, beside) {
            Some(number) => Ok(number),
            None => {
                let _ = self.base();
                let number = self.add(head, beside)?;
                Ok(number)
            }
        }
    }
}

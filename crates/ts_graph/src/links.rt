//! Links between heads: a tree between two heads goes in, as a new link or packed into the one that
//! is there, and the links that lead down from a head come out, the newest first.
ghost use Rattle.std.specs.Prelude.{◌≡◌, ℕ, ◌<◌, ◌≤◌, ◌||◌, ◌++◌, ◌∷◌, [], length, take, slice_get, Some, OnOk, OnErr, IsTrue, IfSome, MatchOption};
ghost use Rattle.spec_trees.specs.Choice.{AreOfOneGrammar};
ghost use Rattle.spec_graph.specs.declared.graph.Link.{Link};
ghost use Rattle.ts_graph.specs.Cells.{link_of, IsCellOf};
ghost use Rattle.ts_graph.specs.Bounds.{IsBound, LeadNoLower, AllPast};
ghost use Rattle.ts_graph.specs.Down.{link_with, links_down, links_from, place_at, HasNone, IsBetween, IsPacked, LeadFrom};

use crate::graph::{Cell, Graph, Row};
use std::alloc::AllocError;
use ts_node::Node;
use ts_order::better;

/// A link without its tree: the heads above and below it, by their numbers, and its depth.
#[derive(Clone, Copy, Drop)]
pub struct Edge {
    pub above: usize,
    pub below: usize,
    pub depth: u32,
}

/// Whether one of two is so.
fn either(first: bool, second: bool) -> bool
    ensures { result ≡ (first || second) }
{
    first || second
}

/// A row with a newer link.
fn with_newest(row: Row, link: usize) -> Row
    ensures head { result.head ≡ row.head }
    ensures newest { result.newest ≡ Some link }
{
    Row {
        head: row.head,
        newest: Some(link),
        beside: row.beside,
    }
}

impl Graph {
    /// How many links there are.
    pub fn link_count(&self) -> usize
        ensures { result ≡ length self.now.links }
    {
        let _place = self.place;
        self.base + self.cells.len()
    }

    /// Whether all links from a number on lead down from heads from another number on.
    pub fn lead_from(&self, links: usize, heads: usize) -> bool
        ensures { IsTrue result → LeadFrom self.now.links links heads }
    {
        for link in links..self.link_count() {
            if self.link(link).above < heads {
                return false;
            }
        }
        true
    }

    /// A link as it is kept, and none where it is one of the stack's.
    fn cell(&self, link: usize) -> Option<&Cell>
        requires { link < length self.now.links }
        ensures { MatchOption result (link < self.now.base)
            (λ cell. IsCellOf self.now link cell.now) }
    {
        if link < self.base {
            None
        } else {
            Some(&self.cells[link - self.base])
        }
    }

    /// The heads and the depth of a link.
    pub fn link(&self, link: usize) -> Edge
        requires { link < length self.now.links }
        ensures above { (l : Link) → slice_get self.now.links link ≡ Some l
            → result.above ≡ l.above }
        ensures below { (l : Link) → slice_get self.now.links link ≡ Some l
            → result.below ≡ l.below }
        ensures depth { (l : Link) → slice_get self.now.links link ≡ Some l
            → result.depth ≡ l.depth }
    {
        let _place = self.place;
        match self.cell(link) {
            Some(cell) => Edge {
                above: cell.above,
                below: cell.below,
                depth: cell.depth,
            },
            None => Edge {
                above: link + 1,
                below: link,
                depth: self.stack.depth(link + 1),
            },
        }
    }

    /// The tree of a link.
    pub fn node(&self, link: usize) -> &Node
        requires { link < length self.now.links }
        ensures { (l : Link) → slice_get self.now.links link ≡ Some l → result.now ≡ l.tree }
    {
        let _place = self.place;
        match self.cell(link) {
            Some(cell) => &cell.node,
            None => self.stack.node(link + 1),
        }
    }

    /// The newest of the earlier links that lead down from the same head as this one.
    pub fn next_down(&self, link: usize) -> Option<usize>
        requires { link < length self.now.links }
        ensures { (l : Link) → slice_get self.now.links link ≡ Some l
            → links_from self.now.links l.above result
            ≡ links_down (take link self.now.links) l.above }
    {
        let _ = &self.cells;
        match self.cell(link) {
            Some(cell) => cell.earlier,
            None => None,
        }
    }

    /// A place below which neither a link leads nor an earlier one from its head.
    fn lowest(&self, link: usize) -> u32
        requires { link < length self.now.links }
        ensures bound { (l : Link) → slice_get self.now.links link ≡ Some l
            → IsBound self.now.heads self.now.links link l.above result }
        ensures own { link < self.now.base → result ≡ 0 }
    {
        match self.cell(link) {
            Some(cell) => cell.lowest,
            None => 0,
        }
    }

    /// Whether no earlier link leads down from the same head as this one.
    fn is_alone(&self, link: usize) -> bool
        requires { link < length self.now.links }
        ensures { IsTrue result → (l : Link) → slice_get self.now.links link ≡ Some l
            → links_down (take link self.now.links) l.above ≡ [] }
    {
        match self.next_down(link) {
            None => true,
            Some(_) => false,
        }
    }

    /// The only link that leads down from a head, and none where there are more or none.
    pub(crate) fn only_down(&self, head: usize) -> Option<usize>
        requires { head < length self.now.heads }
        ensures { IfSome result (λ link. links_down self.now.links head ≡ link ∷ []) }
    {
        match self.first_down(head) {
            None => None,
            Some(link) => {
                if self.is_alone(link) {
                    Some(link)
                } else {
                    None
                }
            }
        }
    }

    /// The lowest of a place and of those to which the links from one on lead down.
    fn lowest_down(&self, next: Option<usize>, place: u32) -> u32
        requires { (above : ℕ)
            × (links_from self.now.links above next ≡ links_down self.now.links above) }
        ensures own { result ≤ place }
        ensures others { (above : ℕ)
            → links_from self.now.links above next ≡ links_down self.now.links above
            → LeadNoLower self.now.heads self.now.links above result }
    {
        match next {
            Some(link) => self.lowest(link).min(place),
            None => place,
        }
    }

    /// Whether the links from one on, down from the same head, all lead past a place, with no tree
    /// wanting, where so many were before them.
    pub(crate) fn all_past(&self, place: u32, wanting: usize, link: usize) -> bool
        requires { link < length self.now.links }
        ensures { IsTrue result → AllPast self.now.heads self.now.links place wanting link }
    {
        let _ = &self.rows;
        if self.extras {
            return false;
        }
        if wanting != 1 {
            return false;
        }
        self.lowest(link) > place
    }

    /// The link between two heads, and none where there is none. It passes the links that lead down
    /// from the head above.
    pub fn between(&self, above: usize, below: usize) -> Option<usize>
        requires { above < length self.now.heads }
        ensures { MatchOption result (HasNone self.now.links above below)
            (λ link. IsBetween self.now.links above below link) }
    {
        let mut next = self.first_down(above);
        while let Some(link) = next {
            if self.link(link).below == below {
                return Some(link);
            }
            next = self.next_down(link);
        }
        None
    }

    /// Adds a link at the end, between two heads that have none yet. The head below stands at an
    /// earlier place. The one above is past those of the stack.
    ///
    /// # Errors
    ///
    /// `AllocError` where memory runs out. No link is added then.
    pub fn push(
        &mut self,
        above: usize,
        below: usize,
        node: Node,
        depth: u32,
    ) -> Result<(), AllocError>
        requires above { above < length self.old.heads }
        requires own { self.old.base < above }
        requires below { below < length self.old.heads }
        requires falls { place_at self.old.heads below < place_at self.old.heads above }
        requires new { HasNone self.old.links above below }
        ensures heads { self.new.heads ≡ self.old.heads }
        ensures base { self.new.base ≡ self.old.base }
        ensures pushed { OnOk result
            (self.new.links ≡ self.old.links ++ link_with above below node depth ∷ []) }
        ensures kept { OnErr result (self.new ≡ self.old) }
    {
        let earlier = self.first_down(above);
        let lowest = self.lowest_down(earlier, self.head(below).place);
        let number = self.base + self.cells.len();
        let extras = either(self.extras, node.extra());
        self.cells.push(Cell {
            above,
            below,
            node,
            depth,
            earlier,
            lowest,
        })?;
        let row = above - self.base - 1;
        self.rows[row] = with_newest(self.rows[row], number);
        self.extras = extras;
        Ok(())
    }

    /// Packs one more tree into a link past those of the stack: the better of the two trees stays,
    /// the one that was there where neither is better, and the greater of the two depths.
    pub fn pack(&mut self, link: usize, node: Node, depth: u32)
        requires there { link < length self.old.links }
        requires own { (l : Link) → slice_get self.old.links link ≡ Some l
            → self.old.base < l.above }
        requires form { (l : Link) → slice_get self.old.links link ≡ Some l
            → AreOfOneGrammar node l.tree }
        ensures heads { self.new.heads ≡ self.old.heads }
        ensures base { self.new.base ≡ self.old.base }
        ensures count { length self.new.links ≡ length self.old.links }
        ensures packed { (l m : Link) → slice_get self.old.links link ≡ Some l
            → slice_get self.new.links link ≡ Some m → IsPacked l node depth m }
        ensures others { (k : ℕ) → (k ≡ link → ⊥)
            → slice_get self.new.links k ≡ slice_get self.old.links k }
    {
        let extras = either(self.extras, node.extra());
        self.extras = extras;
        let cell = link - self.base;
        self.cells[cell].pack(node, depth);
    }
}

impl Cell {
    /// The same of its cell.
    fn pack(&mut self, node: Node, depth: u32)
        requires { AreOfOneGrammar node self.old.node }
        ensures packed { IsPacked (link_of self.old) node depth (link_of self.new) }
        ensures earlier { self.new.earlier ≡ self.old.earlier }
        ensures lowest { self.new.lowest ≡ self.old.lowest }
    {
        if better(&node, &self.node) {
            self.node = node;
        }
        self.depth = self.depth.max(depth);
    }
}

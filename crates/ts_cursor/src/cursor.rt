//! The cursor: a grammar and a root go in, and a place in the visible tree comes out, which moves
//! to children, siblings and parents.
ghost use Rattle.std.specs.Prelude.{◌≡◌, ◌<◌, ◌^◌, ℕ, true, false, IfOk, Some, length, slice_get, option_map};
ghost use Rattle.spec_trees.specs.Trees.{span_of};
ghost use Rattle.spec_trees.specs.VisibleNodes.{visible_nodes};
ghost use Rattle.spec_trees.specs.Family.{LieWithin, IsFirstChild, IsNextSibling, IsParent, depth_at, node_at};
ghost use Rattle.ts_cursor.specs.Linked.{IsPast, DepthsRise, AreShallow};

use crate::links::{depth, pasts};
use crate::moves::{first_child, next_sibling, parent};
use crate::nodes::nodes;
use crate::seen::Seen;
use crate::steps::Steps;
use std::alloc::{AllocError, Global};
use std::marker::Model;
use ts_core::FlatGrammar;
use ts_node::Node;

/// A cursor on a node of a visible tree, which contracts see as that `Focus`.
///
/// It keeps the nodes that show, for each the number after its descendants, and the numbers of the
/// nodes that it stands in, for which there is room from the start. So a move takes constant time
/// and no memory.
#[derive(Drop)]
pub struct Cursor<'g> {
    nodes: Seen<'g>,
    pasts: Vec<u32>,
    /// For each depth above that of its node the number of the node that it stands in.
    path: Vec<u32>,
    number: u32,
}

impl<'g> Model for Cursor<'g> {
    ghost use Rattle.spec_trees.specs.declared.visible.Focus.{Focus};
    ghost use Rattle.spec_trees.specs.contracts.visible.Focus as focus;
    ghost use Rattle.std.specs.Coded.{codes};

    ghost Value = { Focus };

    ghost coded = { Prim.hlevel (codes, focus.the_row.coded) };

    ghost use Rattle.ts_cursor.specs.Marked.{focus_of};
    ghost use Rattle.ts_cursor.specs.Linked.{IsLinked};

    ghost view = { λ a. focus_of a.nodes a.number };

    ghost invariant = { λ a. IsLinked a.nodes a.pasts.items a.path.items a.number };
}

impl<'g> Cursor<'g> {
    /// A cursor on the root of the visible tree of a root, in time by the size of the tree.
    ///
    /// # Errors
    ///
    /// `AllocError` where memory runs out.
    pub fn new(
        alloc: Global,
        grammar: &'g FlatGrammar,
        root: &Node,
    ) -> Result<Cursor<'g>, AllocError>
        ensures nodes { IfOk result (λ cursor. cursor.nodes ≡ visible_nodes grammar.now root.now) }
        ensures number { IfOk result (λ cursor. cursor.number ≡ 0) }
        ensures lie { IfOk result (λ cursor. LieWithin (span_of root.now) cursor.nodes) }
    {
        let steps = Steps::new(alloc, grammar)?;
        let nodes = nodes(alloc, &steps, root)?;
        Cursor::over(alloc, nodes, root.depth())
    }

    /// A cursor on the first of visible nodes, which are all less deep than `room`.
    fn over(alloc: Global, nodes: Seen<'g>, room: u32) -> Result<Cursor<'g>, AllocError>
        requires few { length nodes < 2 ^ 32 }
        requires some { 0 < length nodes }
        requires root { depth_at nodes 0 ≡ 0 }
        requires rise { DepthsRise nodes }
        requires shallow { AreShallow room nodes }
        ensures nodes { IfOk result (λ cursor. cursor.nodes ≡ nodes.entry) }
        ensures number { IfOk result (λ cursor. cursor.number ≡ 0) }
    {
        let pasts = pasts(alloc, &nodes)?;
        let path = vec![in alloc; 0u32; room as usize]?;
        Ok(Cursor {
            nodes,
            pasts,
            path,
            number: 0,
        })
    }

    /// Goes to the first child, or stays where there is none.
    pub fn first_child(&mut self) -> bool
        ensures goes { result ≡ true → IsFirstChild self.old.nodes self.old.number self.new.number }
        ensures stays { result ≡ false → self.new.number ≡ self.old.number }
        ensures exact { (m : ℕ) → IsFirstChild self.old.nodes self.old.number m → result ≡ true }
        ensures nodes { self.new.nodes ≡ self.old.nodes }
    {
        match first_child(&self.nodes, self.number) {
            Some(child) => {
                let depth = depth(&self.nodes, self.number);
                self.path[depth as usize] = self.number;
                self.number = child;
                true
            }
            None => false,
        }
    }

    /// Goes to the next sibling, or stays where there is none.
    pub fn next_sibling(&mut self) -> bool
        ensures goes { result ≡ true
            → IsNextSibling self.old.nodes self.old.number self.new.number }
        ensures stays { result ≡ false → self.new.number ≡ self.old.number }
        ensures exact { (m : ℕ) → IsNextSibling self.old.nodes self.old.number m → result ≡ true }
        ensures nodes { self.new.nodes ≡ self.old.nodes }
    {
        match next_sibling(&self.nodes, self.pasts.as_slice(), self.number) {
            Some(sibling) => {
                self.number = sibling;
                true
            }
            None => false,
        }
    }

    /// Goes to the parent, or stays where there is none, which is at the root.
    pub fn parent(&mut self) -> bool
        ensures goes { result ≡ true → IsParent self.old.nodes self.old.number self.new.number }
        ensures stays { result ≡ false → self.new.number ≡ self.old.number }
        ensures exact { (m : ℕ) → IsParent self.old.nodes self.old.number m → result ≡ true }
        ensures nodes { self.new.nodes ≡ self.old.nodes }
    {
        match parent(&self.nodes, self.path.as_slice(), self.number) {
            Some(above) => {
                self.number = above;
                true
            }
            None => false,
        }
    }

    /// The name under which the node shows.
    pub fn name(&self) -> &str
        ensures { option_map (λ node. node.name) (node_at self.now) ≡ Some result.now }
    {
        self.nodes.name(self.number as usize)
    }

    /// Whether it shows as named.
    pub fn named(&self) -> bool
        ensures { option_map (λ node. node.named) (node_at self.now) ≡ Some result }
    {
        self.nodes.named(self.number as usize)
    }

    /// Its field at `k`, counted from 0, by the field's number. None past the last.
    pub fn field(&self, k: u32) -> Option<u16>
        ensures { option_map (λ node. slice_get node.fields k) (node_at self.now) ≡ Some result }
    {
        let fields = self.nodes.fields(self.number as usize);
        if (k as usize) < fields.len() {
            Some(fields[k as usize])
        } else {
            None
        }
    }

    /// The place of its first byte, and the place after its last.
    pub fn range(&self) -> (u32, u32)
        ensures { option_map (λ node. (node.start, node.end)) (node_at self.now) ≡ Some result }
    {
        let number = self.number as usize;
        (self.nodes.start(number), self.nodes.end(number))
    }

    /// Its place in preorder, counted from 0.
    pub fn number(&self) -> u32
        ensures number { result ≡ self.now.number }
        ensures within { result < length self.now.nodes }
    {
        self.number
    }

    /// How many nodes the tree has.
    pub fn count(&self) -> u32
        ensures count { result ≡ length self.now.nodes }
        ensures some { 0 < length self.now.nodes }
        ensures few { length self.now.nodes < 2 ^ 32 }
    {
        self.nodes.len() as u32
    }

    /// How many nodes the node of a number stands in.
    pub fn depth_at(&self, k: u32) -> u32
        requires { k < length self.now.nodes }
        ensures { option_map (λ node. node.depth) (slice_get self.now.nodes k) ≡ Some result }
    {
        self.nodes.depth(k as usize)
    }

    /// The name under which the node of a number shows.
    pub fn name_at(&self, k: u32) -> &str
        requires { k < length self.now.nodes }
        ensures { option_map (λ node. node.name) (slice_get self.now.nodes k) ≡ Some result.now }
    {
        self.nodes.name(k as usize)
    }

    /// Whether the node of a number shows as named.
    pub fn named_at(&self, k: u32) -> bool
        requires { k < length self.now.nodes }
        ensures { option_map (λ node. node.named) (slice_get self.now.nodes k) ≡ Some result }
    {
        self.nodes.named(k as usize)
    }

    /// The fields of the node of a number, by the fields' numbers.
    pub fn fields_at(&self, k: u32) -> &[u16]
        requires { k < length self.now.nodes }
        ensures { option_map (λ node. node.fields) (slice_get self.now.nodes k) ≡ Some result.now }
    {
        self.nodes.fields(k as usize)
    }

    /// The place of the first byte of the node of a number.
    pub fn start_at(&self, k: u32) -> u32
        requires { k < length self.now.nodes }
        ensures { option_map (λ node. node.start) (slice_get self.now.nodes k) ≡ Some result }
    {
        self.nodes.start(k as usize)
    }

    /// The place after the last byte of the node of a number.
    pub fn end_at(&self, k: u32) -> u32
        requires { k < length self.now.nodes }
        ensures { option_map (λ node. node.end) (slice_get self.now.nodes k) ≡ Some result }
    {
        self.nodes.end(k as usize)
    }

    /// The number after the descendants of the node of a number.
    pub fn past_at(&self, k: u32) -> u32
        requires { k < length self.now.nodes }
        ensures { IsPast self.now.nodes k result }
    {
        self.pasts[k as usize]
    }
}

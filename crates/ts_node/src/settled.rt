//! Elements that are settled and were examined in the first bytes of their node alone: a node, the
//! number of an element and how many bytes go in, and how many elements from there on are so comes
//! out.
ghost use Rattle.std.specs.Prelude.{◌≡◌, ◌↔◌, ◌<◌, ◌≤◌, ◌^◌, true, IsTrue, length};
ghost use Rattle.spec_trees.specs.Trees.{elements_of};
ghost use Rattle.spec_trees.specs.Made.{children_count, stretch_in};
ghost use Rattle.ts_node.specs.Held.{stretch};
ghost use Rattle.ts_node.specs.Places.{settled_after, settled_by, IsSettledBy};

use crate::counts::{further, own, spans};
use crate::cut::owned;
use crate::node::{Counts, Kind, Node, Run, Shape};
use spec_trees::Element;

impl Node {
    /// How many elements from the one at `e` on are settled, one after another, and end with all
    /// that was examined for them within so many bytes from where the node begins. It takes time by
    /// the logarithm of the number of elements.
    #[tactic(auto, using(crate::proofs::BodyLemmas::leaf_none, crate::proofs::SettledLemmas::none_settled))]
    pub fn settled_within(&self, e: u32, room: u32) -> u32
        requires { e ≤ length (elements_of self.now) }
        ensures { result ≡ settled_after room e (stretch_in self.now) }
    {
        match &self.kind {
            Kind::Leaf(_) => 0,
            Kind::Rule(rule) => {
                let _ = rule.children();
                0
            }
            Kind::Repetition(repetition) => {
                repetition.get().run().get().settled_within(e, room as u64)
            }
            Kind::Single(single) => {
                let (elements, children) = single.lists();
                settled_behind(elements, children, e as usize, room as u64)
            }
        }
    }
}

impl Run {
    /// How many elements from the one at `k` on are settled, one after another, and end within so
    /// many bytes from where the run begins.
    fn settled_within(&self, k: u32, room: u64) -> u32
        requires { k ≤ length self.now.elements }
        ensures { result ≡ settled_after room k self.now }
    {
        let _ = self.counts();
        match &self.shape {
            Shape::Leaf(elements, children) => {
                settled_behind(elements.as_slice(), children.as_slice(), k as usize, room)
            }
            Shape::Branch(left, right) => {
                let low = left.get().counts();
                let _ = right.get().counts();
                let middle = low.elements;
                let inner = room.saturating_sub(low.sums.spans);
                if k >= middle {
                    right.get().settled_within(k - middle, inner)
                } else {
                    let first = left.get().settled_within(k, room);
                    let end = k + first;
                    if end < middle {
                        first
                    } else {
                        first + right.get().first_settled(inner)
                    }
                }
            }
        }
    }

    /// How many elements from the first on are settled, one after another, and end within so many
    /// bytes from where the run begins.
    fn first_settled(&self, room: u64) -> u32
        ensures { result ≡ settled_by room self.now.elements self.now.children }
    {
        let counts = self.counts();
        if are_settled_by(counts, room) {
            return counts.elements;
        }
        match &self.shape {
            Shape::Leaf(elements, children) => {
                settled_among(elements.as_slice(), children.as_slice(), room)
            }
            Shape::Branch(left, right) => {
                let low = left.get().counts();
                let _ = right.get().counts();
                let middle = low.elements;
                let inner = room.saturating_sub(low.sums.spans);
                let first = left.get().first_settled(room);
                if first < middle {
                    first
                } else {
                    first + right.get().first_settled(inner)
                }
            }
        }
    }
}

/// Whether all elements that are counted are settled, and end within so many bytes.
fn are_settled_by(counts: Counts, room: u64) -> bool
    ensures { IsTrue result ↔ (counts.settled ≡ true) × (counts.reach ≤ room) }
{
    counts.settled && counts.reach <= room
}

/// How many of the elements of a leaf from the one at `k` on are settled, one after another, and
/// end within so many bytes from where the leaf begins.
#[tactic(auto, using(crate::proofs::ElementLemmas::count_within))]
fn settled_behind(elements: &[Element], children: &[Node], k: usize, room: u64) -> u32
    requires within { k ≤ length elements.now }
    requires own { children_count elements.now ≡ length children.now }
    requires fits { length elements.now < 2 ^ 32 }
    requires wide { length children.now < 2 ^ 32 }
    ensures { result ≡ settled_after room k (stretch elements.now children.now) }
{
    let (first, rest) = elements.split_at(k);
    let (before, behind) = children.split_at(owned(first));
    let inner = room.saturating_sub(spans(before));
    settled_among(rest, behind, inner)
}

/// How many of the elements of a leaf are settled, one after another, and end within so many bytes
/// from where the leaf begins.
fn settled_among(elements: &[Element], children: &[Node], room: u64) -> u32
    requires own { children_count elements.now ≡ length children.now }
    requires fits { length elements.now < 2 ^ 32 }
    requires wide { length children.now < 2 ^ 32 }
    ensures { result ≡ settled_by room elements.now children.now }
{
    let mut from = 0usize;
    let mut left = room;
    let many = elements.len() as u32;
    for k in 0..many {
        let element = elements[k as usize];
        let count = element.children as usize;
        let bytes = spans(own(children, from, count));
        if !is_settled_by(element, bytes, left) {
            return k;
        }
        left = left.saturating_sub(bytes);
        from += count;
    }
    many
}

/// Whether an element of so many bytes is settled, and ends within others with all that was
/// examined for it.
fn is_settled_by(element: Element, bytes: u64, room: u64) -> bool
    ensures { IsTrue result ↔ IsSettledBy element bytes room }
{
    element.settled && further(element.extent, bytes) <= room
}

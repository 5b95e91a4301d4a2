//! Where the elements of a repetition begin, and which are settled: a node and the number of an
//! element go in, bytes or a count come out, or the other way round.
ghost use Rattle.std.specs.Prelude.{◌≡◌, ◌+◌, ◌<◌, ◌≤◌, ◌^◌, length, take, drop, MatchOption};
ghost use Rattle.spec_trees.specs.Trees.{elements_of};
ghost use Rattle.spec_trees.specs.Made.{children_count, bytes_before, settled_first, stretch_in};
ghost use Rattle.ts_node.specs.Held.{stretch};
ghost use Rattle.ts_node.specs.Places.{BeginsAt, NoneBeginsAt, IsLastBy};

use crate::counts::{own, spans};
use crate::cut::owned;
use crate::node::{Kind, Node, Run, Shape};
use spec_trees::Element;

impl Node {
    /// How many elements are settled from the one at `e` on, one after another. It takes time by
    /// the logarithm of the number of elements.
    #[tactic(auto, using(crate::proofs::BodyLemmas::leaf_none, crate::proofs::ElementLemmas::no_settled))]
    pub fn settled_from(&self, e: u32) -> u32
        ensures { result ≡ settled_first (drop e (elements_of self.now)) }
    {
        match &self.kind {
            Kind::Leaf(_) => 0,
            Kind::Rule(rule) => {
                let _ = rule.children();
                0
            }
            Kind::Repetition(repetition) => repetition.get().run().get().settled_from(e),
            Kind::Single(single) => {
                let (elements, _) = single.lists();
                settled_among(elements, e)
            }
        }
    }

    /// How many bytes stand in the node before the element at `e`, or in all elements, where there
    /// are so many. It takes time by the logarithm of the number of elements.
    #[tactic(auto, using(crate::proofs::BodyLemmas::leaf_none, crate::proofs::ElementLemmas::no_bytes))]
    pub fn offset(&self, e: u32) -> u32
        requires { e ≤ length (elements_of self.now) }
        ensures { result ≡ bytes_before e (stretch_in self.now) }
    {
        match &self.kind {
            Kind::Leaf(_) => 0,
            Kind::Rule(rule) => {
                let _ = rule.children();
                0
            }
            Kind::Repetition(repetition) => {
                let _ = self.nodes();
                repetition.get().run().get().bytes_before(e) as u32
            }
            Kind::Single(single) => {
                let _ = self.nodes();
                let (elements, children) = single.lists();
                bytes_among(elements, children, e as usize) as u32
            }
        }
    }

    /// How many children stand in the node before those of the element at `e`, or in all elements,
    /// where there are so many. It takes time by the logarithm of the number of elements.
    #[tactic(auto, using(crate::proofs::BodyLemmas::leaf_none, crate::proofs::PlaceLemmas::none_before))]
    pub fn children_before(&self, e: u32) -> u32
        requires { e ≤ length (elements_of self.now) }
        ensures { result ≡ children_count (take e (elements_of self.now)) }
    {
        match &self.kind {
            Kind::Leaf(_) => 0,
            Kind::Rule(rule) => {
                let _ = rule.children();
                0
            }
            Kind::Repetition(repetition) => repetition.get().run().get().children_before(e),
            Kind::Single(single) => {
                let (elements, _) = single.lists();
                owned_before(elements, e as usize)
            }
        }
    }

    /// The last element before which so many bytes stand in the node, or fewer. It takes time by
    /// the logarithm of the number of elements.
    #[tactic(auto, using(crate::proofs::BodyLemmas::leaf_none))]
    pub fn last_by(&self, offset: u32) -> u32
        requires { 0 < length (elements_of self.now) }
        ensures { IsLastBy offset (stretch_in self.now) result }
    {
        match &self.kind {
            Kind::Leaf(_) => unreachable!(),
            Kind::Rule(rule) => {
                let _ = rule.children();
                unreachable!()
            }
            Kind::Repetition(repetition) => repetition.get().run().get().last_by(offset as u64),
            Kind::Single(single) => {
                let (elements, children) = single.lists();
                last_among(elements, children, offset as u64)
            }
        }
    }

    /// An element before which so many bytes stand in the node: there is one of these at most,
    /// unless elements take no bytes. It takes time by the logarithm of the number of elements.
    #[tactic(auto, using(crate::proofs::BodyLemmas::leaf_none, crate::proofs::ElementLemmas::none_begins))]
    pub fn element_at(&self, offset: u32) -> Option<u32>
        ensures { MatchOption result (NoneBeginsAt offset (stretch_in self.now))
            (λ e. BeginsAt offset (stretch_in self.now) e) }
    {
        match &self.kind {
            Kind::Leaf(_) => None,
            Kind::Rule(rule) => {
                let _ = rule.children();
                None
            }
            Kind::Repetition(repetition) => {
                repetition.get().run().get().element_at(offset as u64)
            }
            Kind::Single(single) => {
                let (elements, children) = single.lists();
                element_among(elements, children, offset as u64)
            }
        }
    }
}

impl Run {
    /// How many elements are settled from the one at `k` on, one after another.
    pub(crate) fn settled_from(&self, k: u32) -> u32
        ensures { result ≡ settled_first (drop k self.now.elements) }
    {
        let _ = self.counts();
        match &self.shape {
            Shape::Leaf(elements, _) => settled_among(elements.as_slice(), k),
            Shape::Branch(left, right) => {
                let middle = left.get().counts().elements;
                let _ = right.get().counts();
                if k >= middle {
                    right.get().settled_from(k - middle)
                } else {
                    let low = left.get().settled_from(k);
                    let end = k + low;
                    if end < middle {
                        low
                    } else {
                        low + right.get().settled_first()
                    }
                }
            }
        }
    }

    /// How many elements are settled from the first on, one after another.
    fn settled_first(&self) -> u32
        ensures { result ≡ settled_first self.now.elements }
    {
        let _ = self.counts();
        match &self.shape {
            Shape::Leaf(elements, _) => settled_among(elements.as_slice(), 0),
            Shape::Branch(left, right) => {
                let low = left.get().counts();
                let _ = right.get().counts();
                let whole = low.settled;
                if whole {
                    low.elements + right.get().settled_first()
                } else {
                    left.get().settled_first()
                }
            }
        }
    }

    /// How many bytes the elements before the one at `k` take.
    pub(crate) fn bytes_before(&self, k: u32) -> u64
        requires { k ≤ length self.now.elements }
        ensures { result ≡ bytes_before k self.now }
    {
        let _ = self.counts();
        match &self.shape {
            Shape::Leaf(elements, children) => {
                bytes_among(elements.as_slice(), children.as_slice(), k as usize)
            }
            Shape::Branch(left, right) => {
                let low = left.get().counts();
                let _ = right.get().counts();
                let middle = low.elements;
                if k <= middle {
                    left.get().bytes_before(k)
                } else {
                    low.sums.spans + right.get().bytes_before(k - middle)
                }
            }
        }
    }

    /// How many children the elements before the one at `k` have.
    fn children_before(&self, k: u32) -> u32
        requires { k ≤ length self.now.elements }
        ensures { result ≡ children_count (take k self.now.elements) }
    {
        let _ = self.counts();
        match &self.shape {
            Shape::Leaf(elements, _) => owned_before(elements.as_slice(), k as usize),
            Shape::Branch(left, right) => {
                let low = left.get().counts();
                let _ = right.get().counts();
                let middle = low.elements;
                if k <= middle {
                    left.get().children_before(k)
                } else {
                    low.children + right.get().children_before(k - middle)
                }
            }
        }
    }

    /// The last element before which so many bytes stand, or fewer.
    fn last_by(&self, offset: u64) -> u32
        ensures { IsLastBy offset self.now result }
    {
        let _ = self.counts();
        match &self.shape {
            Shape::Leaf(elements, children) => {
                last_among(elements.as_slice(), children.as_slice(), offset)
            }
            Shape::Branch(left, right) => {
                let low = left.get().counts();
                let _ = right.get().counts();
                let bytes = low.sums.spans;
                if offset < bytes {
                    left.get().last_by(offset)
                } else {
                    low.elements + right.get().last_by(offset - bytes)
                }
            }
        }
    }

    /// An element before which so many bytes stand.
    pub(crate) fn element_at(&self, offset: u64) -> Option<u32>
        ensures { MatchOption result (NoneBeginsAt offset self.now)
            (λ e. BeginsAt offset self.now e) }
    {
        let _ = self.counts();
        match &self.shape {
            Shape::Leaf(elements, children) => {
                element_among(elements.as_slice(), children.as_slice(), offset)
            }
            Shape::Branch(left, right) => {
                let low = left.get().counts();
                let _ = right.get().counts();
                let bytes = low.sums.spans;
                if offset < bytes {
                    left.get().element_at(offset)
                } else {
                    match right.get().element_at(offset - bytes) {
                        Some(e) => Some(low.elements + e),
                        None => None,
                    }
                }
            }
        }
    }
}

/// How many bytes the elements before the one at `k` take.
#[tactic(auto, using(crate::proofs::ElementLemmas::count_within))]
fn bytes_among(elements: &[Element], children: &[Node], k: usize) -> u64
    requires within { k ≤ length elements.now }
    requires own { children_count elements.now ≡ length children.now }
    requires wide { length children.now < 2 ^ 32 }
    ensures { result ≡ bytes_before k (stretch elements.now children.now) }
{
    let (first, _) = elements.split_at(k);
    let (before, _) = children.split_at(owned(first));
    spans(before)
}

/// How many children the elements before the one at `k` have.
#[tactic(auto, using(crate::proofs::ElementLemmas::count_within))]
fn owned_before(elements: &[Element], k: usize) -> u32
    requires within { k ≤ length elements.now }
    requires few { children_count elements.now < 2 ^ 32 }
    ensures { result ≡ children_count (take k elements.now) }
{
    let (first, _) = elements.split_at(k);
    owned(first) as u32
}

/// How many of the elements are settled from the one at `k` on, one after another.
#[tactic(auto, using(crate::proofs::ElementLemmas::settled_next, crate::proofs::ElementLemmas::settled_ends))]
fn settled_among(elements: &[Element], k: u32) -> u32
    requires { length elements.now < 2 ^ 32 }
    ensures { result ≡ settled_first (drop k elements.now) }
{
    let end = elements.len() as u32;
    if end <= k {
        return 0;
    }
    for i in k..end {
        let whole = elements[i as usize].settled;
        if !whole {
            return i - k;
        }
    }
    end - k
}

/// An element before which so many bytes stand.
fn element_among(elements: &[Element], children: &[Node], offset: u64) -> Option<u32>
    requires own { children_count elements.now ≡ length children.now }
    requires fits { length elements.now < 2 ^ 32 }
    requires wide { length children.now < 2 ^ 32 }
    ensures { MatchOption result (NoneBeginsAt offset (stretch elements.now children.now))
        (λ e. BeginsAt offset (stretch elements.now children.now) e) }
{
    let mut from = 0usize;
    let mut at = 0u64;
    let many = elements.len() as u32;
    for k in 0..many {
        if at == offset {
            return Some(k);
        }
        let count = elements[k as usize].children as usize;
        let bytes = spans(own(children, from, count));
        at += bytes;
        from += count;
    }
    None
}

/// The last element before which so many bytes stand, or fewer.
fn last_among(elements: &[Element], children: &[Node], offset: u64) -> u32
    requires some { 0 < length elements.now }
    requires own { children_count elements.now ≡ length children.now }
    requires fits { length elements.now < 2 ^ 32 }
    requires wide { length children.now < 2 ^ 32 }
    ensures { IsLastBy offset (stretch elements.now children.now) result }
{
    let mut from = 0usize;
    let mut at = 0u64;
    let many = elements.len() as u32;
    for k in 0..many {
        if at > offset {
            return k - 1;
        }
        let count = elements[k as usize].children as usize;
        let bytes = spans(own(children, from, count));
        at += bytes;
        from += count;
    }
    many - 1
}

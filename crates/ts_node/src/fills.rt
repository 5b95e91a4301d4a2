//! Which step a child fills: a node and the number of a child go in, the step's place in its
//! production or alternative comes out.
ghost use Rattle.std.specs.Prelude.{◌≡◌, ◌<◌, ◌≤◌, ◌^◌, drop, length, slice_get, Some};
ghost use Rattle.spec_trees.specs.Trees.{children_of};
ghost use Rattle.spec_trees.specs.Made.{children_count, fills_from, fills_in, fills_of};

use crate::node::{Kind, Node, Run, Shape};
use spec_trees::Element;

impl Node {
    /// The step that child `k` fills in its production, or in the alternative of its element,
    /// counted from 0. None for an extra.
    #[tactic(auto, using(crate::proofs::BodyLemmas::leaf_children))]
    pub fn filled(&self, k: u32) -> Option<u32>
        requires { k < length (children_of self.now) }
        ensures { slice_get (fills_of self.now) k ≡ Some result }
    {
        match &self.kind {
            Kind::Leaf(_) => unreachable!(),
            Kind::Rule(rule) => {
                let children = rule.children();
                fill(children, k)
            }
            Kind::Repetition(repetition) => repetition.get().run().get().fill(k),
            Kind::Single(single) => {
                let (elements, children) = single.lists();
                fill_among(elements, children, k)
            }
        }
    }
}

impl Run {
    /// The step that child `k` fills in the alternative of its element.
    fn fill(&self, k: u32) -> Option<u32>
        requires { k < length self.now.children }
        ensures { slice_get (fills_in self.now.elements self.now.children) k ≡ Some result }
    {
        let _ = self.counts();
        match &self.shape {
            Shape::Leaf(elements, children) => {
                fill_among(elements.as_slice(), children.as_slice(), k)
            }
            Shape::Branch(left, right) => {
                let middle = left.get().counts().children;
                let _ = right.get().counts();
                if k < middle {
                    left.get().fill(k)
                } else {
                    right.get().fill(k - middle)
                }
            }
        }
    }
}

/// The step that child `k` of these elements fills.
fn fill_among(elements: &[Element], children: &[Node], k: u32) -> Option<u32>
    requires within { k < length children.now }
    requires own { children_count elements.now ≡ length children.now }
    requires wide { length children.now < 2 ^ 32 }
    ensures { slice_get (fills_in elements.now children.now) k ≡ Some result }
{
    let mut from = 0u32;
    for element in elements {
        if k - from < element.children {
            let others = past(children, from as usize);
            return fill(others, k - from);
        }
        from += element.children;
    }
    unreachable!()
}

/// The children from a place on.
fn past(children: &[Node], from: usize) -> &[Node]
    requires { from ≤ length children.now }
    ensures { result.now ≡ drop from children.now }
{
    let (_, others) = children.split_at(from);
    others
}

/// The step that child `k` of one production's children fills.
fn fill(children: &[Node], k: u32) -> Option<u32>
    requires within { k < length children.now }
    ensures { slice_get (fills_from 0 children.now) k ≡ Some result }
{
    let mut steps = 0u32;
    for i in 0..k {
        if !children[i as usize].extra() {
            steps += 1;
        }
    }
    if children[k as usize].extra() {
        None
    } else {
        Some(steps)
    }
}

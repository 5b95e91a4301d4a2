//! Cutting a run: a run and the number of an element go in, the elements before it or from it on
//! come out.
ghost use Rattle.std.specs.Prelude.{◌≡◌, ◌+◌, ◌<◌, ◌≤◌, ◌^◌, IfOk, length, take, drop};
ghost use Rattle.spec_trees.specs.Made.{children_count, first_elements, elements_from};
ghost use Rattle.ts_node.specs.Held.{stretch};

use crate::node::{Node, Run, Shape};
use crate::run::copy_elements;
use crate::sums::copy;
use spec_trees::Element;
use std::alloc::{AllocError, Global};
use ts_base::{List, Shared};

impl Run {
    /// The first `k` elements with their children. It shares all parts but those on the way to the
    /// cut.
    pub(crate) fn first(alloc: Global, run: &Shared<Run>, k: u32) -> Result<Shared<Run>, AllocError>
        requires some { 0 < k }
        requires within { k ≤ length run.now.elements }
        ensures { IfOk result (λ new. new ≡ first_elements k run.now) }
    {
        let all = run.get().counts().elements;
        if k == all {
            return run.try_clone();
        }
        match &run.get().shape {
            Shape::Leaf(elements, children) => {
                Run::first_of_leaf(alloc, elements.as_slice(), children.as_slice(), k as usize)
            }
            Shape::Branch(left, right) => {
                let middle = left.get().counts().elements;
                let _ = right.get().counts();
                if k <= middle {
                    Run::first(alloc, left, k)
                } else {
                    let high = Run::first(alloc, right, k - middle)?;
                    Run::join(alloc, left, &high)
                }
            }
        }
    }

    /// The elements from the one at `k` on, with their children.
    pub(crate) fn behind(
        alloc: Global,
        run: &Shared<Run>,
        k: u32,
    ) -> Result<Shared<Run>, AllocError>
        requires { k < length run.now.elements }
        ensures { IfOk result (λ new. new ≡ elements_from k run.now) }
    {
        if k == 0 {
            return run.try_clone();
        }
        let _ = run.get().counts();
        match &run.get().shape {
            Shape::Leaf(elements, children) => {
                Run::behind_in_leaf(alloc, elements.as_slice(), children.as_slice(), k as usize)
            }
            Shape::Branch(left, right) => {
                let middle = left.get().counts().elements;
                let _ = right.get().counts();
                if k < middle {
                    let low = Run::behind(alloc, left, k)?;
                    Run::join(alloc, &low, right)
                } else {
                    Run::behind(alloc, right, k - middle)
                }
            }
        }
    }

    /// A leaf of the first `k` of these elements.
    #[tactic(auto, using(crate::proofs::ElementLemmas::count_within, crate::proofs::ElementLemmas::count_first))]
    fn first_of_leaf(
        alloc: Global,
        elements: &[Element],
        children: &[Node],
        k: usize,
    ) -> Result<Shared<Run>, AllocError>
        requires some { 0 < k }
        requires within { k ≤ length elements.now }
        requires own { children_count elements.now ≡ length children.now }
        requires fits { length elements.now < 2 ^ 32 }
        requires wide { length children.now < 2 ^ 32 }
        ensures { IfOk result
            (λ run. run ≡ first_elements k (stretch elements.now children.now)) }
    {
        let (first, _) = elements.split_at(k);
        let (children, _) = children.split_at(owned(first));
        Run::leaf_over(alloc, first, children)
    }

    /// A leaf of these elements from the one at `k` on.
    #[tactic(auto, using(crate::proofs::ElementLemmas::count_within, crate::proofs::ElementLemmas::count_behind))]
    fn behind_in_leaf(
        alloc: Global,
        elements: &[Element],
        children: &[Node],
        k: usize,
    ) -> Result<Shared<Run>, AllocError>
        requires within { k < length elements.now }
        requires own { children_count elements.now ≡ length children.now }
        requires fits { length elements.now < 2 ^ 32 }
        requires wide { length children.now < 2 ^ 32 }
        ensures { IfOk result
            (λ run. run ≡ elements_from k (stretch elements.now children.now)) }
    {
        let (first, behind) = elements.split_at(k);
        let (_, children) = children.split_at(owned(first));
        Run::leaf_over(alloc, behind, children)
    }

    /// A leaf of copies of these.
    fn leaf_over(
        alloc: Global,
        elements: &[Element],
        children: &[Node],
    ) -> Result<Shared<Run>, AllocError>
        requires some { 0 < length elements.now }
        requires own { children_count elements.now ≡ length children.now }
        requires fits { length elements.now < 2 ^ 32 }
        requires wide { length children.now < 2 ^ 32 }
        ensures { IfOk result (λ run. run ≡ stretch elements.now children.now) }
    {
        let mut kept = List::with_capacity(alloc, elements.len())?;
        copy_elements(elements, &mut kept)?;
        let mut nodes = List::with_capacity(alloc, children.len())?;
        copy(children, &mut nodes)?;
        Run::leaf(alloc, kept, nodes)
    }
}

/// How many children the elements have together.
#[tactic(auto, using(crate::proofs::ElementLemmas::count_next))]
pub(crate) fn owned(elements: &[Element]) -> usize
    requires { children_count elements.now < 2 ^ 32 }
    ensures { result ≡ children_count elements.now }
{
    let mut count = 0usize;
    for element in elements {
        count += element.children as usize;
    }
    count
}

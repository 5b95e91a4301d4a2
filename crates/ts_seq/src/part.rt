//! The parts of a sequence: a tree of shared parts, balanced as an AVL tree is, whose leaves hold
//! up to 32 items. Heights and balance are no part of what a part means.
ghost use Rattle.std.specs.Prelude.{◌≡◌, ◌+◌, ◌<◌, ◌≤◌, ◌^◌, ◌++◌, ◌∷◌, [], IfOk, OnOk, take, drop, length, slice_get, Some};

use std::alloc::{AllocError, Global};
use std::marker::Model;
use ts_base::{List, Shared};

/// The most items in a leaf.
const MOST_IN_LEAF: u32 = 32;

/// A piece of a sequence that holds at least one item.
#[cycle(part)]
#[derive(Drop)]
pub(crate) struct Part<T> {
    len: u32,
    height: u8,
    shape: Shape<T>,
}

#[cycle(part)]
#[derive(Drop)]
enum Shape<T> {
    Leaf(List<Shared<T>>),
    Branch(Shared<Part<T>>, Shared<Part<T>>),
}

impl<T> Model for Part<T> {
    ghost use Rattle.std.specs.Prelude.{◌≡◌, ◌<◌, ◌^◌, List, ℕ, length};
    ghost use Rattle.std.specs.Coded.{coded_list};

    ghost Value = { List T };

    ghost coded = { coded_list T.code };

    ghost use Rattle.ts_seq.specs.Items.{part_items, AreHeld};

    ghost view = { λ a. part_items a.shape };

    ghost invariant = { λ a. (a.len ≡ length (part_items a.shape)) × AreHeld a.shape };

    ghost size = { length };

    ghost use Rattle.std.proofs.Common.{arith, length-append};

    ghost size_decreases = { λ a h. Prim.grind (arith, length-append) };
}

impl<T> Part<T> {
    /// How many items there are.
    pub(crate) fn len(&self) -> u32
        ensures count { result ≡ length self.now }
        ensures some { 0 < length self.now }
        ensures fits { length self.now < 2 ^ 32 }
    {
        self.len
    }

    /// How many levels stand above the leaves.
    fn height(&self) -> u8 {
        self.height
    }

    /// The item at `k`, counted from 0.
    pub(crate) fn get(&self, k: u32) -> &Shared<T>
        requires { k < length self.now }
        ensures { slice_get self.now k ≡ Some result.now }
    {
        match &self.shape {
            Shape::Leaf(items) => items.get(k as usize),
            Shape::Branch(left, right) => {
                let middle = left.get().len();
                if k < middle {
                    left.get().get(k)
                } else {
                    right.get().get(k - middle)
                }
            }
        }
    }
}

impl<T: Drop> Part<T> {
    /// A part of one leaf.
    fn leaf(alloc: Global, items: List<Shared<T>>) -> Result<Shared<Part<T>>, AllocError>
        requires some { 0 < length items }
        requires fits { length items < 2 ^ 32 }
        ensures { IfOk result (λ part. part ≡ items) }
    {
        Shared::new(
            alloc,
            Part {
                len: items.len() as u32,
                height: 0,
                shape: Shape::Leaf(items),
            },
        )
    }

    /// A part over these two.
    fn branch(
        alloc: Global,
        left: Shared<Part<T>>,
        right: Shared<Part<T>>,
    ) -> Result<Shared<Part<T>>, AllocError>
        requires fits { length left + length right < 2 ^ 32 }
        ensures { IfOk result (λ part. part ≡ left ++ right) }
    {
        let (first, second) = (left.get().len(), right.get().len());
        let height = left
            .get()
            .height()
            .max(right.get().height())
            .saturating_add(1);
        Shared::new(
            alloc,
            Part {
                len: first + second,
                height,
                shape: Shape::Branch(left, right),
            },
        )
    }

    /// A part over `left` and `right`, of which the right one may be two levels higher.
    fn lean_right(
        alloc: Global,
        left: Shared<Part<T>>,
        right: &Shared<Part<T>>,
    ) -> Result<Shared<Part<T>>, AllocError>
        requires fits { length left + length right.now < 2 ^ 32 }
        ensures { IfOk result (λ part. part ≡ left ++ right.now) }
    {
        match &right.get().shape {
            Shape::Branch(inner, outer) if is_two_higher(right.get(), left.get()) => {
                match &inner.get().shape {
                    Shape::Branch(first, second) if is_higher(inner.get(), outer.get()) => {
                        let low = Part::branch(alloc, left, first.try_clone()?)?;
                        let high = Part::branch(alloc, second.try_clone()?, outer.try_clone()?)?;
                        Part::branch(alloc, low, high)
                    }
                    Shape::Leaf(_) | Shape::Branch(_, _) => {
                        let low = Part::branch(alloc, left, inner.try_clone()?)?;
                        Part::branch(alloc, low, outer.try_clone()?)
                    }
                }
            }
            Shape::Leaf(_) | Shape::Branch(_, _) => Part::branch(alloc, left, right.try_clone()?),
        }
    }

    /// A part over `left` and `right`, of which the left one may be two levels higher.
    fn lean_left(
        alloc: Global,
        left: &Shared<Part<T>>,
        right: Shared<Part<T>>,
    ) -> Result<Shared<Part<T>>, AllocError>
        requires fits { length left.now + length right < 2 ^ 32 }
        ensures { IfOk result (λ part. part ≡ left.now ++ right) }
    {
        match &left.get().shape {
            Shape::Branch(outer, inner) if is_two_higher(left.get(), right.get()) => {
                match &inner.get().shape {
                    Shape::Branch(first, second) if is_higher(inner.get(), outer.get()) => {
                        let high = Part::branch(alloc, second.try_clone()?, right)?;
                        let low = Part::branch(alloc, outer.try_clone()?, first.try_clone()?)?;
                        Part::branch(alloc, low, high)
                    }
                    Shape::Leaf(_) | Shape::Branch(_, _) => {
                        let high = Part::branch(alloc, inner.try_clone()?, right)?;
                        Part::branch(alloc, outer.try_clone()?, high)
                    }
                }
            }
            Shape::Leaf(_) | Shape::Branch(_, _) => Part::branch(alloc, left.try_clone()?, right),
        }
    }

    /// The items of two leaves in one.
    fn merge(
        alloc: Global,
        left: &[Shared<T>],
        right: &[Shared<T>],
    ) -> Result<Shared<Part<T>>, AllocError>
        requires some { 0 < length left.now }
        requires fits { length left.now + length right.now < 2 ^ 32 }
        ensures { IfOk result (λ part. part ≡ left.now ++ right.now) }
    {
        let mut items = List::with_capacity(alloc, left.len() + right.len())?;
        copy(left, &mut items)?;
        copy(right, &mut items)?;
        Part::leaf(alloc, items)
    }

    /// The items of both, one after the other.
    pub(crate) fn join(
        alloc: Global,
        left: &Shared<Part<T>>,
        right: &Shared<Part<T>>,
    ) -> Result<Shared<Part<T>>, AllocError>
        requires fits { length left.now + length right.now < 2 ^ 32 }
        ensures { IfOk result (λ part. part ≡ left.now ++ right.now) }
    {
        let (first, second) = (left.get(), right.get());
        match (&first.shape, &second.shape) {
            (Shape::Branch(outer, inner), _) if is_deeper(first.height, second.height) => {
                let high = Part::join(alloc, inner, right)?;
                Part::lean_right(alloc, outer.try_clone()?, &high)
            }
            (_, Shape::Branch(inner, outer)) if is_deeper(second.height, first.height) => {
                let low = Part::join(alloc, left, inner)?;
                Part::lean_left(alloc, &low, outer.try_clone()?)
            }
            (Shape::Leaf(low), Shape::Leaf(high)) if first.len + second.len <= MOST_IN_LEAF => {
                Part::merge(alloc, low.as_slice(), high.as_slice())
            }
            (Shape::Leaf(_) | Shape::Branch(_, _), _) => {
                Part::branch(alloc, left.try_clone()?, right.try_clone()?)
            }
        }
    }

    /// The first `at` items of a leaf, and the others.
    fn split_leaf(
        alloc: Global,
        items: &[Shared<T>],
        at: usize,
    ) -> Result<(Shared<Part<T>>, Shared<Part<T>>), AllocError>
        requires some { 0 < at }
        requires within { at < length items.now }
        requires fits { length items.now < 2 ^ 32 }
        ensures whole { IfOk result (λ r. r.0 ++ r.1 ≡ items.now) }
        ensures place { IfOk result (λ r. length r.0 ≡ at) }
    {
        let (low, high) = items.split_at(at);
        let low = Part::chunk(alloc, low)?;
        let high = Part::chunk(alloc, high)?;
        Ok((low, high))
    }

    /// A leaf of one item.
    pub(crate) fn single(alloc: Global, item: Shared<T>) -> Result<Shared<Part<T>>, AllocError>
        ensures { IfOk result (λ part. part ≡ item ∷ []) }
    {
        let mut kept = List::with_capacity(alloc, 1)?;
        kept.push(item)?;
        Part::leaf(alloc, kept)
    }

    /// Whether it is a leaf that may take one more item.
    pub(crate) fn has_room(&self) -> bool {
        self.height == 0 && self.len < MOST_IN_LEAF
    }

    /// The part with one more item at its end.
    pub(crate) fn with_last(
        alloc: Global,
        part: &Shared<Part<T>>,
        item: Shared<T>,
    ) -> Result<Shared<Part<T>>, AllocError>
        requires fits { length part.now + 1 < 2 ^ 32 }
        ensures { IfOk result (λ new. new ≡ part.now ++ item ∷ []) }
    {
        match &part.get().shape {
            Shape::Leaf(items) => Part::longer(alloc, items.as_slice(), item),
            Shape::Branch(_, _) => {
                let last = Part::single(alloc, item)?;
                Part::join(alloc, part, &last)
            }
        }
    }

    /// A leaf of these items, shared, and one more.
    fn longer(
        alloc: Global,
        items: &[Shared<T>],
        item: Shared<T>,
    ) -> Result<Shared<Part<T>>, AllocError>
        requires fits { length items.now + 1 < 2 ^ 32 }
        ensures { IfOk result (λ part. part ≡ items.now ++ item ∷ []) }
    {
        let mut kept = List::with_capacity(alloc, items.len() + 1)?;
        copy(items, &mut kept)?;
        kept.push(item)?;
        Part::leaf(alloc, kept)
    }

    /// A leaf of these items, shared.
    fn chunk(alloc: Global, items: &[Shared<T>]) -> Result<Shared<Part<T>>, AllocError>
        requires some { 0 < length items.now }
        requires fits { length items.now < 2 ^ 32 }
        ensures { IfOk result (λ part. part ≡ items.now) }
    {
        let mut kept = List::with_capacity(alloc, items.len())?;
        copy(items, &mut kept)?;
        Part::leaf(alloc, kept)
    }

    /// The first `at` items, and the others.
    pub(crate) fn split(
        alloc: Global,
        part: &Shared<Part<T>>,
        at: u32,
    ) -> Result<(Shared<Part<T>>, Shared<Part<T>>), AllocError>
        requires some { 0 < at }
        requires within { at < length part.now }
        ensures whole { IfOk result (λ r. r.0 ++ r.1 ≡ part.now) }
        ensures place { IfOk result (λ r. length r.0 ≡ at) }
    {
        let _ = part.get().len();
        match &part.get().shape {
            Shape::Leaf(items) => Part::split_leaf(alloc, items.as_slice(), at as usize),
            Shape::Branch(left, right) => {
                let middle = left.get().len();
                if at < middle {
                    let (low, high) = Part::split(alloc, left, at)?;
                    let high = Part::join(alloc, &high, right)?;
                    Ok((low, high))
                } else if at > middle {
                    let (low, high) = Part::split(alloc, right, at - middle)?;
                    let low = Part::join(alloc, left, &low)?;
                    Ok((low, high))
                } else {
                    Ok((left.try_clone()?, right.try_clone()?))
                }
            }
        }
    }
}

fn is_higher<T>(part: &Part<T>, other: &Part<T>) -> bool {
    part.height > other.height
}

/// Whether a part is higher than the other by two levels or more, so that it is turned.
fn is_two_higher<T>(part: &Part<T>, other: &Part<T>) -> bool {
    part.height > other.height.saturating_add(1)
}

/// Whether a part of that height is opened where it is joined with one of the other height: where
/// it is two levels higher, or where the other is a leaf.
fn is_deeper(high: u8, low: u8) -> bool {
    high > low.saturating_add(1) || (low == 0 && high > 0)
}

/// Puts the items at the end of the list, shared.
fn copy<T: Drop>(items: &[Shared<T>], to: &mut List<Shared<T>>) -> Result<(), AllocError>
    ensures { OnOk result (to.new ≡ to.old ++ items.now) }
{
    for item in items {
        to.push(item.try_clone()?)?;
    }
    Ok(())
}

//! The sequence: a part for most of its items, and a leaf of the last ones.
ghost use Rattle.std.specs.Prelude.{◌≡◌, ◌+◌, ◌<◌, ◌≤◌, ◌^◌, ◌∷◌, ◌++◌, [], IfOk, OnOk, take, drop, length, slice_get, Some};
ghost use Rattle.ts_seq.specs.Items.{items_in};

use crate::part::Part;
use std::alloc::{AllocError, Global};
use std::marker::Model;
use ts_base::Shared;

/// A shared list that does not change, which contracts see as the list of its items. What is made
/// of it shares its parts: `push`, `join` and `split` cost the logarithm of its length, and most
/// pushes touch the last leaf alone.
#[derive(Drop)]
pub struct Seq<T> {
    body: Option<Shared<Part<T>>>,
    tail: Option<Shared<Part<T>>>,
}

impl<T> Model for Seq<T> {
    ghost use Rattle.std.specs.Prelude.{List, ◌++◌, ◌<◌, ◌^◌, length};
    ghost use Rattle.std.specs.Coded.{coded_list};

    ghost Value = { List T };

    ghost coded = { coded_list T.code };

    ghost use Rattle.ts_seq.specs.Items.{items_in};

    ghost view = { λ a. items_in a.body ++ items_in a.tail };

    ghost invariant = { λ a. length (items_in a.body ++ items_in a.tail) < 2 ^ 32 };
}

/// How many items an optional part has.
fn count<T>(part: &Option<Shared<Part<T>>>) -> u32
    ensures { result ≡ length (items_in part.now) }
{
    match part {
        None => 0,
        Some(part) => part.get().len(),
    }
}

/// One more owner of an optional part.
fn owned<T>(part: &Option<Shared<Part<T>>>) -> Result<Option<Shared<Part<T>>>, AllocError>
    ensures { IfOk result (λ new. items_in new ≡ items_in part.now) }
{
    match part {
        None => Ok(None),
        Some(part) => Ok(Some(part.try_clone()?)),
    }
}

/// The item at `k` of an optional part.
fn item_at<T>(part: &Option<Shared<Part<T>>>, k: u32) -> &Shared<T>
    requires { k < length (items_in part.now) }
    ensures { slice_get (items_in part.now) k ≡ Some result.now }
{
    match part {
        None => unreachable!(),
        Some(part) => part.get().get(k),
    }
}

/// Two optional parts in one.
fn joined<T: Drop>(
    alloc: Global,
    left: &Option<Shared<Part<T>>>,
    right: &Option<Shared<Part<T>>>,
) -> Result<Option<Shared<Part<T>>>, AllocError>
    requires fits { length (items_in left.now ++ items_in right.now) < 2 ^ 32 }
    ensures { IfOk result (λ new. items_in new ≡ items_in left.now ++ items_in right.now) }
{
    match (left, right) {
        (None, _) => owned(right),
        (_, None) => owned(left),
        (Some(left), Some(right)) => Ok(Some(Part::join(alloc, left, right)?)),
    }
}

impl<T> Seq<T> {
    /// The list of no items. It takes no memory.
    pub fn empty() -> Seq<T>
        ensures { result ≡ [] }
    {
        Seq {
            body: None,
            tail: None,
        }
    }

    /// How many items there are.
    pub fn len(&self) -> usize
        ensures count { result ≡ length self.now }
        ensures fits { length self.now < 2 ^ 32 }
    {
        count(&self.body) as usize + count(&self.tail) as usize
    }

    /// The item at `k`, counted from 0.
    pub fn get(&self, k: usize) -> &Shared<T>
        requires { k < length self.now }
        ensures { slice_get self.now k ≡ Some result.now }
    {
        let middle = count(&self.body) as usize;
        if k < middle {
            item_at(&self.body, k as u32)
        } else {
            item_at(&self.tail, (k - middle) as u32)
        }
    }
}

impl<T: Drop> Seq<T> {
    /// One more owner of the same list. It takes no memory.
    ///
    /// # Errors
    ///
    /// `AllocError` where the count of owners is full.
    pub fn try_clone(&self) -> Result<Seq<T>, AllocError>
        ensures { IfOk result (λ seq. seq ≡ self.now) }
    {
        let body = owned(&self.body)?;
        let tail = owned(&self.tail)?;
        Ok(Seq { body, tail })
    }

    /// The list with one more item at its end.
    ///
    /// # Errors
    ///
    /// `AllocError` where memory runs out.
    pub fn push(&self, alloc: Global, item: Shared<T>) -> Result<Seq<T>, AllocError>
        requires fits { length self.now + 1 < 2 ^ 32 }
        ensures { IfOk result (λ seq. seq ≡ self.now ++ item ∷ []) }
    {
        match &self.tail {
            Some(tail) if tail.get().has_room() => {
                let body = owned(&self.body)?;
                let tail = Part::with_last(alloc, tail, item)?;
                Ok(Seq {
                    body,
                    tail: Some(tail),
                })
            }
            _ => {
                let body = joined(alloc, &self.body, &self.tail)?;
                let tail = Part::single(alloc, item)?;
                Ok(Seq {
                    body,
                    tail: Some(tail),
                })
            }
        }
    }

    /// The items of this list, then those of the other.
    ///
    /// # Errors
    ///
    /// `AllocError` where memory runs out.
    pub fn join(&self, alloc: Global, other: &Seq<T>) -> Result<Seq<T>, AllocError>
        requires fits { length self.now + length other.now < 2 ^ 32 }
        ensures { IfOk result (λ seq. seq ≡ self.now ++ other.now) }
    {
        let whole = joined(alloc, &self.body, &self.tail)?;
        let body = joined(alloc, &whole, &other.body)?;
        let tail = owned(&other.tail)?;
        Ok(Seq { body, tail })
    }

    /// The first `at` items, and the others.
    ///
    /// # Errors
    ///
    /// `AllocError` where memory runs out.
    pub fn split(&self, alloc: Global, at: usize) -> Result<(Seq<T>, Seq<T>), AllocError>
        requires within { at ≤ length self.now }
        ensures left { IfOk result (λ r. r.0 ≡ take at self.now) }
        ensures right { IfOk result (λ r. r.1 ≡ drop at self.now) }
    {
        if at == 0 {
            return Ok((Seq::empty(), self.try_clone()?));
        }
        if at == self.len() {
            return Ok((self.try_clone()?, Seq::empty()));
        }
        let whole = joined(alloc, &self.body, &self.tail)?;
        match &whole {
            None => unreachable!(),
            Some(part) => {
                let (left, right) = Part::split(alloc, part, at as u32)?;
                Ok((Seq::of(left), Seq::of(right)))
            }
        }
    }

    /// The list of a part's items.
    fn of(part: Shared<Part<T>>) -> Seq<T>
        ensures { result ≡ part }
    {
        let _ = part.get().len();
        Seq {
            body: Some(part),
            tail: None,
        }
    }
}

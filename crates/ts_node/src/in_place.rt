//! Runs that are lengthened in place: by one more element, where nobody else owns the last leaf.
ghost use Rattle.std.specs.Prelude.{◌≡◌, ◌+◌, ◌<◌, ◌≤◌, ◌^◌, ◌++◌, ◌∷◌, [], true, false, IfOk, IfErr, OnOk, OnErr, length};
ghost use Rattle.ts_node.specs.Held.{joined_stretch, stretch, stretch_of, HasNoEmptyPart, IsCount};

use crate::counts::with_one;
use crate::node::{Counts, Node, Run, Shape};
use crate::run::MOST_IN_LEAF;
use spec_trees::Element;
use std::alloc::AllocError;
use ts_base::{List, Shared};

impl Run {
    /// Lengthens it in place by one more element of these children, of which this is counted, where
    /// nobody else owns its last leaf and this has room. Says whether it did.
    #[tactic(auto, using(crate::proofs::InPlaceLemmas::whole_still, crate::proofs::InPlaceLemmas::whole_longer))]
    fn lengthen(
        &mut self,
        element: Element,
        one: Counts,
        more: &mut Vec<Node>,
    ) -> Result<bool, AllocError>
        requires fits { length self.old.elements + 1 < 2 ^ 32 }
        requires wide { length self.old.children + length more.old.items < 2 ^ 32 }
        requires counted { IsCount one (stretch (element ∷ []) more.old.items) }
        ensures longer { IfOk result (λ done. done ≡ true → self.new
            ≡ joined_stretch self.old (stretch (element ∷ []) more.old.items)) }
        ensures same { IfOk result (λ done. done ≡ false → self.new ≡ self.old) }
        ensures left { IfOk result (λ done. done ≡ false → more.new.items ≡ more.old.items) }
    {
        let counts = self.counts;
        let longer = with_one(counts, one);
        if lengthen_end(&mut self.shape, counts, element, one, more)? {
            self.counts = longer;
            Ok(true)
        } else {
            Ok(false)
        }
    }

    /// The same of a run that is a leaf.
    #[tactic(auto, using(crate::proofs::InPlaceLemmas::whole_still, crate::proofs::InPlaceLemmas::whole_longer))]
    fn lengthen_leaf(
        &mut self,
        element: Element,
        one: Counts,
        more: &mut Vec<Node>,
    ) -> Result<bool, AllocError>
        requires fits { length self.old.elements + 1 < 2 ^ 32 }
        requires wide { length self.old.children + length more.old.items < 2 ^ 32 }
        requires counted { IsCount one (stretch (element ∷ []) more.old.items) }
        ensures longer { IfOk result (λ done. done ≡ true → self.new
            ≡ joined_stretch self.old (stretch (element ∷ []) more.old.items)) }
        ensures same { IfOk result (λ done. done ≡ false → self.new ≡ self.old) }
        ensures left { IfOk result (λ done. done ≡ false → more.new.items ≡ more.old.items) }
        ensures kept { IfErr result (λ e. self.new ≡ self.old) }
        ensures grown { length self.old.elements ≤ length self.new.elements }
    {
        let counts = self.counts;
        let longer = with_one(counts, one);
        if lengthen_lists(&mut self.shape, counts, element, more)? {
            self.counts = longer;
            Ok(true)
        } else {
            Ok(false)
        }
    }
}

/// Lengthens a run in place by one more element of these children, of which this is counted, where
/// nobody else owns it nor its last leaf, and this has room. Says whether it did.
#[inline(always)]
pub(crate) fn lengthen_alone(
    run: &mut Shared<Run>,
    element: Element,
    one: Counts,
    more: &mut Vec<Node>,
) -> Result<bool, AllocError>
    requires fits { length run.old.elements + 1 < 2 ^ 32 }
    requires wide { length run.old.children + length more.old.items < 2 ^ 32 }
    requires counted { IsCount one (stretch (element ∷ []) more.old.items) }
    ensures longer { IfOk result (λ done. done ≡ true → run.new
        ≡ joined_stretch run.old (stretch (element ∷ []) more.old.items)) }
    ensures same { IfOk result (λ done. done ≡ false → run.new ≡ run.old) }
    ensures left { IfOk result (λ done. done ≡ false → more.new.items ≡ more.old.items) }
{
    match run.get_mut() {
        None => Ok(false),
        Some(alone) => {
            let done = alone.lengthen(element, one, more)?;
            Ok(done)
        }
    }
}

/// The same of a run that is a leaf.
#[inline(always)]
fn lengthen_last(
    leaf: &mut Shared<Run>,
    element: Element,
    one: Counts,
    more: &mut Vec<Node>,
) -> Result<bool, AllocError>
    requires fits { length leaf.old.elements + 1 < 2 ^ 32 }
    requires wide { length leaf.old.children + length more.old.items < 2 ^ 32 }
    requires counted { IsCount one (stretch (element ∷ []) more.old.items) }
    ensures longer { IfOk result (λ done. done ≡ true → leaf.new
        ≡ joined_stretch leaf.old (stretch (element ∷ []) more.old.items)) }
    ensures same { IfOk result (λ done. done ≡ false → leaf.new ≡ leaf.old) }
    ensures left { IfOk result (λ done. done ≡ false → more.new.items ≡ more.old.items) }
    ensures kept { IfErr result (λ e. leaf.new ≡ leaf.old) }
    ensures grown { length leaf.old.elements ≤ length leaf.new.elements }
{
    match leaf.get_mut() {
        None => Ok(false),
        Some(alone) => {
            let done = alone.lengthen_leaf(element, one, more)?;
            Ok(done)
        }
    }
}

/// Lengthens what a run of these counts holds: a leaf, or the second part of a branch, where this
/// is one.
#[inline(always)]
fn lengthen_end(
    shape: &mut Shape,
    counts: Counts,
    element: Element,
    one: Counts,
    more: &mut Vec<Node>,
) -> Result<bool, AllocError>
    requires fits { length (stretch_of shape.old).elements + 1 < 2 ^ 32 }
    requires wide { length (stretch_of shape.old).children + length more.old.items < 2 ^ 32 }
    requires counted { IsCount one (stretch (element ∷ []) more.old.items) }
    requires held { HasNoEmptyPart shape.old }
    ensures longer { IfOk result (λ done. done ≡ true → stretch_of shape.new
        ≡ joined_stretch (stretch_of shape.old) (stretch (element ∷ []) more.old.items)) }
    ensures same { IfOk result (λ done. done ≡ false → stretch_of shape.new
        ≡ stretch_of shape.old) }
    ensures left { IfOk result (λ done. done ≡ false → more.new.items ≡ more.old.items) }
    ensures kept { IfErr result (λ e. stretch_of shape.new ≡ stretch_of shape.old) }
    ensures held { HasNoEmptyPart shape.new }
{
    match shape {
        Shape::Leaf(elements, children) => {
            let done = put_in_room(counts, elements, children, element, more)?;
            Ok(done)
        }
        Shape::Branch(_, end) => {
            let done = lengthen_last(end, element, one, more)?;
            Ok(done)
        }
    }
}

/// Lengthens what a run of these counts holds, where it is a leaf.
#[inline(always)]
fn lengthen_lists(
    shape: &mut Shape,
    counts: Counts,
    element: Element,
    more: &mut Vec<Node>,
) -> Result<bool, AllocError>
    requires wide { length (stretch_of shape.old).children + length more.old.items < 2 ^ 32 }
    requires held { HasNoEmptyPart shape.old }
    ensures longer { IfOk result (λ done. done ≡ true → stretch_of shape.new
        ≡ joined_stretch (stretch_of shape.old) (stretch (element ∷ []) more.old.items)) }
    ensures same { IfOk result (λ done. done ≡ false → stretch_of shape.new
        ≡ stretch_of shape.old) }
    ensures left { IfOk result (λ done. done ≡ false → more.new.items ≡ more.old.items) }
    ensures kept { IfErr result (λ e. stretch_of shape.new ≡ stretch_of shape.old) }
    ensures held { HasNoEmptyPart shape.new }
    ensures grown { length (stretch_of shape.old).elements
        ≤ length (stretch_of shape.new).elements }
{
    match shape {
        Shape::Leaf(elements, children) => {
            let done = put_in_room(counts, elements, children, element, more)?;
            Ok(done)
        }
        Shape::Branch(_, _) => Ok(false),
    }
}

/// Puts an element behind those of a leaf of these counts, and its children behind theirs, where
/// the leaf has room. Says whether it did.
#[inline(always)]
fn put_in_room(
    leaf: Counts,
    elements: &mut List<Element>,
    children: &mut List<Node>,
    element: Element,
    more: &mut Vec<Node>,
) -> Result<bool, AllocError>
    requires { length more.old.items < 2 ^ 32 }
    ensures elements { IfOk result (λ done. done ≡ true → elements.new
        ≡ elements.old ++ element ∷ []) }
    ensures children { IfOk result (λ done. done ≡ true → children.new
        ≡ children.old ++ more.old.items) }
    ensures same_elements { IfOk result (λ done. done ≡ false → elements.new ≡ elements.old) }
    ensures same_children { IfOk result (λ done. done ≡ false → children.new ≡ children.old) }
    ensures left { IfOk result (λ done. done ≡ false → more.new.items ≡ more.old.items) }
    ensures kept_elements { IfErr result (λ e. elements.new ≡ elements.old) }
    ensures kept_children { IfErr result (λ e. children.new ≡ children.old) }
    ensures grown { length elements.old ≤ length elements.new }
{
    if !has_room_alone(leaf, more.len()) {
        return Ok(false);
    }
    put(elements, children, element, more)?;
    Ok(true)
}

/// Puts an element behind others, and its children behind theirs. Where memory runs out both lists
/// are as before.
#[inline(always)]
#[tactic(auto, using(crate::proofs::InPlaceLemmas::popped))]
fn put(
    elements: &mut List<Element>,
    children: &mut List<Node>,
    element: Element,
    more: &mut Vec<Node>,
) -> Result<(), AllocError>
    ensures elements { OnOk result (elements.new ≡ elements.old ++ element ∷ []) }
    ensures children { OnOk result (children.new ≡ children.old ++ more.old.items) }
    ensures kept_elements { OnErr result (elements.new ≡ elements.old) }
    ensures kept_children { OnErr result (children.new ≡ children.old) }
{
    elements.push(element)?;
    match children.append(more) {
        Ok(()) => Ok(()),
        Err(error) => {
            let _ = elements.pop();
            Err(error)
        }
    }
}

/// Whether a leaf that nobody else owns has room for one more element of so many children.
fn has_room_alone(leaf: Counts, children: usize) -> bool
    requires { children < 2 ^ 32 }
{
    leaf.elements as u64 + leaf.children as u64 + 1 + children as u64 <= MOST_IN_LEAF
}

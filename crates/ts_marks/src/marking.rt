//! Marking a tree: a tree and an edit go in, and the tree as the edit leaves it comes out.
ghost use Rattle.std.specs.Prelude.{◌≡◌, ◌+◌, ◌<◌, ◌≤◌, true, false, All, IfOk, OnOk, length};
ghost use Rattle.spec_trees.specs.Trees.{children_of, elements_of, is_settled, node_extent, span_of, all_spans};
ghost use Rattle.spec_trees.specs.Made.{bytes_before, loosened, most_span, replaced, stretch_in};
ghost use Rattle.spec_reuse.specs.Changes.{is_met, moved, IsEditOver};
ghost use Rattle.spec_reuse.specs.Marked.{marked, marked_below, all_marked, marked_elements};
ghost use Rattle.ts_marks.specs.Passing.{EndsBy, Adds, AddsChildren, Loosens, StayTo, left_of, spans_between};

use crate::passed::Passed;
use crate::spans::{lead, span};
use spec_trees::Element;
use std::alloc::{AllocError, Global};
use ts_node::{Node, remade_is_node, remake};
use ts_text::Edit;

/// The tree of a text after an edit: the root and all nodes and elements that a part of the edit
/// met are not settled, sizes follow the edit, and all nodes that it did not reach are shared.
///
/// A settled node that no part meets costs one look, whatever is in it. So do settled elements of a
/// repetition one after another, where each part meets a few of them: the next that it may meet is
/// found in time by the logarithm of their number. For each child and each element that changes a
/// leaf of the repetition is copied, and the other leaves are shared.
///
/// # Errors
///
/// `AllocError` where memory runs out.
pub fn mark(alloc: Global, tree: &Node, edit: &Edit) -> Result<Node, AllocError>
    requires { IsEditOver (span_of tree.now) edit.now }
    ensures { IfOk result (λ new. new ≡ marked edit.now tree.now) }
{
    remade_is_node();
    let whole = span(tree);
    let start = Passed::start(edit);
    let own = start.moved(tree.pad());
    let end = start.moved(whole);
    let first = lead(tree);
    let reached = reached_in(alloc, tree, first, start)?;
    remake(
        alloc,
        tree,
        own,
        end - own,
        reached.changed.as_slice(),
        reached.loose.as_slice(),
    )
}

/// What an edit reached in a node: the children by their numbers, as they become, and the numbers
/// of the elements that were settled.
#[derive(Drop)]
struct Reached {
    changed: Vec<(u32, Node)>,
    loose: Vec<u32>,
}

/// What the edit reached in a node.
#[cycle(walk)]
fn reached_in<'e>(
    alloc: Global,
    node: &Node,
    place: u32,
    passed: Passed<'e>,
) -> Result<Reached, AllocError>
    requires from { passed.from ≤ place }
    requires short { place + all_spans (children_of node.now) ≤ most_span }
    requires moved { moved passed.edit.now (place + all_spans (children_of node.now)) ≤ most_span }
    ensures changes { IfOk result (λ r. replaced r.changed.items (children_of node.now)
        ≡ all_marked passed.entry.edit.now (children_of node.now) place) }
    ensures within { IfOk result (λ r.
        All (λ change. change.0 < length (children_of node.now)) r.changed.items) }
    ensures loose { IfOk result (λ r. loosened r.loose.items (elements_of node.now)
        ≡ marked_elements passed.entry.edit.now (elements_of node.now) (children_of node.now)
        place) }
    ensures known { IfOk result (λ r.
        All (λ k. k < length (elements_of node.now)) r.loose.items) }
{
    if node.elements() == 0 {
        reached_one_by_one(alloc, node, place, passed)
    } else {
        reached_in_elements(alloc, node, place, passed)
    }
}

/// The same of a node without elements: each child is looked at.
#[cycle(walk)]
fn reached_one_by_one<'e>(
    alloc: Global,
    node: &Node,
    place: u32,
    passed: Passed<'e>,
) -> Result<Reached, AllocError>
    requires none { length (elements_of node.now) ≡ 0 }
    requires from { passed.from ≤ place }
    requires short { place + all_spans (children_of node.now) ≤ most_span }
    requires moved { moved passed.edit.now (place + all_spans (children_of node.now)) ≤ most_span }
    ensures changes { IfOk result (λ r. replaced r.changed.items (children_of node.now)
        ≡ all_marked passed.entry.edit.now (children_of node.now) place) }
    ensures within { IfOk result (λ r.
        All (λ change. change.0 < length (children_of node.now)) r.changed.items) }
    ensures loose { IfOk result (λ r. loosened r.loose.items (elements_of node.now)
        ≡ marked_elements passed.entry.edit.now (elements_of node.now) (children_of node.now)
        place) }
    ensures known { IfOk result (λ r.
        All (λ k. k < length (elements_of node.now)) r.loose.items) }
{
    let mut changed = Vec::new(alloc);
    let loose = Vec::new(alloc);
    let end = node.children();
    add_children(alloc, node, 0, end, place, passed, &mut changed)?;
    Ok(Reached { changed, loose })
}

/// The same of a repetition: elements that the edit did not reach are passed at once.
#[cycle(walk)]
fn reached_in_elements<'e>(
    alloc: Global,
    node: &Node,
    place: u32,
    passed: Passed<'e>,
) -> Result<Reached, AllocError>
    requires repetition { 0 < length (elements_of node.now) }
    requires from { passed.from ≤ place }
    requires short { place + all_spans (children_of node.now) ≤ most_span }
    requires moved { moved passed.edit.now (place + all_spans (children_of node.now)) ≤ most_span }
    ensures changes { IfOk result (λ r. replaced r.changed.items (children_of node.now)
        ≡ all_marked passed.entry.edit.now (children_of node.now) place) }
    ensures within { IfOk result (λ r.
        All (λ change. change.0 < length (children_of node.now)) r.changed.items) }
    ensures loose { IfOk result (λ r. loosened r.loose.items (elements_of node.now)
        ≡ marked_elements passed.entry.edit.now (elements_of node.now) (children_of node.now)
        place) }
    ensures known { IfOk result (λ r.
        All (λ k. k < length (elements_of node.now)) r.loose.items) }
{
    let mut changed = Vec::new(alloc);
    let mut loose = Vec::new(alloc);
    let mut passed = passed;
    let first = first_reached(node, 0, place, passed);
    let end = node.elements();
    let mut k = first;
    while k < end {
        let at = place + node.offset(k);
        passed = passed.up_to(at);
        add_loose(node.element(k), k, at, passed, &mut loose)?;
        let from = node.children_before(k);
        let to = node.children_before(k + 1);
        add_children(alloc, node, from, to, at, passed, &mut changed)?;
        k = first_reached(node, k + 1, place, passed);
    }
    Ok(Reached { changed, loose })
}

/// Adds to the changes those children from one number on, up to another, that the edit reached.
#[cycle(walk)]
fn add_children<'e>(
    alloc: Global,
    node: &Node,
    from: u32,
    to: u32,
    place: u32,
    passed: Passed<'e>,
    changed: &mut Vec<(u32, Node)>,
) -> Result<(), AllocError>
    requires order { from ≤ to }
    requires within { to ≤ length (children_of node.now) }
    requires passed { passed.from ≤ place }
    requires short { place + spans_between from to (children_of node.now) ≤ most_span }
    requires moved { moved passed.edit.now (place + spans_between from to (children_of node.now))
        ≤ most_span }
    ensures { OnOk result (AddsChildren passed.entry.edit.now (children_of node.now) from to place
        changed.old.items changed.new.items) }
{
    let mut passed = passed;
    let mut at = place;
    for k in from..to {
        let child = node.child(k);
        passed = passed.up_to(at);
        add_changed(alloc, child, k, at, passed, changed)?;
        at += span(child);
    }
    Ok(())
}

/// The number of the first element from the one at `k` on that the next part may meet, or that is
/// not settled. Those before it stay as they are, and are passed at once.
fn first_reached<'e>(node: &Node, k: u32, place: u32, passed: Passed<'e>) -> u32
    requires within { k ≤ length (elements_of node.now) }
    requires from { passed.from ≤ place + bytes_before k (stretch_in node.now) }
    ensures later { k ≤ result }
    ensures within { result ≤ length (elements_of node.now) }
    ensures stay { StayTo passed.entry.edit.now node.now place k result }
{
    let _ = node.nodes();
    let room = passed.next_start().saturating_sub(place);
    k + node.settled_within(k, room)
}

/// Adds the number of an element to those that the edit reached, where it did.
#[tactic(auto, using(crate::proofs::ElementLemmas::element_stays, crate::proofs::ElementLemmas::element_loosens))]
fn add_loose<'e>(
    element: Element,
    number: u32,
    place: u32,
    passed: Passed<'e>,
    loose: &mut Vec<u32>,
) -> Result<(), AllocError>
    requires from { passed.from ≤ place }
    requires behind { EndsBy (left_of passed) place → ⊥ }
    ensures { OnOk result (Loosens passed.entry.edit.now element number place
        loose.old.items loose.new.items) }
{
    if !is_loosened(element, place, passed) {
        return Ok(());
    }
    loose.push(number)?;
    Ok(())
}

/// Whether an element is not settled any more: it was, and a part meets what was examined for it.
fn is_loosened<'e>(element: Element, place: u32, passed: Passed<'e>) -> bool
    requires from { passed.from ≤ place }
    requires behind { EndsBy (left_of passed) place → ⊥ }
    ensures met { result ≡ true
        → is_met passed.entry.edit.now.parts place element.extent ≡ true }
    ensures stays { result ≡ false → element.settled ≡ true
        → is_met passed.entry.edit.now.parts place element.extent ≡ false }
{
    element.settled && passed.meets(place, element.extent)
}

/// Adds a child to those that the edit reached, where it did.
#[cycle(walk)]
fn add_changed<'e>(
    alloc: Global,
    child: &Node,
    number: u32,
    place: u32,
    passed: Passed<'e>,
    changed: &mut Vec<(u32, Node)>,
) -> Result<(), AllocError>
    requires from { passed.from ≤ place }
    requires behind { EndsBy (left_of passed) place → ⊥ }
    requires short { place + span_of child.now ≤ most_span }
    requires moved { moved passed.edit.now (place + span_of child.now) ≤ most_span }
    ensures { OnOk result (Adds passed.entry.edit.now child.now number place
        changed.old.items changed.new.items) }
{
    if !is_reached(child, place, passed) {
        let _ = child.nodes();
        return Ok(());
    }
    let new = remade(alloc, child, place, passed)?;
    changed.push((number, new))?;
    Ok(())
}

/// Whether a node is made anew: it is not settled, or a part meets what was examined for it.
fn is_reached<'e>(node: &Node, place: u32, passed: Passed<'e>) -> bool
    requires from { passed.from ≤ place }
    requires behind { EndsBy (left_of passed) place → ⊥ }
    ensures anew { result ≡ true → is_settled node.now ≡ true
        → is_met passed.entry.edit.now.parts place (node_extent node.now) ≡ true }
    ensures settled { result ≡ false → is_settled node.now ≡ true }
    ensures unmet { result ≡ false
        → is_met passed.entry.edit.now.parts place (node_extent node.now) ≡ false }
{
    !node.settled() || passed.meets(place, node.extent())
}

/// A node below the root that the edit reached, as it becomes.
#[cycle(walk)]
fn remade<'e>(
    alloc: Global,
    node: &Node,
    place: u32,
    passed: Passed<'e>,
) -> Result<Node, AllocError>
    requires from { passed.from ≤ place }
    requires short { place + span_of node.now ≤ most_span }
    requires moved { moved passed.edit.now (place + span_of node.now) ≤ most_span }
    requires reached { is_settled node.now ≡ true
        → is_met passed.edit.now.parts place (node_extent node.now) ≡ true }
    ensures { IfOk result (λ new. new ≡ marked_below passed.entry.edit.now node.now place) }
{
    remade_is_node();
    let whole = span(node);
    let start = passed.moved(place);
    let own = passed.moved(place + node.pad());
    let end = passed.moved(place + whole);
    let reached = reached_in(alloc, node, place, passed)?;
    remake(
        alloc,
        node,
        own - start,
        end - own,
        reached.changed.as_slice(),
        reached.loose.as_slice(),
    )
}

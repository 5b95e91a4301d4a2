//! Elements that are taken over at once: offers and a stack go in; the head of the stack with more
//! elements behind the repetition on top comes out, or that there are none which can be taken.
ghost use Rattle.std.specs.Prelude.{◌≡◌, ℕ, ◌<◌, ◌≤◌, ◌∷◌, length, IfOk, IfSome, None};
ghost use Rattle.spec_trees.specs.declared.tree.Tree.{Tree};
ghost use Rattle.spec_trees.specs.declared.tree.Stretch.{Stretch};
ghost use Rattle.spec_trees.specs.Trees.{all_spans, elements_of, span_of};
ghost use Rattle.spec_trees.specs.Made.{most_span, IsNode};
ghost use Rattle.ts_node.specs.Standing.{IsPartOf};
ghost use Rattle.ts_table.specs.declared.view.ParseTable.{ParseTable};
ghost use Rattle.ts_gss.specs.Stacks.{stack_at, state_on, layer_with, under_top, AreExact, IsOneStack};
ghost use Rattle.ts_offer.specs.Answers.{stretch_of};
ghost use Rattle.ts_steps.specs.LiveHeads.{IsLiveHead};
ghost use Rattle.ts_steps.specs.Heads.{IsOwnHead};
ghost use Rattle.ts_steps.specs.Reparsing.{IsLent};
ghost use Rattle.ts_steps.specs.Lengthening.{HasRoom, IsLengthened, IsListEnd, IsListOn};
ghost use Rattle.ts_steps.specs.declared.lengthening.ListEnd.{ListEnd as AnyEnd};

use crate::head::StackHead;
use crate::laws::{laws_hold, length_laws_hold, sound_laws_hold};
use crate::making::{have_states, spans};
use std::alloc::{AllocError, Global};
use ts_core::Symbol;
use ts_gss::{Graph, Lifted};
use ts_node::{Node, Section, lengthen, sections_stand};
use ts_offer::{Elements, Offers};
use ts_table::Table;

/// A repetition on top of a stack: the head of the stack, where it ends, the repetition's symbol,
/// and the state below it.
#[derive(Clone, Copy)]
pub(crate) struct ListEnd {
    pub under: usize,
    pub place: u32,
    pub state: u16,
    pub symbol: Symbol,
}

/// The repetition on top of a stack that ends at a place, if one is there.
fn list_on(graph: &Graph, under: usize, place: u32) -> Option<ListEnd>
    requires there { under < length graph.now }
    requires some { 0 < place → 0 < length (stack_at graph.now under) }
    ensures { IfSome result (IsListOn graph.now under place) }
{
    if place == 0 {
        return None;
    }
    let node = graph.node(under);
    if node.elements() == 0 {
        return None;
    }
    Some(ListEnd {
        under,
        place,
        state: graph.state(graph.below(under)),
        symbol: node.symbol(),
    })
}

/// The repetition on top of a stack, or below the extras there, where all of these have states.
#[inline(always)]
fn list_end(alloc: Global, graph: &Graph, head: StackHead) -> Result<Option<ListEnd>, AllocError>
    requires live { (t : ParseTable) × (size : ℕ) × (size ≤ most_span)
        × IsLiveHead t size graph.now head }
    ensures { IfOk result (λ o. IfSome o (IsListEnd graph.now head)) }
{
    let Lifted { extras, under } = graph.lift(alloc, head.top)?;
    let place = head.place - spans(extras.as_slice());
    if have_states(extras.as_slice()) {
        Ok(list_on(graph, under, place))
    } else {
        Ok(None)
    }
}

/// How many bytes were examined for a repetition that ends at a place and for elements behind it.
/// None where they end no later than the parser came, or past the text of so many bytes, or where
/// they were examined past its end.
fn extent_with(list: &Node, section: &Section, place: u32, reached: u32, size: u32) -> Option<u32>
    requires ends { span_of list.now ≤ place }
    requires within { (place ≤ size) × (size ≤ most_span) }
    requires short { all_spans section.now.children ≤ most_span }
    ensures { IfSome result (HasRoom size place reached list.now section.now) }
{
    let most = size as u64 + 1;
    let reach = section.reach();
    if reach > most {
        return None;
    }
    let _ = list.nodes();
    let own = (list.pad() + list.size()) as u64;
    let extent = (list.extent() as u64).max(own + reach);
    let end = place as u64 + section.bytes();
    let start = place as u64 - own;
    if end > reached as u64 && end < most && start + extent <= most {
        Some(extent as u32)
    } else {
        None
    }
}

/// Puts a node in the place of the one on top of a stack. All stacks that were put there after the
/// one below it are taken out.
fn replace_top(graph: &mut Graph, head: usize, node: Node) -> Result<usize, AllocError>
    requires there { head < length graph.old }
    requires some { 0 < length (stack_at graph.old head) }
    ensures there { IfOk result (λ top. top < length graph.new) }
    ensures stack { IfOk result (λ top. stack_at graph.new top
        ≡ layer_with node (state_on (stack_at graph.old head))
        ∷ under_top (stack_at graph.old head)) }
    ensures one { IfOk result (λ top. (last : ℕ) → IsOneStack graph.old last
        → IsOneStack graph.new top) }
{
    let state = graph.state(head);
    let below = graph.below(head);
    graph.cut(below);
    let top = graph.push(below, node, state)?;
    Ok(top)
}

/// Puts elements behind the repetition on top of a stack, in the place of the extras above it: the
/// first of the elements begins with them. The repetition keeps its state. None where the elements
/// end no later than the parser came, or past the text of so many bytes.
fn lengthen_list(
    alloc: Global,
    table: &Table,
    graph: &mut Graph,
    head: StackHead,
    end: ListEnd,
    section: &Section,
    size: u32,
) -> Result<Option<StackHead>, AllocError>
    requires short { size ≤ most_span }
    requires live { IsOwnHead table.now size graph.old head }
    requires list { IsListEnd graph.old head end }
    requires lent { IsLent table.now.grammar section.now }
    requires part { (u : Tree) × IsNode u × IsPartOf u section.now }
    ensures kept { IfOk result (λ o. o ≡ None → graph.new ≡ graph.old) }
    ensures one { IfOk result (λ o. IfSome o (λ k. IsOneStack graph.old head.top
        → IsOneStack graph.new k.top)) }
    ensures done { IfOk result (λ o. IfSome o
        (IsLengthened table.now size graph.old graph.new head end section.now)) }
{
    laws_hold();
    sound_laws_hold();
    length_laws_hold();
    table.stands();
    let _ = section.nodes();
    let list = graph.node(end.under);
    match extent_with(list, section, end.place, head.place, size) {
        None => Ok(None),
        Some(extent) => {
            let longer = lengthen(alloc, list, section, extent, list.state())?;
            let top = replace_top(graph, end.under, longer)?;
            Ok(Some(StackHead {
                top,
                place: end.place + section.bytes() as u32,
            }))
        }
    }
}

/// Elements that are lent, cut out of their node.
fn cut_out(alloc: Global, elements: Elements<'_>) -> Result<Section, AllocError>
    requires some { elements.from < elements.to }
    requires within { elements.to ≤ length (elements_of elements.node.now) }
    ensures section { IfOk result (λ s. s ≡ stretch_of elements.entry) }
    ensures part { IfOk result (λ s. (u : Tree) × IsNode u × IsPartOf u s) }
{
    sections_stand();
    let _ = elements.node.nodes();
    let section = elements.node.section(alloc, elements.from, elements.to)?;
    Ok(section)
}

/// Takes over at once the elements that are offered behind the repetition on top of a stack, or
/// below the extras there. None where no repetition is there, or nothing that can be taken, or
/// where a layer stands for deeper trees than its own.
pub(crate) fn take_elements<'t, O: Offers<'t>>(
    alloc: Global,
    table: &Table,
    offers: &mut O,
    graph: &mut Graph,
    head: StackHead,
    size: u32,
) -> Result<Option<StackHead>, AllocError>
    requires short { size ≤ most_span }
    requires asked { O.least offers.old ≤ head.place }
    requires live { IsOwnHead table.now size graph.old head }
    requires lent { (place state symbol : ℕ) (s : Stretch)
        → O.lends offers.old place state symbol s → IsLent table.now.grammar s }
    ensures least { O.least offers.new ≤ head.place }
    ensures gives { (place state : ℕ) (t : Tree) → O.gives offers.new place state t
        → O.gives offers.old place state t }
    ensures lends { (place state symbol : ℕ) (s : Stretch)
        → O.lends offers.new place state symbol s → O.lends offers.old place state symbol s }
    ensures kept { IfOk result (λ o. o ≡ None → graph.new ≡ graph.old) }
    ensures one { IfOk result (λ o. IfSome o (λ k. IsOneStack graph.old head.top
        → IsOneStack graph.new k.top)) }
    ensures taken { IfOk result (λ o. IfSome o (λ k. (e : AnyEnd) × (s : Stretch)
        × O.lends offers.old e.place e.state e.symbol.0 s
        × IsLengthened table.now size graph.old graph.new head e s k)) }
    ensures exact { IfOk result (λ o. IfSome o
        (λ k. AreExact (stack_at graph.old head.top))) }
{
    if !graph.is_exact(head.top) {
        return Ok(None);
    }
    match list_end(alloc, graph, head)? {
        None => Ok(None),
        Some(end) => match offers.elements_at(end.place, end.state, end.symbol) {
            None => Ok(None),
            Some(elements) => {
                let section = cut_out(alloc, elements)?;
                let next = lengthen_list(alloc, table, graph, head, end, &section, size)?;
                Ok(next)
            }
        },
    }
}

//! The visible nodes: a root goes in, and the list of the nodes that show comes out, in preorder.
ghost use Rattle.std.specs.Prelude.{◌≡◌, ◌+◌, ◌++◌, ◌∷◌, ◌<◌, ◌≤◌, ◌^◌, true, [], Some, None, length, IfOk, OnOk};
ghost use Rattle.std.specs.Option.{option_to_list};
ghost use Rattle.spec_grammar.specs.Symbols.{node_name};
ghost use Rattle.spec_trees.specs.Trees.{symbol_of, pad_of, size_of, span_of, all_spans, tree_depth, greatest_depth, children_of, elements_of, production_of};
ghost use Rattle.spec_trees.specs.VisibleNodes.{marks_at, showing, visible_nodes, visible_node, shown_name, shown_named, with_field};
ghost use Rattle.ts_cursor.specs.Marked.{step_marks, fills, filled_after, window, part_nodes, inner_nodes, AppendsNodes};
ghost use Rattle.ts_cursor.specs.Pooled.{seen_with};
ghost use Rattle.spec_trees.specs.Family.{LieWithin};

use crate::face::{is_named, name, shows, symbol_name};
use crate::seen::{Face, Seen};
use crate::steps::Steps;
use std::alloc::{AllocError, Global};
use ts_core::Step;
use ts_node::Node;

/// Where nodes stand: how deep, and from which byte on.
#[derive(Clone, Copy)]
struct At {
    depth: u32,
    place: u32,
}

/// Some of a node's children: those from one number up to another, with the steps that they fill.
#[derive(Clone, Copy)]
struct Part<'g> {
    from: u32,
    to: u32,
    steps: &'g [Step],
}

/// All visible nodes of a root.
///
/// # Errors
///
/// `AllocError` where memory runs out.
pub(crate) fn nodes<'g>(
    alloc: Global,
    steps: &Steps<'g>,
    root: &Node,
) -> Result<Seen<'g>, AllocError>
    ensures nodes { IfOk result (λ nodes. nodes ≡ visible_nodes steps.now root.now) }
    ensures few { IfOk result (λ nodes. length nodes < 2 ^ 32) }
    ensures some { IfOk result (λ nodes. 0 < length nodes) }
    ensures lie { IfOk result (λ nodes. LieWithin (span_of root.now) nodes) }
{
    let mut nodes = Seen::with_room(alloc, root.nodes() as usize)?;
    nodes.add(root_face(steps, root), &[], None)?;
    let at = At { depth: 1, place: 0 };
    put_children(alloc, steps, root, at, &[], &mut nodes)?;
    Ok(nodes)
}

/// Puts at the end what a node comes to, where it stands under these fields of hidden steps and
/// fills this step.
#[cycle(walk)]
fn put<'g>(
    alloc: Global,
    steps: &Steps<'g>,
    node: &Node,
    step: Option<&'g Step>,
    at: At,
    fields: &[u16],
    nodes: &mut Seen<'g>,
) -> Result<(), AllocError>
    requires deep { at.depth + (length fields.now + tree_depth node.now) < 2 ^ 16 }
    requires within { at.place + span_of node.now < 2 ^ 32 }
    ensures { OnOk result (AppendsNodes (at.place + span_of node.now)
        (showing steps.now node.now at.depth at.place fields.now (step_marks step.entry))
        nodes.old nodes.new) }
{
    let _ = node.nodes();
    let more = missing(fields, step);
    if shows(steps.grammar(), node.symbol(), step) {
        nodes.add(child_face(steps, node, step, at), fields, more)?;
        let below = At {
            depth: at.depth + 1,
            place: at.place,
        };
        put_children(alloc, steps, node, below, &[], nodes)
    } else {
        put_hidden(alloc, steps, node, at, fields, more, nodes)
    }
}

/// Puts at the end what the children of a hidden node come to, where it stands under these fields,
/// and one more where there is one.
#[cycle(walk)]
fn put_hidden<'g>(
    alloc: Global,
    steps: &Steps<'g>,
    node: &Node,
    at: At,
    fields: &[u16],
    more: Option<u16>,
    nodes: &mut Seen<'g>,
) -> Result<(), AllocError>
    requires deep { at.depth
        + (length fields.now + (1 + greatest_depth (children_of node.now))) < 2 ^ 16 }
    requires within { at.place + all_spans (children_of node.now) < 2 ^ 32 }
    ensures { OnOk result (AppendsNodes (at.place + all_spans (children_of node.now))
        (inner_nodes steps.now node.now at.depth at.place (fields.now ++ option_to_list more))
        nodes.old nodes.new) }
{
    match more {
        Some(field) => {
            let own = with_one(alloc, fields, field)?;
            put_children(alloc, steps, node, at, own.as_slice(), nodes)
        }
        None => put_children(alloc, steps, node, at, fields, nodes),
    }
}

/// Puts at the end what the children of a node come to.
#[cycle(walk)]
fn put_children<'g>(
    alloc: Global,
    steps: &Steps<'g>,
    node: &Node,
    at: At,
    fields: &[u16],
    nodes: &mut Seen<'g>,
) -> Result<(), AllocError>
    requires deep { at.depth
        + (length fields.now + greatest_depth (children_of node.now)) < 2 ^ 16 }
    requires within { at.place + all_spans (children_of node.now) < 2 ^ 32 }
    ensures { OnOk result (AppendsNodes (at.place + all_spans (children_of node.now))
        (inner_nodes steps.now node.now at.depth at.place fields.now)
        nodes.old nodes.new) }
{
    if node.children() == 0 {
        return Ok(());
    }
    match node.production() {
        Some(number) => {
            let filled = steps.of(number as usize);
            put_all(alloc, steps, node, filled, at, fields, nodes)
        }
        None => {
            if node.elements() > 0 {
                put_elements(alloc, steps, node, at, fields, nodes)
            } else {
                put_all(alloc, steps, node, &[], at, fields, nodes)
            }
        }
    }
}

/// Puts at the end what the children of a node come to, where all of them fill these steps.
#[cycle(walk)]
fn put_all<'g>(
    alloc: Global,
    steps: &Steps<'g>,
    node: &Node,
    filled: &'g [Step],
    at: At,
    fields: &[u16],
    nodes: &mut Seen<'g>,
) -> Result<(), AllocError>
    requires deep { at.depth
        + (length fields.now + greatest_depth (children_of node.now)) < 2 ^ 16 }
    requires within { at.place + all_spans (children_of node.now) < 2 ^ 32 }
    ensures { OnOk result (AppendsNodes (at.place + all_spans (children_of node.now))
        (part_nodes steps.now filled.now 0 (children_of node.now) at.depth at.place fields.now)
        nodes.old nodes.new) }
{
    let part = Part {
        from: 0,
        to: node.children(),
        steps: filled,
    };
    let _ = put_part(alloc, steps, node, part, at, fields, nodes)?;
    Ok(())
}

/// Puts at the end what the children of a repetition come to.
#[cycle(walk)]
fn put_elements<'g>(
    alloc: Global,
    steps: &Steps<'g>,
    node: &Node,
    at: At,
    fields: &[u16],
    nodes: &mut Seen<'g>,
) -> Result<(), AllocError>
    requires repetition { production_of node.now ≡ None }
    requires some { 0 < length (elements_of node.now) }
    requires deep { at.depth
        + (length fields.now + greatest_depth (children_of node.now)) < 2 ^ 16 }
    requires within { at.place + all_spans (children_of node.now) < 2 ^ 32 }
    ensures { OnOk result (AppendsNodes (at.place + all_spans (children_of node.now))
        (inner_nodes steps.now node.now at.depth at.place fields.now)
        nodes.old nodes.new) }
{
    let _ = node.nodes();
    let _ = node.children();
    let first = steps.first(node.symbol());
    let mut from = 0u32;
    let mut place = at.place;
    for e in 0..node.elements() {
        let element = node.element(e);
        let part = Part {
            from,
            to: from + element.children,
            steps: steps.alternative(first, element.alternative),
        };
        let here = At {
            depth: at.depth,
            place,
        };
        place = put_part(alloc, steps, node, part, here, fields, nodes)?;
        from = part.to;
    }
    Ok(())
}

/// Puts at the end what some children of a node come to. The answer is the place where they end.
#[cycle(walk)]
fn put_part<'g>(
    alloc: Global,
    steps: &Steps<'g>,
    node: &Node,
    part: Part<'g>,
    at: At,
    fields: &[u16],
    nodes: &mut Seen<'g>,
) -> Result<u32, AllocError>
    requires rises { part.from ≤ part.to }
    requires inside { part.to ≤ length (children_of node.now) }
    requires deep { at.depth
        + (length fields.now + greatest_depth (children_of node.now)) < 2 ^ 16 }
    requires within { at.place
        + all_spans (window (children_of node.now) part.from part.to) < 2 ^ 32 }
    ensures nodes { OnOk result (AppendsNodes
        (at.place + all_spans (window (children_of node.now) part.entry.from part.entry.to))
        (part_nodes steps.now part.entry.steps.now 0
        (window (children_of node.now) part.entry.from part.entry.to)
        at.depth at.place fields.now)
        nodes.old nodes.new) }
    ensures place { IfOk result (λ place. place
        ≡ at.place + all_spans (window (children_of node.now) part.entry.from part.entry.to)) }
{
    let mut filled = 0usize;
    let mut place = at.place;
    for k in part.from..part.to {
        let child = node.child(k);
        let extra = child.extra();
        let step = step_at(part.steps, filled, extra);
        let here = At {
            depth: at.depth,
            place,
        };
        let end = place + (child.pad() + child.size());
        put(alloc, steps, child, step, here, fields, nodes)?;
        filled = past(filled, extra);
        place = end;
    }
    Ok(place)
}

/// The step that a child fills after so many filled steps. None for an extra.
fn step_at<'g>(steps: &'g [Step], filled: usize, extra: bool) -> Option<&'g Step>
    ensures { step_marks result ≡ marks_at steps.now (fills filled extra) }
{
    if extra { None } else { steps.get(filled) }
}

/// How many steps are filled after a child.
fn past(filled: usize, extra: bool) -> usize
    requires { filled < 2 ^ 32 }
    ensures { result ≡ filled_after filled extra }
{
    if extra { filled } else { filled + 1 }
}

/// A node as it shows, without its fields.
fn child_face<'g>(steps: &Steps<'g>, node: &Node, step: Option<&'g Step>, at: At) -> Face<'g>
    requires within { at.place + span_of node.now < 2 ^ 32 }
    ensures { seen_with [] result ≡ visible_node at.depth
        (shown_name steps.now (symbol_of node.now) (step_marks step.entry).alias)
        (shown_named steps.now (symbol_of node.now) (step_marks step.entry).alias)
        [] (at.place + pad_of node.now) (size_of node.now) }
{
    let symbol = node.symbol();
    let start = at.place + node.pad();
    Face {
        name: name(steps.grammar(), symbol, step),
        first: 0,
        start,
        end: start + node.size(),
        depth: at.depth,
        count: 0,
        named: is_named(steps.grammar(), symbol, step),
    }
}

/// The root as it shows: named, under its rule's name.
fn root_face<'g>(steps: &Steps<'g>, root: &Node) -> Face<'g>
    requires { span_of root.now < 2 ^ 32 }
    ensures { seen_with [] result ≡ visible_node 0 (node_name steps.now (symbol_of root.now)) true []
        (pad_of root.now) (size_of root.now) }
{
    let start = root.pad();
    Face {
        name: symbol_name(steps.grammar(), root.symbol()),
        first: 0,
        start,
        end: start + root.size(),
        depth: 0,
        count: 0,
        named: true,
    }
}

/// The field of a step, where the fields have it not yet.
fn missing(fields: &[u16], step: Option<&Step>) -> Option<u16>
    ensures { with_field fields.now (step_marks step.entry).field
        ≡ fields.now ++ option_to_list result }
{
    match field_of(step) {
        Some(field) => new_field(fields, field),
        None => None,
    }
}

/// The field of a step.
fn field_of(step: Option<&Step>) -> Option<u16>
    ensures { result ≡ (step_marks step.entry).field }
{
    match step {
        Some(step) => step.field,
        None => None,
    }
}

/// A field, where the fields have it not yet.
fn new_field(fields: &[u16], field: u16) -> Option<u16>
    ensures { with_field fields.now (Some field) ≡ fields.now ++ option_to_list result }
{
    if fields.contains(&field) {
        None
    } else {
        Some(field)
    }
}

/// The fields and one more.
fn with_one(alloc: Global, fields: &[u16], field: u16) -> Result<Vec<u16>, AllocError>
    ensures { IfOk result (λ own. own.items ≡ fields.now ++ field ∷ []) }
{
    let mut own = Vec::with_capacity(alloc, fields.len() + 1)?;
    own.extend_from_slice(fields)?;
    own.push(field)?;
    Ok(own)
}

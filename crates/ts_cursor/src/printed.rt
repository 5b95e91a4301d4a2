//! The visible tree as it is printed: a grammar, a text and a root go in, and its nodes come out,
//! with the names of their fields, and rows and columns.
ghost use Rattle.std.specs.Prelude.{◌≡◌, ◌<◌, ◌≤◌, IfOk, Some, length, map, slice_get, option_map};
ghost use Rattle.spec_trees.specs.Trees.{span_of};
ghost use Rattle.spec_trees.specs.Shown as printed;
ghost use Rattle.ts_cursor.specs.Marked.{start_of};

use crate::nodes::nodes;
use crate::seen::Seen;
use crate::steps::Steps;
use std::alloc::{AllocError, Global};
use ts_core::{FlatGrammar, List, Shown, Str};
use ts_node::Node;
use ts_text::{PointWalk, Text};

/// The visible tree of a root, which stands at the text's start, in time by the sizes of both.
///
/// # Errors
///
/// `AllocError` where memory runs out.
pub fn shown(
    alloc: Global,
    grammar: &FlatGrammar,
    text: &Text,
    root: &Node,
) -> Result<List<Shown>, AllocError>
    requires { span_of root.now ≤ length text.now }
    ensures { IfOk result (λ all. all ≡ printed.Visible grammar.now text.now root.now) }
{
    let steps = Steps::new(alloc, grammar)?;
    let nodes = nodes(alloc, &steps, root)?;
    let mut points = PointWalk::new(text);
    let mut all = List::with_capacity(alloc, nodes.len())?;
    for k in 0..nodes.len() {
        all.push(node_shown(alloc, grammar, &mut points, &nodes, k)?)?;
    }
    Ok(all)
}

/// A node as it is printed.
fn node_shown(
    alloc: Global,
    grammar: &FlatGrammar,
    points: &mut PointWalk,
    nodes: &Seen,
    k: usize,
) -> Result<Shown, AllocError>
    requires within { k < length nodes.now }
    requires starts { start_of nodes.now k ≤ length points.old }
    ensures node { IfOk result (λ shown.
        option_map (printed.shown grammar.now points.old) (slice_get nodes.now k) ≡ Some shown) }
    ensures points { points.new ≡ points.old }
{
    let start = nodes.start(k);
    let (row, column) = points.at(start);
    Ok(Shown {
        depth: nodes.depth(k),
        name: Str::from_text(alloc, nodes.name(k))?,
        named: nodes.named(k),
        fields: field_names(alloc, grammar, nodes.fields(k))?,
        start,
        end: nodes.end(k),
        row,
        column,
    })
}

/// The names of fields.
fn field_names(
    alloc: Global,
    grammar: &FlatGrammar,
    fields: &[u16],
) -> Result<List<Str>, AllocError>
    ensures { IfOk result (λ names. names ≡ map (printed.field_name grammar.now) fields.now) }
{
    let mut names = List::with_capacity(alloc, fields.len())?;
    for field in fields {
        names.push(Str::from_text(alloc, field_name(grammar, *field))?)?;
    }
    Ok(names)
}

/// The name of a field.
fn field_name(grammar: &FlatGrammar, field: u16) -> &str
    ensures { result.now ≡ printed.field_name grammar.now field }
{
    if (field as usize) < grammar.fields.len() {
        grammar.fields.get(field as usize).text()
    } else {
        ""
    }
}

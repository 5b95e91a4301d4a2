//! The nodes of a cursor in; their list put into a value that is being written. Each node is put as
//! it stands in the cursor, so that no list of printed nodes is made.
ghost use Rattle.std.specs.Prelude.{◌≡◌, ◌<◌, ◌≤◌, ◌∷◌, [], Some, OnOk, length, map, slice_get, decimal};
ghost use Rattle.json.specs.Token.{number};
ghost use Rattle.serde_json.specs.Data.{array};
ghost use Rattle.spec_trees.specs.Family.{LieWithin};
ghost use Rattle.spec_trees.specs.Shown.{field_name, shown};
ghost use Rattle.spec_output.specs.Lines.{text_list};
ghost use Rattle.spec_output.specs.Outcomes.{node_data, node_items};
ghost use Rattle.ts_print.specs.Written.{AddsTokens, AddsValue, lent_node};

use json::Writer;
use std::alloc::AllocError;
use ts_core::FlatGrammar;
use ts_cursor::Cursor;
use ts_text::{PointWalk, Text};

/// A visible node whose name and fields are lent.
#[derive(Clone, Copy)]
struct Row<'a> {
    depth: u32,
    name: &'a str,
    named: bool,
    fields: &'a [u16],
    start: u32,
    end: u32,
}

/// Writes the nodes in their order. Their starts are found by one walk over the text where they
/// never fall.
pub(crate) fn put_nodes(
    grammar: &FlatGrammar,
    text: &Text,
    cursor: &Cursor,
    out: &mut Writer,
) -> Result<(), AllocError>
    requires { LieWithin (length text.now) cursor.now.nodes }
    ensures { OnOk result (AddsValue
        (array (node_items (map (shown grammar.now text.now) cursor.now.nodes)))
        out.old out.new) }
{
    let mut points = PointWalk::new(text);
    out.begin_array()?;
    for k in 0..cursor.count() {
        put_node(grammar, &mut points, row_at(cursor, k), out)?;
    }
    out.end_array()
}

/// The node of a number.
fn row_at<'a>(cursor: &'a Cursor<'_>, k: u32) -> Row<'a>
    requires { k < length cursor.now.nodes }
    ensures { slice_get cursor.now.nodes k ≡ Some (lent_node result) }
{
    Row {
        depth: cursor.depth_at(k),
        name: cursor.name_at(k),
        named: cursor.named_at(k),
        fields: cursor.fields_at(k),
        start: cursor.start_at(k),
        end: cursor.end_at(k),
    }
}

/// Writes a node: its depth, name, whether it is named, its fields, start, end, row and column.
fn put_node(
    grammar: &FlatGrammar,
    points: &mut PointWalk,
    node: Row,
    out: &mut Writer,
) -> Result<(), AllocError>
    requires { node.start ≤ length points.old }
    ensures node { OnOk result (AddsValue
        (node_data (shown grammar.now points.old (lent_node node.entry))) out.old out.new) }
    ensures points { points.new ≡ points.old }
{
    let (row, column) = points.at(node.start);
    out.begin_array()?;
    put_number(node.depth, out)?;
    out.string(node.name)?;
    out.boolean(node.named)?;
    put_fields(grammar, node.fields, out)?;
    put_number(node.start, out)?;
    put_number(node.end, out)?;
    put_number(row, out)?;
    put_number(column, out)?;
    out.end_array()
}

/// Writes a number.
pub(crate) fn put_number(n: u32, out: &mut Writer) -> Result<(), AllocError>
    ensures { OnOk result (AddsTokens (number (decimal n) ∷ []) out.old out.new) }
{
    out.u64(u64::from(n))
}

/// Writes the names of fields.
fn put_fields(grammar: &FlatGrammar, fields: &[u16], out: &mut Writer) -> Result<(), AllocError>
    ensures { OnOk result (AddsValue (text_list (map (field_name grammar.now) fields.now))
        out.old out.new) }
{
    out.begin_array()?;
    for field in fields {
        out.string(name_of_field(grammar, *field))?;
    }
    out.end_array()
}

/// The name of a field.
fn name_of_field(grammar: &FlatGrammar, field: u16) -> &str
    ensures { result.now ≡ field_name grammar.now field }
{
    if (field as usize) < grammar.fields.len() {
        grammar.fields.get(field as usize).text()
    } else {
        ""
    }
}

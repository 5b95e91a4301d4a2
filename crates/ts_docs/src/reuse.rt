//! What a version keeps for the next one. An edit goes in, and what is kept for the version after
//! it comes out.
ghost use Rattle.std.specs.Prelude.{◌≡◌, IfOk, None};
ghost use Rattle.ts_text.specs.Edit.{InRange, Fits, apply_of};
ghost use Rattle.ts_docs.specs.Reuse.{IsReusableIfAny};

use crate::version::VersionOf;
use spec_marked::marked_trees_are_sound;
use std::alloc::{AllocError, Global};
use ts_lexer::Content;
use ts_marks::{mark, settled_nodes_were_clear};
use ts_node::Node;
use ts_steps::states_are_named;
use ts_table::Table;
use ts_text::Edit;

/// So many bytes may be taken out of the text of a tree before the tree is dropped, and one more
/// for each `BYTES_A_LOST_ONE` of the text. What was taken out leaves nodes without bytes in the
/// tree, which each edit makes anew: past that number the whole text is parsed instead.
const FEW_LOST: u32 = 64;

const BYTES_A_LOST_ONE: u32 = 128;

/// What a version keeps for the next one.
#[derive(Drop)]
pub(crate) struct Reuse {
    /// The last tree of the document, with all edits since marked in it.
    pub(crate) marked: Option<Node>,
    /// How many bytes these edits took out.
    pub(crate) lost: u32,
}

impl Reuse {
    /// Nothing is kept.
    pub(crate) fn nothing() -> Reuse
        ensures { result.marked ≡ None }
    {
        Reuse {
            marked: None,
            lost: 0,
        }
    }
}

/// How many bytes an edit takes out.
fn taken_out(edit: &Edit) -> u32 {
    let mut sum: u32 = 0;
    for part in edit.parts.as_slice() {
        sum = sum.saturating_add(part.end.saturating_sub(part.start));
    }
    sum
}

/// Whether a tree is kept after so many bytes were taken out of a text of this size.
fn is_worth_marking(lost: u32, size: u32) -> bool {
    lost <= FEW_LOST.saturating_add(size / BYTES_A_LOST_ONE)
}

/// The tree that a version keeps, marked for an edit of its text.
fn marked_for<W: Content>(
    alloc: Global,
    table: &Table,
    base: &VersionOf<W>,
    edit: &Edit,
) -> Result<Option<Node>, AllocError>
    requires table { table.now ≡ base.now.table }
    requires in_range { InRange base.now.text edit.now }
    requires fits { Fits base.now.text edit.now }
    ensures { IfOk result (IsReusableIfAny table.now (apply_of base.now.text edit.now)) }
{
    marked_trees_are_sound();
    settled_nodes_were_clear();
    states_are_named();
    table.stands();
    base.text().stands();
    match base.marked() {
        Some(tree) => {
            let _ = tree.nodes();
            let marked = mark(alloc, tree, edit)?;
            Ok(Some(marked))
        }
        None => Ok(None),
    }
}

/// What a version keeps for the one after an edit of its text: its tree, marked for the edit,
/// unless the edits since took too much out of it.
pub(crate) fn reuse_for<W: Content>(
    alloc: Global,
    table: &Table,
    base: &VersionOf<W>,
    edit: &Edit,
) -> Result<Reuse, AllocError>
    requires table { table.now ≡ base.now.table }
    requires in_range { InRange base.now.text edit.now }
    requires fits { Fits base.now.text edit.now }
    ensures { IfOk result
        (λ kept. IsReusableIfAny table.now (apply_of base.now.text edit.now) kept.marked) }
{
    let lost = base.kept().lost.saturating_add(taken_out(edit));
    if !is_worth_marking(lost, base.text().len()) {
        return Ok(Reuse::nothing());
    }
    let marked = marked_for(alloc, table, base, edit)?;
    Ok(Reuse { marked, lost })
}

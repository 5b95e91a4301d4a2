//! Laws of marked trees: no value goes in or out, and what is said of definitions holds.
ghost use Rattle.std.specs.Prelude.{◌≡◌, ◌+◌, ◌<◌, ℕ, true, false, slice_get};
ghost use Rattle.ts_base.specs.Bytes.{Bytes};
ghost use Rattle.ts_text.specs.declared.edit.Edit.{Edit};
ghost use Rattle.ts_text.specs.Edit.{InRange, apply_of};
ghost use Rattle.spec_trees.specs.declared.tree.Tree.{Tree};
ghost use Rattle.spec_trees.specs.Trees.{is_settled, span_of};
ghost use Rattle.spec_reuse.specs.Places.{IsInTree, IsWhole};
ghost use Rattle.spec_reuse.specs.Changes.{is_met, moved, IsEditOver};
ghost use Rattle.spec_reuse.specs.Marked.{marked};
ghost use Rattle.ts_marks.specs.Kept.{WasClear};

/// A settled node of a marked tree was below the tree's root, at a place that the edit moves to its
/// new one, and no part of the edit meets what was examined for it.
pub fn settled_nodes_were_clear()
    ensures { (edit : Edit) (t u : Tree) (at : ℕ) → IsWhole t → IsEditOver (span_of t) edit
        → IsInTree (marked edit t) u at → is_settled u ≡ true → WasClear edit t u at }
{}

/// The bytes that no part of an edit meets stand in the new text, where the edit moves their place;
/// so does the end of the text, where it is among them.
pub fn clear_bytes_stay()
    ensures { (text : Bytes) (edit : Edit) (place extent k : ℕ) → InRange text edit
        → is_met edit.parts place extent ≡ false → k < extent
        → slice_get (apply_of text edit) (moved edit place + k) ≡ slice_get text (place + k) }
{}

//! Laws of marked trees, each a function without a body: what other crates may use of them.

ghost use Rattle.std.specs.Prelude.{◌≡◌, ℕ, ◌≤◌, true, false, List, length};
ghost use Rattle.ts_base.specs.Bytes.{Bytes};
ghost use Rattle.ts_core.specs.declared.flat.FlatGrammar.{FlatGrammar};
ghost use Rattle.ts_text.specs.declared.edit.Edit.{Edit};
ghost use Rattle.ts_text.specs.Edit.{InRange, apply_of, Fits};
ghost use Rattle.ts_text.specs.Text.{IsText};
ghost use Rattle.spec_trees.specs.declared.tree.Tree.{Tree};
ghost use Rattle.spec_trees.specs.Trees.{is_settled, node_extent, span_of};
ghost use Rattle.spec_reuse.specs.Places.{IsWhole};
ghost use Rattle.spec_reuse.specs.Changes.{is_met, moved, IsEditOver};
ghost use Rattle.spec_reuse.specs.Marked.{marked};
ghost use Rattle.spec_reuse.specs.Offered.{IsTopmost};
ghost use Rattle.spec_forced.specs.Sound.{States, StandsForState, StandsBehindForState, IsSound, IsHonest};
ghost use Rattle.spec_marked.specs.Edited.{EditsLeave};
ghost use Rattle.spec_marked.specs.Laws.{MarkedLaws};

use spec_forced::{elements_stand_behind, forced_nodes_stand, sound_trees_offer_honestly};
use ts_marks::{clear_bytes_stay, settled_nodes_were_clear};
use ts_text::edited_is_text;

/// The laws of other crates hold.
fn laws_hold()
    ensures { MarkedLaws }
{
    settled_nodes_were_clear();
    clear_bytes_stay();
    forced_nodes_stand();
    elements_stand_behind();
    sound_trees_offer_honestly();
    edited_is_text();
}

/// What an edit leaves of a tree is whole where the tree was: each node in it is one, as its type
/// says of itself.
pub fn marked_trees_are_whole()
    ensures { (edit : Edit) (tree : Tree) → IsWhole tree → IsEditOver (span_of tree) edit
        → IsWhole (marked edit tree) }
{
    laws_hold();
}

/// A tree that is sound for a text is sound for the edited text once it is marked for the edit, of
/// one part or of several. For a node that stands and was examined in bytes that no part of the
/// edit meets stands in the edited text, where the edit moves its place. A sound tree may be marked
/// for each edit of its text, and its root is then not settled.
pub fn marked_trees_are_sound()
    ensures may_be_marked { (g : FlatGrammar) (states : States) (text : Bytes) (edit : Edit)
        (tree : Tree)
        → IsText text → InRange text edit → Fits text edit → IsSound g states text tree
        → IsEditOver (span_of tree) edit }
    ensures moves { (g : FlatGrammar) (states : States) (text : Bytes) (edit : Edit)
        (place state : ℕ) (t : Tree)
        → InRange text edit → is_met edit.parts place (node_extent t) ≡ false
        → StandsForState g states text place state t
        → StandsForState g states (apply_of text edit) (moved edit place) state t }
    ensures sound { (g : FlatGrammar) (states : States) (text : Bytes) (edit : Edit) (tree : Tree)
        → IsText text → InRange text edit → Fits text edit → IsWhole tree
        → IsSound g states text tree
        → IsSound g states (apply_of text edit) (marked edit tree) }
    ensures unsettled { (edit : Edit) (tree : Tree) → is_settled (marked edit tree) ≡ false }
{
    laws_hold();
}

/// An element that stands behind a repetition and was examined in bytes that no part of an edit
/// meets stands behind one in the edited text, which ends where the edit moves its place.
pub fn elements_stay_behind()
    ensures { (g : FlatGrammar) (states : States) (text : Bytes) (edit : Edit)
        (place state symbol number : ℕ) (children : List Tree) (extent : ℕ)
        → InRange text edit → is_met edit.parts place extent ≡ false
        → StandsBehindForState g states text place state symbol number children extent
        → StandsBehindForState g states (apply_of text edit) (moved edit place) state symbol number
        children extent }
{
    laws_hold();
}

/// A sound tree that is marked for one edit after another, while no text between is parsed, is
/// sound for the text that they leave, and all that it offers is honest there. Its root is not
/// settled, unless there was no edit.
pub fn edited_trees_are_sound()
    ensures sound { (g : FlatGrammar) (states : States) (text after : Bytes) (tree left : Tree)
        → IsText text → IsWhole tree → EditsLeave text tree after left
        → IsSound g states text tree → IsSound g states after left }
    ensures offers { (g : FlatGrammar) (states : States) (text after : Bytes)
        (tree left t : Tree) (place state : ℕ)
        → IsText text → IsWhole tree → EditsLeave text tree after left
        → IsSound g states text tree → IsTopmost left place state t
        → IsHonest g states after place state t }
    ensures is_text { (text after : Bytes) (tree left : Tree)
        → IsText text → EditsLeave text tree after left → IsText after }
    ensures whole { (text after : Bytes) (tree left : Tree)
        → IsText text → IsWhole tree → span_of tree ≤ length text
        → EditsLeave text tree after left → IsWhole left }
    ensures settled { (text after : Bytes) (tree left : Tree) → EditsLeave text tree after left
        → is_settled left ≡ true → (left ≡ tree) × (after ≡ text) }
{
    laws_hold();
}

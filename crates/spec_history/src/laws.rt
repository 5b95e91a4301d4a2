//! Laws of lawful runs, for the proofs of the crates above. Each is a function that does nothing.
ghost use Rattle.std.specs.Prelude.{◌≡◌, ℕ, ◌≤◌, List as AnyList, Some, length, slice_get};
ghost use Rattle.ts_base.specs.Bytes.{Bytes};
ghost use Rattle.spec_trees.specs.declared.tree.Tree.{Tree as AnyTree};
ghost use Rattle.spec_trees.specs.VisibleNodes.{visible_nodes};
ghost use Rattle.spec_runs.specs.Outcomes.{tree_outcome, Fresh};
ghost use Rattle.ts_script.specs.declared.plan.ScriptStep.{ScriptStep as AnyStep};
ghost use Rattle.ts_replies.specs.declared.reply.Reply.{Reply as AnyReply};
ghost use Rattle.ts_replies.specs.declared.reply.ShownResult.{ShownResult as AnyResult};
ghost use Rattle.spec_history.specs.Replies.{document_of, version_of};
ghost use Rattle.spec_history.specs.Histories.{History, IsAnswered, held_before};
ghost use Rattle.spec_history.specs.Legal.{Legal};

use crate::finder::Finder;

/// In a lawful run no step leaves its client with an older version than it held.
pub fn held_never_falls<F: Finder>(_finder: &F)
    ensures { (h : History) (client number : ℕ) (s : AnyStep) (r : AnyReply)
        → Legal (F.finds _finder.now) h → IsAnswered h client number s r
        → held_before h client number (document_of s) ≤ version_of r }
{}

/// What queries find in a text is what each of them comes to in its tree, one after another.
pub fn found_one_by_one<F: Finder>(_finder: &F)
    ensures { (text : Bytes) (tree : AnyTree) (numbers : AnyList ℕ) (results : AnyList AnyResult)
        → Fresh (F.form _finder.now) text (tree_outcome tree) → length results ≡ length numbers
        → ((place number : ℕ) (result : AnyResult) → slice_get numbers place ≡ Some number
        → slice_get results place ≡ Some result
        → F.finds_one _finder.now text (visible_nodes (F.form _finder.now) tree) number result)
        → F.finds _finder.now text numbers results }
{}

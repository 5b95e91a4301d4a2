//! Queries as a run sees them: a text, its tree and the numbers of queries go in, and what each of
//! them finds comes out.
ghost use Rattle.std.specs.Prelude.{◌≡◌, ℕ, ◌<◌, List as AnyList, All, IfOk, Some, length, slice_get};
ghost use Rattle.ts_base.specs.Bytes.{Bytes};
ghost use Rattle.ts_core.specs.declared.flat.FlatGrammar.{FlatGrammar as AnyForm};
ghost use Rattle.spec_trees.specs.declared.tree.Tree.{Tree as AnyTree};
ghost use Rattle.spec_trees.specs.declared.visible.VisibleNode.{VisibleNode as AnyNode};
ghost use Rattle.spec_trees.specs.VisibleNodes.{visible_nodes};
ghost use Rattle.spec_runs.specs.Outcomes.{tree_outcome, Fresh};
ghost use Rattle.ts_replies.specs.declared.reply.ShownResult.{ShownResult as AnyResult};

use std::alloc::{AllocError, Global};
use ts_base::List;
use ts_core::FlatGrammar;
use ts_match::VisibleTree;
use ts_node::Node;
use ts_replies::ShownResult;
use ts_text::Text;

/// Queries that can be asked, by their numbers from 0.
pub trait Finder {
    /// The grammar of the trees in which they are asked.
    ghost form: { Self → AnyForm };

    /// How many queries there are.
    ghost count: { Self → ℕ };

    /// What queries of some numbers find in a text.
    ghost finds: { Self → Bytes → AnyList ℕ → AnyList AnyResult → Type 0 };

    /// What the query of a number comes to in a visible tree of a text.
    ghost finds_one: { Self → Bytes → AnyList AnyNode → ℕ → AnyResult → Type 0 };

    /// The grammar of the trees in which they are asked.
    fn grammar(&self) -> &FlatGrammar
        ensures { result.now ≡ form self.now };

    /// What queries of these numbers find in a text, in the tree that it comes to.
    ///
    /// # Errors
    ///
    /// `AllocError` where memory runs out.
    fn find(
        &self,
        alloc: Global,
        text: &Text,
        root: &Node,
        numbers: &[u32],
    ) -> Result<List<ShownResult>, AllocError>
        requires fresh { Fresh (form self.now) text.now (tree_outcome root.now) }
        requires there { All (λ (number : ℕ). number < count self.now) numbers.now }
        ensures { IfOk result (finds self.now text.now numbers.now) };

    /// What the query of this number comes to in a visible tree of the text.
    ///
    /// # Errors
    ///
    /// `AllocError` where memory runs out.
    fn find_one(
        &self,
        alloc: Global,
        text: &Text,
        tree: &VisibleTree,
        number: u32,
    ) -> Result<ShownResult, AllocError>
        requires there { number < count self.now }
        ensures { IfOk result (finds_one self.now text.now tree.now number) };

    /// What queries find in a text is what each of them comes to in its tree, one after another.
    ghost one_by_one: { (finder : Self) (text : Bytes) (tree : AnyTree) (numbers : AnyList ℕ)
        (results : AnyList AnyResult) → Fresh (form finder) text (tree_outcome tree)
        → length results ≡ length numbers
        → ((place number : ℕ) (result : AnyResult) → slice_get numbers place ≡ Some number
        → slice_get results place ≡ Some result
        → finds_one finder text (visible_nodes (form finder) tree) number result)
        → finds finder text numbers results };
}

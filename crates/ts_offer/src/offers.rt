//! Offers: a place and a state go in, and a node that may be taken over there comes out, or none;
//! or elements of a repetition of a symbol.
ghost use Rattle.std.specs.Prelude.{◌≡◌, ◌<◌, ◌≤◌, ℕ, max, length, Some, None, IfSome, option_copied};
ghost use Rattle.spec_trees.specs.declared.tree.Tree.{Tree};
ghost use Rattle.spec_trees.specs.declared.tree.Stretch.{Stretch};
ghost use Rattle.spec_trees.specs.Trees.{elements_of};
ghost use Rattle.ts_offer.specs.Answers.{IsOfferAt, IsParted, IsStretchAt, stretch_of};

use crate::elements::Elements;
use ts_core::Symbol;
use ts_node::Node;

/// What offers nodes of an old tree to a parser, which asks at places that do not fall, and
/// elements of its repetitions.
pub trait Offers<'t> {
    ghost use Rattle.std.specs.Prelude.{ℕ, Option};
    ghost use Rattle.spec_trees.specs.declared.tree.Tree.{Tree as Value};
    ghost use Rattle.spec_trees.specs.declared.tree.Stretch.{Stretch as Part};

    /// The least place that may still be asked for.
    ghost least: { Self → ℕ };

    /// The tree that the nodes are from, where it is told.
    ghost tree: { Self → Option Value };

    /// Which nodes it may answer at a place for a state.
    ghost gives: { Self → ℕ → ℕ → Value → Type 0 };

    /// Which elements it may answer at a place for a state and the symbol of a repetition.
    ghost lends: { Self → ℕ → ℕ → ℕ → Part → Type 0 };

    /// A node that begins at a place and has a state below it, and may be taken over there. Places
    /// are bytes from 0 in the text after the edits.
    fn at(&mut self, place: u32, state: u16) -> Option<&'t Node>
        requires { least self.old ≤ place }
        ensures least { least self.new ≤ place }
        ensures tree { tree self.new ≡ tree self.old }
        ensures gives { (t : Tree) → option_copied result ≡ Some t
            → gives self.old place state t }
        ensures same { (p s : ℕ) (t : Tree) → gives self.new p s t → gives self.old p s t }
        ensures lent { (p s y : ℕ) (e : Stretch) → lends self.new p s y e → lends self.old p s y e }
        ensures told { (t : Tree) → tree self.old ≡ Some t
            → IsOfferAt t place state (option_copied result) };

    /// Elements that begin at a place, behind a repetition of a symbol that has a state below it,
    /// and may be taken over there at once. A place may be asked for that lies before one that was
    /// asked for; no node may be asked for then that lies before that one. At other places all that
    /// there are are found, if the first of them and the element before it have bytes.
    fn elements_at(&mut self, place: u32, state: u16, symbol: Symbol) -> Option<Elements<'t>>
        ensures least { least self.new ≤ max (least self.old) place }
        ensures tree { tree self.new ≡ tree self.old }
        ensures cut { IfSome result
            (λ e. (e.from < e.to) × (e.to ≤ length (elements_of e.node.now))) }
        ensures lends { IfSome result (λ e. lends self.old place state symbol.0 (stretch_of e)) }
        ensures same { (p s : ℕ) (t : Tree) → gives self.new p s t → gives self.old p s t }
        ensures lent { (p s y : ℕ) (e : Stretch) → lends self.new p s y e → lends self.old p s y e }
        ensures told { (t : Tree) → tree self.old ≡ Some t
            → IfSome result (λ e. IsStretchAt t place state symbol.0 (stretch_of e)) }
        ensures none { least self.old ≤ place → (t : Tree) → tree self.old ≡ Some t → (s : Stretch)
            (w : IsStretchAt t place state symbol.0 s) → IsParted w.node w.from
            → result ≡ None → ⊥ };
}

/// Offers no node.
#[derive(Clone, Copy, Debug)]
pub struct Nothing;

impl<'t> Offers<'t> for Nothing {
    ghost use Rattle.std.specs.Prelude.{None};

    ghost least = { λ nothing. 0 };

    ghost tree = { λ nothing. None };

    ghost gives = { λ nothing place state node. ⊥ };

    ghost lends = { λ nothing place state symbol elements. ⊥ };

    fn at(&mut self, _place: u32, _state: u16) -> Option<&'t Node> {
        None
    }

    fn elements_at(&mut self, _place: u32, _state: u16, _symbol: Symbol) -> Option<Elements<'t>> {
        None
    }
}

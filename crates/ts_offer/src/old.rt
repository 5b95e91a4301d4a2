//! Offers from an old tree: a marked tree goes in, and its topmost fit nodes and settled elements
//! come out.
ghost use Rattle.std.specs.Prelude.{◌≡◌, ◌↔◌, ◌≤◌, ℕ, max, Some, None, IfOk, IfSome, IsTrue, option_copied};
ghost use Rattle.spec_trees.specs.declared.tree.Stretch.{Stretch};
ghost use Rattle.spec_trees.specs.declared.tree.Tree.{Tree};
ghost use Rattle.spec_trees.specs.Trees.{state_of, symbol_of};
ghost use Rattle.spec_reuse.specs.Offered.{IsFit};
ghost use Rattle.ts_offer.specs.Answers.{IsOfferAt, IsParted, IsSettledRun, IsStretchAt, offering, stretch_of};
ghost use Rattle.ts_offer.specs.Ways.{HasRunAt, LeadsTo, StandsIn};

use crate::elements::{Elements, elements_at};
use crate::offers::Offers;
use crate::topmost::{is_fit, topmost};
use crate::way::{Ahead, Turn, Way};
use std::alloc::{AllocError, Global};
use std::marker::Model;
use ts_core::Symbol;
use ts_node::Node;

/// Offers from a tree that edits have marked, which contracts see as that `Offering`.
///
/// It keeps its way down the tree, so that all calls together pass each node before their places
/// once at most; each call also looks through the nodes that begin at its place, down to the
/// topmost fit one. A call takes no memory.
#[derive(Drop)]
pub struct Old<'t> {
    way: Way<'t>,
    least: u32,
}

impl<'t> Model for Old<'t> {
    ghost use Rattle.std.specs.Coded.{codes};
    ghost use Rattle.ts_offer.specs.declared.offering.Offering.{Offering};
    ghost use Rattle.ts_offer.specs.contracts.offering.Offering as contract;
    ghost use Rattle.ts_offer.specs.Answers.{offering};
    ghost use Rattle.ts_offer.specs.Ways.{IsWay};

    ghost Value = { Offering };

    ghost coded = { Prim.hlevel (codes, contract.the_row.coded) };

    ghost view = { λ a. offering a.way.root.now a.least };

    ghost invariant = { λ a. IsWay a.way a.least };
}

impl<'t> Old<'t> {
    /// Offers from the start of a tree on.
    ///
    /// # Errors
    ///
    /// `AllocError` where memory runs out.
    pub fn new(alloc: Global, marked: &'t Node) -> Result<Old<'t>, AllocError>
        ensures { IfOk result (λ old. old ≡ offering marked.now 0) }
    {
        let way = Way::new(alloc, marked)?;
        Ok(Old { way, least: 0 })
    }

    /// The topmost fit node at a place for a state.
    #[tactic(auto, using(crate::proofs::WayLemmas::later_way))]
    fn answer(&mut self, place: u32, state: u16) -> Option<&'t Node>
        requires { self.old.least ≤ place }
        ensures answer { IsOfferAt self.old.tree place state (option_copied result) }
        ensures new { self.new ≡ offering self.old.tree place }
    {
        self.least = place;
        let ahead = self.way.go_to(place);
        topmost_at(self.way.root, ahead, place, state)
    }

    /// The settled elements from a place on of the node in which the way stands, where that is a
    /// repetition of the symbol with the state below it.
    fn elements(&mut self, place: u32, state: u16, symbol: Symbol) -> Option<Elements<'t>>
        ensures found { IfSome result
            (λ e. IsStretchAt self.old.tree place state symbol.0 (stretch_of e)) }
        ensures run { IfSome result (λ e. IsSettledRun e.node.now e.from e.to) }
        ensures none { self.old.least ≤ place → (s : Stretch)
            (w : IsStretchAt self.old.tree place state symbol.0 s) → IsParted w.node w.from
            → result ≡ None → ⊥ }
        ensures new { self.new ≡ offering self.old.tree (max self.old.least place) }
    {
        self.least = self.least.max(place);
        let _ = self.way.go_to(self.least);
        match self.way.innermost() {
            Some(turn) => elements_in(turn, place, state, symbol),
            None => None,
        }
    }
}

/// The settled elements of a turn's node from a place on, where that is a repetition of the symbol
/// with the state below it.
#[tactic(auto, using(crate::proofs::RunLemmas::stretch_found, crate::proofs::RunLemmas::run_found))]
fn elements_in<'t>(turn: Turn<'t>, place: u32, state: u16, symbol: Symbol) -> Option<Elements<'t>>
    ensures found { (root : Tree) → StandsIn root turn.entry
        → IfSome result (λ e. IsStretchAt root place state symbol.0 (stretch_of e)) }
    ensures run { IfSome result (λ e. IsSettledRun e.node.now e.from e.to) }
    ensures none { (at from : ℕ) → turn.entry.begins ≡ Some at
        → symbol_of turn.entry.node.now ≡ symbol.0 → state_of turn.entry.node.now ≡ Some state
        → HasRunAt turn.entry.node.now at place from → result ≡ None → ⊥ }
{
    match turn.begins {
        Some(at) => {
            if is_repetition_for(turn.node, state, symbol) {
                elements_at(turn.node, at, place)
            } else {
                None
            }
        }
        None => None,
    }
}

/// Whether a node has this symbol, and this state below it.
fn is_repetition_for(node: &Node, state: u16, symbol: Symbol) -> bool
    ensures { IsTrue result
        ↔ (symbol_of node.now ≡ symbol.0) × (state_of node.now ≡ Some state) }
{
    node.symbol() == symbol && node.state() == Some(state)
}

/// Whether the root itself is a fit node at a place.
fn takes_root(root: &Node, place: u32, state: u16) -> bool
    ensures { IsTrue result ↔ (place ≡ 0) × IsFit state root.now }
{
    place == 0 && is_fit(root, state)
}

/// The topmost fit node of a tree at a place, where the next node ahead is known.
fn topmost_at<'t>(
    root: &'t Node,
    ahead: Option<Ahead<'t>>,
    place: u32,
    state: u16,
) -> Option<&'t Node>
    requires next { LeadsTo root.now place ahead }
    ensures { IsOfferAt root.now place state (option_copied result) }
{
    if takes_root(root, place, state) {
        let _ = root.nodes();
        return Some(root);
    }
    match ahead {
        Some(ahead) => {
            if ahead.place == place {
                topmost(ahead.node, state)
            } else {
                None
            }
        }
        None => None,
    }
}

impl<'t> Offers<'t> for Old<'t> {
    ghost use Rattle.std.specs.Prelude.{Some};
    ghost use Rattle.spec_reuse.specs.Offered.{IsTopmost};
    ghost use Rattle.ts_offer.specs.Answers.{IsStretchAt};

    ghost least = { λ old. old.least };

    ghost tree = { λ old. Some old.tree };

    ghost gives = { λ old place state node. IsTopmost old.tree place state node };

    ghost lends = { λ old place state symbol elements.
        IsStretchAt old.tree place state symbol elements };

    #[tactic(auto, using(crate::proofs::TopLemmas::given, crate::proofs::TopLemmas::told))]
    fn at(&mut self, place: u32, state: u16) -> Option<&'t Node> {
        self.answer(place, state)
    }

    #[tactic(auto, using(crate::proofs::RunLemmas::told_elements, crate::proofs::RunLemmas::cut_of))]
    fn elements_at(&mut self, place: u32, state: u16, symbol: Symbol) -> Option<Elements<'t>> {
        self.elements(place, state, symbol)
    }
}

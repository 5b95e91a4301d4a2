//! One node, offered everywhere: a place and a state go in, and the node comes out.
ghost use Rattle.std.specs.Prelude.{◌≡◌};

use ts_core::Symbol;
use ts_node::Node;
use ts_offer::{Elements, Offers};

/// Offers one node at every place for every state, whatever the text has there, and no elements.
#[derive(Drop)]
pub struct Anywhere<'t> {
    node: &'t Node,
    offered: u32,
}

impl<'t> Anywhere<'t> {
    /// Offers of this node.
    pub fn new(node: &'t Node) -> Anywhere<'t>
        ensures { result.node.now ≡ node.now }
    {
        Anywhere { node, offered: 0 }
    }

    /// How many times it was offered.
    pub fn offered(&self) -> u32 {
        self.offered
    }
}

impl<'t> Offers<'t> for Anywhere<'t> {
    ghost use Rattle.std.specs.Prelude.{◌≡◌, None};

    ghost least = { λ anywhere. 0 };

    ghost tree = { λ anywhere. None };

    ghost gives = { λ anywhere place state node. node ≡ anywhere.node.now };

    ghost lends = { λ anywhere place state symbol elements. ⊥ };

    #[tactic(auto, using(crate::proofs::OfferLemmas::given))]
    fn at(&mut self, _place: u32, _state: u16) -> Option<&'t Node> {
        self.offered = self.offered.saturating_add(1);
        Some(self.node)
    }

    fn elements_at(&mut self, _place: u32, _state: u16, _symbol: Symbol) -> Option<Elements<'t>> {
        None
    }
}

//! What a node is from outside: a node goes in, and whether it is a leaf, a node of a production or
//! a repetition comes out.
ghost use Rattle.ts_node.specs.Kinds.{IsOfKind};

use crate::node::{Kind, Node};

/// What a node is.
#[derive(Clone, Copy)]
pub enum NodeKind {
    /// A token's node. It has no children.
    Leaf,
    /// A node of the production of this number, which is no repetition's. The accepted root is one
    /// too, and has the extras before and after it among its children.
    Rule(u32),
    /// A repetition. Each of its elements, from `element(0)` on, says how many of the node's
    /// children are its own, one element's after another's.
    Repetition,
}

impl Node {
    /// What it is.
    #[tactic(auto, using(crate::proofs::BodyLemmas::leaf_production, crate::proofs::BodyLemmas::leaf_children, crate::proofs::BodyLemmas::leaf_elements, crate::proofs::BodyLemmas::no_elements))]
    pub fn kind(&self) -> NodeKind
        ensures { IsOfKind result self.now }
    {
        match &self.kind {
            Kind::Leaf(_) => NodeKind::Leaf,
            Kind::Rule(rule) => {
                let _ = rule.children();
                let _ = rule.summary();
                NodeKind::Rule(rule.production())
            }
            Kind::Repetition(repetition) => {
                let _ = repetition.get().summary();
                let _ = repetition.get().run().get().counts();
                NodeKind::Repetition
            }
            Kind::Single(single) => {
                let _ = single.summary();
                let _ = single.lists();
                NodeKind::Repetition
            }
        }
    }
}

//! Nodes of parse trees: tokens, productions and children go in, nodes come out that share their
//! parts. A leaf lies in its parent's list and takes no memory of its own.
#![tactic(auto)]

mod change;
mod counts;
mod cut;
mod fills;
mod in_place;
mod kind;
mod laws;
mod make;
mod node;
mod outline;
mod places;
mod productions;
mod rule;
mod run;
mod section;
mod settled;
mod short;
mod single;
mod sums;
mod unit;

pub use change::remake;
pub use kind::NodeKind;
pub use laws::{
    accepted_is_node, leaves_spell_the_text, lengthened_in_turn, lengthened_is_node,
    made_nodes_are_gapless, made_nodes_are_in_form, made_nodes_are_settled, reduced_by_a_rule,
    reduced_is_node, reduced_is_node_of_its_depth, remade_is_node, sections_stand,
};
pub use make::{accept, reduce};
pub use node::Node;
pub use outline::Outline;
pub use productions::Productions;
pub use section::{Section, lengthen};
pub use unit::reduce_one;

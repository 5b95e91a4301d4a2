//! The visible tree of a parse tree: a grammar and a root go in, and a cursor over the nodes that
//! show, or all of them as they are printed, come out.
#![tactic(auto)]

mod cursor;
mod face;
mod laws;
mod links;
mod moves;
mod nodes;
mod printed;
mod seen;
mod steps;

pub use cursor::Cursor;
pub use laws::{
    made_nodes_stand_over, nodes_have_parents, nodes_lie_in_parents, starts_rise_in_preorder,
};
pub use printed::shown;

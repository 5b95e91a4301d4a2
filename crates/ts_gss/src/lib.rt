//! The stacks of a parser that lives in several readings at once: nodes go in, each on a stack that
//! is there; out come the states and nodes on top of a stack, and the nodes of a reduction. Stacks
//! share their lower parts.
#![tactic(auto)]

mod graph;
mod layer;
mod path;
#[cfg(test)]
mod tests;

pub use graph::Graph;
pub use layer::Layer;
pub use path::{Lifted, Taken, turn};

//! The stacks of a parser as one graph, in which each link stands once: heads, and
//! trees between heads, go in; out come the links that lead down from a head, the ways down that a
//! reduction takes, and where they end.
#![tactic(auto)]

mod graph;
mod latest;
mod links;
#[cfg(test)]
mod tests;
mod view;
mod ways;

pub use graph::Graph;
pub use links::Edge;
pub use view::GraphView;
pub use ways::Way;

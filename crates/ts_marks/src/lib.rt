//! What an edit leaves of a tree: a tree and an edit go in, and the tree with all that the edit
//! reached marked as unsettled comes out. It shares all other nodes.
#![tactic(auto)]

mod laws;
mod marking;
mod passed;
mod spans;
#[cfg(test)]
mod tests;

pub use laws::{clear_bytes_stay, settled_nodes_were_clear};
pub use marking::mark;

//! The order of parse trees: two nodes go in, and which is chosen first comes out.
#![tactic(auto)]

mod order;

pub use order::better;

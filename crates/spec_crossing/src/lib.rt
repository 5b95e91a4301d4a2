//! When one stack is left in a graph of stacks, a parser may go on on it alone: definitions with
//! their laws alone. No value goes in or out.
#![tactic(auto)]

mod laws;

pub use laws::{
    bare_trees_are_made, extras_are_flat, followed_graphs_pack, followed_graphs_tell,
    links_are_made, runs_go_through, stacks_are_laid, trees_are_spelled, unused_symbols_end,
    ways_are_read,
};

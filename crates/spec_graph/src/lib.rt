//! Stacks of a parser as one graph: a head for each state at a place, and links between heads, each
//! with the best of the trees that it stands for. Definitions with their laws alone: no value goes
//! in or out.
#![tactic(auto)]

mod graph;
mod laws;

pub use graph::{Head, Link};
pub use laws::{
    extras_are_passed, graphs_are_sound, graphs_tell_the_outcome, keys_follow, keys_pass,
    links_pack, new_heads_have_little, parts_come_first, reductions_are_due, reductions_are_laid,
    runs_lay, stacks_are_grounded, tokens_are_seen_again, trees_replace, whole_graphs_have_all,
    whole_to_the_next,
};

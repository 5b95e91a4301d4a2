//! Runs of a parser over plain stacks, and the fresh outcome of a text: definitions with their laws
//! alone. No value goes in or out.
#![tactic(auto)]

mod laws;

pub use laws::{
    bare_trees, empty_rules_are_unused, moves_have_their_place, one_outcome, one_reduction,
    one_sight, repetitions_repeat, start_is_no_repetition,
};

//! Trees of texts that were edited, and what a parser may still take over from them: a definition
//! with its laws alone. No value goes in or out.
#![tactic(auto)]

mod laws;

pub use laws::{
    edited_trees_are_sound, elements_stay_behind, marked_trees_are_sound, marked_trees_are_whole,
};

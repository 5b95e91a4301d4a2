//! When one reading of a text may be dropped, since another stands for it: definitions with their
//! laws alone. No value goes in or out.
#![tactic(auto)]

mod laws;

pub use laws::{
    configurations_serve, configurations_step, ends_are_served, no_better_through,
    one_packed_reduction, packed_stacks_end, packed_stacks_follow, packed_stacks_join,
    readings_stand_alone, runs_are_served, trees_serve,
};

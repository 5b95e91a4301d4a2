//! Forced runs, on which a parser makes no choice, the nodes that stand since such a run makes
//! them, and trees that are sound for a text: definitions with their laws alone. No value goes in
//! or out.
#![tactic(auto)]

mod elements;
mod laws;

pub use elements::{
    elements_stand_behind, honest_stretches_lengthen, lengthened_whole, longer_repetitions_stand,
    reductions_append_elements, sound_trees_offer_stretches,
};
pub use laws::{
    extras_are_passed, extras_stay, forced_nodes_stand, forced_runs_are_only, items_decide,
    leaps_change_nothing, leaves_stand, lexings_are_decided, nodes_stand, offers_change_nothing,
    one_move_is_one_step, only_runs_are_one_way, only_runs_meet, pushed_whole,
    sound_trees_offer_honestly, stacks_stay_sound, states_tell,
};

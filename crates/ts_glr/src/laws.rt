//! The laws of other crates that the proofs here rest on. No value goes in or out.
ghost use Rattle.ts_steps.specs.MoveLaws.{Laws};
ghost use Rattle.ts_glr.specs.Laws.{PackingLaws};
ghost use Rattle.ts_glr.specs.CrossLaws.{LeftLaws, OverLaws};

use spec_crossing::{followed_graphs_pack, followed_graphs_tell};
use spec_graph::graphs_are_sound;
use spec_lexing::{beginnings, token_within};
use spec_packing::{no_better_through, packed_stacks_end, packed_stacks_follow};
use spec_runs::{
    bare_trees, empty_rules_are_unused, moves_have_their_place, one_reduction, one_sight,
    repetitions_repeat, start_is_no_repetition,
};
use ts_crossing::left_stacks_go_on;
use ts_places::{ends_account, roots_are_own};
use ts_steps::steps_fall;

/// All laws hold.
pub(crate) fn laws_hold()
    ensures { Laws }
{
    bare_trees();
    empty_rules_are_unused();
    moves_have_their_place();
    one_reduction();
    one_sight();
    repetitions_repeat();
    start_is_no_repetition();
    beginnings();
    token_within();
}

/// All laws of readings that stand for others hold.
pub(crate) fn packing_laws_hold()
    ensures { PackingLaws }
{
    no_better_through();
    packed_stacks_follow();
    packed_stacks_end();
}

/// The laws of a stack that is left in a graph hold.
pub(crate) fn left_laws_hold()
    ensures { LeftLaws }
{
    bare_trees();
    left_stacks_go_on();
}

/// The laws of what ended in a graph hold.
pub(crate) fn over_laws_hold()
    ensures { OverLaws }
{
    graphs_are_sound();
    followed_graphs_pack();
    followed_graphs_tell();
    steps_fall();
    ends_account();
    roots_are_own();
}

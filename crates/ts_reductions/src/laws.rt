//! The laws of other crates that the proofs of reductions rest on. No value goes in or out.
ghost use Rattle.ts_steps.specs.MoveLaws.{Laws};
ghost use Rattle.ts_reductions.specs.Laws.{ReductionLaws, NodeLaws};

use spec_graph::{
    extras_are_passed, new_heads_have_little, reductions_are_due, reductions_are_laid, runs_lay,
    tokens_are_seen_again, trees_replace,
};
use spec_lexing::{beginnings, token_within};
use spec_runs::{
    bare_trees, empty_rules_are_unused, moves_have_their_place, one_reduction, one_sight,
    repetitions_repeat, start_is_no_repetition,
};
use ts_node::{made_nodes_are_in_form, made_nodes_are_settled, reduced_is_node_of_its_depth};

/// The laws of what is laid hold.
pub(crate) fn laws_hold()
    ensures { ReductionLaws }
{
    bare_trees();
    moves_have_their_place();
    repetitions_repeat();
    trees_replace();
    runs_lay();
    extras_are_passed();
    tokens_are_seen_again();
    reductions_are_due();
    reductions_are_laid();
    new_heads_have_little();
}

/// The laws of the node that a reduction makes hold.
pub(crate) fn node_laws_hold()
    ensures { NodeLaws }
{
    reduced_is_node_of_its_depth();
    made_nodes_are_settled();
    made_nodes_are_in_form();
}

/// The laws of trees that a parser made hold.
pub(crate) fn own_laws_hold()
    ensures { Laws }
{
    bare_trees();
    empty_rules_are_unused();
    moves_have_their_place();
    one_reduction();
    one_sight();
    repetitions_repeat();
    start_is_no_repetition();
    beginnings();
    token_within();
}

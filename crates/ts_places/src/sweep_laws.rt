//! The laws of other crates that the proofs of all reductions of a place rest on. No value goes in
//! or out.
ghost use Rattle.ts_reductions.specs.LayingLaws.{LayingLaws};
ghost use Rattle.ts_reductions.specs.Laws.{ReductionLaws, NodeLaws};
ghost use Rattle.ts_places.specs.ShiftLaws.{LookLaws, LeafLaws};
ghost use Rattle.ts_places.specs.SweepLaws.{KeyLaws};

use spec_graph::{
    extras_are_passed, keys_follow, keys_pass, links_pack, new_heads_have_little,
    reductions_are_due, reductions_are_laid, runs_lay, stacks_are_grounded, tokens_are_seen_again,
    trees_replace, whole_to_the_next,
};
use spec_lexing::{beginnings, one_answer, token_within};
use spec_runs::{bare_trees, moves_have_their_place, repetitions_repeat};
use ts_lexer::same_tokens;
use ts_node::{made_nodes_are_in_form, made_nodes_are_settled, reduced_is_node_of_its_depth};
use ts_steps::tokens_are_known;

/// The laws of reductions that are due hold.
pub(crate) fn reduction_laws_hold()
    ensures due { ReductionLaws }
    ensures nodes { NodeLaws }
{
    bare_trees();
    moves_have_their_place();
    repetitions_repeat();
    trees_replace();
    runs_lay();
    extras_are_passed();
    tokens_are_seen_again();
    reductions_are_due();
    reductions_are_laid();
    new_heads_have_little();
    reduced_is_node_of_its_depth();
    made_nodes_are_settled();
    made_nodes_are_in_form();
}

/// The laws of graphs that grow, and of what heads see, hold.
pub(crate) fn graph_laws_hold()
    ensures laying { LayingLaws }
    ensures leaves { LeafLaws }
    ensures look { LookLaws }
{
    bare_trees();
    trees_replace();
    links_pack();
    runs_lay();
    extras_are_passed();
    stacks_are_grounded();
    moves_have_their_place();
    tokens_are_known();
    one_answer();
    same_tokens();
    token_within();
    beginnings();
}

/// The laws of keys hold.
pub(crate) fn key_laws_hold()
    ensures { KeyLaws }
{
    whole_to_the_next();
    keys_pass();
    keys_follow();
    moves_have_their_place();
}

//! The laws that the moves rest on. No value goes in or out.
ghost use Rattle.std.specs.Prelude.{◌≡◌, ◌<◌, ◌≤◌, ℕ, List, length};
ghost use Rattle.ts_base.specs.Bytes.{Bytes};
ghost use Rattle.ts_core.specs.declared.flat.FlatGrammar.{FlatGrammar};
ghost use Rattle.ts_core.specs.declared.symbol.Symbol.{Symbol as AnySymbol};
ghost use Rattle.spec_tables.specs.Fit.{Fit};
ghost use Rattle.spec_runs.specs.Configurations.{Configuration, AreValidTokens};
ghost use Rattle.spec_runs.specs.Runs.{StepsOn};
ghost use Rattle.spec_forced.specs.Sound.{States, IsStateAfter};
ghost use Rattle.ts_table.specs.declared.view.ParseTable.{ParseTable};
ghost use Rattle.ts_table.specs.Tables.{IsTable, IsStateOf};
ghost use Rattle.ts_lexer.specs.States.{AreValid};
ghost use Rattle.ts_steps.specs.MoveLaws.{Laws};
ghost use Rattle.ts_steps.specs.Laws.{LengthLaws, OnlyLaws, PackLaws, SoundLaws};
ghost use Rattle.ts_steps.specs.Heads.{AreStatesOf};
ghost use Rattle.ts_steps.specs.Weights.{config_weight};

use spec_forced::{
    honest_stretches_lengthen, leaves_stand, lexings_are_decided, one_move_is_one_step,
    stacks_stay_sound, states_tell,
};
use spec_lexing::{beginnings, fewer_tokens, one_answer, token_within};
use spec_packing::{
    ends_are_served, no_better_through, one_packed_reduction, packed_stacks_end,
    packed_stacks_follow, readings_stand_alone, runs_are_served,
};
use spec_reuse::{no_new_tokens, some_move_stays};
use spec_runs::{
    bare_trees, empty_rules_are_unused, moves_have_their_place, one_reduction, one_sight,
    repetitions_repeat, start_is_no_repetition,
};
use ts_lexer::tokens_of_states;
use ts_node::lengthened_is_node;
use ts_table::unit_ranks;

/// The laws of moves hold.
pub(crate) fn laws_hold()
    ensures { Laws }
{
    bare_trees();
    empty_rules_are_unused();
    moves_have_their_place();
    one_reduction();
    one_sight();
    repetitions_repeat();
    start_is_no_repetition();
    beginnings();
    token_within();
}

/// The laws of steps that are the only ones hold.
pub(crate) fn only_laws_hold()
    ensures { OnlyLaws }
{
    one_move_is_one_step();
}

/// The laws of a repetition that is lengthened at once hold.
pub(crate) fn length_laws_hold()
    ensures { LengthLaws }
{
    honest_stretches_lengthen();
    lengthened_is_node();
}

/// The laws of readings for which layers stand hold.
pub(crate) fn pack_laws_hold()
    ensures { PackLaws }
{
    no_better_through();
    ends_are_served();
    runs_are_served();
    packed_stacks_follow();
    packed_stacks_end();
    one_packed_reduction();
    readings_stand_alone();
}

/// The laws of nodes that stand hold.
pub(crate) fn sound_laws_hold()
    ensures { SoundLaws }
{
    leaves_stand();
    lexings_are_decided();
    stacks_stay_sound();
    states_tell();
    tokens_of_states();
}

/// The states of a table can be named by lists of symbols that lead to them. And whichever lists
/// these are, a state has just the items that are valid after all symbols that lead to it.
pub fn states_are_named()
    ensures names { (t : ParseTable) → IsTable t → (states : States) × AreStatesOf t states }
    ensures after { (t : ParseTable) (states : States) (read : List ℕ) (state : ℕ) → IsTable t
        → AreStatesOf t states → IsStateOf t read state → IsStateAfter t.grammar states state read }
{}

/// Each step makes a configuration lighter.
pub fn steps_fall()
    ensures { (g : FlatGrammar) → Fit g → (text : Bytes) (c e : Configuration)
        → c.place ≤ length text → StepsOn g text c e
        → config_weight g (length text) e < config_weight g (length text) c }
{
    laws_hold();
    unit_ranks();
}

/// The valid tokens of a state are those that are valid after all symbols that lead to it.
pub fn tokens_are_known()
    ensures { (t : ParseTable) (read : List ℕ) (state : ℕ) (valid : List AnySymbol) → IsTable t
        → IsStateOf t read state → AreValid t state valid → AreValidTokens t.grammar read valid }
{
    laws_hold();
}

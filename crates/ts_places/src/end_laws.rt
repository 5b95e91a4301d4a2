//! The laws that the proofs of what ends rest on, and laws of what ended, each a function without a
//! body. No value goes in or out.
ghost use Rattle.std.specs.Prelude.{◌≡◌, ℕ, ◌<◌, ◌≤◌, ◌⊎◌, List, length, Option, Some, None, []};
ghost use Rattle.ts_base.specs.Bytes.{Bytes};
ghost use Rattle.spec_runs.specs.BareTrees.{KeepsAll};
ghost use Rattle.spec_trees.specs.declared.tree.Tree.{Tree};
ghost use Rattle.spec_trees.specs.Trees.{state_of, children_of, bare};
ghost use Rattle.spec_forced.specs.Sound.{States, IsSound};
ghost use Rattle.spec_graph.specs.Outcomes.{IsBestOfGraph, IsLastOfGraph};
ghost use Rattle.spec_crossing.specs.Resting.{AccountsForGraph};
ghost use Rattle.ts_graph.specs.declared.view.GraphView.{GraphView};
ghost use Rattle.ts_graph.specs.Down.{KeepNumbers};
ghost use Rattle.ts_table.specs.declared.view.ParseTable.{ParseTable};
ghost use Rattle.ts_table.specs.Tables.{IsTable};
ghost use Rattle.ts_reductions.specs.SoundLinks.{bare_links};
ghost use Rattle.ts_steps.specs.Good.{EachTree};
ghost use Rattle.ts_steps.specs.Heads.{AreStatesOf, IsOwnWithin};
ghost use Rattle.ts_reductions.specs.Sound.{Base as AnyBase, parsing_from, parsing_of, IsSoundBy};
ghost use Rattle.ts_reductions.specs.Keeping.{AreOwn, StandOnGraph};
ghost use Rattle.ts_places.specs.Looking.{IsHeadAt};
ghost use Rattle.ts_places.specs.declared.ends.Ends.{Ends as AnyEnds};
ghost use Rattle.ts_places.specs.EndLaws.{EndLaws, RootLaws};
ghost use Rattle.ts_places.specs.Choosing.{IsPastStuck};
ghost use Rattle.ts_places.specs.Ends.{Accepts, AreEnds, AreLater};
ghost use Rattle.ts_places.specs.Best.{IsRootOn, IsBestOn};

use crate::shift_laws::passed_heads_go_on;
use spec_crossing::ways_are_read;
use spec_forced::{stacks_stay_sound, states_tell};
use spec_lexing::{fewer_tokens, one_answer, token_within};
use spec_reuse::{no_new_tokens, some_move_stays};
use spec_runs::{
    bare_trees, empty_rules_are_unused, moves_have_their_place, repetitions_repeat,
    start_is_no_repetition,
};
use ts_node::{accepted_is_node, made_nodes_are_in_form};
use ts_steps::states_are_named;

/// The laws of graphs, and of accepted roots, hold.
pub(crate) fn end_laws_hold()
    ensures { EndLaws }
{
    bare_trees();
    empty_rules_are_unused();
    moves_have_their_place();
    repetitions_repeat();
    start_is_no_repetition();
    fewer_tokens();
    one_answer();
    token_within();
    no_new_tokens();
    some_move_stays();
    accepted_is_node();
    made_nodes_are_in_form();
}

/// The laws of roots that are sound hold.
fn root_laws_hold()
    ensures { RootLaws }
{
    bare_trees();
    moves_have_their_place();
    ways_are_read();
    states_are_named();
    states_tell();
    stacks_stay_sound();
}

/// Bare trees keep all that counts.
pub(crate) fn tree_laws_hold()
    ensures { (t : Tree) → KeepsAll t }
{
    bare_trees();
}

/// Nothing ended before the place from which the ends are kept.
pub fn ends_begin()
    ensures { (t : ParseTable) (text : Bytes) (g : GraphView) (from : ℕ) (ends : AnyEnds)
        → ends.accepting.items ≡ [] → ends.stuck ≡ None → AreEnds t text g from from ends }
{}

/// What ended at earlier places stays so, and nothing more ends there, where a graph grows by heads
/// at later places, and by heads at which an extra is passed; and where no head stands from one
/// place on up to a later one, nothing ends there.
pub fn ends_stay()
    ensures grows { (t : ParseTable) (text : Bytes) (old new : GraphView) (from to : ℕ)
        (ends : AnyEnds) (base : AnyBase) → IsSoundBy t text base new
        → KeepNumbers old.heads new.heads → AreLater t text base old new to
        → AreEnds t text old from to ends
        → AreEnds t text new from to ends }
    ensures passes { (t : ParseTable) (text : Bytes) (g : GraphView) (from to next : ℕ)
        (ends : AnyEnds)
        → ((place h : ℕ) → to ≤ place → place < next → IsHeadAt g place h → ⊥) → to ≤ next
        → AreEnds t text g from to ends → AreEnds t text g from next ends }
{
    passed_heads_go_on();
}

/// Where all heads stand before the place up to which the ends are known, the best tree at the
/// heads that accept is the best of the graph; and where there is none, the greatest place at which
/// a head stops is the last of the graph.
pub fn ends_tell_the_outcome()
    ensures best { (t : ParseTable) (text : Bytes) (g : GraphView) (to : ℕ) (ends : AnyEnds)
        (best : Option Tree)
        → ((place h : ℕ) → to ≤ place → IsHeadAt g place h → ⊥) → AreEnds t text g 0 to ends
        → IsBestOn t text g ends.accepting.items best → (b : Tree) → best ≡ Some b
        → IsBestOfGraph (parsing_of t text) g.heads (bare_links g.links) (bare b) }
    ensures last { (t : ParseTable) (text : Bytes) (g : GraphView) (to : ℕ) (ends : AnyEnds)
        (best : Option Tree)
        → ((place h : ℕ) → to ≤ place → IsHeadAt g place h → ⊥) → AreEnds t text g 0 to ends
        → IsBestOn t text g ends.accepting.items best → best ≡ None
        → (stop : ℕ) → ends.stuck ≡ Some stop
        → IsLastOfGraph (parsing_of t text) g.heads (bare_links g.links) stop }
{}

/// Where runs go on from a stack, what ended from the place on where that ends accounts for the ends
/// in the graph, with the best tree, and with a greatest place that is one of those before or of
/// these. Where no head accepts there is no tree.
pub fn ends_account()
    ensures counted { (t : ParseTable) (text : Bytes) (base : AnyBase) (g : GraphView) (to : ℕ)
        (ends : AnyEnds) (best : Option Tree) (before after : Option ℕ)
        → AreEnds t text g base.place to ends → IsBestOn t text g ends.accepting.items best
        → ((q : ℕ) → IsPastStuck before q → IsPastStuck after q)
        → ((q : ℕ) → IsPastStuck ends.stuck q → IsPastStuck after q)
        → ((q : ℕ) → after ≡ Some q → (before ≡ Some q) ⊎ (ends.stuck ≡ Some q))
        → AccountsForGraph (parsing_from t text base) g.heads (bare_links g.links) to best
        before after }
    ensures none { (t : ParseTable) (text : Bytes) (g : GraphView) (heads : List ℕ)
        → heads ≡ [] → IsBestOn t text g heads None }
{}

/// The root on a way from a head that accepts has no state; and its children are a parser's own,
/// where the trees of the graph are. If these stand besides, the root is sound.
pub fn roots_are_own()
    ensures own { (t : ParseTable) (text : Bytes) (base : AnyBase) (g : GraphView) (h : ℕ)
        (b : Tree)
        → IsSoundBy t text base g → Accepts (parsing_of t text) g.heads h
        → IsRootOn g (length text) h b → AreOwn t.grammar g
        → EachTree (IsOwnWithin t.grammar) (children_of b) × (state_of b ≡ None) }
    ensures sound { (t : ParseTable) (text : Bytes) (base : AnyBase) (g : GraphView) (h : ℕ)
        (b : Tree)
        → IsSoundBy t text base g → Accepts (parsing_of t text) g.heads h
        → IsRootOn g (length text) h b → IsTable t
        → (states : States) → AreStatesOf t states → AreOwn t.grammar g
        → StandOnGraph t.grammar states text base g → IsSound t.grammar states text b }
{
    root_laws_hold();
}

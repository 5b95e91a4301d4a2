//! The laws of other crates that the proofs here rest on, and what a parser may use of a stack that
//! is left. No value goes in or out.
ghost use Rattle.std.specs.Prelude.{ℕ, ◌<◌, ◌≤◌, List, [], ◌∷◌, length, Option, None};
ghost use Rattle.ts_base.specs.Bytes.{Bytes};
ghost use Rattle.spec_trees.specs.Made.{most_span};
ghost use Rattle.spec_forced.specs.OnlyRuns.{IsFork};
ghost use Rattle.spec_packing.specs.Packing.{PackedStack};
ghost use Rattle.spec_forced.specs.Sound.{States};
ghost use Rattle.spec_graph.specs.States.{AreRanks};
ghost use Rattle.spec_graph.specs.Laying.{IsBegun};
ghost use Rattle.spec_graph.specs.Links.{IsWholeTo};
ghost use Rattle.spec_crossing.specs.Leaving.{StandsAlone};
ghost use Rattle.spec_crossing.specs.Resting.{PackedRests, AccountsForGraph};
ghost use Rattle.ts_table.specs.declared.view.ParseTable.{ParseTable};
ghost use Rattle.ts_table.specs.Tables.{IsTable};
ghost use Rattle.ts_table.specs.Ranks.{unit_rank};
ghost use Rattle.ts_gss.specs.declared.layer.Layer.{Layer};
ghost use Rattle.ts_graph.specs.declared.view.GraphView.{GraphView};
ghost use Rattle.ts_reductions.specs.LayingLaws.{LayingLaws};
ghost use Rattle.ts_reductions.specs.SoundLinks.{bare_links};
ghost use Rattle.ts_steps.specs.declared.head.StackHead.{StackHead as AnyHead};
ghost use Rattle.ts_steps.specs.LiveHeads.{config_of, packed_of};
ghost use Rattle.ts_steps.specs.Heads.{AreStatesOf, IsOwnHead, StandOnHead};
ghost use Rattle.ts_crossing.specs.Entering.{CanEnter};
ghost use Rattle.ts_crossing.specs.Laws.{EnterLaws, LeaveLaws, MadeLaws};
ghost use Rattle.ts_reductions.specs.Sound.{Base as AnyBase, parsing_from, IsSoundBy};
ghost use Rattle.ts_reductions.specs.Keeping.{AreOwn, StandOnGraph};
ghost use Rattle.ts_crossing.specs.Leaving.{IsStack, IsLeft};

use spec_crossing::{
    bare_trees_are_made, extras_are_flat, followed_graphs_pack, links_are_made, stacks_are_laid,
    trees_are_spelled, unused_symbols_end, ways_are_read,
};
use spec_forced::{items_decide, states_tell};
use spec_graph::{extras_are_passed, links_pack, runs_lay, trees_replace, whole_to_the_next};
use spec_runs::bare_trees;
use ts_lexer::tokens_of_states;
use ts_steps::{states_are_named, tokens_are_known};

/// The laws of stacks that become graphs hold.
pub(crate) fn enter_laws_hold()
    ensures { EnterLaws }
{
    bare_trees();
    trees_replace();
    items_decide();
    states_tell();
    states_are_named();
    tokens_of_states();
    tokens_are_known();
    unused_symbols_end();
    stacks_are_laid();
    whole_to_the_next();
}

/// The laws of trees that are laid hold.
pub(crate) fn laying_laws_hold()
    ensures { LayingLaws }
{
    bare_trees();
    trees_replace();
    links_pack();
    runs_lay();
    extras_are_passed();
}

/// The laws of graphs that become stacks hold.
pub(crate) fn leave_laws_hold()
    ensures { LeaveLaws }
{
    bare_trees();
    states_tell();
    states_are_named();
    ways_are_read();
    links_are_made();
    extras_are_flat();
}

/// The laws of trees such as moves make hold.
fn made_laws_hold()
    ensures { MadeLaws }
{
    trees_are_spelled();
    bare_trees_are_made();
}

/// A stack that a parser made can be entered where several moves stay at it, and so can the one of
/// the start of a text.
pub fn own_stacks_enter()
    ensures fork { (t : ParseTable) (text : Bytes) (stacks : List (List Layer)) (h : AnyHead)
        → IsTable t → length text ≤ most_span → IsOwnHead t (length text) stacks h
        → IsFork t.grammar text (config_of stacks h) → CanEnter t text stacks h }
    ensures start { (t : ParseTable) (text : Bytes) → IsTable t → length text ≤ most_span
        → CanEnter t text ([] ∷ []) (record { top = 0; place = 0 }) }
{
    enter_laws_hold();
    made_laws_hold();
}

/// Where all runs rest at the stack over whose layers the graph is sound, and the ends before a
/// place are accounted for, they rest at the layers of the stack that is left, where its head
/// stands alone at the place or past it. And a parser made it, if a parser made the trees of the
/// graph; and its trees stand, if those of the graph do.
pub fn left_stacks_go_on()
    ensures rests { (t : ParseTable) (text : Bytes) (base : AnyBase) (g : GraphView) (h : ℕ)
        (numbers : List ℕ) (foot : ℕ) (stacks : List (List Layer)) (k : AnyHead)
        → IsSoundBy t text base g → h < length g.heads
        → (s : IsStack g h numbers foot) → IsLeft g h s.way stacks k
        → (start : PackedStack) → IsBegun (parsing_from t text base) start
        → (most : ℕ) → AreRanks t.grammar (unit_rank t.grammar) most
        → (n : ℕ) → IsWholeTo (parsing_from t text base) (unit_rank t.grammar) g.heads
        (bare_links g.links) (record { look = n; begins = n; rank = most })
        → start.place < n → StandsAlone g.heads n h → (before stuck : Option ℕ)
        → AccountsForGraph (parsing_from t text base) g.heads (bare_links g.links) n None before
        stuck
        → PackedRests t.grammar text before start
        → PackedRests t.grammar text stuck (packed_of stacks k) }
    ensures own { (t : ParseTable) (text : Bytes) (base : AnyBase) (g : GraphView) (h : ℕ)
        (numbers : List ℕ) (foot : ℕ) (stacks : List (List Layer)) (k : AnyHead)
        → IsSoundBy t text base g → h < length g.heads
        → (s : IsStack g h numbers foot) → IsLeft g h s.way stacks k
        → AreOwn t.grammar g → IsOwnHead t (length text) stacks k }
    ensures stand { (t : ParseTable) (text : Bytes) (base : AnyBase) (g : GraphView) (h : ℕ)
        (numbers : List ℕ) (foot : ℕ) (stacks : List (List Layer)) (k : AnyHead)
        → IsSoundBy t text base g → h < length g.heads
        → (s : IsStack g h numbers foot) → IsLeft g h s.way stacks k
        → IsTable t → (states : States) → AreStatesOf t states
        → StandOnGraph t.grammar states text base g → StandOnHead t states text stacks k }
{
    leave_laws_hold();
    followed_graphs_pack();
}

//! The laws of other crates that the proofs of a look and of shifts rest on, and laws of what is
//! seen and shifted at a place, each a function without a body. No value goes in or out.
ghost use Rattle.std.specs.Prelude.{◌≡◌, ℕ, ◌+◌, ◌<◌, ◌≤◌, suc, List};
ghost use Rattle.ts_base.specs.Bytes.{Bytes};
ghost use Rattle.ts_core.specs.declared.symbol.Symbol.{Symbol as AnySymbol};
ghost use Rattle.spec_lexing.specs.Lexing.{token};
ghost use Rattle.spec_runs.specs.Configurations.{HasMove};
ghost use Rattle.spec_graph.specs.States.{AreRanks};
ghost use Rattle.spec_graph.specs.Keys.{Key, IsNextKey};
ghost use Rattle.spec_graph.specs.Laying.{SeesAt};
ghost use Rattle.spec_graph.specs.Links.{IsAt, IsWholeTo};
ghost use Rattle.ts_graph.specs.declared.view.GraphView.{GraphView};
ghost use Rattle.ts_graph.specs.Down.{KeepNumbers};
ghost use Rattle.ts_table.specs.declared.view.ParseTable.{ParseTable};
ghost use Rattle.ts_table.specs.Tables.{IsTable};
ghost use Rattle.ts_table.specs.Ranks.{unit_rank};
ghost use Rattle.ts_reductions.specs.SoundLinks.{bare_links};
ghost use Rattle.ts_reductions.specs.Laying.{HasPassed};
ghost use Rattle.ts_reductions.specs.Sound.{Base as AnyBase, parsing_from, parsing_of, IsSoundBy};
ghost use Rattle.ts_reductions.specs.Reducing.{AreReduced};
ghost use Rattle.ts_places.specs.declared.sights.Sights.{Sights as AnySights};
ghost use Rattle.ts_places.specs.ShiftLaws.{LookLaws, LeafLaws, NextLaws};
ghost use Rattle.ts_places.specs.Looking.{IsHeadAt, StopsThere, AreSights};
ghost use Rattle.ts_places.specs.Passing.{first_key};
ghost use Rattle.ts_places.specs.Shifting.{AreShifted};

use spec_graph::{
    keys_follow, keys_pass, runs_lay, stacks_are_grounded, trees_replace, whole_to_the_next,
};
use spec_lexing::{beginnings, one_answer, token_within};
use spec_runs::{bare_trees, moves_have_their_place};
use ts_lexer::same_tokens;
use ts_steps::tokens_are_known;

/// The laws of lexing hold.
pub(crate) fn look_laws_hold()
    ensures { LookLaws }
{
    tokens_are_known();
    one_answer();
    same_tokens();
    token_within();
    beginnings();
}

/// The laws of leaves that are laid hold.
pub(crate) fn leaf_laws_hold()
    ensures { LeafLaws }
{
    bare_trees();
    trees_replace();
    moves_have_their_place();
    stacks_are_grounded();
    runs_lay();
}

/// The laws of graphs that are whole up to later keys hold.
fn next_laws_hold()
    ensures { NextLaws }
{
    whole_to_the_next();
    keys_pass();
    keys_follow();
}

/// What heads see is seen still where a graph has grown: it need not be looked at anew.
pub(crate) fn sights_stay()
    ensures { (t : ParseTable) (text : Bytes) (old new : GraphView) (look : ℕ) (heads : List ℕ)
        (s : AnySights) → KeepNumbers old.heads new.heads → AreSights t text old look heads s
        → AreSights t text new look heads s }
{}

/// A head at which an extra is passed stops nowhere, and no move stays on what it sees, acceptance
/// neither: it need not be looked at.
pub(crate) fn passed_heads_go_on()
    ensures stops { (t : ParseTable) (text : Bytes) (base : AnyBase) (g : GraphView) (h : ℕ)
        → IsSoundBy t text base g → HasPassed (parsing_from t text base) g h
        → (look stop : ℕ) → StopsThere t text g look h stop → ⊥ }
    ensures moves { (t : ParseTable) (text : Bytes) (base : AnyBase) (g : GraphView) (h : ℕ)
        → IsSoundBy t text base g → HasPassed (parsing_from t text base) g h
        → (read : List ℕ) (place : ℕ) (symbol : AnySymbol) (pad size : ℕ)
        → IsAt (parsing_of t text) g.heads h read place
        → SeesAt (parsing_of t text) read place (token symbol pad size)
        → HasMove t.grammar read symbol.0 → ⊥ }
{
    look_laws_hold();
}

/// A graph that is whole up to the last key at a place is whole up to the first key at the next
/// place, once the reductions of that key and then the shifts at the place are done. The stack from
/// which runs go on ends no later than the place.
pub(crate) fn places_follow()
    ensures { (t : ParseTable) (text : Bytes) (base : AnyBase) (most : ℕ)
        (old mid new : GraphView) (k m : Key)
        → IsTable t → AreRanks t.grammar (unit_rank t.grammar) most → IsSoundBy t text base old
        → base.place ≤ k.look
        → AreReduced t text base old mid k → AreShifted t text base mid new k.look
        → IsNextKey most k m → m.look ≡ suc k.look
        → IsWholeTo (parsing_from t text base) (unit_rank t.grammar) old.heads
        (bare_links old.links) k
        → IsWholeTo (parsing_from t text base) (unit_rank t.grammar) new.heads
        (bare_links new.links) m }
{
    leaf_laws_hold();
    next_laws_hold();
}

/// A graph that is whole up to the first key of a place is whole up to that of a later one, where
/// no head stands from the first place on up to the later one.
pub(crate) fn empty_places_pass()
    ensures { (t : ParseTable) (text : Bytes) (base : AnyBase) (most : ℕ) (g : GraphView)
        (count look : ℕ)
        → AreRanks t.grammar (unit_rank t.grammar) most → IsSoundBy t text base g
        → ((place h : ℕ) → look ≤ place → place < count + look → IsHeadAt g place h → ⊥)
        → IsWholeTo (parsing_from t text base) (unit_rank t.grammar) g.heads
        (bare_links g.links) (first_key most look)
        → IsWholeTo (parsing_from t text base) (unit_rank t.grammar) g.heads
        (bare_links g.links) (first_key most (count + look)) }
{
    leaf_laws_hold();
    next_laws_hold();
}

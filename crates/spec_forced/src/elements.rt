//! Laws of elements that stand behind a repetition, each a function without a body.

ghost use Rattle.std.specs.Prelude.{◌≡◌, ℕ, ◌+◌, ◌-◌, ◌<◌, ◌≤◌, ◌∷◌, ◌++◌, true, All, List, Option, Some, length, reverse, map, drop};
ghost use Rattle.ts_base.specs.Bytes.{Bytes};
ghost use Rattle.ts_core.specs.declared.flat.FlatGrammar.{FlatGrammar};
ghost use Rattle.ts_core.specs.declared.flat.Production.{Production};
ghost use Rattle.spec_grammar.specs.Symbols.{production_at};
ghost use Rattle.spec_lexing.specs.Seen.{Agree};
ghost use Rattle.spec_tables.specs.Fit.{Fit};
ghost use Rattle.spec_trees.specs.declared.tree.Tree.{Tree};
ghost use Rattle.spec_trees.specs.declared.tree.Stretch.{Stretch};
ghost use Rattle.spec_trees.specs.Trees.{symbol_of, node_extent, state_of, elements_of, children_of, span_of, all_spans, tree_depth, bare};
ghost use Rattle.spec_trees.specs.Made.{reduced, lengthened, elements_between, first_elements, stretch_in, bytes_before, children_count, reach_of, AreCounted, most_depth, form_of, of_next, step_symbols};
ghost use Rattle.spec_reuse.specs.Places.{IsIn};
ghost use Rattle.spec_runs.specs.Configurations.{stack_symbols, AreExtras};
ghost use Rattle.spec_forced.specs.Forced.{HaveSameItems, Stands, MakesNode};
ghost use Rattle.spec_forced.specs.OnlyRuns.{Meet};
ghost use Rattle.spec_forced.specs.Sound.{States, IsStateAfter, StandsBehindForState, StandBehindForState, AllSound, IsHonestStretch, EachHasState, StandOnStack};
ghost use Rattle.spec_forced.specs.Behind.{StandsBehind, IsOfSymbol, LaterElement, StandBehindInTurn, ElementsEndBy, added, added_children};

use crate::laws::laws_hold;

/// An element that stands behind a repetition stands too after all symbols with the same valid
/// items, wherever the bytes that were examined for it are the same, and by more bytes. So it does
/// for a state just where it does after the symbols that lead to it.
pub fn elements_stand_behind()
    ensures again { (g : FlatGrammar) (symbol : ℕ) (read other : List ℕ) (rest text : Bytes)
        (number : ℕ) (children : List Tree) (extent : ℕ)
        → HaveSameItems g read other → Agree extent rest text
        → StandsBehind g symbol read rest number children extent
        → StandsBehind g symbol other text number children extent }
    ensures rises { (g : FlatGrammar) (symbol : ℕ) (read : List ℕ) (rest : Bytes) (number : ℕ)
        (children : List Tree) (extent more : ℕ)
        → extent ≤ more → StandsBehind g symbol read rest number children extent
        → StandsBehind g symbol read rest number children more }
    ensures told { (g : FlatGrammar) (states : States) (text : Bytes)
        (place state symbol number : ℕ) (children : List Tree) (extent : ℕ) (read : List ℕ)
        → IsStateAfter g states state read
        → StandsBehind g symbol read (drop place text) number children extent
        → StandsBehindForState g states text place state symbol number children extent }
    ensures after { (g : FlatGrammar) (states : States) (text : Bytes)
        (place state symbol number : ℕ) (children : List Tree) (extent : ℕ) (read : List ℕ)
        → IsStateAfter g states state read
        → StandsBehindForState g states text place state symbol number children extent
        → StandsBehind g symbol read (drop place text) number children extent }
    ensures in_turn { (g : FlatGrammar) (states : States) (text : Bytes) (place state symbol : ℕ)
        (es : List LaterElement) (read : List ℕ)
        → IsStateAfter g states state read
        → StandBehindForState g states text place state symbol es
        → StandBehindInTurn g symbol read (drop place text) es }
{}

/// A reduction that is no choice and lengthens a repetition appends an element that stands behind
/// it. And behind a repetition that stands such an element makes a node; with the repetition before
/// them its children are the steps of its production, of which there are others.
pub fn reductions_append_elements()
    ensures made { (g : FlatGrammar) → Fit g → (read : List ℕ) (rest : Bytes) (number : ℕ)
        (t : Tree) (children lifted : List Tree) (extent left alternative : ℕ) (p : Production)
        → MakesNode g read rest number (t ∷ children) lifted extent
        → production_at g number ≡ Some (left, p) → form_of g left number ≡ of_next alternative
        → IsOfSymbol left t
        × StandsBehind g left read (drop (span_of t) rest) number children (extent - span_of t) }
    ensures makes { (g : FlatGrammar) (symbol : ℕ) (read : List ℕ) (rest : Bytes) (number : ℕ)
        (t : Tree) (children : List Tree) (e extent : ℕ)
        → IsOfSymbol symbol t → Stands g read rest t (node_extent t) → node_extent t ≤ extent
        → span_of t + e ≤ extent
        → StandsBehind g symbol read (drop (span_of t) rest) number children e
        → (lifted : List Tree) × MakesNode g read rest number (t ∷ children) lifted extent }
    ensures steps { (g : FlatGrammar) → Fit g → (symbol : ℕ) (read : List ℕ) (rest : Bytes)
        (number : ℕ) (children : List Tree) (extent : ℕ)
        (b : StandsBehind g symbol read rest number children extent)
        → (symbol ∷ stack_symbols children ≡ step_symbols b.production)
        × (0 < length (stack_symbols children)) }
{
    laws_hold();
}

/// A repetition behind which an element stands may be lengthened by it at once, where the node is
/// not too deep: from there and from where the parser was the only runs meet, so that runs from
/// both end alike. So it is with elements that stand behind it one after another.
pub fn lengthened_whole()
    ensures meet { (g : FlatGrammar) → Fit g → (text : Bytes) (below : List Tree)
        (place symbol number : ℕ) (t : Tree) (children : List Tree) (extent e : ℕ)
        (state : Option ℕ)
        → IsOfSymbol symbol t
        → StandsBehind g symbol (stack_symbols below) (drop place text) number children extent
        → tree_depth (reduced g number e state (t ∷ children)) ≤ most_depth
        → Meet g text (record { stack = bare t ∷ below; place = place })
        (record {
          stack = bare (reduced g number e state (t ∷ children)) ∷ below;
          place = place + all_spans children;
        }) }
    ensures all { (g : FlatGrammar) → Fit g → (text : Bytes) (below : List Tree)
        (place symbol extent : ℕ) (state : Option ℕ) (t : Tree) (e : LaterElement)
        (es : List LaterElement)
        → IsOfSymbol symbol t
        → StandBehindInTurn g symbol (stack_symbols below) (drop place text) (e ∷ es)
        → tree_depth (lengthened t (added g symbol (e ∷ es)) extent state) ≤ most_depth
        → Meet g text (record { stack = bare t ∷ below; place = place })
        (record {
          stack = bare (lengthened t (added g symbol (e ∷ es)) extent state) ∷ below;
          place = place + all_spans (added_children (e ∷ es));
        }) }
{
    laws_hold();
}

/// A repetition that stands and takes just the bytes of its children stands too where it is
/// lengthened by elements that stand behind it, by what was examined for it and for them.
pub fn longer_repetitions_stand()
    ensures { (g : FlatGrammar) → Fit g → (symbol extent : ℕ) (state : Option ℕ)
        (read : List ℕ) (rest : Bytes) (t : Tree) (e : LaterElement) (es : List LaterElement)
        → IsOfSymbol symbol t → span_of t ≡ all_spans (children_of t)
        → Stands g read rest t (node_extent t) → node_extent t ≤ extent
        → StandBehindInTurn g symbol read (drop (span_of t) rest) (e ∷ es)
        → ElementsEndBy extent (span_of t) (e ∷ es)
        → tree_depth (lengthened t (added g symbol (e ∷ es)) extent state) ≤ most_depth
        → Stands g read rest (lengthened t (added g symbol (e ∷ es)) extent state) extent }
{
    laws_hold();
}

/// A stretch that is honest at a place for the state below a repetition which ends there may be
/// taken over at once: the only runs from there and from behind it meet, if the longer repetition
/// is not too deep. So it is where extras lie above the repetition, which stand. A stack whose
/// trees stand is left so; the longer repetition has the state of the one before.
pub fn honest_stretches_lengthen()
    ensures meet { (g : FlatGrammar) → Fit g → (states : States) (text : Bytes)
        (place state symbol extent : ℕ) (s : Stretch) (below : List Tree) (t : Tree)
        (o : Option ℕ)
        → 0 < length s.elements → IsOfSymbol symbol t
        → IsStateAfter g states state (stack_symbols below)
        → IsHonestStretch g states text place state symbol s
        → tree_depth (lengthened t s extent o) ≤ most_depth
        → Meet g text (record { stack = bare t ∷ below; place = place })
        (record {
          stack = bare (lengthened t s extent o) ∷ below;
          place = place + all_spans s.children;
        }) }
    ensures over_extras { (g : FlatGrammar) → Fit g → (states : States) (text : Bytes)
        (state symbol extent : ℕ) (s : Stretch) (xs below : List Tree) (t : Tree) (o : Option ℕ)
        → 0 < length s.elements → IsOfSymbol symbol t
        → IsStateAfter g states state (stack_symbols below)
        → IsHonestStretch g states text (all_spans (t ∷ below)) state symbol s
        → tree_depth (lengthened t s extent o) ≤ most_depth → AreExtras xs → EachHasState xs
        → StandOnStack g states text (reverse xs ++ t ∷ below)
        → Meet g text (record {
          stack = map bare (reverse xs ++ t ∷ below);
          place = all_spans (reverse xs ++ t ∷ below);
        })
        (record {
          stack = map bare (lengthened t s extent o ∷ below);
          place = all_spans (t ∷ below) + all_spans s.children;
        }) }
    ensures on_stack { (g : FlatGrammar) → Fit g → (states : States) (text : Bytes)
        (state symbol extent : ℕ) (s : Stretch) (below : List Tree) (t : Tree)
        → 0 < length s.elements → IsOfSymbol symbol t
        → span_of t ≡ all_spans (children_of t)
        → children_count (elements_of t) ≡ length (children_of t)
        → IsStateAfter g states state (stack_symbols below)
        → IsHonestStretch g states text (all_spans (t ∷ below)) state symbol s
        → node_extent t ≤ extent → span_of t + reach_of s.elements s.children ≤ extent
        → tree_depth (lengthened t s extent (state_of t)) ≤ most_depth
        → StandOnStack g states text (t ∷ below)
        → StandOnStack g states text (lengthened t s extent (state_of t) ∷ below) }
{
    laws_hold();
}

/// A sound tree offers stretches honestly: of each repetition in it that has a state, elements one
/// after another that are settled, if they are not the first.
pub fn sound_trees_offer_stretches()
    ensures { (g : FlatGrammar) (states : States) (text : Bytes) (ts : List Tree)
        (place at state from to : ℕ) (u : Tree)
        → AllSound g states text ts place → IsIn ts place u at → state_of u ≡ Some state
        → AreCounted (elements_of u) (children_of u) → 0 < from
        → All (λ e. e.settled ≡ true) (elements_between from to u).elements
        → IsHonestStretch g states text (at + bytes_before from (first_elements to (stretch_in u)))
        state (symbol_of u) (elements_between from to u) }
{}

//! Laws of the definitions, each a function without a body: what other crates may use of them.

ghost use Rattle.std.specs.Prelude.{◌≡◌, ℕ, ◌+◌, ◌≤◌, ◌⊎◌, ◌↔◌, [], ◌∷◌, ◌++◌, List, Option, Some, length, map, reverse, drop, true};
ghost use Rattle.std.specs.Str.{IsUtf8};
ghost use Rattle.ts_base.specs.Bytes.{Bytes};
ghost use Rattle.ts_core.specs.declared.flat.FlatGrammar.{FlatGrammar};
ghost use Rattle.ts_core.specs.declared.flat.Production.{Production};
ghost use Rattle.ts_core.specs.declared.symbol.Symbol.{Symbol};
ghost use Rattle.spec_grammar.specs.Symbols.{is_extra, production_at};
ghost use Rattle.spec_lexing.specs.Lexing.{Found, token, Lex};
ghost use Rattle.spec_lexing.specs.Seen.{Seen, Agree};
ghost use Rattle.spec_tables.specs.Actions.{Move, Act, shift, reduce};
ghost use Rattle.spec_tables.specs.Fit.{Fit};
ghost use Rattle.spec_trees.specs.declared.tree.Tree.{Tree};
ghost use Rattle.spec_trees.specs.Trees.{is_extra_node, is_settled, state_of, node_extent, elements_of, children_of, span_of, all_spans, tree_depth, bare};
ghost use Rattle.spec_trees.specs.Made.{leaf_of, as_extra, reduced, accepted, step_symbols, most_depth};
ghost use Rattle.spec_reuse.specs.Offered.{IsTopmost};
ghost use Rattle.spec_runs.specs.Configurations.{Configuration, starting, stack_symbols, pushed, token_tree, HasMove, NextIs, IsReduction, AreValidTokens, AreExtras};
ghost use Rattle.spec_runs.specs.Outcomes.{FreshOutcome, Fresh};
ghost use Rattle.spec_runs.specs.Runs.{Run};
ghost use Rattle.spec_forced.specs.Forced.{HaveSameItems, IsOnlyMove, IsDecided, IsForced, Stands, StandInTurn, MakesNode};
ghost use Rattle.spec_forced.specs.Laws.{ForcedLaws};
ghost use Rattle.spec_forced.specs.OnlyRuns.{IsOnlyStep, OnlyRun, Meet, IsFork, EndAlike, FreshFrom};
ghost use Rattle.spec_forced.specs.Sound.{States, IsStateAfter, StandsForState, AllSound, IsSound, IsHonest, EachHasState, IsWholeSoFar, StandOnStack};
ghost use Rattle.spec_forced.specs.Leaping.{Leaping, FreshLeaping, LeapsRightly};
ghost use Rattle.spec_forced.specs.Taking.{Taking, FreshTaking, TakesRightly};

use spec_lexing::{fewer_tokens, one_answer, seen_decides};
use spec_reuse::{no_new_tokens, some_move_stays};
use spec_runs::{bare_trees, moves_have_their_place, one_reduction, one_sight, repetitions_repeat};

/// The laws of other crates hold.
pub fn laws_hold()
    ensures { ForcedLaws }
{
    bare_trees();
    moves_have_their_place();
    repetitions_repeat();
    one_sight();
    one_reduction();
    one_answer();
    fewer_tokens();
    some_move_stays();
    no_new_tokens();
}

/// The valid items decide which moves stay, and they are the same after whatever else is read.
pub fn items_decide()
    ensures moves { (g : FlatGrammar) (read other : List ℕ) (t : ℕ) (move : Move)
        → HaveSameItems g read other → Act g read t move → Act g other t move }
    ensures front { (g : FlatGrammar) (front read other : List ℕ) → HaveSameItems g read other
        → HaveSameItems g (front ++ read) (front ++ other) }
{}

/// What is found is decided by the bytes that are examined, and by those by which some list of the
/// valid tokens finds it, whichever list that is.
pub fn lexings_are_decided()
    ensures seen { (g : FlatGrammar) (read : List ℕ) (text : Bytes) (place extent : ℕ) (f : Found)
        (valid : List Symbol)
        → IsUtf8 text → AreValidTokens g read valid → Seen g valid (drop place text) extent
        → Lex g valid (drop place text) f → IsDecided g read (drop place text) f extent }
    ensures lists { (g : FlatGrammar) (read : List ℕ) (rest : Bytes) (s : Symbol)
        (pad size extent : ℕ) (valid : List Symbol)
        → AreValidTokens g read valid → HasMove g read s.0 ⊎ (is_extra g s.0 ≡ true)
        → ((other : Bytes) → Agree extent rest other
        → (v : List Symbol) × AreValidTokens g read v × Lex g v other (token s pad size))
        → IsDecided g read rest (token s pad size) extent }
{
    laws_hold();
    seen_decides();
}

/// A node that is forced once stands: it is forced after all symbols with the same valid items, and
/// wherever the examined bytes are the same. So it stands there too.
pub fn forced_nodes_stand()
    ensures forced { (g : FlatGrammar) (read : List ℕ) (rest : Bytes) (t : Tree) (extent : ℕ)
        → IsForced g read rest t extent → Stands g read rest t extent }
    ensures again { (g : FlatGrammar) (read other : List ℕ) (rest text : Bytes) (t : Tree)
        (extent : ℕ)
        → HaveSameItems g read other → Agree extent rest text → Stands g read rest t extent
        → Stands g other text t extent }
    ensures rises { (g : FlatGrammar) (read : List ℕ) (rest : Bytes) (t : Tree) (extent more : ℕ)
        → extent ≤ more → Stands g read rest t extent → Stands g read rest t more }
{}

/// A node over nodes that stand stands, if no choice was made in making it.
pub fn nodes_stand()
    ensures { (g : FlatGrammar) → Fit g → (read : List ℕ) (rest : Bytes) (number : ℕ)
        (children lifted : List Tree) (extent e : ℕ) (state : Option ℕ)
        → MakesNode g read rest number children lifted extent
        → tree_depth (reduced g number e state children) ≤ most_depth
        → Stands g read rest (reduced g number e state children) extent }
{
    laws_hold();
}

/// A token that is shifted without a choice stands, and so does an extra that is passed.
pub fn leaves_stand()
    ensures leaf { (g : FlatGrammar) (read : List ℕ) (rest : Bytes) (s : Symbol)
        (pad size e extent : ℕ) (state : Option ℕ)
        → IsDecided g read rest (token s pad size) e → IsOnlyMove g read s.0 shift
        → Stands g read rest (leaf_of s.0 pad size extent state) e }
    ensures extra { (g : FlatGrammar) (read : List ℕ) (rest : Bytes) (s : Symbol)
        (pad size e extent : ℕ) (state : Option ℕ)
        → IsDecided g read rest (token s pad size) e → is_extra g s.0 ≡ true
        → (HasMove g read s.0 → ⊥)
        → Stands g read rest (as_extra (leaf_of s.0 pad size extent state)) e }
{
    laws_hold();
}

/// An extra that stands after the steps of a production stands too after its rule's symbol: what
/// was lifted by a reduction stays good where it lies.
pub fn extras_stay()
    ensures { (g : FlatGrammar) → Fit g → (number left : ℕ) (p : Production)
        → production_at g number ≡ Some (left, p)
        → (earlier : List ℕ) (valid : List Symbol) → AreValidTokens g (left ∷ earlier) valid
        → (rest : Bytes) (x : Tree) (e : ℕ) → is_extra_node x ≡ true
        → Stands g (reverse (step_symbols p) ++ earlier) rest x e
        → Stands g (left ∷ earlier) rest x e }
{
    laws_hold();
}

/// Runs on which no choice is made: each run from where one begins goes on from its end, or has not
/// come there yet. So of two of them one goes on from the other, and all runs end from there as
/// from the beginning.
pub fn only_runs_are_one_way()
    ensures run { (g : FlatGrammar) (text : Bytes) (c d : Configuration) → OnlyRun g text c d
        → Run g text c d }
    ensures joined { (g : FlatGrammar) (text : Bytes) (c d e : Configuration)
        → OnlyRun g text c d → OnlyRun g text d e → OnlyRun g text c e }
    ensures through { (g : FlatGrammar) (text : Bytes) (c d e : Configuration)
        → OnlyRun g text c d → Run g text c e → Run g text d e ⊎ OnlyRun g text e d }
    ensures one_way { (g : FlatGrammar) (text : Bytes) (c d e : Configuration)
        → OnlyRun g text c d → OnlyRun g text c e → OnlyRun g text d e ⊎ OnlyRun g text e d }
    ensures ends { (g : FlatGrammar) (text : Bytes) (c d : Configuration) → OnlyRun g text c d
        → EndAlike g text c d }
    ensures fresh { (g : FlatGrammar) (text : Bytes) (c d : Configuration) → EndAlike g text c d
        → (o : FreshOutcome) → FreshFrom g text c o → FreshFrom g text d o }
    ensures start { (g : FlatGrammar) (text : Bytes) (o : FreshOutcome)
        → FreshFrom g text starting o ↔ Fresh g text o }
{}

/// Where one move alone stays on the token that is seen, or none on an extra, there is one step
/// alone, and it goes where the move leads.
pub fn one_move_is_one_step()
    ensures shifted { (g : FlatGrammar) (text : Bytes) (c : Configuration) (s : Symbol)
        (pad size : ℕ)
        → NextIs g text c (token s pad size) → IsOnlyMove g (stack_symbols c.stack) s.0 shift
        → IsOnlyStep g text c (pushed c (token_tree s pad size)) }
    ensures passed { (g : FlatGrammar) (text : Bytes) (c : Configuration) (s : Symbol)
        (pad size : ℕ)
        → NextIs g text c (token s pad size) → is_extra g s.0 ≡ true
        → (HasMove g (stack_symbols c.stack) s.0 → ⊥)
        → IsOnlyStep g text c (pushed c (as_extra (token_tree s pad size))) }
    ensures reduced { (g : FlatGrammar) (text : Bytes) (c : Configuration) (s : Symbol)
        (pad size number : ℕ) (node : Tree) (after : List Tree)
        → NextIs g text c (token s pad size)
        → IsOnlyMove g (stack_symbols c.stack) s.0 (reduce number)
        → IsReduction g number c.stack node after → tree_depth node ≤ most_depth
        → IsOnlyStep g text c (record { stack = after; place = c.place }) }
{
    laws_hold();
}

/// Where such runs from two configurations meet, all runs end from both alike. And where two moves
/// can be done at the second, the run from the first leads there.
pub fn only_runs_meet()
    ensures same { (g : FlatGrammar) (text : Bytes) (c : Configuration) → Meet g text c c }
    ensures step { (g : FlatGrammar) (text : Bytes) (c d : Configuration) → IsOnlyStep g text c d
        → Meet g text c d }
    ensures joined { (g : FlatGrammar) (text : Bytes) (c d e : Configuration) → Meet g text c d
        → Meet g text d e → Meet g text c e }
    ensures ends { (g : FlatGrammar) (text : Bytes) (c d : Configuration) → Meet g text c d
        → EndAlike g text c d }
    ensures fork { (g : FlatGrammar) (text : Bytes) (c d : Configuration) → Meet g text c d
        → IsFork g text d → OnlyRun g text c d }
{}

/// What a forced run makes above a stack is what the only run from there puts on it.
pub fn forced_runs_are_only()
    ensures { (g : FlatGrammar) (text : Bytes) (c : Configuration) (t : Tree) (e : ℕ)
        (f : IsForced g (stack_symbols c.stack) (drop c.place text) t e)
        → OnlyRun g text c
        (record { stack = f.extras ++ bare t ∷ c.stack; place = c.place + f.bytes }) }
{
    laws_hold();
}

/// An extra that stands where a parser is is passed there, and nothing else is done. So a parser
/// with extras on top of its stack may go back to where they begin: the only run leads from there
/// to where it was.
pub fn extras_are_passed()
    ensures one { (g : FlatGrammar) (text : Bytes) (c : Configuration) (x : Tree) (e : ℕ)
        → is_extra_node x ≡ true → Stands g (stack_symbols c.stack) (drop c.place text) x e
        → IsOnlyStep g text c (pushed c (bare x)) }
    ensures all { (g : FlatGrammar) (text : Bytes) (xs below : List Tree) (place : ℕ)
        → AreExtras xs → StandInTurn g (stack_symbols below) (drop place text) xs
        → OnlyRun g text (record { stack = below; place = place })
        (record { stack = reverse (map bare xs) ++ below; place = place + all_spans xs }) }
{
    laws_hold();
}

/// A node that stands where a parser is may be pushed whole: from there and from where the parser
/// was the only runs meet, so that runs from both end alike.
pub fn pushed_whole()
    ensures meet { (g : FlatGrammar) → Fit g → (text : Bytes) (c : Configuration) (t : Tree) (e : ℕ)
        (valid : List Symbol)
        → Stands g (stack_symbols c.stack) (drop c.place text) t e
        → AreValidTokens g (stack_symbols (bare t ∷ c.stack)) valid
        → (d : Configuration) × OnlyRun g text c d × OnlyRun g text (pushed c (bare t)) d }
    ensures ends { (g : FlatGrammar) → Fit g → (text : Bytes) (c : Configuration) (t : Tree) (e : ℕ)
        (valid : List Symbol)
        → Stands g (stack_symbols c.stack) (drop c.place text) t e
        → AreValidTokens g (stack_symbols (bare t ∷ c.stack)) valid
        → EndAlike g text c (pushed c (bare t)) }
    ensures fresh { (g : FlatGrammar) → Fit g → (text : Bytes) (c : Configuration) (t : Tree)
        (e : ℕ) (valid : List Symbol)
        → Stands g (stack_symbols c.stack) (drop c.place text) t e
        → AreValidTokens g (stack_symbols (bare t ∷ c.stack)) valid
        → (o : FreshOutcome) → FreshFrom g text c o ↔ FreshFrom g text (pushed c (bare t)) o }
{
    laws_hold();
}

/// A node stands for a state where it stands after symbols with the items of the state.
pub fn states_tell()
    ensures told { (g : FlatGrammar) (states : States) (text : Bytes) (place state : ℕ) (t : Tree)
        (read : List ℕ)
        → IsStateAfter g states state read → Stands g read (drop place text) t (node_extent t)
        → StandsForState g states text place state t }
    ensures after { (g : FlatGrammar) (states : States) (text : Bytes) (place state : ℕ) (t : Tree)
        (read : List ℕ)
        → IsStateAfter g states state read → StandsForState g states text place state t
        → Stands g read (drop place text) t (node_extent t) }
{}

/// The topmost fit nodes of a sound tree are honest offers.
pub fn sound_trees_offer_honestly()
    ensures { (g : FlatGrammar) (states : States) (text : Bytes) (tree t : Tree) (place state : ℕ)
        → IsSound g states text tree → IsTopmost tree place state t
        → IsHonest g states text place state t }
{}

/// What a parser's moves leave of a stack whose trees stand. A node without children is sound where
/// it stands for its state. Trees that have states stand one after another. A reduction leaves such
/// a stack, if it is no choice where its node has a state, and its children have states then. And
/// the tree that is accepted is sound.
pub fn stacks_stay_sound()
    ensures childless { (g : FlatGrammar) (states : States) (text : Bytes) (t : Tree) (place : ℕ)
        → children_of t ≡ [] → elements_of t ≡ []
        → ((state : ℕ) → is_settled t ≡ true → state_of t ≡ Some state
        → StandsForState g states text place state t)
        → AllSound g states text (t ∷ []) place }
    ensures in_turn { (g : FlatGrammar) (states : States) (text : Bytes) (ts below : List Tree)
        → EachHasState ts → StandOnStack g states text (reverse ts ++ below)
        → StandInTurn g (stack_symbols below) (drop (all_spans below) text) ts }
    ensures reduced { (g : FlatGrammar) → Fit g → (states : States) (text : Bytes)
        (number left : ℕ) (p : Production) (children lifted below : List Tree) (extent : ℕ)
        (state : Option ℕ) (valid : List Symbol)
        → production_at g number ≡ Some (left, p) → stack_symbols children ≡ step_symbols p
        → IsWholeSoFar g left number children → AreExtras lifted
        → AreValidTokens g (left ∷ stack_symbols below) valid
        → tree_depth (reduced g number extent state children) ≤ most_depth
        → ((s : ℕ) → state ≡ Some s
        → IsStateAfter g states s (stack_symbols below)
        × MakesNode g (stack_symbols below) (drop (all_spans below) text) number children lifted
        extent
        × EachHasState children)
        → StandOnStack g states text (lifted ++ (reverse children ++ below))
        → StandOnStack g states text (lifted ++ reduced g number extent state children ∷ below) }
    ensures accepted { (g : FlatGrammar) (states : States) (text : Bytes) (before after : List Tree)
        (root : Tree) (extent : ℕ)
        → span_of root ≡ all_spans (children_of root)
        → StandOnStack g states text (reverse after ++ root ∷ reverse before)
        → all_spans (reverse after ++ root ∷ reverse before) ≤ length text
        → IsSound g states text (accepted root before after extent) }
{
    laws_hold();
}

/// A parser that goes on from other configurations, wherever and from whichever, comes to the fresh
/// outcome, if each is at a later place and the only runs from it and from where the parser was
/// meet. So it may take over nodes that stand, and elements that stand behind a repetition.
pub fn leaps_change_nothing()
    ensures { (g : FlatGrammar) (text : Bytes) (leaps : Leaping) → LeapsRightly g text leaps
        → (o : FreshOutcome) → FreshLeaping g text leaps o ↔ Fresh g text o }
{}

/// A parser that takes nodes over, wherever and whichever, comes to the fresh outcome, if each node
/// that it takes stands where it is.
pub fn offers_change_nothing()
    ensures { (g : FlatGrammar) → Fit g → (text : Bytes) (takes : Taking)
        → TakesRightly g text takes → (o : FreshOutcome)
        → FreshTaking g text takes o ↔ Fresh g text o }
{
    laws_hold();
}

//! Laws of the definitions, each a function without a body: what other crates may use of them.

ghost use Rattle.std.specs.Prelude.{◌≡◌, ℕ, ◌+◌, ◌<◌, ◌≤◌, ◌⊎◌, true, false, List, [], ◌∷◌, ◌++◌, length, Option, Some, None};
ghost use Rattle.std.specs.List.{Contains};
ghost use Rattle.ts_core.specs.declared.flat.FlatGrammar.{FlatGrammar};
ghost use Rattle.spec_tables.specs.Actions.{Move, Act, accept};
ghost use Rattle.spec_tables.specs.Fit.{Fit};
ghost use Rattle.spec_trees.specs.declared.tree.Tree.{Tree};
ghost use Rattle.spec_trees.specs.Trees.{is_extra_node, elements_of, children_of, span_of, all_spans, tree_depth, bare};
ghost use Rattle.spec_trees.specs.Inside.{IsNodeIn};
ghost use Rattle.spec_trees.specs.Made.{filling, AreCounted};
ghost use Rattle.spec_trees.specs.Choice.{code_of, IsInForm};
ghost use Rattle.spec_runs.specs.Configurations.{Configuration};
ghost use Rattle.spec_runs.specs.Moves.{IsUnused};
ghost use Rattle.spec_runs.specs.Runs.{StepsOn};
ghost use Rattle.spec_runs.specs.Outcomes.{IsBestTree, IsLastStop};
ghost use Rattle.spec_packing.specs.Packing.{PackedTree, PackedStack, packed_trees, WasMet, GoesThrough};
ghost use Rattle.spec_graph.specs.declared.graph.Head.{Head};
ghost use Rattle.spec_graph.specs.declared.graph.Link.{Link};
ghost use Rattle.spec_graph.specs.States.{AreStates, AreRanks};
ghost use Rattle.spec_graph.specs.Laying.{Parsing, from_start, IsBegun, IsMet, Lays};
ghost use Rattle.spec_graph.specs.Grounded.{Spells, IsMadeTree, IsGrounded};
ghost use Rattle.spec_graph.specs.Links.{IsAt, IsWay, way_trees, IsGraph, IsWholeTo};
ghost use Rattle.spec_graph.specs.Laws.{GraphLaws};
ghost use Rattle.spec_crossing.specs.Leaving.{IsOneWay, EndsWithToken, StandsAlone, way_stack, EndsBefore};
ghost use Rattle.spec_crossing.specs.Resting.{PackedRests, AccountsForGraph};

use spec_graph::graphs_are_sound;
use spec_lexing::{fewer_tokens, one_answer, something_is_seen, token_within};
use spec_reuse::{no_new_tokens, some_move_stays};
use spec_runs::{
    bare_trees, empty_rules_are_unused, moves_have_their_place, repetitions_repeat,
    start_is_no_repetition,
};

/// The laws of other crates hold.
fn laws_hold()
    ensures { GraphLaws }
{
    bare_trees();
    empty_rules_are_unused();
    moves_have_their_place();
    repetitions_repeat();
    start_is_no_repetition();
    fewer_tokens();
    one_answer();
    token_within();
    no_new_tokens();
    some_move_stays();
}

/// Where one head stands alone at a place or past it, and one way leads down from it, each run that
/// goes through what the stack from which runs go on stands for ends in the graph before that
/// place, or goes through what the layers of that way stand for.
pub fn runs_go_through()
    ensures { (P : Parsing) → Fit P.grammar → AreStates P.grammar P.goto
        → (k : PackedStack) → IsBegun P k → WasMet P.grammar P.text k
        → (rank : ℕ → ℕ) (most : ℕ) → AreRanks P.grammar rank most
        → (heads : List Head) (links : List Link) → IsGraph P heads links
        → (n : ℕ) → IsWholeTo P rank heads links (record { look = n; begins = n; rank = most })
        → k.place < n
        → (h place : ℕ) (read : List ℕ) (way : List Link) → IsAt P heads h read place
        → StandsAlone heads n h → ((other : List Link) → IsWay links h other 0 → other ≡ way)
        → (d : Configuration) → GoesThrough P.grammar P.text k d
        → EndsBefore P heads links n d
        ⊎ GoesThrough P.grammar P.text (way_stack way place) d }
{
    laws_hold();
}

/// What is known of all runs where they rest at a stack of layers, and the graph was followed from
/// there: they rest at the layers of the way that is left; and where the graph was followed past
/// the text, the best tree or the greatest place is the outcome.
pub fn followed_graphs_pack()
    ensures leaves { (P : Parsing) → Fit P.grammar → AreStates P.grammar P.goto
        → (k : PackedStack) → IsBegun P k
        → (rank : ℕ → ℕ) (most : ℕ) → AreRanks P.grammar rank most
        → (heads : List Head) (links : List Link) → IsGraph P heads links
        → (n : ℕ) → IsWholeTo P rank heads links (record { look = n; begins = n; rank = most })
        → k.place < n
        → (before stuck : Option ℕ) → AccountsForGraph P heads links n None before stuck
        → PackedRests P.grammar P.text before k
        → (h place : ℕ) (read : List ℕ) (way : List Link) → IsAt P heads h read place
        → StandsAlone heads n h → IsOneWay links h way → EndsWithToken way
        → PackedRests P.grammar P.text stuck (way_stack way place) }
    ensures tree { (P : Parsing) → Fit P.grammar → AreStates P.grammar P.goto
        → (k : PackedStack) → IsBegun P k
        → (rank : ℕ → ℕ) (most : ℕ) → AreRanks P.grammar rank most
        → (heads : List Head) (links : List Link) → IsGraph P heads links
        → (n : ℕ) → IsWholeTo P rank heads links (record { look = n; begins = n; rank = most })
        → k.place < n → length P.text < n → P.place ≤ length P.text
        → (best : Option Tree) (before stuck : Option ℕ)
        → AccountsForGraph P heads links n best before stuck
        → PackedRests P.grammar P.text before k
        → (b : Tree) → best ≡ Some b → IsBestTree P.grammar P.text (bare b) }
    ensures stop { (P : Parsing) → Fit P.grammar → AreStates P.grammar P.goto
        → (k : PackedStack) → IsBegun P k
        → (rank : ℕ → ℕ) (most : ℕ) → AreRanks P.grammar rank most
        → (heads : List Head) (links : List Link) → IsGraph P heads links
        → (n : ℕ) → IsWholeTo P rank heads links (record { look = n; begins = n; rank = most })
        → k.place < n → length P.text < n → P.place ≤ length P.text
        → (best : Option Tree) (before stuck : Option ℕ)
        → AccountsForGraph P heads links n best before stuck
        → PackedRests P.grammar P.text before k
        → (q : ℕ) → best ≡ None → stuck ≡ Some q → IsLastStop P.grammar P.text q }
{
    laws_hold();
    graphs_are_sound();
}

/// A graph that was followed past the text tells a tree or a stop, whatever came to the stack from
/// which runs go on, where each step makes a number fall.
pub fn followed_graphs_tell()
    ensures { (P : Parsing) → Fit P.grammar → AreStates P.grammar P.goto → IsGrounded P
        → (rank : ℕ → ℕ) (most : ℕ) → AreRanks P.grammar rank most
        → (heads : List Head) (links : List Link) → IsGraph P heads links
        → (n : ℕ) → IsWholeTo P rank heads links (record { look = n; begins = n; rank = most })
        → length P.text < n → P.place ≤ length P.text
        → (best : Option Tree) (before stuck : Option ℕ)
        → AccountsForGraph P heads links n best before stuck
        → (weight : Configuration → ℕ)
        → ((d e : Configuration) → d.place ≤ length P.text → StepsOn P.grammar P.text d e
        → weight e < weight d)
        → best ≡ None → stuck ≡ None → ⊥ }
{
    laws_hold();
    something_is_seen();
}

/// Each tree of a stack from which runs go on can be laid where it stands, and is no deeper than
/// its layer says. Where the stack was met, some tree of its layer's depth can be laid there from
/// the start of the text.
pub fn stacks_are_laid()
    ensures own { (P : Parsing) → Fit P.grammar → AreStates P.grammar P.goto → IsGrounded P
        → (over under : List PackedTree) (l : PackedTree) → P.layers ≡ over ++ l ∷ under
        → Lays P (filling (packed_trees under)) (all_spans (packed_trees under))
        (l.tree ∷ []) (all_spans (packed_trees under) + span_of l.tree)
        (filling (l.tree ∷ []) ++ filling (packed_trees under)) }
    ensures shallow { (P : Parsing) → Fit P.grammar → AreStates P.grammar P.goto → IsGrounded P
        → (over under : List PackedTree) (l : PackedTree) → P.layers ≡ over ++ l ∷ under
        → tree_depth l.tree ≤ l.depth }
    ensures deepest { (P : Parsing) → Fit P.grammar → AreStates P.grammar P.goto → IsMet P
        → (over under : List PackedTree) (l : PackedTree) → P.layers ≡ over ++ l ∷ under
        → (t : Tree) × Lays (from_start P) (filling (packed_trees under))
        (all_spans (packed_trees under)) (t ∷ []) (all_spans (packed_trees under) + span_of l.tree)
        (filling (l.tree ∷ []) ++ filling (packed_trees under))
        × (tree_depth t ≡ l.depth) }
{
    laws_hold();
}

/// Behind a symbol that no production names nothing stays but acceptance.
pub fn unused_symbols_end()
    ensures { (g : FlatGrammar) (symbol : ℕ) → IsUnused g symbol
        → (above below : List ℕ) (token : ℕ) (move : Move)
        → Act g (above ++ symbol ∷ below) token move → move ≡ accept }
{
    laws_hold();
}

/// The code of a tree is spelled well, if each node in it is in the form of the grammar, and its
/// elements have just its children.
pub fn trees_are_spelled()
    ensures { (g : FlatGrammar) (t : Tree) → IsInForm g t
        → ((u : Tree) → IsNodeIn t u → AreCounted (elements_of u) (children_of u))
        → Spells g false 1 (code_of t) }
{}

/// Where a tree is such as moves make, its bare tree is too.
pub fn bare_trees_are_made()
    ensures { (g : FlatGrammar) (t : Tree) → IsMadeTree g t → IsMadeTree g (bare t) }
{
    bare_trees();
}

/// The tree of each link of a graph is such as moves make.
pub fn links_are_made()
    ensures { (P : Parsing) → Fit P.grammar → AreStates P.grammar P.goto → IsGrounded P
        → (heads : List Head) (links : List Link) → IsGraph P heads links
        → (l : Link) → Contains links l → IsMadeTree P.grammar l.tree }
{
    laws_hold();
}

/// The link of an extra stands for trees of its own depth alone.
pub fn extras_are_flat()
    ensures { (P : Parsing) → Fit P.grammar → AreStates P.grammar P.goto → IsGrounded P
        → (heads : List Head) (links : List Link) → IsGraph P heads links
        → (l : Link) → Contains links l → is_extra_node l.tree ≡ true
        → l.depth ≡ tree_depth l.tree }
{
    laws_hold();
}

/// Where a way leads down to the head of the empty stack, its trees are what was read.
pub fn ways_are_read()
    ensures symbols { (P : Parsing) → Fit P.grammar → AreStates P.grammar P.goto → IsGrounded P
        → (heads : List Head) (links : List Link) → IsGraph P heads links
        → (h place : ℕ) (read : List ℕ) (way : List Link) → IsAt P heads h read place
        → IsWay links h way 0 → IsAt P heads h (filling (way_trees way)) place }
    ensures spans { (P : Parsing) → Fit P.grammar → AreStates P.grammar P.goto → IsGrounded P
        → (heads : List Head) (links : List Link) → IsGraph P heads links
        → (h place : ℕ) (read : List ℕ) (way : List Link) → IsAt P heads h read place
        → IsWay links h way 0 → all_spans (way_trees way) ≡ place }
{
    laws_hold();
}

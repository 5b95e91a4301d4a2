//! Laws of the definitions, each a function without a body: what other crates may use of them.

ghost use Rattle.std.specs.Prelude.{◌≡◌, ℕ, ◌+◌, ◌<◌, ◌≤◌, suc, true, List, [], ◌∷◌, ◌++◌, length, map, reverse, slice_get, Some};
ghost use Rattle.spec_grammar.specs.Symbols.{production_at};
ghost use Rattle.spec_lexing.specs.Lexing.{token};
ghost use Rattle.spec_tables.specs.Actions.{Act, reduce};
ghost use Rattle.spec_tables.specs.Fit.{Fit};
ghost use Rattle.ts_core.specs.declared.flat.Production.{Production};
ghost use Rattle.ts_core.specs.declared.symbol.Symbol.{Symbol as AnySymbol};
ghost use Rattle.spec_trees.specs.declared.tree.Tree.{Tree};
ghost use Rattle.spec_trees.specs.Trees.{is_extra_node, span_of, all_spans, tree_depth, bare};
ghost use Rattle.spec_trees.specs.Made.{form_of, filling, step_symbols, BeginsFilled, most_depth};
ghost use Rattle.spec_trees.specs.Choice.{Better};
ghost use Rattle.spec_runs.specs.Configurations.{Configuration, stack_symbols, AreExtras, HasMove};
ghost use Rattle.spec_runs.specs.Moves.{StandsBefore};
ghost use Rattle.spec_runs.specs.Runs.{IsReached, ComesTooDeep, AcceptsTree, StopsAt};
ghost use Rattle.spec_runs.specs.Outcomes.{SomeIsTooDeep, SomeAccepts, SomeStopsAt, IsBestTree, IsLastStop};
ghost use Rattle.spec_packing.specs.Packing.{PackedStack, WasMet, GoesThrough};
ghost use Rattle.spec_graph.specs.declared.graph.Head.{Head as AnyHead};
ghost use Rattle.spec_graph.specs.declared.graph.Link.{Link as AnyLink};
ghost use Rattle.spec_graph.specs.States.{LeadsTo, ShareState, AreStates, AreRanks};
ghost use Rattle.spec_graph.specs.Laying.{Parsing, from_start, IsMet, IsReading, SeesAt, PassesAt, ReducesAt, extra_tree, PassesTree, node_made, Lays, CanMakeNode, IsBegun, ComesOver};
ghost use Rattle.spec_graph.specs.Grounded.{AreMadeTrees, IsGrounded};
ghost use Rattle.spec_graph.specs.Replacing.{AreAlike, Replaces, ReplacesBoth, AllReplace, depth_over};
ghost use Rattle.spec_graph.specs.Keys.{Key, Earlier, IsNextKey, LaysBefore};
ghost use Rattle.spec_graph.specs.Links.{IsAt, IsWay, way_trees, HasWay, IsGraph, IsWholeTo, IsDue, way_depth, AreDone, HasNoneDue, HasGrown, AreAdded, IsOpened, HasStood};
ghost use Rattle.spec_graph.specs.Outcomes.{GraphAccepts, GraphStopsAt, GraphIsDeep, IsBestOfGraph, IsLastOfGraph};
ghost use Rattle.spec_graph.specs.Laws.{GraphLaws};

use spec_lexing::{fewer_tokens, one_answer, token_within};
use spec_reuse::{no_new_tokens, some_move_stays};
use spec_runs::{
    bare_trees, empty_rules_are_unused, moves_have_their_place, repetitions_repeat,
    start_is_no_repetition,
};

/// The laws of other crates hold.
fn laws_hold()
    ensures { GraphLaws }
{
    bare_trees();
    empty_rules_are_unused();
    moves_have_their_place();
    repetitions_repeat();
    start_is_no_repetition();
    fewer_tokens();
    one_answer();
    token_within();
    no_new_tokens();
    some_move_stays();
}

/// The empty stack is grounded, and so is each stack from which runs go on, where it was met. The
/// trees of a stack to which a run comes are such as moves make. What stands below a tree of a
/// reading of a grounded stack ends before the stack does.
pub fn stacks_are_grounded()
    ensures empty { (P : Parsing) → Fit P.grammar → AreStates P.grammar P.goto → P.layers ≡ []
        → P.place ≡ 0 → IsGrounded P }
    ensures reached { (P : Parsing) → Fit P.grammar → AreStates P.grammar P.goto
        → IsMet P → IsGrounded P }
    ensures trees { (P : Parsing) → Fit P.grammar → AreStates P.grammar P.goto
        → (c : Configuration) → IsReached P.grammar P.text c
        → AreMadeTrees P.grammar c.stack }
    ensures low { (P : Parsing) → IsGrounded P → (above below : List Tree) (t : Tree)
        → IsReading P (above ++ t ∷ below) → all_spans below < P.place }
{
    laws_hold();
}

/// What runs reach is laid, from the start and over the stack from which runs go on; and what is
/// laid is reached, once the extras behind it are passed. What is laid over that stack is laid from
/// the start, where it was met. It reaches from place to place.
pub fn runs_lay()
    ensures start { (P : Parsing) → Fit P.grammar → AreStates P.grammar P.goto → (c : Configuration)
        → IsReached P.grammar P.text c
        → Lays (from_start P) [] 0 c.stack c.place (stack_symbols c.stack) }
    ensures on { (P : Parsing) → Fit P.grammar → AreStates P.grammar P.goto
        → (k : PackedStack) → IsBegun P k → WasMet P.grammar P.text k
        → (d : Configuration) → GoesThrough P.grammar P.text k d
        → Lays P [] 0 d.stack d.place (stack_symbols d.stack) }
    ensures reached { (P : Parsing) → Fit P.grammar → AreStates P.grammar P.goto
        → (w : List Tree) (place : ℕ) (now : List ℕ)
        → Lays (from_start P) [] 0 w place now → ComesOver (from_start P) [] w 0 place now }
    ensures embeds { (P : Parsing) → Fit P.grammar → AreStates P.grammar P.goto → IsMet P
        → (read now : List ℕ) (from place : ℕ) (w : List Tree)
        → Lays P read from w place now → Lays (from_start P) read from w place now }
    ensures spans { (P : Parsing) → Fit P.grammar → AreStates P.grammar P.goto → IsGrounded P
        → (read now : List ℕ) (from place : ℕ) (w : List Tree)
        → Lays P read from w place now → from + all_spans w ≡ place }
{
    laws_hold();
}

/// A tree may take its own place, and that of what a tree may whose place it may take. Of two trees
/// of one kind the better may take the place of both, and the old one where the other is no
/// better. In every node trees may be replaced so; and the depth of a node is told by those of its
/// children.
pub fn trees_replace()
    ensures same { (t : Tree) → Replaces t t }
    ensures through { (t u v : Tree) → Replaces t u → Replaces u v → Replaces t v }
    ensures both { (old tree new : Tree) → AreAlike (bare old) (bare tree)
        → (Better tree old → new ≡ tree) → ((Better tree old → ⊥) → new ≡ old)
        → ReplacesBoth old tree new }
    ensures nodes { (P : Parsing) → Fit P.grammar → AreStates P.grammar P.goto → IsGrounded P
        → (now over other : List ℕ) (place end look number left : ℕ) (p : Production)
        (ks us : List Tree)
        → Lays P now place (reverse ks) end over
        → Lays P now place (reverse us) end other
        → BeginsFilled us → ReducesAt P other look number left p now
        → length (filling us) ≡ length p.steps → AllReplace ks us
        → Replaces (node_made P number ks) (node_made P number us) }
    ensures depth { (P : Parsing) → Fit P.grammar → AreStates P.grammar P.goto → IsGrounded P
        → (now over : List ℕ) (place end look number left : ℕ) (p : Production) (ks : List Tree)
        → Lays P now place (reverse ks) end over
        → BeginsFilled ks → ReducesAt P over look number left p now
        → length (filling ks) ≡ length p.steps
        → tree_depth (node_made P number ks)
        ≡ depth_over (form_of P.grammar left number) (map tree_depth ks) }
{
    laws_hold();
}

/// All that a node is made of comes before it, and so do the extras up to its lookahead.
pub fn parts_come_first()
    ensures inner { (P : Parsing) → Fit P.grammar → AreStates P.grammar P.goto → IsGrounded P
        → (rank : ℕ → ℕ) (most : ℕ) → AreRanks P.grammar rank most
        → (now over : List ℕ) (place end look number left n : ℕ) (p : Production)
        (ks extras : List Tree) → LeadsTo P.goto now n
        → CanMakeNode P now place ks end over extras look number left p
        → LaysBefore P rank (record { look = look; begins = place; rank = rank left })
        now place (reverse ks) end over }
    ensures outer { (P : Parsing) → Fit P.grammar → AreStates P.grammar P.goto → IsGrounded P
        → (rank : ℕ → ℕ) (most : ℕ) → AreRanks P.grammar rank most
        → (now over : List ℕ) (place end look number left : ℕ) (p : Production)
        (ks extras : List Tree)
        → CanMakeNode P now place ks end over extras look number left p
        → LaysBefore P rank (record { look = look; begins = place; rank = rank left })
        over end extras look over }
{
    laws_hold();
}

/// What is laid twice between two heads is of one kind, with one symbol and the same bytes, so that
/// the better of both can be kept: either can be laid there after the symbols of the other. So can
/// the deeper of two that are laid from the start.
pub fn links_pack()
    ensures alike { (P : Parsing) → Fit P.grammar → AreStates P.grammar P.goto → IsGrounded P
        → (heads : List AnyHead) (a b : ℕ) (read other now then : List ℕ) (from to : ℕ)
        (t u : Tree) → IsAt P heads a read from → IsAt P heads b now to
        → IsAt P heads a other from → IsAt P heads b then to
        → Lays P read from (t ∷ []) to now
        → Lays P other from (u ∷ []) to then → AreAlike t u }
    ensures either { (P : Parsing) → Fit P.grammar → AreStates P.grammar P.goto → IsGrounded P
        → (heads : List AnyHead) (a b : ℕ) (read other now then : List ℕ) (from to : ℕ)
        (t u : Tree) → IsAt P heads a read from → IsAt P heads b now to
        → IsAt P heads a other from → IsAt P heads b then to
        → Lays P read from (t ∷ []) to now
        → Lays P other from (u ∷ []) to then
        → Lays P other from (t ∷ []) to then }
    ensures deep { (P : Parsing) → Fit P.grammar → AreStates P.grammar P.goto
        → (heads : List AnyHead) (a b : ℕ) (read other now then : List ℕ) (from to : ℕ)
        (t u : Tree) → IsAt P heads a read from → IsAt P heads b now to
        → IsAt P heads a other from → IsAt P heads b then to
        → Lays (from_start P) read from (t ∷ []) to now
        → Lays (from_start P) other from (u ∷ []) to then
        → Lays (from_start P) other from (t ∷ []) to then }
{
    laws_hold();
}

/// An extra that is laid alone is passed there, if it ends no earlier than the stack from which
/// runs go on, and no symbol comes with it. What is passed after some symbols is passed after all
/// that lead to the same state.
pub fn extras_are_passed()
    ensures tree { (P : Parsing) → Fit P.grammar → AreStates P.grammar P.goto → IsGrounded P
        → (read now : List ℕ) (from place : ℕ) (t : Tree)
        → P.place ≤ place → Lays P read from (t ∷ []) place now → is_extra_node t ≡ true
        → PassesTree P read from t place }
    ensures same { (P : Parsing) → Fit P.grammar → AreStates P.grammar P.goto → IsGrounded P
        → (read now : List ℕ) (from place : ℕ) (t : Tree)
        → Lays P read from (t ∷ []) place now → is_extra_node t ≡ true
        → now ≡ read }
    ensures shared { (P : Parsing) → Fit P.grammar → AreStates P.grammar P.goto
        → (read other : List ℕ) (place : ℕ) (s : AnySymbol) (pad size : ℕ)
        → ShareState P.goto read other → PassesAt P read place s pad size
        → PassesAt P other place s pad size }
{
    laws_hold();
}

/// Behind a reduction a token is seen that was seen before it, if some move stays on it there.
pub fn tokens_are_seen_again()
    ensures { (P : Parsing) → Fit P.grammar → AreStates P.grammar P.goto
        → (number left : ℕ) (p : Production) (earlier : List ℕ)
        → production_at P.grammar number ≡ Some (left, p)
        → (read now : List ℕ) (place pad size : ℕ) (s : AnySymbol)
        → ShareState P.goto read (reverse (step_symbols p) ++ earlier)
        → ShareState P.goto (left ∷ earlier) now → HasMove P.grammar now s.0
        → SeesAt P read place (token s pad size) → SeesAt P now place (token s pad size) }
{
    laws_hold();
}

/// A graph is whole up to the first key where each layer that stood has links. From there it is
/// whole up to each next key once all reductions of a key are done.
pub fn whole_to_the_next()
    ensures begins { (P : Parsing) → Fit P.grammar → AreStates P.grammar P.goto → IsGrounded P
        → (rank : ℕ → ℕ) (most : ℕ) → AreRanks P.grammar rank most
        → (heads : List AnyHead) (links : List AnyLink) → IsAt P heads 0 [] 0
        → HasStood P heads links
        → IsWholeTo P rank heads links
        (record { look = P.place; begins = P.place; rank = most }) }
    ensures on { (P : Parsing) → Fit P.grammar → AreStates P.grammar P.goto → IsGrounded P
        → (rank : ℕ → ℕ) (most : ℕ) → AreRanks P.grammar rank most
        → (heads : List AnyHead) (links : List AnyLink) (heads' : List AnyHead)
        (links' : List AnyLink) (k m : Key) → IsGraph P heads links
        → IsWholeTo P rank heads links k → AreDone P rank heads links heads' links' k
        → HasGrown P heads links heads' links' → AreAdded P rank heads heads' links' m
        → IsNextKey most k m → k.look ≡ m.look → IsWholeTo P rank heads' links' m }
    ensures next_place { (P : Parsing) → Fit P.grammar → AreStates P.grammar P.goto → IsGrounded P
        → (rank : ℕ → ℕ) (most : ℕ) → AreRanks P.grammar rank most
        → (heads : List AnyHead) (links : List AnyLink) (heads' : List AnyHead)
        (links' : List AnyLink) (k m : Key) → IsGraph P heads links
        → IsWholeTo P rank heads links k → AreDone P rank heads links heads' links' k
        → HasGrown P heads links heads' links' → AreAdded P rank heads heads' links' m
        → IsOpened P heads' links' k.look → IsNextKey most k m → m.look ≡ suc k.look
        → IsWholeTo P rank heads' links' m }
{
    laws_hold();
}

/// Keys that follow one another: a lower rank, an earlier start, the next place.
pub fn keys_follow()
    ensures rank { (most look begins rank : ℕ) → IsNextKey most
        (record { look = look; begins = begins; rank = suc rank })
        (record { look = look; begins = begins; rank = rank }) }
    ensures start { (most look begins : ℕ) → IsNextKey most
        (record { look = look; begins = suc begins; rank = 0 })
        (record { look = look; begins = begins; rank = most }) }
    ensures look { (most look : ℕ) → IsNextKey most
        (record { look = look; begins = 0; rank = 0 })
        (record { look = suc look; begins = suc look; rank = most }) }
{}

/// A graph in which nothing is due at some keys is whole up to the key behind them: lower ranks at
/// one start, and earlier starts.
pub fn keys_pass()
    ensures ranks { (P : Parsing) → Fit P.grammar → AreStates P.grammar P.goto → IsGrounded P
        → (rank : ℕ → ℕ) (most : ℕ) → AreRanks P.grammar rank most
        → (heads : List AnyHead) (links : List AnyLink) → IsGraph P heads links
        → (n look begins r : ℕ) → IsWholeTo P rank heads links
        (record { look = look; begins = begins; rank = n + r })
        → ((i : ℕ) → r < i → i ≤ n + r → HasNoneDue P rank heads links
        (record { look = look; begins = begins; rank = i }))
        → IsWholeTo P rank heads links (record { look = look; begins = begins; rank = r }) }
    ensures starts { (P : Parsing) → Fit P.grammar → AreStates P.grammar P.goto → IsGrounded P
        → (rank : ℕ → ℕ) (most : ℕ) → AreRanks P.grammar rank most
        → (heads : List AnyHead) (links : List AnyLink) → IsGraph P heads links
        → (n look begins : ℕ) → IsWholeTo P rank heads links
        (record { look = look; begins = n + begins; rank = most })
        → ((b i : ℕ) → begins < b → b ≤ n + begins → i ≤ most → HasNoneDue P rank heads links
        (record { look = look; begins = b; rank = i }))
        → IsWholeTo P rank heads links
        (record { look = look; begins = begins; rank = most }) }
{
    laws_hold();
}

/// A reduction that stays on the token seen at a head of a sound graph is due, where a way leads
/// down from there over extras and then over so many trees as it takes. These fill its steps, and
/// an item stands before its rule's symbol below them.
pub fn reductions_are_due()
    ensures { (P : Parsing) → Fit P.grammar → AreStates P.grammar P.goto → IsGrounded P
        → (rank : ℕ → ℕ) (heads : List AnyHead) (links : List AnyLink)
        → IsGraph P heads links
        → (k : Key) (number left : ℕ) (p : Production) (h e b : ℕ) (outer inner : List AnyLink)
        (read : List ℕ) (s : AnySymbol) (pad size : ℕ)
        → IsAt P heads h read k.look
        → SeesAt P read k.look (token s pad size)
        → Act P.grammar read s.0 (reduce number)
        → production_at P.grammar number ≡ Some (left, p) → k.rank ≡ rank left
        → IsWay links h outer e → AreExtras (way_trees outer) → IsWay links e inner b
        → 0 < length (way_trees inner) → BeginsFilled (way_trees inner)
        → BeginsFilled (reverse (way_trees inner))
        → length (filling (way_trees inner)) ≡ length p.steps
        → ((low : AnyHead) → slice_get heads b ≡ Some low → low.place ≡ k.begins)
        → (over now : List ℕ) × (end : ℕ)
        × IsDue P rank heads links k number left p h e b outer inner over now end
        × (filling (way_trees inner) ≡ reverse (step_symbols p))
        × StandsBefore P.grammar now left }
{
    laws_hold();
}

/// What a reduction in a sound graph makes can be laid from its lower head to that of its rule: the
/// node over the trees of its way, which is no deeper than the way says, and, from the start of the
/// text, some tree of that depth, where the stack from which runs go on was met. Each extra above
/// is passed over it too. The key's token stands at the end of that stack or past it, and then so
/// does the end of the node.
pub fn reductions_are_laid()
    ensures node { (P : Parsing) → Fit P.grammar → AreStates P.grammar P.goto → IsGrounded P
        → (rank : ℕ → ℕ) (heads : List AnyHead) (links : List AnyLink) → IsGraph P heads links
        → (k : Key) (number left : ℕ) (p : Production) (h e b : ℕ) (outer inner : List AnyLink)
        (over now : List ℕ) (end : ℕ)
        → IsDue P rank heads links k number left p h e b outer inner over now end
        → P.place ≤ k.look → way_depth P number left inner ≤ most_depth
        → Lays P now k.begins
        (node_made P number (reverse (way_trees inner)) ∷ []) end (left ∷ now) }
    ensures end { (P : Parsing) → Fit P.grammar → AreStates P.grammar P.goto → IsGrounded P
        → (rank : ℕ → ℕ) (heads : List AnyHead) (links : List AnyLink) → IsGraph P heads links
        → (k : Key) (number left : ℕ) (p : Production) (h e b : ℕ) (outer inner : List AnyLink)
        (over now : List ℕ) (end : ℕ)
        → IsDue P rank heads links k number left p h e b outer inner over now end
        → P.place ≤ k.look → P.place ≤ end }
    ensures depth { (P : Parsing) → Fit P.grammar → AreStates P.grammar P.goto → IsGrounded P
        → (rank : ℕ → ℕ) (heads : List AnyHead) (links : List AnyLink) → IsGraph P heads links
        → (k : Key) (number left : ℕ) (p : Production) (h e b : ℕ) (outer inner : List AnyLink)
        (over now : List ℕ) (end : ℕ)
        → IsDue P rank heads links k number left p h e b outer inner over now end
        → tree_depth (node_made P number (reverse (way_trees inner)))
        ≤ way_depth P number left inner }
    ensures deepest { (P : Parsing) → Fit P.grammar → AreStates P.grammar P.goto → IsMet P
        → (rank : ℕ → ℕ) (heads : List AnyHead) (links : List AnyLink) → IsGraph P heads links
        → (k : Key) (number left : ℕ) (p : Production) (h e b : ℕ) (outer inner : List AnyLink)
        (over now : List ℕ) (end : ℕ)
        → IsDue P rank heads links k number left p h e b outer inner over now end
        → way_depth P number left inner ≤ most_depth
        → (t : Tree) × Lays (from_start P) now k.begins (t ∷ []) end (left ∷ now)
        × (tree_depth t ≡ way_depth P number left inner) }
    ensures extras { (P : Parsing) → Fit P.grammar → AreStates P.grammar P.goto → IsGrounded P
        → (rank : ℕ → ℕ) (heads : List AnyHead) (links : List AnyLink) → IsGraph P heads links
        → (k : Key) (number left : ℕ) (p : Production) (h e b : ℕ) (outer inner : List AnyLink)
        (over now : List ℕ) (end : ℕ)
        → IsDue P rank heads links k number left p h e b outer inner over now end
        → P.place ≤ k.look → way_depth P number left inner ≤ most_depth
        → (above below : List Tree) (x : Tree) → way_trees outer ≡ above ++ x ∷ below
        → Lays P (left ∷ now) (end + all_spans below) (x ∷ [])
        ((end + all_spans below) + span_of x) (left ∷ now) }
{
    laws_hold();
}

/// On a head at which an extra is passed nothing else is laid, and no node begins there. On one
/// that stands no earlier than a key's token nothing is laid before the key, and no node begins
/// there before it. Head 0 is left out.
pub fn new_heads_have_little()
    ensures extra { (P : Parsing) → Fit P.grammar → AreStates P.grammar P.goto → IsGrounded P
        → (rank : ℕ → ℕ) (k : Key) (read : List ℕ) (from : ℕ) (s : AnySymbol) (pad size : ℕ)
        → P.place ≤ from → (read ≡ [] → ⊥) → PassesAt P read from s pad size
        → (place : ℕ) (now : List ℕ) (t : Tree)
        → LaysBefore P rank k read from (t ∷ []) place now
        → (t ≡ extra_tree s pad size) × (place ≡ from + (pad + size)) × (now ≡ read) }
    ensures none { (P : Parsing) → Fit P.grammar → AreStates P.grammar P.goto → IsGrounded P
        → (read : List ℕ) (from : ℕ) (s : AnySymbol) (pad size : ℕ)
        → P.place ≤ from → (read ≡ [] → ⊥) → PassesAt P read from s pad size
        → (ks : List Tree) (end : ℕ) (over : List ℕ) (extras : List Tree)
        (look number left : ℕ) (p : Production)
        → CanMakeNode P read from ks end over extras look number left p → ⊥ }
    ensures late { (P : Parsing) → Fit P.grammar → AreStates P.grammar P.goto → IsGrounded P
        → (rank : ℕ → ℕ) (k : Key) (read : List ℕ) (from : ℕ)
        → P.place ≤ from → (read ≡ [] → ⊥) → k.look ≤ from
        → (place : ℕ) (now : List ℕ) (t : Tree)
        → LaysBefore P rank k read from (t ∷ []) place now → ⊥ }
    ensures late_nodes { (P : Parsing) → Fit P.grammar → AreStates P.grammar P.goto → IsGrounded P
        → (rank : ℕ → ℕ) (k : Key) (read : List ℕ) (from : ℕ)
        → P.place ≤ from → (read ≡ [] → ⊥) → k.look ≤ from
        → (ks : List Tree) (end : ℕ) (over : List ℕ) (extras : List Tree)
        (look number left : ℕ) (p : Production)
        → CanMakeNode P read from ks end over extras look number left p
        → Earlier (record { look = look; begins = from; rank = rank left }) k → ⊥ }
{
    laws_hold();
}

/// All that runs reach that go through what a stack stands for has a way in a graph that is whole
/// over its layers, which stands for it; no such run comes to a node that is too deep; and what
/// they end with, the graph has, with a tree that is no worse.
pub fn whole_graphs_have_all()
    ensures way { (P : Parsing) → Fit P.grammar → AreStates P.grammar P.goto
        → (first : PackedStack) → IsBegun P first → WasMet P.grammar P.text first
        → (rank : ℕ → ℕ) (most : ℕ) → AreRanks P.grammar rank most
        → (heads : List AnyHead) (links : List AnyLink) (k : Key) → IsGraph P heads links
        → IsWholeTo P rank heads links k → length P.text < k.look → P.place ≤ length P.text
        → (d : Configuration) → GoesThrough P.grammar P.text first d
        → HasWay P heads links 0 d.stack d.place (stack_symbols d.stack) }
    ensures deep { (P : Parsing) → Fit P.grammar → AreStates P.grammar P.goto
        → (first : PackedStack) → IsBegun P first → WasMet P.grammar P.text first
        → (rank : ℕ → ℕ) (most : ℕ) → AreRanks P.grammar rank most
        → (heads : List AnyHead) (links : List AnyLink) (k : Key) → IsGraph P heads links
        → IsWholeTo P rank heads links k → length P.text < k.look → P.place ≤ length P.text
        → (d : Configuration) → GoesThrough P.grammar P.text first d
        → ComesTooDeep P.grammar P.text d → ⊥ }
    ensures accepts { (P : Parsing) → Fit P.grammar → AreStates P.grammar P.goto
        → (first : PackedStack) → IsBegun P first → WasMet P.grammar P.text first
        → (rank : ℕ → ℕ) (most : ℕ) → AreRanks P.grammar rank most
        → (heads : List AnyHead) (links : List AnyLink) (k : Key) → IsGraph P heads links
        → IsWholeTo P rank heads links k → length P.text < k.look → P.place ≤ length P.text
        → (d : Configuration) (u : Tree) → GoesThrough P.grammar P.text first d
        → AcceptsTree P.grammar P.text d u
        → (t : Tree) × GraphAccepts P heads links t × (Better u t → ⊥) }
    ensures stops { (P : Parsing) → Fit P.grammar → AreStates P.grammar P.goto
        → (first : PackedStack) → IsBegun P first → WasMet P.grammar P.text first
        → (rank : ℕ → ℕ) (most : ℕ) → AreRanks P.grammar rank most
        → (heads : List AnyHead) (links : List AnyLink) (k : Key) → IsGraph P heads links
        → IsWholeTo P rank heads links k → length P.text < k.look → P.place ≤ length P.text
        → (d : Configuration) (stop : ℕ) → GoesThrough P.grammar P.text first d
        → StopsAt P.grammar P.text d stop → GraphStopsAt P heads stop }
{
    laws_hold();
}

/// A graph that is sound over a stack that was met is sound from the start of the text. So what it
/// says is so: some run accepts the tree, stops at the place, or comes to a node that is too deep.
pub fn graphs_are_sound()
    ensures start { (P : Parsing) → Fit P.grammar → AreStates P.grammar P.goto → IsMet P
        → (heads : List AnyHead) (links : List AnyLink) → IsGraph P heads links
        → IsGraph (from_start P) heads links }
    ensures accepts { (P : Parsing) → Fit P.grammar → AreStates P.grammar P.goto → IsMet P
        → (heads : List AnyHead) (links : List AnyLink) → IsGraph P heads links
        → (t : Tree) → GraphAccepts P heads links t → SomeAccepts P.grammar P.text t }
    ensures stops { (P : Parsing) → Fit P.grammar → AreStates P.grammar P.goto → IsMet P
        → (heads : List AnyHead) (links : List AnyLink) → IsGraph P heads links
        → (stop : ℕ) → GraphStopsAt P heads stop → SomeStopsAt P.grammar P.text stop }
    ensures deep { (P : Parsing) → Fit P.grammar → AreStates P.grammar P.goto → IsMet P
        → (rank : ℕ → ℕ) (heads : List AnyHead) (links : List AnyLink)
        → IsGraph P heads links
        → GraphIsDeep P rank heads links → SomeIsTooDeep P.grammar P.text }
{
    laws_hold();
}

/// The best tree and the last stop of a whole graph of all runs are the outcome of the text.
pub fn graphs_tell_the_outcome()
    ensures best { (P : Parsing) → Fit P.grammar → AreStates P.grammar P.goto → P.layers ≡ []
        → P.place ≡ 0 → (rank : ℕ → ℕ) (most : ℕ) → AreRanks P.grammar rank most
        → (heads : List AnyHead) (links : List AnyLink) (k : Key) → IsGraph P heads links
        → IsWholeTo P rank heads links k → length P.text < k.look
        → (t : Tree) → IsBestOfGraph P heads links t → IsBestTree P.grammar P.text t }
    ensures last { (P : Parsing) → Fit P.grammar → AreStates P.grammar P.goto → P.layers ≡ []
        → P.place ≡ 0 → (rank : ℕ → ℕ) (most : ℕ) → AreRanks P.grammar rank most
        → (heads : List AnyHead) (links : List AnyLink) (k : Key) → IsGraph P heads links
        → IsWholeTo P rank heads links k → length P.text < k.look
        → (stop : ℕ) → IsLastOfGraph P heads links stop
        → IsLastStop P.grammar P.text stop }
{
    laws_hold();
}

//! Laws of the definitions, each a function without a body: what other crates may use of them.

ghost use Rattle.std.specs.Prelude.{◌≡◌, ℕ, List, [], ◌∷◌, map, false, Option, Some, None};
ghost use Rattle.ts_base.specs.Bytes.{Bytes};
ghost use Rattle.ts_core.specs.declared.flat.FlatGrammar.{FlatGrammar};
ghost use Rattle.ts_core.specs.declared.flat.Production.{Production};
ghost use Rattle.spec_grammar.specs.Symbols.{start_symbol, production_at, is_repetition};
ghost use Rattle.spec_lexing.specs.Lexing.{Found};
ghost use Rattle.spec_tables.specs.Actions.{Act, shift, reduce, accept};
ghost use Rattle.spec_tables.specs.Fit.{Fit};
ghost use Rattle.spec_tables.specs.Items.{end_token, IsToken};
ghost use Rattle.spec_trees.specs.declared.tree.Tree.{Tree};
ghost use Rattle.spec_trees.specs.declared.tree.Stretch.{Stretch};
ghost use Rattle.spec_trees.specs.Trees.{bare};
ghost use Rattle.spec_trees.specs.Made.{as_extra, reduced, accepted, lengthened, bare_stretch, form_of, of_next};
ghost use Rattle.spec_runs.specs.BareTrees.{KeepsAll};
ghost use Rattle.spec_runs.specs.Configurations.{Configuration, NextIs, IsReduction};
ghost use Rattle.spec_runs.specs.Moves.{StandsBefore, EndsWithProduction, RepeatsItself, IsUnused};
ghost use Rattle.spec_runs.specs.Outcomes.{FreshOutcome, Fresh, AreOneOutcome};

use spec_lexing::one_answer;

/// A configuration sees one thing.
pub fn one_sight()
    ensures { (g : FlatGrammar) (text : Bytes) (c : Configuration) (f h : Found)
        → NextIs g text c f → NextIs g text c h → f ≡ h }
{
    one_answer();
}

/// A reduction makes one node, and leaves one stack.
pub fn one_reduction()
    ensures { (g : FlatGrammar) (number : ℕ) (stack : List Tree) (n m : Tree)
        (after other : List Tree)
        → IsReduction g number stack n after → IsReduction g number stack m other
        → (n ≡ m) × (after ≡ other) }
{}

/// A text has one outcome.
pub fn one_outcome()
    ensures { (g : FlatGrammar) (text : Bytes) (o p : FreshOutcome)
        → Fresh g text o → Fresh g text p → AreOneOutcome o p }
{}

/// What a bare tree is, and that nodes over bare children are the nodes over the children, bare.
pub fn bare_trees()
    ensures keeps { (t : Tree) → KeepsAll t }
    ensures once { (t : Tree) → bare (bare t) ≡ bare t }
    ensures extra { (t : Tree) → bare (as_extra t) ≡ as_extra (bare t) }
    ensures reduced { (g : FlatGrammar) (number extent : ℕ) (state : Option ℕ) (ts : List Tree)
        → bare (reduced g number extent state ts) ≡ bare (reduced g number 0 None (map bare ts)) }
    ensures accepted { (root : Tree) (before after : List Tree) (extent : ℕ)
        → bare (accepted root before after extent)
        ≡ bare (accepted (bare root) (map bare before) (map bare after) 0) }
    ensures lengthened { (before : Tree) (more : Stretch) (extent : ℕ) (state : Option ℕ)
        → bare (lengthened before more extent state)
        ≡ bare (lengthened (bare before) (bare_stretch more) 0 None) }
{}

/// Where each move stands: what was read, and what may come after it.
pub fn moves_have_their_place()
    ensures shift { (g : FlatGrammar) (read : List ℕ) (token : ℕ) → Act g read token shift
        → IsToken g token × StandsBefore g read token }
    ensures reduce { (g : FlatGrammar) (read : List ℕ) (token number : ℕ)
        → Act g read token (reduce number) → EndsWithProduction g read number }
    ensures nothing { (g : FlatGrammar) → Fit g → (read : List ℕ) (token number left : ℕ)
        (p : Production)
        → Act g read token (reduce number) → production_at g number ≡ Some (left, p)
        → p.steps ≡ [] → read ≡ [] }
    ensures accept { (g : FlatGrammar) (read : List ℕ) (token : ℕ) → Act g read token accept
        → (token ≡ end_token) × (read ≡ start_symbol g ∷ []) }
{}

/// An empty production is one of the start rule, which is then a step of no production.
pub fn empty_rules_are_unused()
    ensures start { (g : FlatGrammar) → Fit g → (number left : ℕ) (p : Production)
        → production_at g number ≡ Some (left, p) → p.steps ≡ [] → left ≡ start_symbol g }
    ensures unused { (g : FlatGrammar) → Fit g → (number left : ℕ) (p : Production)
        → production_at g number ≡ Some (left, p) → p.steps ≡ [] → IsUnused g left }
{}

/// A production that lengthens a repetition has the repetition as its first step, and others behind
/// it.
pub fn repetitions_repeat()
    ensures { (g : FlatGrammar) → Fit g → (number left alternative : ℕ) (p : Production)
        → production_at g number ≡ Some (left, p) → form_of g left number ≡ of_next alternative
        → RepeatsItself left p }
{}

/// The start rule is no repetition.
pub fn start_is_no_repetition()
    ensures { (g : FlatGrammar) → Fit g → is_repetition g (start_symbol g) ≡ false }
{}

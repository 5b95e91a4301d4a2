//! Laws of the definitions, each a function without a body: what other crates may use of them.

ghost use Rattle.std.specs.Prelude.{◌≡◌, ℕ, List, ◌∷◌, ◌++◌, length, reverse, Some};
ghost use Rattle.std.specs.List.{Contains};
ghost use Rattle.ts_base.specs.Bytes.{Bytes};
ghost use Rattle.ts_core.specs.declared.flat.FlatGrammar.{FlatGrammar};
ghost use Rattle.ts_core.specs.declared.flat.Production.{Production};
ghost use Rattle.ts_core.specs.declared.symbol.Symbol.{Symbol};
ghost use Rattle.spec_grammar.specs.Symbols.{production_at};
ghost use Rattle.spec_lexing.specs.Lexing.{token};
ghost use Rattle.spec_tables.specs.Actions.{Act, Reduces, reduce};
ghost use Rattle.spec_tables.specs.Fit.{Fit};
ghost use Rattle.spec_tables.specs.Items.{Item};
ghost use Rattle.spec_trees.specs.declared.tree.Tree.{Tree};
ghost use Rattle.spec_trees.specs.Made.{step_symbols};
ghost use Rattle.spec_runs.specs.Configurations.{Configuration, stack_symbols, AreValidTokens, HasMove, IsReduction, NextIs};

use spec_lexing::fewer_tokens;
use spec_runs::{bare_trees, empty_rules_are_unused, moves_have_their_place};

/// Where a reduction is at hand on a token, some move stays on it.
pub fn some_move_stays()
    ensures { (g : FlatGrammar) (read : List ℕ) (t : ℕ) (i : Item) → Reduces g read t i
        → (HasMove g read t → ⊥) → ⊥ }
{}

/// A token on which some move stays after a reduction is one on which the reduction is at hand: the
/// sets of valid items are those of LR(1), none of which are put together (Knuth).
pub fn no_new_tokens()
    ensures { (g : FlatGrammar) → Fit g → (number left t : ℕ) (p : Production) (earlier : List ℕ)
        → production_at g number ≡ Some (left, p)
        → HasMove g (left ∷ earlier) t
        → Reduces g (reverse (step_symbols p) ++ earlier) t
        (record { line = Some number; dot = length p.steps; token = t }) }
{
    empty_rules_are_unused();
}

/// After a reduction on a token the same token is seen again, if it is still valid there: the
/// tokens that are valid after it were valid before it.
pub fn same_token_again()
    ensures { (g : FlatGrammar) → Fit g → (text : Bytes) (c : Configuration) (s : Symbol)
        (pad size number : ℕ) (node : Tree) (after : List Tree) (valid : List Symbol)
        → NextIs g text c (token s pad size)
        → Act g (stack_symbols c.stack) s.0 (reduce number)
        → IsReduction g number c.stack node after
        → AreValidTokens g (stack_symbols after) valid → Contains valid s
        → NextIs g text (record { stack = after; place = c.place }) (token s pad size) }
{
    bare_trees();
    fewer_tokens();
    moves_have_their_place();
    some_move_stays();
    no_new_tokens();
}

//! Laws of fit grammars: no value goes in or out.

ghost use Rattle.std.specs.Prelude.{◌≡◌, ℕ, [], Some, slice_get};
ghost use Rattle.std.specs.List.{Contains};
ghost use Rattle.ts_core.specs.declared.flat.FlatGrammar.{FlatGrammar};
ghost use Rattle.ts_core.specs.declared.flat.FlatRule.{FlatRule};
ghost use Rattle.ts_core.specs.declared.flat.Production.{Production};
ghost use Rattle.ts_fit.specs.Misfits.{IsUnusedStart};
ghost use Rattle.spec_tables.specs.Fit.{Fit};

/// In a fit grammar only the start rule can have an empty production, and then no step is the start
/// rule.
pub fn only_an_unused_start_is_empty()
    ensures { (f : FlatGrammar) (place : ℕ) (r : FlatRule) (p : Production) → Fit f
        → slice_get f.rules place ≡ Some r → Contains r.productions p → p.steps ≡ []
        → IsUnusedStart f place }
{}

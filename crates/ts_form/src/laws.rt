//! Laws of the definitions: a grammar has one normal form, and what is counted of it does not
//! depend on its numbers.
ghost use Rattle.std.specs.Prelude.{◌≡◌};
ghost use Rattle.ts_core.specs.declared.flat.FlatGrammar.{FlatGrammar as AnyForm};
ghost use Rattle.ts_core.specs.declared.rule.Grammar.{Grammar as AnyGrammar};
ghost use Rattle.ts_form.specs.Limits.{HasManyProductions, HasManySteps};
ghost use Rattle.ts_pattern.specs.Reads.{Reads};
ghost use Rattle.ts_productions.specs.Grammars.{CountsLong, CountsMany};
ghost use Rattle.ts_rules.specs.Causes.{IsUndefined, names_used};
ghost use Rattle.ts_rules.specs.FirstSights.{Clear};
ghost use Rattle.ts_rules.specs.Normal.{IsNormal};
ghost use Rattle.ts_rules.specs.Numbers.{AreLists, AreNumbers, Lists, Numbers};

/// A grammar that uses no undefined name has one normal form at most.
pub fn normal_forms_agree()
    ensures { (g : AnyGrammar) (f h : AnyForm) → Clear (IsUndefined g) (names_used g)
        → IsNormal Reads g f → IsNormal Reads g h → f ≡ h }
{
    ts_pattern::one_pattern();
}

/// A grammar that uses no undefined name has too much of what is counted by all its numbers or by
/// none.
pub fn counts_agree()
    ensures many { (g : AnyGrammar) (n : Numbers) (x : Lists) → Clear (IsUndefined g) (names_used g)
        → AreLists g x → AreNumbers g n x → HasManyProductions g → CountsMany n x }
    ensures long { (g : AnyGrammar) (n : Numbers) (x : Lists) → Clear (IsUndefined g) (names_used g)
        → AreLists g x → AreNumbers g n x → HasManySteps g → CountsLong n x }
{}

//! Laws of the definitions: a grammar has one normal form, or it is refused for one cause.
ghost use Rattle.std.specs.Prelude.{◌≡◌};
ghost use Rattle.ts_core.specs.declared.flat.FlatGrammar.{FlatGrammar as AnyForm};
ghost use Rattle.ts_core.specs.declared.rule.Grammar.{Grammar as AnyGrammar};
ghost use Rattle.ts_pattern.specs.Reads.{Reads};
ghost use Rattle.ts_normalise.specs.declared.fault.NFault.{NFault as AnyFault};
ghost use Rattle.ts_normalise.specs.Refusals.{Flattens, IsRefused};
ghost use Rattle.ts_rules.specs.Causes.{IsUndefined, names_used};
ghost use Rattle.ts_rules.specs.FirstSights.{Clear};
ghost use Rattle.ts_rules.specs.Normal.{IsNormal};

/// A grammar that uses no undefined name has one normal form at most, and what is flattened has
/// one.
pub fn one_normal_form()
    ensures normal { (g : AnyGrammar) (f h : AnyForm) → Clear (IsUndefined g) (names_used g)
        → IsNormal Reads g f → IsNormal Reads g h → f ≡ h }
    ensures flattened { (g : AnyGrammar) (f h : AnyForm) → Flattens g f → Flattens g h → f ≡ h }
{
    ts_form::normal_forms_agree();
}

/// A grammar is refused for one cause at most.
pub fn one_refusal()
    ensures { (g : AnyGrammar) (e h : AnyFault) → IsRefused g e → IsRefused g h → e ≡ h }
{
    ts_form::normal_forms_agree();
    ts_pattern::one_fault();
}

/// What is refused is not flattened.
pub fn refused_is_not_flattened()
    ensures { (g : AnyGrammar) (e : AnyFault) (f : AnyForm) → IsRefused g e → Flattens g f → ⊥ }
{}

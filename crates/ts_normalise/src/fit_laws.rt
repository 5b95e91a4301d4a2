//! Laws of the definitions: the normal form of a grammar that is not refused is fit. No value goes
//! in or out.
ghost use Rattle.std.specs.Prelude.{ℕ, ◌≡◌, ◌≤◌, All, List, Some, length, slice_get};
ghost use Rattle.std.specs.List.{Contains};
ghost use Rattle.spec_tables.specs.Fit.{AreRising, AreShort, Fit, IfThere, IsFitEntry, IsFitProduction, IsFitRe, IsFitRule, IsFitToken, IsHiddenSymbol, IsShort, IsSymbol, IsToken, all_positions, most_names, most_positions, most_positions_in_all, most_productions, most_steps, most_symbols, positions, productions_of, symbols_of};
ghost use Rattle.ts_core.specs.declared.flat.Entry.{Entry};
ghost use Rattle.ts_core.specs.declared.flat.FlatGrammar.{FlatGrammar as AnyForm};
ghost use Rattle.ts_core.specs.declared.flat.FlatRule.{FlatRule as AnyRule};
ghost use Rattle.ts_core.specs.declared.flat.Production.{Production};
ghost use Rattle.ts_core.specs.declared.flat.TokenDef.{TokenDef};
ghost use Rattle.ts_core.specs.declared.rule.Grammar.{Grammar as AnyGrammar};
ghost use Rattle.ts_core.specs.declared.symbol.Symbol.{Symbol};
ghost use Rattle.ts_fit.specs.Misfits.{AreFitRepetitions};
ghost use Rattle.ts_normalise.specs.Refusals.{Flattens};
ghost use Rattle.ts_normalise.specs.Texts.{HasFitTexts};
ghost use Rattle.ts_rules.specs.FileGrammar.{IsFileGrammar};

/// A grammar that is not refused has a normal form within all limits.
pub fn forms_are_within_limits()
    ensures symbols { (g : AnyGrammar) (f : AnyForm) → Flattens g f → symbols_of f ≤ most_symbols }
    ensures fields { (g : AnyGrammar) (f : AnyForm) → Flattens g f
        → length f.fields ≤ most_names }
    ensures precs { (g : AnyGrammar) (f : AnyForm) → Flattens g f → length f.precs ≤ most_names }
    ensures productions { (g : AnyGrammar) (f : AnyForm) → Flattens g f
        → productions_of f ≤ most_productions }
    ensures steps { (g : AnyGrammar) (f : AnyForm) (r : AnyRule) (p : Production) → Flattens g f
        → Contains f.rules r → Contains r.productions p → length p.steps ≤ most_steps }
    ensures positions { (g : AnyGrammar) (f : AnyForm) (d : TokenDef) → Flattens g f
        → Contains f.tokens d → positions d.re ≤ most_positions }
    ensures positions_in_all { (g : AnyGrammar) (f : AnyForm) → Flattens g f
        → all_positions f ≤ most_positions_in_all }
{}

/// The productions of a file grammar's normal form are fit: their steps name what is there.
pub fn forms_have_fit_productions()
    ensures { (g : AnyGrammar) (f : AnyForm) (r : AnyRule) (p : Production) → IsFileGrammar g
        → Flattens g f → Contains f.rules r → Contains r.productions p → IsFitProduction f p }
{}

/// The repetitions of a file grammar's normal form have the form of one.
pub fn forms_have_fit_repetitions()
    ensures { (g : AnyGrammar) (f : AnyForm) → IsFileGrammar g → Flattens g f
        → AreFitRepetitions f }
{}

/// The rules of a file grammar's normal form are fit.
pub fn forms_have_fit_rules()
    ensures { (g : AnyGrammar) (f : AnyForm) (k : ℕ) (r : AnyRule) → IsFileGrammar g
        → Flattens g f → slice_get f.rules k ≡ Some r → IsFitRule f k r }
{}

/// The names in a file grammar's normal form are short.
pub fn forms_have_short_names()
    ensures name { (g : AnyGrammar) (f : AnyForm) → IsFileGrammar g → Flattens g f
        → IsShort f.name }
    ensures fields { (g : AnyGrammar) (f : AnyForm) → IsFileGrammar g → Flattens g f
        → AreShort f.fields }
    ensures precs { (g : AnyGrammar) (f : AnyForm) → IsFileGrammar g → Flattens g f
        → AreShort f.precs }
{}

/// The lists of symbols of a file grammar's normal form are fit.
pub fn forms_have_fit_lists()
    ensures extras { (g : AnyGrammar) (f : AnyForm) → IsFileGrammar g → Flattens g f
        → IsShort f.extras × All (IsToken f) f.extras }
    ensures word { (g : AnyGrammar) (f : AnyForm) → Flattens g f → IfThere (IsToken f) f.word }
    ensures conflicts { (g : AnyGrammar) (f : AnyForm) → IsFileGrammar g → Flattens g f
        → AreShort f.conflicts × All (λ (set : List Symbol). All (IsSymbol f) set) f.conflicts }
    ensures precedences { (g : AnyGrammar) (f : AnyForm) → IsFileGrammar g → Flattens g f
        → AreShort f.precedences
        × All (λ (list : List Entry). All (IsFitEntry f) list) f.precedences }
    ensures supertypes { (g : AnyGrammar) (f : AnyForm) → Flattens g f
        → All (IsHiddenSymbol f) f.supertypes × AreRising f.supertypes }
{}

/// The tokens and separators of a file grammar's normal form are fit, where its texts are.
pub fn forms_have_fit_tokens()
    ensures tokens { (g : AnyGrammar) (f : AnyForm) → IsFileGrammar g → HasFitTexts g
        → Flattens g f → All (IsFitToken f) f.tokens }
    ensures separators { (g : AnyGrammar) (f : AnyForm) → IsFileGrammar g → HasFitTexts g
        → Flattens g f → IsShort f.separators × All IsFitRe f.separators }
{
    ts_pattern::spellings_are_formed();
}

/// The normal form of a file grammar that is not refused is fit, where its texts are.
pub fn normal_forms_are_fit()
    ensures { (g : AnyGrammar) (f : AnyForm) → IsFileGrammar g → HasFitTexts g → Flattens g f
        → Fit f }
{
    ts_pattern::spellings_are_formed();
}

//! Laws of the definitions: sources and the grammar that they are of have the same limits, and an
//! order of inlining in the grammar is one of the sources.
ghost use Rattle.std.specs.Prelude.{◌≡◌, ◌↔◌, ◌+◌, ◌++◌, ◌≤◌, List, length, map, sum};
ghost use Rattle.std.specs.List.{Contains};
ghost use Rattle.spec_tables.specs.Fit.{most_productions, most_steps, again_after};
ghost use Rattle.ts_core.specs.declared.flat.Production.{Production};
ghost use Rattle.ts_core.specs.declared.rule.Grammar.{Grammar as AnyGrammar};
ghost use Rattle.ts_core.specs.declared.rule.Rule.{Rule};
ghost use Rattle.ts_productions.specs.Grammars.{AreSourcesOf, IsInlineOrder, CountsMany, CountsLong, symbol_alternatives};
ghost use Rattle.ts_productions.specs.Limits.{AreMany, AreFewSources, SomeIsLong, AllAreShort};
ghost use Rattle.ts_productions.specs.Roots.{AreOrderedSources};
ghost use Rattle.ts_productions.specs.declared.sources.Sources.{Sources as AnySources};
ghost use Rattle.ts_rules.specs.Alternatives.{Alternatives};
ghost use Rattle.ts_rules.specs.Causes.{IsUndefined, names_used};
ghost use Rattle.ts_rules.specs.FirstSights.{Clear, Each};
ghost use Rattle.ts_rules.specs.Numbers.{AreLists, AreNumbers, Lists, Numbers, alts};
ghost use Rattle.ts_rules.specs.Productions.{AllBecome, AreProductions, AreRepeated, IsInner, symbol};
ghost use Rattle.ts_rules.specs.Sights.{NamedRule};

/// The limits of sources are those of their grammar, inlining comes to an end, and what is within
/// the limits does not pass them.
pub fn limits_of_sources()
    ensures many { (n : Numbers) (x : Lists) (s : AnySources) → AreSourcesOf n x s
        → AreMany s ↔ CountsMany n x }
    ensures long { (n : Numbers) (x : Lists) (s : AnySources) → AreSourcesOf n x s
        → SomeIsLong s ↔ CountsLong n x }
    ensures becomes { (n : Numbers) (x : Lists) (s : AnySources) → AreSourcesOf n x s
        → AreOrderedSources s
        → (all : Alternatives) × AllBecome (IsInner n x) (symbol_alternatives n x) all }
    ensures few { (s : AnySources) → AreOrderedSources s → AreFewSources s → AreMany s → ⊥ }
    ensures short { (s : AnySources) → AreOrderedSources s → AllAreShort s → SomeIsLong s → ⊥ }
{}

/// Sources whose order is that of inlining in their grammar are ordered.
pub fn ordered_sources()
    ensures { (g : AnyGrammar) (n : Numbers) (x : Lists) (s : AnySources) → AreLists g x
        → AreNumbers g n x → Clear (IsUndefined g) (names_used g) → AreSourcesOf n x s
        → IsInlineOrder g x s.order.now → AreOrderedSources s }
{}

/// Productions within the limits are few and short.
pub fn few_productions()
    ensures few { (n : Numbers) (x : Lists) (s : AnySources) (own repeated : List (List Production))
        → AreSourcesOf n x s → AreOrderedSources s → AreFewSources s
        → Each (λ rule found. AreProductions n x (alts n rule.1) found) x.rules own
        → Each (AreRepeated n x) x.contents repeated
        → sum (map length own) + sum (map length repeated) ≤ most_productions }
    ensures short { (n : Numbers) (x : Lists) (s : AnySources) (rule : NamedRule)
        (found : List Production) (p : Production)
        → AreSourcesOf n x s → AreOrderedSources s → AllAreShort s → Contains x.rules rule
        → AreProductions n x (alts n rule.1) found → Contains found p
        → length p.steps ≤ most_steps }
    ensures repeated_short { (n : Numbers) (x : Lists) (s : AnySources) (content : Rule)
        (found : List Production) (p : Production)
        → AreSourcesOf n x s → AreOrderedSources s → AllAreShort s → Contains x.contents content
        → AreRepeated n x content found → Contains found p
        → length p.steps ≤ most_steps }
{}

/// The second half of a repetition's productions is the first behind the repetition itself.
pub fn repeated_halves()
    ensures { (n : Numbers) (x : Lists) (s : AnySources) (content : Rule)
        (found : List Production)
        → AreSourcesOf n x s → AreOrderedSources s → Contains x.contents content
        → AreRepeated n x content found
        → (once : List Production)
        × (found ≡ once ++ map (again_after (symbol (n.repetition content))) once) }
{}

//! The token that is taken at a place: the best of those that are no keywords, and the best
//! keyword, go in.
ghost use Rattle.std.specs.Prelude.{◌≡◌, ◌↔◌, ◌<◌, ◌<ℤ◌, ◌⊎◌, ℕ, Bool, List, Some, None, IsTrue};
ghost use Rattle.ts_base.specs.Bytes.{Bytes};
ghost use Rattle.ts_core.specs.declared.flat.FlatGrammar.{FlatGrammar as AnyGrammar};
ghost use Rattle.ts_core.specs.declared.flat.TokenDef.{TokenDef as AnyToken};
ghost use Rattle.ts_core.specs.declared.symbol.Symbol.{Symbol as AnySymbol};
ghost use Rattle.ts_lexer.specs.declared.rules.Kind.{Kind as AnyKind};
ghost use Rattle.ts_lexer.specs.declared.scanned.Match.{Match as AnyMatch};
ghost use Rattle.ts_lexer.specs.Rules.{kind_of, IsRules, Over};
ghost use Rattle.ts_lexer.specs.Judged.{IsTokenPart};
ghost use Rattle.ts_lexer.specs.Scanned.{BeatsBy, IsBetterMatch, IsScanned};
ghost use Rattle.ts_lexer.specs.Runs.{IsAll};

use crate::judging::kind_at;
use crate::rules::{Kind, Rules, is_over};
use crate::scanned::{Match, Progress, Scanned};

/// Whether the first of two matches is taken before the second, or is that one.
fn beats(a: &Kind, m: &Match, b: &Kind, n: &Match) -> bool
    ensures { IsTrue result ↔ BeatsBy a.now m.now.symbol m.now.size b.now n.now.symbol n.now.size }
{
    if a.prec != b.prec {
        return b.prec < a.prec;
    }
    if m.size != n.size {
        return n.size < m.size;
    }
    is_over(a, m.symbol, b, n.symbol)
}

/// The one of two matches that is taken.
fn taken(rules: &Rules, m: Match, n: Match) -> Match
    ensures { (g : AnyGrammar) (j k : ℕ) (a b : AnyToken) → IsRules g rules.now
        → IsTokenPart g j m.symbol a
        → IsTokenPart g k n.symbol b → IsBetterMatch (kind_of a) m (kind_of b) n result }
{
    if beats(&kind_at(rules, m.symbol), &m, &kind_at(rules, n.symbol), &n) {
        return m;
    }
    n
}

/// The token that is taken, of what was found.
fn chosen(rules: &Rules, progress: &Progress) -> Option<Match>
    ensures plain { progress.now.keyword ≡ None → result ≡ progress.now.plain }
    ensures keyword { (s : AnySymbol) → progress.now.keyword ≡ Some s → progress.now.plain ≡ None
        → result ≡ Some (record { symbol = s; size = progress.now.word }) }
    ensures both { (g : AnyGrammar) (j k : ℕ) (m : AnyMatch) (s : AnySymbol) (a b : AnyToken)
        → progress.now.keyword ≡ Some s → progress.now.plain ≡ Some m → IsRules g rules.now
        → IsTokenPart g j m.symbol a → IsTokenPart g k s b
        → (n : AnyMatch) × (result ≡ Some n)
        × IsBetterMatch (kind_of a) m (kind_of b)
        (record { symbol = s; size = progress.now.word }) n }
{
    let Some(symbol) = progress.keyword else {
        return progress.plain;
    };
    let keyword = Match {
        symbol,
        size: progress.word,
    };
    let Some(plain) = progress.plain else {
        return Some(keyword);
    };
    Some(taken(rules, plain, keyword))
}

/// What is known, once all has been found and so many bytes were looked at.
pub(crate) fn scanned(rules: &Rules, progress: &Progress, reach: usize) -> Scanned
    ensures { (g : AnyGrammar) (valid : List AnySymbol) (first : Bool) (rest : Bytes)
        → IsRules g rules.now → IsAll g valid first rest progress.now reach
        → IsScanned g valid first rest result }
{
    Scanned {
        best: chosen(rules, progress),
        separator: progress.separator,
        reach,
    }
}

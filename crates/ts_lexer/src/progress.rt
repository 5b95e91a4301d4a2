//! What was found at a place: the verdict on one character more goes in, and what it adds comes
//! out.
ghost use Rattle.std.specs.Prelude.{◌≡◌, ℕ, List, Bool, true, false, Some, None, IsTrue};
ghost use Rattle.ts_base.specs.Bytes.{Bytes};
ghost use Rattle.ts_core.specs.declared.flat.FlatGrammar.{FlatGrammar as AnyGrammar};
ghost use Rattle.ts_core.specs.declared.flat.TokenDef.{TokenDef as AnyToken};
ghost use Rattle.ts_core.specs.declared.symbol.Symbol.{Symbol as AnySymbol};
ghost use Rattle.ts_lexer.specs.declared.scanned.Match.{Match as AnyMatch};
ghost use Rattle.ts_lexer.specs.Rules.{kind_of, IsRules};
ghost use Rattle.ts_lexer.specs.Judged.{IsTokenPart, Knows};
ghost use Rattle.ts_lexer.specs.Scanned.{IsLonger, IsStep, PartMatches, Sofar};

use crate::judging::kind_at;
use crate::rules::Rules;
use crate::scanned::{Match, Progress};
use crate::verdict::Verdict;
use ts_core::Symbol;

/// Notes a token that matches with more bytes than those before, where there is one.
fn note_plain(rules: &Rules, plain: &mut Option<Match>, pick: Option<Symbol>, size: usize)
    ensures none { pick ≡ None → plain.new ≡ plain.old }
    ensures first { (s : AnySymbol) → pick ≡ Some s → plain.old ≡ None
        → plain.new ≡ Some (record { symbol = s; size = size }) }
    ensures more { (g : AnyGrammar) (j k : ℕ) (m : AnyMatch) (s : AnySymbol) (a b : AnyToken)
        → plain.old ≡ Some m
        → pick ≡ Some s → IsRules g rules.now → IsTokenPart g j m.symbol a → IsTokenPart g k s b
        → (n : AnyMatch) × (plain.new ≡ Some n)
        × IsLonger a b m (record { symbol = s; size = size }) n }
{
    let Some(symbol) = pick else {
        return;
    };
    let new = Match { symbol, size };
    let Some(best) = *plain else {
        *plain = Some(new);
        return;
    };
    if kind_at(rules, symbol).prec < kind_at(rules, best.symbol).prec {
        return;
    }
    *plain = Some(new);
}

fn size_of(there: bool, new: usize, old: usize) -> usize
    ensures yes { there ≡ true → result ≡ new }
    ensures no { there ≡ false → result ≡ old }
{
    if there { new } else { old }
}

fn keyword_of(there: bool, new: Option<Symbol>, old: Option<Symbol>) -> Option<Symbol>
    ensures yes { there ≡ true → result ≡ new }
    ensures no { there ≡ false → result ≡ old }
{
    if there { new } else { old }
}

/// Whether the characters are no word and no separator.
fn is_plain(verdict: &Verdict) -> bool
    ensures word { IsTrue result → verdict.now.word ≡ false }
    ensures separator { IsTrue result → verdict.now.separator ≡ false }
{
    if verdict.word {
        return false;
    }
    !verdict.separator
}

/// Notes what was found with one character more, or with more of them over which the verdict
/// stayed, after which so many bytes have been read.
pub(crate) fn advance(rules: &Rules, progress: &mut Progress, verdict: &Verdict, size: usize)
    ensures silent { verdict.now.plain ≡ None → verdict.now.word ≡ false
        → verdict.now.separator ≡ false → progress.new ≡ progress.old }
    ensures sofar { (g : AnyGrammar) (valid : List AnySymbol) (first : Bool) (rest : Bytes)
        (bound : ℕ) (w : List ℕ)
        → IsRules g rules.now → IsStep g rest bound size w → Knows g valid first w verdict.now
        → Sofar g valid first (PartMatches g rest) bound progress.old
        → Sofar g valid first (PartMatches g rest) size progress.new }
{
    note_plain(rules, &mut progress.plain, verdict.plain, size);
    if is_plain(verdict) {
        return;
    }
    progress.word = size_of(verdict.word, size, progress.word);
    progress.keyword = keyword_of(verdict.word, verdict.keyword, progress.keyword);
    progress.separator = size_of(verdict.separator, size, progress.separator);
}

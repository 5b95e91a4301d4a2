//! The valid tokens of a place and a part of an automaton in; what the part is for them out.
ghost use Rattle.std.specs.Prelude.{◌≡◌, ◌<◌, ◌↔◌, ◌&&◌, ◌||◌, not, ℕ, suc, List, Bool, true, false, Some, IsTrue, slice_get, length};
ghost use Rattle.ts_core.specs.declared.flat.FlatGrammar.{FlatGrammar as AnyGrammar};
ghost use Rattle.ts_core.specs.declared.symbol.Symbol.{Symbol as AnySymbol};
ghost use Rattle.ts_lexer.specs.Rules.{IsRules};
ghost use Rattle.ts_lexer.specs.Views.{IsView, IsRole};

use crate::rules::Rules;
use ts_core::Symbol;

/// The valid tokens of a place.
#[derive(Debug, Drop)]
pub(crate) struct View {
    /// Whether each token is valid, by its part.
    pub marks: Vec<bool>,
    /// Whether a keyword is valid.
    pub keyworded: bool,
}

/// What a part is for a view.
#[derive(Clone, Copy, Debug)]
pub(crate) struct Role {
    /// Whether its fronts count.
    pub wanted: bool,
    /// Whether it may be taken and is no keyword.
    pub plain: bool,
    /// Whether it is a keyword that may be taken.
    pub keyword: bool,
    pub word: bool,
    pub separator: bool,
}

pub(crate) fn both_hold(a: bool, b: bool) -> bool
    ensures { result ≡ (a && b) }
{
    a && b
}

pub(crate) fn either_holds(a: bool, b: bool) -> bool
    ensures { result ≡ (a || b) }
{
    a || b
}

fn fails(a: bool) -> bool
    ensures { result ≡ not a }
{
    !a
}

/// Whether a part is marked.
pub(crate) fn is_marked(marks: &[bool], part: usize) -> bool
    ensures { IsTrue result ↔ (slice_get marks.now part ≡ Some true) }
{
    if part < marks.len() {
        return marks[part];
    }
    false
}

/// Whether a part is the word token.
fn is_word(word: Option<Symbol>, part: usize) -> bool
    ensures { IsTrue result
        ↔ ((symbol : AnySymbol) × (word ≡ Some symbol) × (symbol.0 ≡ suc part)) }
{
    let Some(symbol) = word else {
        return false;
    };
    if symbol.0 == 0 {
        return false;
    }
    (symbol.0 - 1) as usize == part
}

/// What a part is at the first place that is tried, or at a later one.
pub(crate) fn role_of(rules: &Rules, view: &View, first: bool, part: usize) -> Role
    ensures { (g : AnyGrammar) (valid : List AnySymbol) → IsRules g rules.now
        → IsView g valid view.now → IsRole g valid first part result }
{
    let count = rules.kinds.len();
    if part >= count {
        let separator = is_below(part, rules.parts);
        return beyond(separator);
    }
    let kind = rules.kinds[part];
    let valid = is_marked(view.marks.as_slice(), part);
    let later = fails(kind.immediate);
    let allowed = either_holds(first, later);
    let stands = both_hold(valid, allowed);
    let word = is_word(rules.word, part);
    let by_word = both_hold(view.keyworded, word);
    let wanted = either_holds(valid, by_word);
    let no_keyword = fails(kind.keyword);
    let plain = both_hold(stands, no_keyword);
    let keyword = both_hold(stands, kind.keyword);
    Role {
        wanted,
        plain,
        keyword,
        word,
        separator: false,
    }
}

fn is_below(a: usize, b: usize) -> bool
    ensures { IsTrue result ↔ (a < b) }
{
    a < b
}

/// What a part is that is no token.
fn beyond(separator: bool) -> Role
    ensures { result ≡ record {
      wanted = separator;
      plain = false;
      keyword = false;
      word = false;
      separator = separator;
    } }
{
    Role {
        wanted: separator,
        plain: false,
        keyword: false,
        word: false,
        separator,
    }
}

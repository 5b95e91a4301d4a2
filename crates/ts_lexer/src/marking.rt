//! Marks for valid tokens: a list of symbols goes in, and whether each token is among them comes
//! out.
ghost use Rattle.std.specs.Prelude.{◌≡◌, ◌↔◌, ◌++◌, ◌∷◌, [], ℕ, List, IsTrue, IfOk, length};
ghost use Rattle.ts_core.specs.declared.flat.FlatGrammar.{FlatGrammar as AnyGrammar};
ghost use Rattle.ts_core.specs.declared.symbol.Symbol.{Symbol as AnySymbol};
ghost use Rattle.spec_lexing.specs.Seen.{HasKeyword};
ghost use Rattle.ts_lexer.specs.Rules.{IsRules};
ghost use Rattle.ts_lexer.specs.Marks.{AreMarks};
ghost use Rattle.ts_lexer.specs.Views.{IsView};

use crate::rules::Rules;
use crate::view::{View, both_hold, is_marked};
use std::alloc::{AllocError, Global};
use ts_core::Symbol;

/// So many marks, none of them set.
pub(crate) fn no_marks(alloc: Global, count: usize) -> Result<Vec<bool>, AllocError>
    ensures { IfOk result (λ marks. length marks.items ≡ count) }
{
    let mut marks: Vec<bool> = Vec::new(alloc);
    for _token in 0..count {
        marks.push(false)?;
    }
    Ok(marks)
}

/// Takes all marks away.
fn clear(marks: &mut Vec<bool>)
    ensures { (n : ℕ) → length marks.old.items ≡ n → AreMarks n [] marks.new.items }
{
    for k in 0..marks.len() {
        marks[k] = false;
    }
}

/// Marks one token.
fn mark_one(marks: &mut Vec<bool>, symbol: Symbol)
    ensures { (n : ℕ) (seen : List AnySymbol) → AreMarks n seen marks.old.items
        → AreMarks n (seen ++ symbol ∷ []) marks.new.items }
{
    if symbol.0 == 0 {
        return;
    }
    let part = (symbol.0 - 1) as usize;
    if part < marks.len() {
        marks[part] = true;
    }
}

/// Marks the valid tokens, and no others.
pub(crate) fn mark(marks: &mut Vec<bool>, valid: &[Symbol])
    ensures { (n : ℕ) → length marks.old.items ≡ n → AreMarks n valid.now marks.new.items }
{
    clear(marks);
    for symbol in valid {
        mark_one(marks, *symbol);
    }
}

/// Whether one of the marked tokens is a keyword.
pub(crate) fn has_keyword(rules: &Rules, marks: &[bool]) -> bool
    ensures { (g : AnyGrammar) (valid : List AnySymbol) → IsRules g rules.now
        → AreMarks (length g.tokens) valid marks.now → IsTrue result ↔ HasKeyword g valid }
{
    for part in 0..rules.kinds.len() {
        let marked = is_marked(marks, part);
        let found = both_hold(rules.kinds[part].keyword, marked);
        if found {
            return true;
        }
    }
    false
}

/// Makes a view of the valid tokens.
pub(crate) fn look(rules: &Rules, view: &mut View, valid: &[Symbol])
    ensures marks { length view.new.marks.items ≡ length view.old.marks.items }
    ensures view { (g : AnyGrammar) → IsRules g rules.now
        → length view.old.marks.items ≡ length g.tokens → IsView g valid.now view.new }
{
    mark(&mut view.marks, valid);
    view.keyworded = has_keyword(rules, view.marks.as_slice());
}

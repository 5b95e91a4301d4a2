//! Why a grammar in normal form can't be used: what comes in is the grammar, and what goes out is
//! the first cause with its symbol, or nothing.

ghost use Rattle.std.specs.Prelude.{◌≡◌, ◌<◌, ◌≤◌, ◌↔◌, IfOk, IfSome, IfNone, None, suc};
ghost use Rattle.spec_tables.specs.Fit as fit;
ghost use Rattle.ts_fit.specs.Misfits.{HasNoMisfit, IsFormedGrammar, Misfits, symbol_of_token};

use crate::cyclic::first_cyclic;
use crate::empty::{first_empty_rule, first_empty_token};
use crate::limits::has_few_positions;
use crate::places::rule_at;
use crate::repetitions::first_bad_repetition;
use std::alloc::{AllocError, Global};
use ts_core::{FlatGrammar, Symbol, Unfit};

/// The symbol of the token at a place.
fn token_at(place: usize) -> Symbol
    requires { suc place < fit.most_symbols }
    ensures { result ≡ symbol_of_token place }
{
    Symbol((place + 1) as u16)
}

/// Why a grammar can't be used: a repetition without the form of one, else a token that matches the
/// empty text, else a rule that is empty where it must not be, else a symbol that derives itself
/// alone, each the first by its symbol; else too many positions.
///
/// # Errors
///
/// `AllocError` where memory runs out.
pub fn misfit(alloc: Global, grammar: &FlatGrammar) -> Result<Option<Unfit>, AllocError>
    requires few_symbols { fit.symbols_of grammar.now ≤ fit.most_symbols }
    ensures some { IfOk result (λ found. IfSome found (Misfits grammar.now)) }
    ensures none { IfOk result (λ found. IfNone found (HasNoMisfit grammar.now)) }
    ensures fit { IfOk result (λ found. IsFormedGrammar grammar.now
        → (found ≡ None) ↔ fit.Fit grammar.now) }
{
    if let Some(place) = first_bad_repetition(grammar) {
        return Ok(Some(Unfit::Repetition(rule_at(grammar, place))));
    }
    if let Some(place) = first_empty_token(grammar) {
        return Ok(Some(Unfit::EmptyToken(token_at(place))));
    }
    if let Some(place) = first_empty_rule(grammar) {
        return Ok(Some(Unfit::EmptyRule(rule_at(grammar, place))));
    }
    if let Some(place) = first_cyclic(alloc, grammar)? {
        return Ok(Some(Unfit::Cyclic(rule_at(grammar, place))));
    }
    if has_few_positions(grammar) {
        Ok(None)
    } else {
        Ok(Some(Unfit::Positions))
    }
}

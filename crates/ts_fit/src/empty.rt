//! Tokens and rules that are empty: what comes in is a grammar, and what goes out is the place of
//! the first token that matches the empty text, or of the first rule that is empty where it must
//! not be.

ghost use Rattle.std.specs.Prelude.{◌<◌, ◌≤◌, ◌↔◌, IsTrue, length};
ghost use Rattle.spec_tables.specs.Fit.{HasEmpty, IsEmptyRule, IsUsed, most_symbols, symbols_of};
ghost use Rattle.ts_fit.specs.Misfits.{FindsFirst, IsEmptyToken};
ghost use Rattle.ts_fit.specs.Searches.{HasStep, HasStepAmong};

use crate::places::rule_at;
use crate::words::matches_nothing;
use ts_core::{FlatGrammar, FlatRule, Production, Step, Symbol};

/// Whether the token at a place matches the empty text.
fn is_empty_token(grammar: &FlatGrammar, place: usize) -> bool
    requires { place < length grammar.now.tokens }
    ensures { IsTrue result ↔ IsEmptyToken grammar.now place }
{
    matches_nothing(&grammar.tokens.get(place).re)
}

/// The place of the first token that matches the empty text, counted from 0.
pub fn first_empty_token(grammar: &FlatGrammar) -> Option<usize>
    ensures { FindsFirst (IsEmptyToken grammar.now) result }
{
    for place in 0..grammar.tokens.len() {
        if is_empty_token(grammar, place) {
            return Some(place);
        }
    }
    None
}

fn has_step(steps: &[Step], symbol: Symbol) -> bool
    ensures { IsTrue result ↔ HasStep symbol steps.now }
{
    steps.iter().any(|step| step.symbol == symbol)
}

fn has_step_among(productions: &[Production], symbol: Symbol) -> bool
    ensures { IsTrue result ↔ HasStepAmong symbol productions.now }
{
    productions
        .iter()
        .any(|production| has_step(production.steps.as_slice(), symbol))
}

/// Whether some production steps to the symbol.
fn is_used(grammar: &FlatGrammar, symbol: Symbol) -> bool
    ensures { IsTrue result ↔ IsUsed grammar.now symbol }
{
    grammar
        .rules
        .as_slice()
        .iter()
        .any(|rule| has_step_among(rule.productions.as_slice(), symbol))
}

/// Whether a rule has an empty production.
fn has_empty(rule: &FlatRule) -> bool
    ensures { IsTrue result ↔ HasEmpty rule.now }
{
    rule.productions
        .as_slice()
        .iter()
        .any(|production| production.steps.is_empty())
}

/// Whether the rule at a place is empty where it must not be.
fn is_empty_rule(grammar: &FlatGrammar, place: usize) -> bool
    requires few_symbols { symbols_of grammar.now ≤ most_symbols }
    requires there { place < length grammar.now.rules }
    ensures { IsTrue result ↔ IsEmptyRule grammar.now place }
{
    has_empty(grammar.rules.get(place)) && (place > 0 || is_used(grammar, rule_at(grammar, place)))
}

/// The place of the first rule with an empty production that is not the start rule, or that some
/// production uses. Places count from 0.
pub fn first_empty_rule(grammar: &FlatGrammar) -> Option<usize>
    requires few_symbols { symbols_of grammar.now ≤ most_symbols }
    ensures { FindsFirst (IsEmptyRule grammar.now) result }
{
    for place in 0..grammar.rules.len() {
        if is_empty_rule(grammar, place) {
            return Some(place);
        }
    }
    None
}

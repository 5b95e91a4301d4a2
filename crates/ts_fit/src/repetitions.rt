//! Repetitions that haven't the form of one: what comes in is a grammar, and what goes out is the
//! place of the first, or nothing.

ghost use Rattle.std.specs.Prelude.{◌≡◌, ◌<◌, ◌≤◌, ◌↔◌, ◌∷◌, IfNone, IfSome, IsTrue, false, true, length, slice_get, Some};
ghost use Rattle.spec_tables.specs.Fit.{IsFitRepetition, IsRepetitionAt, again_after, bare_step, most_symbols, symbols_of};
ghost use Rattle.ts_fit.specs.Misfits.{AreFitRepetitions, HasFormAt, IsBadRepetition, IsFirstPlace};
ghost use Rattle.ts_fit.specs.Searches.{HasOwner, RepeatsContents};

use crate::places::{rule_at, rule_place};
use ts_core::{Alias, Assoc, FlatGrammar, FlatRule, Kind, Prec, Production, Step, Symbol};

/// Whether a step is the symbol , without marks.
fn is_bare(step: &Step, symbol: Symbol) -> bool
    ensures { IsTrue result ↔ step.now ≡ bare_step symbol }
{
    step.symbol == symbol
        && step.prec == Prec::Absent
        && step.assoc == Assoc::Absent
        && step.alias.is_none()
        && step.field.is_none()
}

fn is_same_alias(first: &Alias, second: &Alias) -> bool
    ensures { IsTrue result ↔ first.now ≡ second.now }
{
    first.named == second.named && first.name == second.name
}

fn have_same_alias(first: &Step, second: &Step) -> bool
    ensures { IsTrue result ↔ first.now.alias ≡ second.now.alias }
{
    match (&first.alias, &second.alias) {
        (Some(first), Some(second)) => is_same_alias(first, second),
        (None, None) => true,
        (Some(_), None) => false,
        (None, Some(_)) => false,
    }
}

fn is_same(first: &Step, second: &Step) -> bool
    ensures { IsTrue result ↔ first.now ≡ second.now }
{
    first.symbol == second.symbol
        && first.prec == second.prec
        && first.assoc == second.assoc
        && first.field == second.field
        && have_same_alias(first, second)
}

fn are_same(first: &[Step], second: &[Step]) -> bool
    ensures { IsTrue result ↔ first.now ≡ second.now }
{
    if first.len() != second.len() {
        return false;
    }
    for place in 0..first.len() {
        if !is_same(&first[place], &second[place]) {
            return false;
        }
    }
    true
}

/// Whether steps are the symbol , without marks, and then the other steps.
fn is_before(symbol: Symbol, content: &[Step], again: &[Step]) -> bool
    ensures { IsTrue result ↔ again.now ≡ bare_step symbol ∷ content.now }
{
    match again.split_first() {
        Some((first, rest)) => is_bare(first, symbol) && are_same(rest, content),
        None => false,
    }
}

/// Whether a production is the symbol  before the other production.
fn is_again(symbol: Symbol, content: &Production, again: &Production) -> bool
    ensures { IsTrue result ↔ again.now ≡ again_after symbol content.now }
{
    again.dynamic == content.dynamic
        && is_before(symbol, content.steps.as_slice(), again.steps.as_slice())
}

/// Whether each production of the second half is the symbol  before the one of the
/// first half.
fn repeats(symbol: Symbol, productions: &[Production]) -> bool
    ensures { IsTrue result ↔ RepeatsContents symbol productions.now }
{
    let half = productions.len() / 2;
    if half == 0 || productions.len() != half + half {
        return false;
    }
    for place in 0..half {
        if !is_again(symbol, &productions[place], &productions[half + place]) {
            return false;
        }
    }
    true
}

/// Whether a rule's owner is a rule that is no repetition.
fn has_owner(grammar: &FlatGrammar, rule: &FlatRule) -> bool
    ensures { IsTrue result ↔ HasOwner grammar.now rule.now }
{
    match rule_place(grammar, rule.owner) {
        Some(place) => grammar.rules.get(place).owner == rule.owner,
        None => false,
    }
}

/// Whether the rule at a place has the form of a repetition.
fn is_fit_repetition(grammar: &FlatGrammar, place: usize, rule: &FlatRule) -> bool
    requires few_symbols { symbols_of grammar.now ≤ most_symbols }
    requires there { slice_get grammar.now.rules place ≡ Some rule.now }
    ensures { IsTrue result ↔ IsFitRepetition grammar.now place rule.now }
{
    place > 0
        && rule.kind == Kind::Hidden
        && rule.name.is_empty()
        && has_owner(grammar, rule)
        && repeats(rule_at(grammar, place), rule.productions.as_slice())
}

/// Whether the rule at a place is a repetition.
fn is_repetition(grammar: &FlatGrammar, place: usize, rule: &FlatRule) -> bool
    requires few_symbols { symbols_of grammar.now ≤ most_symbols }
    requires there { slice_get grammar.now.rules place ≡ Some rule.now }
    ensures { IsTrue result ↔ IsRepetitionAt grammar.now place rule.now }
{
    rule.owner != rule_at(grammar, place)
}

/// Whether the rule at a place is a repetition without the form of one.
fn is_bad(grammar: &FlatGrammar, place: usize) -> bool
    requires few_symbols { symbols_of grammar.now ≤ most_symbols }
    requires there { place < length grammar.now.rules }
    ensures bad { result ≡ true → IsBadRepetition grammar.now place }
    ensures fit { result ≡ false → HasFormAt grammar.now place }
{
    let rule = grammar.rules.get(place);
    is_repetition(grammar, place, rule) && !is_fit_repetition(grammar, place, rule)
}

/// The place among the rules, counted from 0, of the first repetition that hasn't the form of one.
/// `None` comes where each has it. A rule is a repetition where its owner is not its own symbol.
pub fn first_bad_repetition(grammar: &FlatGrammar) -> Option<usize>
    requires few_symbols { symbols_of grammar.now ≤ most_symbols }
    ensures none { IfNone result (AreFitRepetitions grammar.now) }
    ensures some { IfSome result (IsFirstPlace (IsBadRepetition grammar.now)) }
{
    for place in 0..grammar.rules.len() {
        if is_bad(grammar, place) {
            return Some(place);
        }
    }
    None
}

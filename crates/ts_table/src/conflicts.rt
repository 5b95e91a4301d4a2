//! The rules that take part in a conflict, and whether the grammar declares it: what stays on a
//! token goes in.
ghost use Rattle.std.specs.Prelude.{◌≡◌, ◌++◌, IfOk, OnOk, IsTrue, ◌↔◌};
ghost use Rattle.std.specs.List.{Contains};
ghost use Rattle.ts_core.specs.declared.symbol.Symbol.{Symbol as Symbols};
ghost use Rattle.spec_tables.specs.Conflicts.{owner_of};
ghost use Rattle.ts_table.specs.Rules.{owners_in, AreRulesOf, AreRisen, AreSameSymbols, IsOneOf};

use crate::candidates::Candidate;
use crate::cells::Cell;
use std::alloc::{AllocError, Global};
use ts_core::{FlatGrammar, List, Symbol};

/// The owner of a symbol's productions.
fn owner(grammar: &FlatGrammar, symbol: u16) -> Symbol
    ensures { result.0 ≡ owner_of grammar.now symbol }
{
    let tokens = grammar.tokens.len();
    let at = usize::from(symbol);
    if at <= tokens {
        return Symbol(symbol);
    }
    let place = at - tokens - 1;
    if place >= grammar.rules.len() {
        return Symbol(symbol);
    }
    grammar.rules.get(place).owner
}

/// Adds the owners of candidates.
fn add_owners(
    grammar: &FlatGrammar,
    rules: &mut Vec<Symbol>,
    candidates: &[Candidate],
) -> Result<(), AllocError>
    ensures { OnOk result
        (rules.new.items ≡ rules.old.items ++ owners_in grammar.now candidates.now) }
{
    for candidate in candidates {
        rules.push(owner(grammar, candidate.weight.rule))?;
    }
    Ok(())
}

/// Some symbols rising, each once.
fn rising(mut symbols: Vec<Symbol>) -> Vec<Symbol>
    ensures { AreRisen symbols.items result.items }
{
    symbols.sort_unstable();
    symbols.dedup();
    symbols
}

/// The rules that take part in what stays on a token, rising and each once.
pub(crate) fn rules_of(
    alloc: Global,
    grammar: &FlatGrammar,
    cell: &Cell,
) -> Result<Vec<Symbol>, AllocError>
    ensures { IfOk result (λ v. AreRulesOf grammar.now cell.now v.items) }
{
    let mut rules = Vec::new(alloc);
    add_owners(grammar, &mut rules, cell.reductions.as_slice())?;
    add_owners(grammar, &mut rules, cell.shifts.as_slice())?;
    Ok(rising(rules))
}

/// Whether a symbol is among some.
fn is_among(symbols: &[Symbol], symbol: Symbol) -> bool
    ensures { IsTrue result ↔ Contains symbols.now symbol }
{
    for other in symbols {
        if other.0 == symbol.0 {
            return true;
        }
    }
    false
}

/// Whether all of some symbols are among others.
fn are_among(symbols: &[Symbol], others: &[Symbol]) -> bool
    ensures { IsTrue result ↔ ((s : Symbols) → Contains symbols.now s → Contains others.now s) }
{
    for symbol in symbols {
        if !is_among(others, *symbol) {
            return false;
        }
    }
    true
}

/// Whether two lists have the same symbols.
fn are_same(a: &[Symbol], b: &[Symbol]) -> bool
    ensures { IsTrue result ↔ AreSameSymbols a.now b.now }
{
    if !are_among(a, b) {
        return false;
    }
    are_among(b, a)
}

/// Whether a set of rules is one of the declared ones.
pub(crate) fn is_declared(declared: &[List<Symbol>], rules: &[Symbol]) -> bool
    ensures { IsTrue result ↔ IsOneOf declared.now rules.now }
{
    for set in declared {
        if are_same(set.as_slice(), rules) {
            return true;
        }
    }
    false
}

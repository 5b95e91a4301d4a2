//! Symbols of what a grammar names: what comes in are names and extras, and what goes out are
//! symbols.

ghost use Rattle.std.specs.Prelude.{◌≡◌, IfOk, option_map};
ghost use Rattle.ts_base.specs.Bytes.{Bytes};
ghost use Rattle.ts_numbering.specs.Keys.{trees};
ghost use Rattle.ts_numbering.specs.Numberings.{numbers_of};
ghost use Rattle.ts_rules.specs.FirstSights.{Each};
ghost use Rattle.ts_rules.specs.Normal.{IsExtra};
ghost use Rattle.ts_rules.specs.Productions.{symbol};

use std::alloc::{AllocError, Global};
use ts_core::{Grammar, List, Rule, Str, Symbol};
use ts_numbering::{Numbering, rule_number, token_number};
use ts_rules::symbol_name;

/// The symbol of a rule.
pub fn rule_symbol(numbering: &Numbering, name: &Str) -> Symbol
    ensures { result ≡ symbol ((numbers_of numbering.now).rule name.now) }
{
    Symbol(rule_number(numbering, name))
}

/// The symbol of the word of a grammar, if it has one.
pub fn word_symbol(grammar: &Grammar, numbering: &Numbering) -> Option<Symbol>
    ensures { result ≡ option_map
        (λ (name : Bytes). symbol ((numbers_of numbering.now).rule name)) grammar.now.word }
{
    match &grammar.word {
        Some(name) => Some(rule_symbol(numbering, name)),
        None => None,
    }
}

/// The symbol of an extra: of the rule that a SYMBOL names, or of the token itself.
fn extra_symbol(numbering: &Numbering, tree: &Rule) -> Symbol
    ensures { IsExtra (numbers_of numbering.now) tree.now result }
{
    match symbol_name(tree) {
        Some(name) => rule_symbol(numbering, name),
        None => Symbol(token_number(numbering, tree)),
    }
}

/// The symbols of extras that are SYMBOLs or tokens, in their order.
///
/// # Errors
///
/// `AllocError` where memory runs out.
pub fn extra_symbols(
    alloc: Global,
    numbering: &Numbering,
    extras: &[&Rule],
) -> Result<List<Symbol>, AllocError>
    ensures { IfOk result (Each (IsExtra (numbers_of numbering.now)) (trees extras.now)) }
{
    let mut symbols = List::with_capacity(alloc, extras.len())?;
    for tree in extras {
        symbols.push(extra_symbol(numbering, *tree))?;
    }
    Ok(symbols)
}

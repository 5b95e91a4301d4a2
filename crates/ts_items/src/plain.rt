//! Productions as the numbers of their symbols: a grammar goes in, its productions come out.

ghost use Rattle.std.specs.Prelude.{◌≡◌, ◌+◌, ◌<◌, ◌^◌, ◌++◌, length, IfOk, OnOk};
ghost use Rattle.spec_grammar.specs.Symbols.{symbol_count};
ghost use Rattle.ts_items.specs.Productions.{symbols_of_steps, seen_all, plain_rule, plain_rules, ArePlainOf};

use std::alloc::{AllocError, Global};
use ts_core::{FlatGrammar, FlatRule, Step};

/// A production as the numbers of its symbols.
#[derive(Debug, Drop)]
pub(crate) struct Plain {
    pub left: u16,
    pub right: Vec<u16>,
}

/// The symbols of some steps.
fn symbols_of(alloc: Global, steps: &[Step]) -> Result<Vec<u16>, AllocError>
    ensures { IfOk result (λ v. v.items ≡ symbols_of_steps steps.now) }
{
    let mut symbols = Vec::new(alloc);
    for step in steps {
        symbols.push(step.symbol.0)?;
    }
    Ok(symbols)
}

/// Adds the productions of one rule.
fn add_rule(
    alloc: Global,
    productions: &mut Vec<Plain>,
    left: u16,
    rule: &FlatRule,
) -> Result<(), AllocError>
    ensures { OnOk result (seen_all productions.new.items
        ≡ seen_all productions.old.items ++ plain_rule left rule.now.productions) }
{
    for production in rule.productions.as_slice() {
        let right = symbols_of(alloc, production.steps.as_slice())?;
        productions.push(Plain { left, right })?;
    }
    Ok(())
}

/// Adds the productions of all rules.
fn add_rules(
    alloc: Global,
    productions: &mut Vec<Plain>,
    first: u16,
    rules: &[FlatRule],
) -> Result<(), AllocError>
    requires { first + length rules.now < 2 ^ 16 }
    ensures { OnOk result (seen_all productions.new.items
        ≡ seen_all productions.old.items ++ plain_rules first rules.now) }
{
    let mut left = first;
    for rule in rules {
        add_rule(alloc, productions, left, rule)?;
        left += 1;
    }
    Ok(())
}

/// The productions of a grammar, by their numbers.
pub(crate) fn plain_productions(
    alloc: Global,
    grammar: &FlatGrammar,
) -> Result<Vec<Plain>, AllocError>
    requires { symbol_count grammar.now < 2 ^ 16 }
    ensures { IfOk result (λ v. ArePlainOf grammar.now v.items) }
{
    let mut productions = Vec::new(alloc);
    let first = grammar.tokens.len() as u16 + 1;
    add_rules(alloc, &mut productions, first, grammar.rules.as_slice())?;
    Ok(productions)
}

//! The extras of a grammar: the grammar comes in, with the tokens of its rules, and its separators
//! and its extra tokens go out.

ghost use Rattle.std.specs.Prelude.{◌↔◌, IsTrue, IfOk};
ghost use Rattle.ts_core.specs.declared.rule.Grammar.{Grammar as AnyGrammar};
ghost use Rattle.ts_rules.specs.FirstSights.{Picks};
ghost use Rattle.ts_rules.specs.Normal.{IsTokenExtra};
ghost use Rattle.ts_tokens.specs.Extras.{AreRuleTokens, AreSeparatorsOf, IsSymbolTree};
ghost use Rattle.ts_tokens.specs.Names.{lent};
ghost use Rattle.ts_tokens.specs.Patterns.{meaning};

use crate::expression::expression_of;
use crate::table::PatternTable;
use indexmap::IndexSet;
use std::alloc::{AllocError, Global};
use ts_core::{Grammar, List, Re, Rule};
use ts_rules::symbol_name;

/// Whether a tree is a SYMBOL.
fn is_symbol(tree: &Rule) -> bool
    ensures { IsTrue result ↔ IsSymbolTree tree.now }
{
    symbol_name(tree).is_some()
}

/// Whether an extra is a SYMBOL or a token of the rules.
fn is_token_extra(tokens: &IndexSet<&Rule>, tree: &Rule) -> bool
    ensures { (g : AnyGrammar) → AreRuleTokens g (lent tokens.now.keys)
        → IsTrue result ↔ IsTokenExtra g tree.now }
{
    is_symbol(tree) || tokens.contains(&tree)
}

/// The extras of a grammar that are tokens, in their order: each SYMBOL, and each token of the
/// rules, where `tokens` has these.
///
/// # Errors
///
/// `AllocError` where memory runs out.
pub fn extra_tokens<'a>(
    alloc: Global,
    grammar: &'a Grammar,
    tokens: &IndexSet<&Rule>,
) -> Result<Vec<&'a Rule>, AllocError>
    ensures { IfOk result (λ trees. AreRuleTokens grammar.now (lent tokens.now.keys)
        → Picks (IsTokenExtra grammar.now) grammar.now.extras (lent trees.items)) }
{
    let mut trees = Vec::new(alloc);
    for tree in grammar.extras.as_slice() {
        if !is_token_extra(tokens, tree) {
            continue;
        }
        trees.push(tree)?;
    }
    Ok(trees)
}

/// The separators of a grammar as regular expressions, in the order of its extras: the extras that
/// are neither a SYMBOL nor a token of the rules, where `tokens` has these.
///
/// # Errors
///
/// `AllocError` where memory runs out.
pub fn separators(
    alloc: Global,
    grammar: &Grammar,
    patterns: &PatternTable,
    tokens: &IndexSet<&Rule>,
) -> Result<List<Re>, AllocError>
    ensures { IfOk result (λ found. AreRuleTokens grammar.now (lent tokens.now.keys)
        → AreSeparatorsOf grammar.now (meaning patterns.now) found) }
{
    let mut found = List::new(alloc);
    for tree in grammar.extras.as_slice() {
        if is_token_extra(tokens, tree) {
            continue;
        }
        found.push(expression_of(alloc, patterns, tree)?)?;
    }
    Ok(found)
}

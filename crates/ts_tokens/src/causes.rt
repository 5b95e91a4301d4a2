//! The word and the extras that a grammar can't have: the grammar comes in, with the names of the
//! rules that name a token, and the first name at fault goes out, or nothing.

ghost use Rattle.std.specs.Prelude.{◌≡◌, ◌++◌, ◌↔◌, Some, IsTrue, IfOk, OnOk, MatchOption};
ghost use Rattle.ts_base.specs.Bytes.{Bytes};
ghost use Rattle.ts_core.specs.declared.rule.Grammar.{Grammar as AnyGrammar};
ghost use Rattle.ts_core.specs.declared.rule.Rule.TheViews.{out-Rule};
ghost use Rattle.ts_rules.specs.Causes as causes;
ghost use Rattle.ts_rules.specs.FirstSights.{Clear};
ghost use Rattle.ts_rules.specs.Names.{told, told_option};
ghost use Rattle.ts_rules.specs.Numbers.{NamesSome};
ghost use Rattle.ts_rules.specs.Sights as sights;
ghost use Rattle.ts_tokens.specs.Names.{AreTokenNames};
ghost use Rattle.ts_tokens.specs.Extras.{symbol_told, symbols_told, inner_symbols, symbols_of_all, IsFirstBad};

use indexmap::IndexSet;
use std::alloc::{AllocError, Global};
use ts_core::{Grammar, Rule, Str};
use ts_rules::{Spot, is_among, sights_of, symbol_name};

/// The word of a grammar, where no rule of that name names a token, given the names of all rules
/// that name one.
pub fn bad_word<'a>(grammar: &'a Grammar, token_names: &IndexSet<&Str>) -> Option<&'a Str>
    ensures { AreTokenNames grammar.now (told token_names.now.keys) → MatchOption result
        ((name : Bytes) → grammar.now.word ≡ Some name → NamesSome grammar.now name)
        (λ name. (grammar.now.word ≡ Some name.now) × causes.IsBadWord grammar.now name.now) }
{
    match &grammar.word {
        Some(word) => {
            if is_among(token_names, word) {
                None
            } else {
                Some(word)
            }
        },
        None => None,
    }
}

/// A SYMBOL of an extra.
#[derive(Clone, Copy)]
struct ExtraSymbol<'a> {
    name: &'a Str,
    /// Whether the SYMBOL is the whole extra.
    whole: bool,
}

/// Puts the SYMBOL of a tree inside an extra at the end, if it is one.
fn add_inner<'a>(
    symbols: &mut Vec<ExtraSymbol<'a>>,
    name: Option<&'a Str>,
) -> Result<(), AllocError>
    ensures { OnOk result (symbols_told symbols.new.items
        ≡ symbols_told symbols.old.items ++ inner_symbols (told_option name.entry)) }
{
    if let Some(name) = name {
        symbols.push(ExtraSymbol { name, whole: false })?;
    }
    Ok(())
}

/// Puts the SYMBOLs inside an extra at the end.
fn add_inside<'a>(symbols: &mut Vec<ExtraSymbol<'a>>, spots: &[Spot<'a>]) -> Result<(), AllocError>
    ensures { OnOk result (symbols_told symbols.new.items ≡ symbols_told symbols.old.items
        ++ inner_symbols (sights.symbols_in (sights.seen_trees spots.now))) }
{
    for spot in spots {
        add_inner(symbols, symbol_name(spot.tree))?;
    }
    Ok(())
}

/// Puts the SYMBOLs of an extra at the end.
fn add_extra<'a>(
    alloc: Global,
    symbols: &mut Vec<ExtraSymbol<'a>>,
    tree: &'a Rule,
) -> Result<(), AllocError>
    ensures { OnOk result (symbols_told symbols.new.items
        ≡ symbols_told symbols.old.items ++ causes.extra_symbols_by tree.now (out-Rule tree.now)) }
{
    if let Some(name) = symbol_name(tree) {
        symbols.push(ExtraSymbol { name, whole: true })?;
        return Ok(());
    }
    let spots = sights_of(alloc, tree)?;
    add_inside(symbols, spots.as_slice())?;
    Ok(())
}

/// The SYMBOLs of the extras, in order.
fn symbols_of<'a>(alloc: Global, extras: &'a [Rule]) -> Result<Vec<ExtraSymbol<'a>>, AllocError>
    ensures { IfOk result (λ symbols. symbols_told symbols.items ≡ symbols_of_all extras.now) }
{
    let mut symbols = Vec::new(alloc);
    for tree in extras {
        add_extra(alloc, &mut symbols, tree)?;
    }
    Ok(symbols)
}

/// The first SYMBOL that is inside an extra or names no token.
fn first_bad<'a>(symbols: &[ExtraSymbol<'a>], token_names: &IndexSet<&Str>) -> Option<&'a Str>
    ensures { (g : AnyGrammar) → AreTokenNames g (told token_names.now.keys)
        → MatchOption result (Clear (causes.IsBadExtra g) (symbols_told symbols.now))
        (λ name. IsFirstBad g (symbols_told symbols.now) name.now) }
{
    for symbol in symbols {
        if is_bad(*symbol, token_names) {
            return Some(symbol.name);
        }
    }
    None
}

/// Whether a SYMBOL is inside an extra or names no token.
fn is_bad(symbol: ExtraSymbol<'_>, token_names: &IndexSet<&Str>) -> bool
    ensures { (g : AnyGrammar) → AreTokenNames g (told token_names.now.keys)
        → IsTrue result ↔ causes.IsBadExtra g (symbol_told symbol.entry) }
{
    !symbol.whole || !is_among(token_names, symbol.name)
}

/// The name of the first SYMBOL of the extras that is inside an extra, or that is an extra and
/// names no token, given the names of all rules that name one.
///
/// # Errors
///
/// `AllocError` where memory runs out.
pub fn bad_extra<'a>(
    alloc: Global,
    grammar: &'a Grammar,
    token_names: &IndexSet<&Str>,
) -> Result<Option<&'a Str>, AllocError>
    ensures { IfOk result (λ found. AreTokenNames grammar.now (told token_names.now.keys)
        → MatchOption found
        (Clear (causes.IsBadExtra grammar.now) (causes.extra_symbols grammar.now))
        (λ name. IsFirstBad grammar.now (causes.extra_symbols grammar.now) name.now)) }
{
    let symbols = symbols_of(alloc, grammar.extras.as_slice())?;
    Ok(first_bad(symbols.as_slice(), token_names))
}

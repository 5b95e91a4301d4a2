//! Tokens, separators and extras of a normal form: what comes in is a grammar with its numbers and
//! its patterns, and what goes out are its definitions of tokens, the expressions of its separators
//! and the symbols of its extras; and copies of its names.

ghost use Rattle.std.specs.Prelude.{◌≡◌, Some, IfOk};
ghost use Rattle.ts_base.specs.Bytes.{Bytes};
ghost use Rattle.ts_form.specs.Forms.{AreExtraSymbols, IsNumbering};
ghost use Rattle.ts_numbering.specs.Numberings.{lists_of, numbers_of};
ghost use Rattle.ts_rules.specs.Causes.{IsBadWord};
ghost use Rattle.ts_rules.specs.FileGrammar.{IsFileGrammar};
ghost use Rattle.ts_rules.specs.FirstSights.{Each, Not};
ghost use Rattle.ts_rules.specs.Names.{told};
ghost use Rattle.ts_rules.specs.Tokens.{IsTokenDef};
ghost use Rattle.ts_tokens.specs.Extras.{AreSeparatorsOf};
ghost use Rattle.ts_tokens.specs.Patterns.{meaning};

use crate::names::{named_tokens, word_token};
use indexmap::IndexSet;
use std::alloc::{AllocError, Global};
use ts_core::{Grammar, List, Re, Str, Symbol, TokenDef};
use ts_entries::extra_symbols;
use ts_numbering::Numbering;
use ts_tokens::{PatternTable, extra_tokens, separators, token_definitions};

/// Copies of names.
pub(crate) fn name_list(alloc: Global, names: &IndexSet<&Str>) -> Result<List<Str>, AllocError>
    ensures { IfOk result (λ found. found ≡ told names.now.keys) }
{
    let mut found = List::new(alloc);
    for name in names.as_slice() {
        let copy = Str::from_text(alloc, name.text())?;
        found.push(copy)?;
    }
    Ok(found)
}

/// The definitions of a grammar's tokens, in symbol order.
pub(crate) fn tokens_of(
    alloc: Global,
    grammar: &Grammar,
    numbering: &Numbering,
    patterns: &PatternTable,
) -> Result<List<TokenDef>, AllocError>
    requires file { IsFileGrammar grammar.now }
    requires numbering { IsNumbering grammar.now numbering.now }
    requires word { (name : Bytes) → grammar.now.word ≡ Some name
        → Not (IsBadWord grammar.now name) }
    ensures { IfOk result (Each (IsTokenDef (meaning patterns.now) grammar.now)
        (lists_of numbering.now).tokens) }
{
    let tokens = named_tokens(alloc, grammar, numbering)?;
    let word = word_token(grammar, numbering);
    let found = token_definitions(alloc, grammar, patterns, word, tokens.as_slice())?;
    Ok(found)
}

/// The expressions of a grammar's separators.
pub(crate) fn separators_of(
    alloc: Global,
    grammar: &Grammar,
    numbering: &Numbering,
    patterns: &PatternTable,
) -> Result<List<Re>, AllocError>
    requires { IsNumbering grammar.now numbering.now }
    ensures { IfOk result (AreSeparatorsOf grammar.now (meaning patterns.now)) }
{
    let found = separators(alloc, grammar, patterns, &numbering.survey.tokens)?;
    Ok(found)
}

/// The symbols of a grammar's extras that are tokens.
pub(crate) fn extras_of(
    alloc: Global,
    grammar: &Grammar,
    numbering: &Numbering,
) -> Result<List<Symbol>, AllocError>
    requires { IsNumbering grammar.now numbering.now }
    ensures { IfOk result (AreExtraSymbols grammar.now (numbers_of numbering.now)) }
{
    let trees = extra_tokens(alloc, grammar, &numbering.survey.tokens)?;
    let found = extra_symbols(alloc, numbering, trees.as_slice())?;
    Ok(found)
}

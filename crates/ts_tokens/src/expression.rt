//! Rule trees as regular expressions: the tree of a token or a separator comes in, with the table
//! of patterns, and its expression goes out.

ghost use Rattle.std.specs.Prelude.{◌≡◌, map, IfOk};
ghost use Rattle.std.specs.Str.{chars};
ghost use Rattle.ts_rules.specs.Tokens as tokens;
ghost use Rattle.ts_tokens.specs.Patterns.{meaning};

use crate::table::PatternTable;
use std::alloc::{AllocError, Global};
use ts_core::{Boxed, List, Re, Rule};

/// One character.
fn one_char(alloc: Global, c: char) -> Result<Re, AllocError>
    ensures { IfOk result (λ r. r ≡ tokens.one_char c) }
{
    let mut ranges = List::with_capacity(alloc, 1)?;
    ranges.push((c as u32, c as u32))?;
    Ok(Re::Set(ranges))
}

/// The characters of a text, each as an expression.
fn chars_of(alloc: Global, text: &str) -> Result<List<Re>, AllocError>
    ensures { IfOk result (λ parts. parts ≡ map tokens.one_char (chars text.now)) }
{
    let mut parts = List::new(alloc);
    for c in text.chars() {
        parts.push(one_char(alloc, c)?)?;
    }
    Ok(parts)
}

/// Parts one after another. One part is that part, and none is the empty text.
fn cat_of(parts: List<Re>) -> Re
    ensures { result ≡ tokens.cat_of parts }
{
    if parts.len() > 1 {
        return Re::Cat(parts);
    }
    let mut parts = parts;
    match parts.pop() {
        Some(part) => part,
        None => Re::Empty,
    }
}

/// One of the parts. One part is that part.
fn alt_of(parts: List<Re>) -> Re
    ensures { result ≡ tokens.alt_of parts }
{
    if parts.len() != 1 {
        return Re::Alt(parts);
    }
    let mut parts = parts;
    match parts.pop() {
        Some(part) => part,
        None => Re::Alt(parts),
    }
}

/// An expression any number of times from the least.
fn repeat(alloc: Global, inner: Re, least: u32) -> Result<Re, AllocError>
    ensures { IfOk result (λ r. r ≡ Re.Repeat inner least None) }
{
    Ok(Re::Repeat(Boxed::new(alloc, inner)?, least, None))
}

/// The regular expression of a rule tree, as the documentation of Tree-sitter's grammar files has
/// it: a SEQ is its members one after another, a CHOICE one of them, and marks are left out. A
/// SYMBOL, which stands in no token and no separator, is read as the empty text.
///
/// # Errors
///
/// `AllocError` where memory runs out.
#[cycle(expression)]
#[tactic(auto, using(crate::proofs::ExpressionLemmas::re_laws))]
pub fn expression_of(alloc: Global, patterns: &PatternTable, tree: &Rule) -> Result<Re, AllocError>
    ensures { IfOk result (λ r. r ≡ tokens.tree_re (meaning patterns.now) tree.now) }
{
    match tree {
        Rule::Blank => Ok(Re::Empty),
        Rule::Literal(text) => Ok(cat_of(chars_of(alloc, text.text())?)),
        Rule::Pattern { value, ignore_case } => patterns.expression(alloc, value, *ignore_case),
        Rule::Symbol(_) => Ok(Re::Empty),
        Rule::Seq(members) => Ok(cat_of(expressions(alloc, patterns, members.as_slice())?)),
        Rule::Choice(members) => Ok(alt_of(expressions(alloc, patterns, members.as_slice())?)),
        Rule::Repeat(content) => {
            repeat(alloc, expression_of(alloc, patterns, content.get())?, 0)
        },
        Rule::Repeat1(content) => {
            repeat(alloc, expression_of(alloc, patterns, content.get())?, 1)
        },
        Rule::Token(content) => expression_of(alloc, patterns, content.get()),
        Rule::ImmediateToken(content) => expression_of(alloc, patterns, content.get()),
        Rule::Field { name: _, content } => expression_of(alloc, patterns, content.get()),
        Rule::Alias {
            content,
            named: _,
            value: _,
        } => expression_of(alloc, patterns, content.get()),
        Rule::Prec { value: _, content } => expression_of(alloc, patterns, content.get()),
        Rule::PrecLeft { value: _, content } => expression_of(alloc, patterns, content.get()),
        Rule::PrecRight { value: _, content } => expression_of(alloc, patterns, content.get()),
        Rule::PrecDynamic { value: _, content } => expression_of(alloc, patterns, content.get()),
    }
}

/// The expressions of rule trees, in their order.
#[cycle(expression)]
fn expressions(
    alloc: Global,
    patterns: &PatternTable,
    trees: &[Rule],
) -> Result<List<Re>, AllocError>
    ensures { IfOk result (λ parts. parts ≡ map (tokens.tree_re (meaning patterns.now)) trees.now) }
{
    let mut parts = List::new(alloc);
    for tree in trees {
        parts.push(expression_of(alloc, patterns, tree)?)?;
    }
    Ok(parts)
}

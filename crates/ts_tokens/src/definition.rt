//! Definitions of tokens: the trees of a grammar's tokens come in, each with the rule that names
//! it, and their definitions go out.

ghost use Rattle.std.specs.Prelude.{◌≡◌, length, IfOk, All};
ghost use Rattle.ts_rules.specs.FileGrammar.{IsFileGrammar};
ghost use Rattle.ts_rules.specs.FirstSights.{Each};
ghost use Rattle.ts_rules.specs.Names.{told};
ghost use Rattle.ts_rules.specs.Tokens as specs;
ghost use Rattle.ts_tokens.specs.Definitions.{IsNaming, IsWordTree, trees_of, IsOwnLabel, IsLabel, IsRuleKind, IsDefined, AreDefined};
ghost use Rattle.ts_tokens.specs.Patterns.{meaning};

use crate::expression::expression_of;
use crate::keyword::flags_of;
use crate::kind::kind_of;
use crate::names::name_set;
use crate::table::PatternTable;
use indexmap::IndexSet;
use std::alloc::{AllocError, Global};
use ts_core::{Grammar, Kind, List, Rule, Str, TokenDef};
use ts_rules::{CoreTree, core_of, is_immediate, lexical_precedence};

/// A token of a grammar, with the name of the rule that names it, if there is one.
#[derive(Clone, Copy)]
pub struct NamedToken<'a> {
    pub tree: &'a Rule,
    pub name: Option<&'a Str>,
}

/// The name and the kind of a token.
#[derive(Drop)]
struct Label {
    name: Str,
    kind: Kind,
}

/// The label of a token that no rule names: a literal token is anonymous under its text, and any
/// other is hidden.
fn own_label(alloc: Global, tree: &Rule) -> Result<Label, AllocError>
    ensures { IfOk result (IsOwnLabel tree.now) }
{
    match core_of(tree) {
        CoreTree::Text(text) => Ok(Label {
            name: Str::from_text(alloc, text)?,
            kind: Kind::Anonymous,
        }),
        CoreTree::Source(source) => Ok(Label {
            name: Str::from_text(alloc, source)?,
            kind: Kind::Hidden,
        }),
        CoreTree::Other => Ok(Label {
            name: Str::from_text(alloc, "")?,
            kind: Kind::Hidden,
        }),
    }
}

/// The label of a token that a rule names.
fn rule_label(alloc: Global, supertypes: &IndexSet<&Str>, name: &Str) -> Result<Label, AllocError>
    ensures name { IfOk result (λ label. label.name ≡ name.now) }
    ensures kind { IfOk result
        (λ label. IsRuleKind (told supertypes.now.keys) name.now label.kind) }
{
    Ok(Label {
        name: Str::from_text(alloc, name.text())?,
        kind: kind_of(supertypes, name),
    })
}

/// The label of a token.
fn label_of(
    alloc: Global,
    supertypes: &IndexSet<&Str>,
    token: NamedToken<'_>,
) -> Result<Label, AllocError>
    ensures { IfOk result (IsLabel (told supertypes.now.keys) token.entry) }
{
    match token.name {
        Some(name) => rule_label(alloc, supertypes, name),
        None => own_label(alloc, token.tree),
    }
}

/// Whether a token is a plain text.
fn is_literal(tree: &Rule) -> bool
    ensures { result ≡ specs.is_text (specs.core tree.now) }
{
    match core_of(tree) {
        CoreTree::Text(_) => true,
        CoreTree::Source(_) => false,
        CoreTree::Other => false,
    }
}

/// The definition of a token.
fn definition(
    alloc: Global,
    patterns: &PatternTable,
    supertypes: &IndexSet<&Str>,
    token: NamedToken<'_>,
    keyword: bool,
) -> Result<TokenDef, AllocError>
    ensures { IfOk result (IsDefined (meaning patterns.now) (told supertypes.now.keys) token.entry
        keyword) }
{
    let label = label_of(alloc, supertypes, token)?;
    let re = expression_of(alloc, patterns, token.tree)?;
    let Label { name, kind } = label;
    Ok(TokenDef {
        name,
        kind,
        re,
        prec: lexical_precedence(token.tree),
        literal: is_literal(token.tree),
        immediate: is_immediate(token.tree),
        keyword,
    })
}

/// The definitions of tokens, whose keywords are known.
fn definitions(
    alloc: Global,
    patterns: &PatternTable,
    supertypes: &IndexSet<&Str>,
    tokens: &[NamedToken<'_>],
    keywords: &[bool],
) -> Result<List<TokenDef>, AllocError>
    requires { length keywords.now ≡ length tokens.now }
    ensures { IfOk result (λ defs. AreDefined (meaning patterns.now) (told supertypes.now.keys)
        tokens.now keywords.now (length tokens.now) defs) }
{
    let mut defs = List::with_capacity(alloc, tokens.len())?;
    for place in 0..tokens.len() {
        let def = definition(alloc, patterns, supertypes, tokens[place], keywords[place])?;
        defs.push(def)?;
    }
    Ok(defs)
}

/// The definitions of the tokens of a grammar file, where each token has the rule that names it, if
/// there is one, and `word` is the token that the grammar's word names.
///
/// The time is linear in the tokens, but for the machine of the word token, which has at most as
/// many sets as that of all tokens.
///
/// # Errors
///
/// `AllocError` where memory runs out.
pub fn token_definitions(
    alloc: Global,
    grammar: &Grammar,
    patterns: &PatternTable,
    word: Option<&Rule>,
    tokens: &[NamedToken<'_>],
) -> Result<List<TokenDef>, AllocError>
    ensures { IfOk result (λ defs. IsFileGrammar grammar.now → IsWordTree grammar.now word.entry
        → All (IsNaming grammar.now) tokens.now
        → Each (specs.IsTokenDef (meaning patterns.now) grammar.now) (trees_of tokens.now) defs) }
{
    let supertypes = name_set(alloc, grammar.supertypes.as_slice())?;
    let keywords = flags_of(alloc, patterns, word, tokens)?;
    let defs = definitions(alloc, patterns, &supertypes, tokens, keywords.as_slice())?;
    Ok(defs)
}

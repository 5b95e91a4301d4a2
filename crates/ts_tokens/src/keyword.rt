//! Which tokens are keywords: the word token and the tokens come in, and a flag for each goes out.

ghost use Rattle.std.specs.Prelude.{◌≡◌, ◌↔◌, IsTrue, IfOk, Some, None, length, MatchOption};
ghost use Rattle.spec_lexing.specs.Words.{regular_of};
ghost use Rattle.ts_automata.specs.Walks.{walk_room};
ghost use Rattle.ts_base.specs.Bytes.{Bytes};
ghost use Rattle.ts_core.specs.declared.rule.Grammar.{Grammar as AnyGrammar};
ghost use Rattle.ts_core.specs.declared.rule.Rule.TheVariants.{Literal};
ghost use Rattle.ts_rules.specs.FileGrammar.{IsFileGrammar};
ghost use Rattle.ts_rules.specs.FirstSights.{Not};
ghost use Rattle.ts_rules.specs.Numbers.{NamesToken};
ghost use Rattle.ts_rules.specs.Tokens.{Patterns, IsKeyword, tree_re};
ghost use Rattle.ts_tokens.specs.Definitions.{AreKeywords, IsWordTree, trees_of};
ghost use Rattle.ts_tokens.specs.Keywords.{HasRoomFor, IsWordAutomaton};
ghost use Rattle.ts_tokens.specs.Patterns.{meaning};

use crate::definition::NamedToken;
use crate::expression::expression_of;
use crate::table::PatternTable;
use crate::word::{is_word, word_automaton};
use std::alloc::{AllocError, Global};
use ts_automata::{Automaton, Walk};
use ts_core::{Rule, Str};

/// The text of a STRING.
fn literal_text(tree: &Rule) -> Option<&Str>
    ensures { MatchOption result ((text : Bytes) → Not (tree.now ≡ Literal text))
        (λ text. tree.now ≡ Literal text.now) }
{
    match tree {
        Rule::Literal(text) => Some(text),
        Rule::Blank => None,
        Rule::Pattern {
            value: _,
            ignore_case: _,
        } => None,
        Rule::Symbol(_) => None,
        Rule::Seq(_) => None,
        Rule::Choice(_) => None,
        Rule::Repeat(_) => None,
        Rule::Repeat1(_) => None,
        Rule::Token(_) => None,
        Rule::ImmediateToken(_) => None,
        Rule::Field {
            name: _,
            content: _,
        } => None,
        Rule::Alias {
            content: _,
            named: _,
            value: _,
        } => None,
        Rule::Prec {
            value: _,
            content: _,
        } => None,
        Rule::PrecLeft {
            value: _,
            content: _,
        } => None,
        Rule::PrecRight {
            value: _,
            content: _,
        } => None,
        Rule::PrecDynamic {
            value: _,
            content: _,
        } => None,
    }
}

/// Whether a tree is the STRING of this text.
fn is_literal(tree: &Rule, text: &Str) -> bool
    ensures { IsTrue result ↔ (tree.now ≡ Literal text.now) }
{
    match literal_text(tree) {
        Some(other) => *other == *text,
        None => false,
    }
}

/// Whether a token is a keyword of the word token.
fn is_keyword(word: &Rule, automaton: &Automaton, walk: &mut Walk, tree: &Rule) -> bool
    ensures room { walk_room walk.new ≡ walk_room walk.old }
    ensures keyword { (pattern : Patterns) (g : AnyGrammar) (name : Bytes) → IsFileGrammar g
        → g.word ≡ Some name → NamesToken g name word.now
        → IsWordAutomaton (regular_of (tree_re pattern word.now)) automaton.now
        → HasRoomFor automaton.now walk.old → IsTrue result ↔ IsKeyword pattern g tree.now }
{
    match literal_text(tree) {
        Some(text) => {
            if is_literal(word, text) {
                return false;
            }
            is_word(automaton, walk, text.text())
        },
        None => false,
    }
}

/// Which tokens are keywords of the word token.
fn keywords_of(
    alloc: Global,
    patterns: &PatternTable,
    word: &Rule,
    tokens: &[NamedToken<'_>],
) -> Result<Vec<bool>, AllocError>
    ensures count { IfOk result (λ flags. length flags.items ≡ length tokens.now) }
    ensures keywords { IfOk result (λ flags. (g : AnyGrammar) (name : Bytes) → IsFileGrammar g
        → g.word ≡ Some name → NamesToken g name word.now
        → AreKeywords (meaning patterns.now) g (trees_of tokens.now) flags.items) }
{
    let automaton = word_automaton(alloc, expression_of(alloc, patterns, word)?)?;
    let mut walk = Walk::new(alloc, automaton.nodes.len())?;
    let mut flags = Vec::with_capacity(alloc, tokens.len())?;
    for token in tokens {
        flags.push(is_keyword(word, &automaton, &mut walk, token.tree))?;
    }
    Ok(flags)
}

/// As many flags as tokens, none of which is set.
fn none_of(alloc: Global, tokens: &[NamedToken<'_>]) -> Result<Vec<bool>, AllocError>
    ensures count { IfOk result (λ flags. length flags.items ≡ length tokens.now) }
    ensures keywords { IfOk result (λ flags. (pattern : Patterns) (g : AnyGrammar) → g.word ≡ None
        → AreKeywords pattern g (trees_of tokens.now) flags.items) }
{
    let mut flags = Vec::with_capacity(alloc, tokens.len())?;
    for _token in tokens {
        flags.push(false)?;
    }
    Ok(flags)
}

/// Which tokens are keywords. Without a word there are none.
pub(crate) fn flags_of(
    alloc: Global,
    patterns: &PatternTable,
    word: Option<&Rule>,
    tokens: &[NamedToken<'_>],
) -> Result<Vec<bool>, AllocError>
    ensures count { IfOk result (λ flags. length flags.items ≡ length tokens.now) }
    ensures keywords { IfOk result (λ flags. (g : AnyGrammar) → IsFileGrammar g
        → IsWordTree g word.entry
        → AreKeywords (meaning patterns.now) g (trees_of tokens.now) flags.items) }
{
    match word {
        Some(word) => keywords_of(alloc, patterns, word, tokens),
        None => none_of(alloc, tokens),
    }
}

//! What a grammar says of its tokens beside what they match: the grammar goes in, and for each
//! token its rank among the others comes out.
ghost use Rattle.std.specs.Prelude.{◌≡◌, map, length, take, IfOk, IsTrue, ◌↔◌, ◌<◌, ◌⊎◌, ◌≤◌, Some};
ghost use Rattle.ts_lexer.specs.Rules.{kind_of, AreFew, IsRules, Over};

use std::alloc::{AllocError, Global};
use ts_core::{FlatGrammar, Symbol, TokenDef};

/// What lexing has to know of a token, beside its expression.
#[derive(Clone, Copy, Debug)]
pub(crate) struct Kind {
    pub prec: i32,
    pub literal: bool,
    pub immediate: bool,
    pub keyword: bool,
}

/// What lexing has to know of a grammar, beside its automaton.
#[derive(Debug, Drop)]
pub(crate) struct Rules {
    /// The kind of each token, by its part.
    pub kinds: Vec<Kind>,
    pub word: Option<Symbol>,
    /// How many tokens and separators there are.
    pub parts: usize,
}

/// The kind of a token.
fn of_token(token: &TokenDef) -> Kind
    ensures { result ≡ kind_of token.now }
{
    Kind {
        prec: token.prec,
        literal: token.literal,
        immediate: token.immediate,
        keyword: token.keyword,
    }
}

/// The rules of a grammar.
pub(crate) fn rules_of(alloc: Global, flat: &FlatGrammar) -> Result<Rules, AllocError>
    requires { AreFew flat.now }
    ensures { IfOk result (IsRules flat.now) }
{
    let mut kinds: Vec<Kind> = Vec::new(alloc);
    let tokens = flat.tokens.as_slice();
    for token in tokens {
        kinds.push(of_token(token))?;
    }
    let parts = flat.tokens.len() + flat.separators.len();
    Ok(Rules {
        kinds,
        word: flat.word,
        parts,
    })
}

/// Whether, at one length, the first token is taken before the second, or is that one.
pub(crate) fn is_over(a: &Kind, s: Symbol, b: &Kind, t: Symbol) -> bool
    ensures { IsTrue result ↔ Over a.now s b.now t }
{
    if a.prec != b.prec {
        return b.prec < a.prec;
    }
    if a.literal != b.literal {
        return a.literal;
    }
    s.0 <= t.0
}

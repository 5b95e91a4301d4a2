//! Tokens: from the bytes of a file to the tokens and the bytes behind them.

ghost use Rattle.std.specs.Prelude.{◌≡◌, length, IfOk};
ghost use Rattle.ts_langfile.specs.Reader.{Gives, tested, times};
ghost use Rattle.ts_langfile.specs.Parts as spec;
ghost use Rattle.ts_langfile.specs.Parts.{flag_at, kind_at, token_at};

use crate::flaw::{Stop, wrong};
use crate::known::Known;
use crate::part::{flag, signed32, tag, text};
use crate::re::{MOST_LEVELS, re};
use std::alloc::Global;
use ts_core::{Kind, List, TokenDef};

fn kind_of(tag: u8) -> Kind
    ensures { result ≡ spec.kind_of tag }
{
    match tag {
        0 => Kind::Named,
        1 => Kind::Anonymous,
        _ => Kind::Hidden,
    }
}

#[tactic(auto, unfolding(crate::specs::Parts::kind_at))]
pub(crate) fn kind(bytes: &[u8]) -> Result<(Kind, &[u8]), Stop>
    ensures { Gives (λ x. (x.0, x.1.now)) result (kind_at bytes.now) }
{
    let (tag, rest) = tag(bytes, 2)?;
    Ok((kind_of(tag), rest))
}

/// Whether a token may have this mark, as far as it is known whether there is a word.
fn may_be_keyword(known: &Known, literal: bool, keyword: bool) -> bool
    ensures { result ≡ spec.may_be_keyword known.now literal keyword }
{
    !keyword || (literal && known.word.unwrap_or(true))
}

/// The mark of a keyword.
fn keyword_mark<'a>(bytes: &'a [u8], known: &Known, literal: bool) -> Result<(bool, &'a [u8]), Stop>
    ensures { Gives (λ x. (x.0, x.1.now)) result
        (tested flag_at (spec.may_be_keyword known.now literal) bytes.now) }
{
    let (keyword, rest) = flag(bytes)?;
    if !may_be_keyword(known, literal, keyword) {
        return Err(wrong(bytes));
    }
    Ok((keyword, rest))
}

#[tactic(auto, unfolding(crate::specs::Parts::token_at))]
fn token<'a>(alloc: Global, bytes: &'a [u8], known: &Known) -> Result<(TokenDef, &'a [u8]), Stop>
    ensures { Gives (λ x. (x.0, x.1.now)) result (token_at known.now bytes.now) }
{
    let (name, rest) = text(alloc, bytes)?;
    let (kind, rest) = kind(rest)?;
    let (re, rest) = re(alloc, rest, MOST_LEVELS)?;
    let (prec, rest) = signed32(rest)?;
    let (literal, rest) = flag(rest)?;
    let (immediate, rest) = flag(rest)?;
    let (keyword, rest) = keyword_mark(rest, known, literal)?;
    let token = TokenDef {
        name,
        kind,
        re,
        prec,
        literal,
        immediate,
        keyword,
    };
    Ok((token, rest))
}

/// So many tokens.
pub(crate) fn tokens<'a>(
    alloc: Global,
    bytes: &'a [u8],
    count: u32,
    known: &Known,
) -> Result<(List<TokenDef>, &'a [u8]), Stop>
    ensures read { Gives (λ x. (x.0, x.1.now)) result (times count (token_at known.now) bytes.now) }
    ensures count { IfOk result (λ x. length x.0 ≡ count) }
{
    let mut tokens = List::new(alloc);
    let mut rest = bytes;
    for _ in 0..count {
        let (token, after) = token(alloc, rest, known)?;
        tokens.push(token)?;
        rest = after;
    }
    Ok((tokens, rest))
}

//! Signs, with which a pattern is written one after another: the text and a place come in, and the
//! sign that begins there goes out, or its flaw.
ghost use Rattle.std.specs.Prelude.{◌≡◌, ◌≤◌, ◌<◌, ◌+◌, ◌^◌, length, IfOk};
ghost use Rattle.ts_pattern.specs.Characters.{IsSightWithin, run, is_decimal};
ghost use Rattle.ts_pattern.specs.Signs.{count, set_of, char, dot, brace, two_counts, counts, opened, escaped, plain, bracketed, IsSight};

use crate::chars::{
    BACKSLASH, BAR, CARET, CLOSE, CLOSE_BRACE, COLON, COMMA, DOLLAR, DOT, NEWLINE, OPEN,
    OPEN_BRACE, OPEN_BRACKET, PLUS, QUESTION, STAR, Test, is_below, number, part, peek, run,
};
use crate::class::class;
use crate::escape::escape;
use crate::item::{Base, CharSet, Item, Mark};
use crate::limits::MOST_COUNTED;
use crate::sight::{Flaw, Sight};
use std::alloc::{AllocError, Global};
use ts_base::List;

/// One more than the greatest count that a pattern may have.
const PAST_COUNTED: u32 = MOST_COUNTED + 1;

/// A sign of a pattern.
#[derive(Drop)]
pub(crate) enum Sign {
    Set(CharSet),
    Open,
    Close,
    Bar,
    /// A quantifier: the least and the most times. Counts stop at 65,536.
    Times(u32, Option<u32>),
}

/// The count that so many digits write.
fn count(text: &[char], at: usize, digits: usize) -> u32
    requires { at + digits ≤ length text.now }
    ensures { result ≡ count text.now at digits }
{
    number(part(text, at, digits), 10, PAST_COUNTED)
}

/// The set of one item, or its complement.
fn set_of(alloc: Global, inverted: bool, item: Item) -> Result<Sign, AllocError>
    ensures { IfOk result (λ s. s ≡ set_of inverted item) }
{
    let mut items = List::new(alloc);
    items.push(item)?;
    Ok(Sign::Set(CharSet { inverted, items }))
}

fn char(alloc: Global, code: u32) -> Result<Sign, AllocError>
    ensures { IfOk result (λ s. s ≡ char code) }
{
    let base = Base::Range(code, code);
    let lacking = false;
    set_of(alloc, false, Item { base, lacking })
}

fn brace(alloc: Global, at: usize) -> Result<Sight<Sign>, AllocError>
    requires { at + 1 < 2 ^ 64 }
    ensures { IfOk result (λ s. s ≡ brace at) }
{
    Ok(Sight::Sees(char(alloc, OPEN_BRACE)?, at + 1))
}

/// `{n,}` or `{n,m}`: `n` has the `least` digits after the brace, `m` the `most` digits from
/// `start` on.
fn two_counts(
    alloc: Global,
    text: &[char],
    at: usize,
    least: usize,
    start: usize,
    most: usize,
) -> Result<Sight<Sign>, AllocError>
    requires before { at + 1 + least < start }
    requires within { start + most ≤ length text.now }
    requires least { least ≡ run is_decimal text.now (at + 1) }
    requires most { most ≡ run is_decimal text.now start }
    ensures value { IfOk result (λ s. s ≡ two_counts text.now at least start most) }
    ensures within { IfOk result (IsSightWithin text.now at) }
{
    let end = start + most;
    if peek(text, end) != CLOSE_BRACE {
        return brace(alloc, at);
    }
    let fewest = count(text, at + 1, least);
    if most == 0 {
        return Ok(Sight::Sees(Sign::Times(fewest, None), end + 1));
    }
    if is_below(part(text, start, most), part(text, at + 1, least)) {
        return Ok(Sight::Wrong(Flaw::Syntax, at));
    }
    let greatest = count(text, start, most);
    Ok(Sight::Sees(Sign::Times(fewest, Some(greatest)), end + 1))
}

/// A counted form whose first count has the `least` digits after the brace, or the brace alone.
fn counts(alloc: Global, text: &[char], at: usize, least: usize) -> Result<Sight<Sign>, AllocError>
    requires within { at + 1 + least ≤ length text.now }
    requires least { least ≡ run is_decimal text.now (at + 1) }
    ensures value { IfOk result (λ s. s ≡ counts text.now at least) }
    ensures within { IfOk result (IsSightWithin text.now at) }
{
    if least == 0 {
        return brace(alloc, at);
    }
    let end = at + 1 + least;
    let after = peek(text, end);
    if after == CLOSE_BRACE {
        let times = count(text, at + 1, least);
        return Ok(Sight::Sees(Sign::Times(times, Some(times)), at + 2 + least));
    }
    if after == COMMA {
        let start = at + 2 + least;
        let most = run(text, start, Test::Decimal);
        return two_counts(alloc, text, at, least, start, most);
    }
    brace(alloc, at)
}

fn opened(text: &[char], at: usize) -> Sight<Sign>
    requires { at < length text.now }
    ensures value { result ≡ opened text.now at }
    ensures within { IsSightWithin text.now at result }
{
    if peek(text, at + 1) != QUESTION {
        Sight::Sees(Sign::Open, at + 1)
    } else if peek(text, at + 2) == COLON {
        Sight::Sees(Sign::Open, at + 3)
    } else {
        Sight::Wrong(Flaw::Unsupported, at)
    }
}

fn escaped(alloc: Global, at: usize, mark: Sight<Mark>) -> Result<Sight<Sign>, AllocError>
    ensures { IfOk result (λ s. s ≡ escaped at mark) }
{
    match mark {
        Sight::Sees(Mark::Char(code), next) => Ok(Sight::Sees(char(alloc, code)?, next)),
        Sight::Sees(Mark::Class(item), next) => {
            Ok(Sight::Sees(set_of(alloc, false, item)?, next))
        }
        Sight::Sees(Mark::Join, _) => Ok(Sight::Wrong(Flaw::Syntax, at)),
        Sight::Wrong(flaw, place) => Ok(Sight::Wrong(flaw, place)),
    }
}

fn dot(alloc: Global) -> Result<Sign, AllocError>
    ensures { IfOk result (λ s. s ≡ dot) }
{
    let base = Base::Range(NEWLINE, NEWLINE);
    let lacking = false;
    set_of(alloc, true, Item { base, lacking })
}

/// Every sign but a class.
fn plain(alloc: Global, text: &[char], at: usize) -> Result<Sight<Sign>, AllocError>
    requires { at < length text.now }
    ensures value { IfOk result (λ s. s ≡ plain text.now at) }
    ensures within { IfOk result (IsSightWithin text.now at) }
{
    match peek(text, at) {
        BACKSLASH => {
            let mark = escape(alloc, text, at)?;
            escaped(alloc, at, mark)
        }
        DOT => Ok(Sight::Sees(dot(alloc)?, at + 1)),
        OPEN => Ok(opened(text, at)),
        CLOSE => Ok(Sight::Sees(Sign::Close, at + 1)),
        BAR => Ok(Sight::Sees(Sign::Bar, at + 1)),
        STAR => Ok(Sight::Sees(Sign::Times(0, None), at + 1)),
        PLUS => Ok(Sight::Sees(Sign::Times(1, None), at + 1)),
        QUESTION => Ok(Sight::Sees(Sign::Times(0, Some(1)), at + 1)),
        OPEN_BRACE => {
            let least = run(text, at + 1, Test::Decimal);
            counts(alloc, text, at, least)
        }
        CARET => Ok(Sight::Wrong(Flaw::Unsupported, at)),
        DOLLAR => Ok(Sight::Wrong(Flaw::Unsupported, at)),
        code => Ok(Sight::Sees(char(alloc, code)?, at + 1)),
    }
}

fn bracketed(set: Sight<CharSet>) -> Sight<Sign>
    ensures { result ≡ bracketed set }
{
    match set {
        Sight::Sees(set, next) => Sight::Sees(Sign::Set(set), next),
        Sight::Wrong(flaw, place) => Sight::Wrong(flaw, place),
    }
}

/// The sign that stands at a place.
pub(crate) fn sign_at(alloc: Global, text: &[char], at: usize) -> Result<Sight<Sign>, AllocError>
    requires { at < length text.now }
    ensures value { IfOk result (IsSight text.now at) }
    ensures within { IfOk result (IsSightWithin text.now at) }
{
    if peek(text, at) == OPEN_BRACKET {
        let set = class(alloc, text, at)?;
        return Ok(bracketed(set));
    }
    plain(alloc, text, at)
}

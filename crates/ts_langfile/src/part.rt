//! The smallest parts of a file: from its bytes to a number, flag or text, and the bytes behind it.

ghost use Rattle.std.specs.Prelude.{◌≡◌, ◌≤◌, IfOk};
ghost use Rattle.ts_langfile.specs.Reader.{Gives, byte_at, bytes_at, times};
ghost use Rattle.ts_langfile.specs.Parts.{number16_at, number32_at, signed32_at, tag_at, flag_at, text_at, count_at};

use crate::flaw::{Stop, short, wrong};
use std::alloc::Global;
use std::str::from_utf8;
use ts_core::{List, Str};

#[tactic(auto, unfolding(crate::specs::Parts::number16_at, crate::specs::Reader::number_at))]
pub(crate) fn number16(bytes: &[u8]) -> Result<(u16, &[u8]), Stop>
    ensures { Gives (λ x. (x.0, x.1.now)) result (number16_at bytes.now) }
{
    if bytes.len() < 2 {
        return Err(short(bytes));
    }
    let (front, rest) = bytes.split_at(2);
    Ok((u16::from_be_bytes([front[0], front[1]]), rest))
}

#[tactic(auto, unfolding(crate::specs::Parts::number32_at, crate::specs::Reader::number_at))]
pub(crate) fn number32(bytes: &[u8]) -> Result<(u32, &[u8]), Stop>
    ensures { Gives (λ x. (x.0, x.1.now)) result (number32_at bytes.now) }
{
    if bytes.len() < 4 {
        return Err(short(bytes));
    }
    let (front, rest) = bytes.split_at(4);
    let number = u32::from_be_bytes([front[0], front[1], front[2], front[3]]);
    Ok((number, rest))
}

#[tactic(auto, unfolding(crate::specs::Parts::signed32_at))]
pub(crate) fn signed32(bytes: &[u8]) -> Result<(i32, &[u8]), Stop>
    ensures { Gives (λ x. (x.0, x.1.now)) result (signed32_at bytes.now) }
{
    let (number, rest) = number32(bytes)?;
    Ok((number.cast_signed(), rest))
}

fn byte(bytes: &[u8]) -> Result<(u8, &[u8]), Stop>
    ensures { Gives (λ x. (x.0, x.1.now)) result (byte_at bytes.now) }
{
    match bytes {
        [] => Err(short(bytes)),
        [byte, rest @ ..] => Ok((*byte, rest)),
    }
}

/// A byte that is at most so great.
#[tactic(auto, unfolding(crate::specs::Parts::tag_at))]
pub(crate) fn tag(bytes: &[u8], most: u8) -> Result<(u8, &[u8]), Stop>
    ensures { Gives (λ x. (x.0, x.1.now)) result (tag_at most bytes.now) }
{
    let (tag, rest) = byte(bytes)?;
    if tag > most {
        return Err(wrong(bytes));
    }
    Ok((tag, rest))
}

#[tactic(auto, unfolding(crate::specs::Parts::flag_at))]
pub(crate) fn flag(bytes: &[u8]) -> Result<(bool, &[u8]), Stop>
    ensures { Gives (λ x. (x.0, x.1.now)) result (flag_at bytes.now) }
{
    let (tag, rest) = tag(bytes, 1)?;
    Ok((tag == 1, rest))
}

/// A list's count, which is at most so great.
#[tactic(auto, unfolding(crate::specs::Parts::count_at))]
pub(crate) fn count(bytes: &[u8], most: u32) -> Result<(u32, &[u8]), Stop>
    ensures read { Gives (λ x. (x.0, x.1.now)) result (count_at most bytes.now) }
    ensures few { IfOk result (λ x. x.0 ≤ most) }
{
    let (count, rest) = number32(bytes)?;
    if count > most {
        return Err(wrong(bytes));
    }
    Ok((count, rest))
}

#[tactic(auto, unfolding(crate::specs::Reader::bytes_at))]
fn bytes_of(bytes: &[u8], count: u32) -> Result<(&[u8], &[u8]), Stop>
    ensures { Gives (λ x. (x.0.now, x.1.now)) result (bytes_at count bytes.now) }
{
    let count = count as usize;
    if bytes.len() < count {
        return Err(short(bytes));
    }
    Ok(bytes.split_at(count))
}

#[tactic(auto, unfolding(crate::specs::Parts::text_at))]
pub(crate) fn text(alloc: Global, bytes: &[u8]) -> Result<(Str, &[u8]), Stop>
    ensures { Gives (λ x. (x.0, x.1.now)) result (text_at bytes.now) }
{
    let (count, start) = number32(bytes)?;
    let (text, rest) = bytes_of(start, count)?;
    match from_utf8(text) {
        Ok(text) => Ok((Str::from_text(alloc, text)?, rest)),
        Err(_) => Err(wrong(start)),
    }
}

/// So many texts.
pub(crate) fn texts(alloc: Global, bytes: &[u8], count: u32) -> Result<(List<Str>, &[u8]), Stop>
    ensures { Gives (λ x. (x.0, x.1.now)) result (times count text_at bytes.now) }
{
    let mut texts = List::new(alloc);
    let mut rest = bytes;
    for _ in 0..count {
        let (text, after) = text(alloc, rest)?;
        texts.push(text)?;
        rest = after;
    }
    Ok((texts, rest))
}

//! Regular expressions: from the bytes of a file to the expression and the bytes behind it.

ghost use Rattle.std.specs.Prelude.{◌≡◌, ◌<◌, IfOk};
ghost use Rattle.ts_langfile.specs.Reader.{Gives, times, in_turn};
ghost use Rattle.ts_langfile.specs.Parts as spec;
ghost use Rattle.ts_base.specs.Characters.{character_count};
ghost use Rattle.ts_langfile.specs.Parts.{range_at, behind_range, most_at, re_at, re_by, listed_at, repeat_tag};

use crate::flaw::{Stop, wrong};
use crate::part::{flag, number32, tag};
use std::alloc::Global;
use ts_core::{Boxed, List, Re};

/// How many expressions may stand in one another.
pub(crate) const MOST_LEVELS: usize = 512;

fn is_character(code: u32) -> bool
    ensures { result ≡ spec.is_character code }
{
    code < 0xD800 || (0xE000 <= code && code < 0x11_0000)
}

/// Whether a range may end there that begins at `low`.
fn ends_range(low: u32, high: u32) -> bool
    ensures { result ≡ spec.ends_range low high }
{
    is_character(high) && low <= high && (high < 0xD800 || 0xE000 <= low)
}

/// A range that begins at `least` or above.
#[tactic(auto, unfolding(crate::specs::Parts::range_at))]
fn range(bytes: &[u8], least: u32) -> Result<((u32, u32), &[u8]), Stop>
    ensures read { Gives (λ x. (x.0, x.1.now)) result (range_at least bytes.now) }
    ensures high { IfOk result (λ x. x.0.1 < character_count) }
{
    let (low, after) = number32(bytes)?;
    if !(is_character(low) && least <= low) {
        return Err(wrong(bytes));
    }
    let (high, rest) = number32(after)?;
    if !ends_range(low, high) {
        return Err(wrong(after));
    }
    Ok(((low, high), rest))
}

fn ranges(alloc: Global, bytes: &[u8], count: u32) -> Result<(List<(u32, u32)>, &[u8]), Stop>
    ensures { Gives (λ x. (x.0, x.1.now)) result (in_turn range_at behind_range count 0 bytes.now) }
{
    let mut ranges = List::new(alloc);
    let mut least = 0;
    let mut rest = bytes;
    for _ in 0..count {
        let (range, after) = range(rest, least)?;
        least = range.1 + 2;
        ranges.push(range)?;
        rest = after;
    }
    Ok((ranges, rest))
}

/// The most times of a repeat.
#[tactic(auto, unfolding(crate::specs::Parts::most_at))]
fn most(bytes: &[u8], least: u32) -> Result<(Option<u32>, &[u8]), Stop>
    ensures { Gives (λ x. (x.0, x.1.now)) result (most_at least bytes.now) }
{
    let (there, start) = flag(bytes)?;
    if !there {
        return Ok((None, start));
    }
    let (most, rest) = number32(start)?;
    if most < least {
        return Err(wrong(start));
    }
    Ok((Some(most), rest))
}

/// An expression in which at most `room` stand in one another, itself among them.
#[cycle(re)]
#[tactic(auto, unfolding(crate::specs::Parts::re_at))]
pub(crate) fn re(alloc: Global, bytes: &[u8], room: usize) -> Result<(Re, &[u8]), Stop>
    ensures { Gives (λ x. (x.0, x.1.now)) result (re_at room bytes.now) }
{
    let (tag, start) = tag(bytes, 4)?;
    if room == 0 {
        return Err(wrong(bytes));
    }
    match tag {
        0 => Ok((Re::Empty, start)),
        1 => {
            let (count, start) = number32(start)?;
            let (ranges, rest) = ranges(alloc, start, count)?;
            Ok((Re::Set(ranges), rest))
        }
        2 => {
            let (parts, rest) = parts(alloc, start, room - 1)?;
            Ok((Re::Cat(parts), rest))
        }
        3 => {
            let (parts, rest) = parts(alloc, start, room - 1)?;
            Ok((Re::Alt(parts), rest))
        }
        _ => repeat(alloc, start, room - 1),
    }
}

/// What stands behind the tag of a repeat.
#[cycle(re)]
fn repeat(alloc: Global, bytes: &[u8], room: usize) -> Result<(Re, &[u8]), Stop>
    ensures { Gives (λ x. (x.0, x.1.now)) result (re_by (re_at room) repeat_tag bytes.now) }
{
    let (inside, start) = re(alloc, bytes, room)?;
    let (least, start) = number32(start)?;
    let (most, rest) = most(start, least)?;
    Ok((Re::Repeat(Boxed::new(alloc, inside)?, least, most), rest))
}

/// A list of expressions.
#[cycle(re)]
pub(crate) fn parts(alloc: Global, bytes: &[u8], room: usize) -> Result<(List<Re>, &[u8]), Stop>
    ensures { Gives (λ x. (x.0, x.1.now)) result (listed_at (re_at room) bytes.now) }
{
    let (count, start) = number32(bytes)?;
    let mut parts = List::new(alloc);
    let mut rest = start;
    for _ in 0..count {
        let (part, after) = re(alloc, rest, room)?;
        parts.push(part)?;
        rest = after;
    }
    Ok((parts, rest))
}

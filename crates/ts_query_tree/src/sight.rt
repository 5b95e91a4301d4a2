//! What stands at a place of a text: from the place to a sign and the place behind it.
ghost use Rattle.std.specs.Prelude.{◌≡◌, ◌≤◌, ◌<◌, ◌+◌, ◌^◌, true, length, drop, slice_get, Some, IfOk};
ghost use Rattle.std.specs.Str.{IsCharBoundary};
ghost use Rattle.ts_query_tree.specs.Words.{begins_name, name_end, quoted, letter_of};
ghost use Rattle.ts_query_tree.specs.Signs.{written, name_at, capture_at, without_at, predicate_at, text_at, mark_at, is_predicate_mark, quote_mark, capture_mark, without_mark, predicate_mark, sign_from, sight, IsWithin};

use crate::bytes::{Test, begins_name, byte_at, gap_end, is_name_start, run};
use crate::sign::Sign;
use crate::tree::{Mark, Quantity, Written};
use std::alloc::{AllocError, Global};
use ts_base::Str;

/// What stands at a place.
#[derive(Drop)]
pub(crate) enum Sight {
    /// A sign, and the place behind it.
    Sees(Sign, usize),
    /// A sign of this kind begins there, and no name for it stands at the place.
    Cut(Sign, usize),
    /// No sign begins there.
    Strange,
}

/// The text between two places, for a sign at a place.
fn written(
    alloc: Global,
    text: &str,
    at: usize,
    from: usize,
    to: usize,
) -> Result<Written, AllocError>
    requires at { at < 2 ^ 32 }
    requires order { from ≤ to }
    requires from { IsCharBoundary text.now from }
    requires to { IsCharBoundary text.now to }
    ensures { IfOk result (λ r. r ≡ written text.now at from to) }
{
    Ok(Written {
        at: at as u32,
        text: Str::from_text(alloc, &text[from..to])?,
    })
}

/// The place behind the name that stands at a place.
fn name_end(text: &str, at: usize) -> usize
    requires { begins_name text.now at ≡ true }
    ensures value { result ≡ name_end text.now at }
    ensures within { (at < result) × (result ≤ length text.now) }
    ensures from { IsCharBoundary text.now at }
    ensures to { IsCharBoundary text.now result }
{
    at + run(text, at, Test::Name)
}

fn name_at(alloc: Global, text: &str, at: usize) -> Result<Sight, AllocError>
    requires name { begins_name text.now at ≡ true }
    requires short { length text.now < 2 ^ 32 }
    ensures value { IfOk result (λ s. s ≡ name_at text.now at) }
    ensures within { IfOk result (IsWithin text.now at) }
{
    let end = name_end(text, at);
    Ok(Sight::Sees(Sign::Name(written(alloc, text, at, at, end)?), end))
}

/// `@` and a name.
fn capture_at(alloc: Global, text: &str, at: usize) -> Result<Sight, AllocError>
    requires capture { slice_get text.now at ≡ Some capture_mark }
    requires short { length text.now < 2 ^ 32 }
    ensures value { IfOk result (λ s. s ≡ capture_at text.now at) }
    ensures within { IfOk result (IsWithin text.now at) }
{
    let from = gap_end(text, at + 1);
    if !begins_name(text, from) {
        let nothing = written(alloc, text, at, at, at)?;
        return Ok(Sight::Cut(Sign::Capture(nothing), from));
    }
    let end = name_end(text, from);
    let name = written(alloc, text, at, from, end)?;
    Ok(Sight::Sees(Sign::Capture(name), end))
}

/// `!` and a name.
fn without_at(alloc: Global, text: &str, at: usize) -> Result<Sight, AllocError>
    requires without { slice_get text.now at ≡ Some without_mark }
    requires short { length text.now < 2 ^ 32 }
    ensures value { IfOk result (λ s. s ≡ without_at text.now at) }
    ensures within { IfOk result (IsWithin text.now at) }
{
    let from = gap_end(text, at + 1);
    if !begins_name(text, from) {
        let nothing = written(alloc, text, from, at, at)?;
        return Ok(Sight::Cut(Sign::Without(nothing), from));
    }
    let end = name_end(text, from);
    let name = written(alloc, text, from, from, end)?;
    Ok(Sight::Sees(Sign::Without(name), end))
}

fn is_predicate_mark(byte: Option<u8>) -> bool
    ensures { result ≡ is_predicate_mark byte }
{
    matches!(byte, Some(b'?' | b'!'))
}

/// `#` and a name that ends with `?` or `!`.
fn predicate_at(alloc: Global, text: &str, at: usize) -> Result<Sight, AllocError>
    requires predicate { slice_get text.now at ≡ Some predicate_mark }
    requires short { length text.now < 2 ^ 32 }
    ensures value { IfOk result (λ s. s ≡ predicate_at text.now at) }
    ensures within { IfOk result (IsWithin text.now at) }
{
    let from = gap_end(text, at + 1);
    if begins_name(text, from) {
        let end = name_end(text, from);
        if is_predicate_mark(byte_at(text, end)) {
            let name = written(alloc, text, at, from, end + 1)?;
            return Ok(Sight::Sees(Sign::Predicate(name), end + 1));
        }
    }
    let nothing = written(alloc, text, at, at, at)?;
    Ok(Sight::Cut(Sign::Predicate(nothing), from))
}

/// The character that a letter behind a backslash stands for, where it stands for another one.
fn letter_of(byte: u8) -> Option<char>
    ensures value { result ≡ letter_of byte }
{
    match byte {
        b'n' => Some('\n'),
        b'r' => Some('\r'),
        b't' => Some('\t'),
        b'0' => Some('\0'),
        _ => None,
    }
}

/// The text of a string, and the place behind it, or `None` where it is open. `from` is behind the
/// quote that begins it.
fn quoted(alloc: Global, text: &str, from: usize) -> Result<Option<(Str, usize)>, AllocError>
    requires within { from ≤ length text.now }
    requires boundary { IsCharBoundary text.now from }
    ensures { IfOk result (λ r. r ≡ quoted text.now from) }
{
    let mut read = String::new(alloc);
    let mut kept = from;
    let mut at = from;
    'pieces: loop {
        let end = at + run(text, at, Test::Plain);
        if byte_at(text, end) == Some(b'"') {
            read.push_str(&text[kept..end])?;
            return Ok(Some((Str::from_string(read), end + 1)));
        }
        let Some(letter) = byte_at(text, end + 1) else {
            return Ok(None);
        };
        read.push_str(&text[kept..end])?;
        if let Some(character) = letter_of(letter) {
            read.push(character)?;
            kept = end + 2;
            at = end + 2;
            continue 'pieces;
        }
        kept = end + 1;
        at = end + 2;
    }
}

/// A string.
fn text_at(alloc: Global, text: &str, at: usize) -> Result<Sight, AllocError>
    requires quote { slice_get text.now at ≡ Some quote_mark }
    requires short { length text.now < 2 ^ 32 }
    ensures value { IfOk result (λ s. s ≡ text_at text.now at) }
    ensures within { IfOk result (IsWithin text.now at) }
{
    match quoted(alloc, text, at + 1)? {
        None => Ok(Sight::Strange),
        Some((inner, end)) => {
            let string = Written {
                at: at as u32,
                text: inner,
            };
            Ok(Sight::Sees(Sign::Text(string), end))
        }
    }
}

fn mark_at(at: usize, quantity: Quantity) -> Sight
    requires { at < 2 ^ 32 }
    ensures { result ≡ mark_at at quantity }
{
    let mark = Mark {
        at: at as u32,
        quantity,
    };
    Sight::Sees(Sign::Mark(mark), at + 1)
}

/// What begins with this byte.
fn sign_from(alloc: Global, text: &str, at: usize, byte: u8) -> Result<Sight, AllocError>
    requires byte { slice_get text.now at ≡ Some byte }
    requires short { length text.now < 2 ^ 32 }
    ensures value { IfOk result (λ s. s ≡ sign_from text.now at byte) }
    ensures within { IfOk result (IsWithin text.now at) }
{
    match byte {
        b'(' => Ok(Sight::Sees(Sign::Open, at + 1)),
        b')' => Ok(Sight::Sees(Sign::Close, at + 1)),
        b'[' => Ok(Sight::Sees(Sign::OpenChoice, at + 1)),
        b']' => Ok(Sight::Sees(Sign::CloseChoice, at + 1)),
        b'.' => Ok(Sight::Sees(Sign::Anchor, at + 1)),
        b':' => Ok(Sight::Sees(Sign::Colon, at + 1)),
        b'?' => Ok(mark_at(at, Quantity::Optional)),
        b'*' => Ok(mark_at(at, Quantity::Many)),
        b'+' => Ok(mark_at(at, Quantity::Several)),
        b'"' => text_at(alloc, text, at),
        b'@' => capture_at(alloc, text, at),
        b'!' => without_at(alloc, text, at),
        b'#' => predicate_at(alloc, text, at),
        _ => {
            if is_name_start(byte) {
                name_at(alloc, text, at)
            } else {
                Ok(Sight::Strange)
            }
        }
    }
}

/// What stands at a place. At the end of the text no sign begins.
pub(crate) fn sign_at(alloc: Global, text: &str, at: usize) -> Result<Sight, AllocError>
    requires { length text.now < 2 ^ 32 }
    ensures value { IfOk result (λ s. s ≡ sight text.now at) }
    ensures within { IfOk result (IsWithin text.now at) }
{
    match byte_at(text, at) {
        Some(byte) => sign_from(alloc, text, at, byte),
        None => Ok(Sight::Strange),
    }
}

//! Escapes in strings: from the place behind a backslash to the character and the place behind it.

ghost use Rattle.std.specs.Prelude.{◌≡◌, ℕ, List, ◌∷◌, [], ◌++◌, ◌+◌, ◌-◌, ◌^◌, ◌<◌, ◌≤◌, length, get_or, IfOk, IfErr, IfSome};
ghost use Rattle.std.specs.Str.{IsCharBoundary};
ghost use Rattle.std.specs.Char.{digit_value, encode_utf8};
ghost use Rattle.ts_base.specs.Bytes.{Bytes};
ghost use Rattle.ts_ojson.specs.Characters.{IsHigh, IsLow, short_of};
ghost use Rattle.ts_ojson.specs.Strings.{piece_of, backslash_piece, unit_piece, pair_piece, digit_piece, hex_piece, next_piece, IsInside, IsGoing};
ghost use Rattle.ts_ojson.specs.Machine.{Frames};
ghost use Rattle.ts_ojson.specs.Roles.{Role};
ghost use Rattle.ts_ojson.specs.States.{text as in_text};
ghost use Rattle.ts_ojson.specs.Places.{Reaches, Refused};

use crate::stop::Stop;

/// How much of a character of a string was read: nothing, of an escape its letter and digits, and
/// where it is the second of a pair the first one's code unit.
#[derive(Clone, Copy, PartialEq, Eq, Debug)]
pub(crate) enum Escape {
    Plain,
    Backslash,
    First,
    Second(u32),
    Third(u32),
    Fourth(u32),
    High(u32),
    HighBackslash(u32),
    LowFirst(u32),
    LowSecond(u32),
    LowThird(u32, u32),
    LowFourth(u32, u32),
}

/// An escape after one more byte: it goes on, or its character was read.
#[derive(Clone, Copy, PartialEq, Eq, Debug)]
pub(crate) enum Next {
    More(Escape),
    Character(char),
}

fn digit(byte: u8) -> u32
    ensures { result ≡ digit_value byte }
{
    match byte {
        b'0'..=b'9' => (byte - b'0') as u32,
        b'A'..=b'Z' => (byte - b'A') as u32 + 10,
        b'a'..=b'z' => (byte - b'a') as u32 + 10,
        _ => 36,
    }
}

fn short(byte: u8) -> Option<char>
    ensures { result ≡ short_of byte }
{
    match byte {
        b'"' => Some('"'),
        b'\\' => Some('\\'),
        b'/' => Some('/'),
        b'b' => Some('\u{8}'),
        b'f' => Some('\u{c}'),
        b'n' => Some('\n'),
        b'r' => Some('\r'),
        b't' => Some('\t'),
        _ => None,
    }
}

fn backslash(byte: u8) -> Option<Next>
    ensures piece { (s : Bytes) → backslash_piece s byte ≡ piece_of s result }
    ensures going { IfSome result IsGoing }
    ensures ascii { IfSome result (λ _. byte < 128) }
{
    if byte == b'u' {
        return Some(Next::More(Escape::First));
    }
    match short(byte) {
        Some(c) => Some(Next::Character(c)),
        None => None,
    }
}

/// After all four digits of a code unit that is no second of a pair.
fn unit(unit: u32) -> Option<Next>
    requires { unit < 2 ^ 16 }
    ensures piece { (s : Bytes) → unit_piece s unit ≡ piece_of s result }
    ensures going { IfSome result IsGoing }
{
    match char::from_u32(unit) {
        Some(c) => Some(Next::Character(c)),
        None if unit < 0xdc00 => Some(Next::More(Escape::High(unit))),
        None => None,
    }
}

/// After all four digits of the second of a pair.
fn pair(high: u32, low: u32) -> Option<Next>
    requires { IsHigh high × IsLow low }
    ensures piece { (s : Bytes) → pair_piece s high low ≡ piece_of s result }
    ensures going { IfSome result IsGoing }
{
    match char::from_u32(0x10000 + (high - 0xd800) * 1024 + (low - 0xdc00)) {
        Some(c) => Some(Next::Character(c)),
        None => None,
    }
}

fn with_digit(escape: Escape, digit: u32) -> Option<Next>
    requires inside { IsInside escape }
    requires digit { digit < 16 }
    ensures piece { (s : Bytes) → digit_piece escape s digit ≡ piece_of s result }
    ensures going { IfSome result IsGoing }
{
    let next = match escape {
        Escape::First => Escape::Second(digit),
        Escape::Second(n) => match n * 16 + digit {
            0xdc..=0xdf => return None,
            n => Escape::Third(n),
        },
        Escape::Third(n) => Escape::Fourth(n * 16 + digit),
        Escape::Fourth(n) => return unit(n * 16 + digit),
        Escape::LowFirst(high) if digit == 0xd => Escape::LowSecond(high),
        Escape::LowSecond(high) if 0xc <= digit => Escape::LowThird(high, 0xd0 + digit),
        Escape::LowThird(high, n) => Escape::LowFourth(high, n * 16 + digit),
        Escape::LowFourth(high, n) => return pair(high, n * 16 + digit),
        Escape::LowFirst(_)
        | Escape::LowSecond(_)
        | Escape::Plain
        | Escape::Backslash
        | Escape::High(_)
        | Escape::HighBackslash(_) => return None,
    };
    Some(Next::More(next))
}

#[tactic(auto, using(crate::proofs::ClassLemmas::hex_ascii))]
fn hex(escape: Escape, byte: u8) -> Option<Next>
    requires { IsInside escape }
    ensures piece { (s : Bytes) → hex_piece escape s byte ≡ piece_of s result }
    ensures going { IfSome result IsGoing }
    ensures ascii { IfSome result (λ _. byte < 128) }
{
    let digit = digit(byte);
    if digit < 16 {
        with_digit(escape, digit)
    } else {
        None
    }
}

/// One more byte of an escape. `None` where the escape has no such byte there.
fn read_on(escape: Escape, byte: u8) -> Option<Next>
    requires { IsInside escape }
    ensures piece { (s : Bytes) → next_piece escape s byte ≡ piece_of s result }
    ensures going { IfSome result IsGoing }
    ensures ascii { IfSome result (λ _. byte < 128) }
{
    match escape {
        Escape::Backslash => backslash(byte),
        Escape::High(high) if byte == b'\\' => Some(Next::More(Escape::HighBackslash(high))),
        Escape::HighBackslash(high) if byte == b'u' => Some(Next::More(Escape::LowFirst(high))),
        Escape::Plain | Escape::High(_) | Escape::HighBackslash(_) => None,
        Escape::First
        | Escape::Second(_)
        | Escape::Third(_)
        | Escape::Fourth(_)
        | Escape::LowFirst(_)
        | Escape::LowSecond(_)
        | Escape::LowThird(_, _)
        | Escape::LowFourth(_, _) => hex(escape, byte),
    }
}

/// The escape after the byte at a place. `None` where it has no such byte there, or at the end.
fn read_in(text: &str, at: usize, escape: Escape) -> Option<Next>
    requires { IsInside escape }
    ensures piece { at < length text.now → (s : Bytes)
        → next_piece escape s (get_or text.now at 0) ≡ piece_of s result }
    ensures going { IfSome result IsGoing }
    ensures within { IfSome result (λ _. at < length text.now) }
    ensures ascii { IfSome result (λ _. get_or text.now at 0 < 128) }
{
    let bytes = text.as_bytes();
    if at < bytes.len() {
        read_on(escape, bytes[at])
    } else {
        None
    }
}

/// The character of the escape whose backslash stands before `from`, and the place behind it.
pub(crate) fn escaped(text: &str, from: usize) -> Result<(char, usize), Stop>
    requires { from ≤ length text.now }
    ensures later { IfOk result (λ r. (from < r.1) × (r.1 ≤ length text.now)) }
    ensures boundary { IfOk result (λ r. IsCharBoundary text.now r.1) }
    ensures ok { IfOk result (λ r. (s : Bytes) (role : Role) (k : Frames)
        → Reaches text.now from (in_text Escape.Backslash s role) k
        → Reaches text.now r.1 (in_text Escape.Plain (s ++ encode_utf8 r.0) role) k) }
    ensures err { IfErr result (λ e. (s : Bytes) (role : Role) (k : Frames)
        → Reaches text.now from (in_text Escape.Backslash s role) k → Refused e text.now) }
{
    let mut escape = Escape::Backslash;
    let mut at = from;
    loop {
        match read_in(text, at, escape) {
            Some(Next::More(more)) => escape = more,
            Some(Next::Character(character)) => return Ok((character, at + 1)),
            None => return Err(Stop::Syntax(at)),
        }
        at += 1;
    }
}

//! Escapes: from a backslash to the character or the class that it stands for.
ghost use Rattle.std.specs.Prelude.{◌≡◌, ◌≤◌, ◌<◌, ◌+◌, ◌^◌, IfOk, IfSome, IsTrue, length, take, drop};
ghost use Rattle.ts_pattern.specs.Characters.{number as number_of, IsSightWithin};
ghost use Rattle.ts_pattern.specs.Escapes.{shorthand, escaped_char, coded, fixed_code, braced_code, unicode_code, short_escape, escape, is_class_escape};

use crate::chars::{
    BACKSLASH, CLOSE_BRACE, ENDING, OPEN_BRACE, Test, is_scalar, number, part, peek, run,
};
use crate::item::{Base, Item, Mark};
use crate::property::property;
use crate::sight::{Flaw, Sight};
use std::alloc::{AllocError, Global};

const LETTER_D: u32 = 'd' as u32;

const LETTER_F: u32 = 'f' as u32;

const LETTER_N: u32 = 'n' as u32;

const LETTER_P: u32 = 'p' as u32;

const LETTER_R: u32 = 'r' as u32;

const LETTER_S: u32 = 's' as u32;

const LETTER_T: u32 = 't' as u32;

const LETTER_U: u32 = 'u' as u32;

const LETTER_V: u32 = 'v' as u32;

const LETTER_W: u32 = 'w' as u32;

const LETTER_X: u32 = 'x' as u32;

const CAPITAL_D: u32 = 'D' as u32;

const CAPITAL_P: u32 = 'P' as u32;

const CAPITAL_S: u32 = 'S' as u32;

const CAPITAL_W: u32 = 'W' as u32;

const ZERO: u32 = '0' as u32;

fn item(base: Base, lacking: bool) -> Option<Item>
    ensures { result ≡ Some (record { base = base; lacking = lacking }) }
{
    Some(Item { base, lacking })
}

fn shorthand(letter: u32) -> Option<Item>
    ensures value { result ≡ shorthand letter }
    ensures ascii { IfSome result (λ _. letter < 128) }
{
    match letter {
        LETTER_D => item(Base::Digit, false),
        LETTER_W => item(Base::Word, false),
        LETTER_S => item(Base::Space, false),
        CAPITAL_D => item(Base::Digit, true),
        CAPITAL_W => item(Base::Word, true),
        CAPITAL_S => item(Base::Space, true),
        _ => None,
    }
}

fn escaped_char(letter: u32) -> Option<u32>
    ensures value { result ≡ escaped_char letter }
    ensures ascii { IfSome result (λ _. letter < 128) }
{
    match letter {
        LETTER_N => Some(10),
        LETTER_R => Some(13),
        LETTER_T => Some(9),
        LETTER_F => Some(12),
        LETTER_V => Some(11),
        ZERO => Some(0),
        33..=47 | 58..=64 | 91..=96 | 123..=126 => Some(letter),
        _ => None,
    }
}

fn coded(at: usize, code: u32, next: usize) -> Sight<Mark>
    ensures { result ≡ coded at code next }
{
    if is_scalar(code) {
        Sight::Sees(Mark::Char(code), next)
    } else {
        Sight::Wrong(Flaw::Syntax, at)
    }
}

/// The code that so many hex digits write, where it is a character's.
fn code_of(text: &[char], at: usize, count: usize) -> u32
    requires { at + count ≤ length text.now }
    ensures { (i n : _) → coded i result n ≡ coded i (number_of 16 text.now at count) n }
{
    number(part(text, at, count), 16, ENDING)
}

fn fixed_code(text: &[char], at: usize, count: usize) -> Sight<Mark>
    requires start { at + 2 ≤ length text.now }
    requires count { 1 ≤ count }
    ensures value { result ≡ fixed_code text.now at count }
    ensures within { IsSightWithin text.now at result }
{
    let start = at + 2;
    if run(text, start, Test::Hex) < count {
        return Sight::Wrong(Flaw::Syntax, at);
    }
    coded(at, code_of(text, start, count), start + count)
}

fn braced_code(text: &[char], at: usize, count: usize) -> Sight<Mark>
    requires { at + 3 + count ≤ length text.now }
    ensures value { result ≡ braced_code text.now at count }
    ensures within { IsSightWithin text.now at result }
{
    let start = at + 3;
    if count < 1 || count > 6 || peek(text, start + count) != CLOSE_BRACE {
        return Sight::Wrong(Flaw::Syntax, at);
    }
    coded(at, code_of(text, start, count), start + count + 1)
}

fn unicode_code(text: &[char], at: usize) -> Sight<Mark>
    requires { at + 2 ≤ length text.now }
    ensures value { result ≡ unicode_code text.now at }
    ensures within { IsSightWithin text.now at result }
{
    if peek(text, at + 2) == OPEN_BRACE {
        let count = run(text, at + 3, Test::Hex);
        braced_code(text, at, count)
    } else {
        fixed_code(text, at, 4)
    }
}

fn short_escape(at: usize, letter: u32) -> Sight<Mark>
    requires { at + 2 < 2 ^ 64 }
    ensures value { result ≡ short_escape at letter (shorthand letter) (escaped_char letter) }
{
    if let Some(item) = shorthand(letter) {
        return Sight::Sees(Mark::Class(item), at + 2);
    }
    if let Some(code) = escaped_char(letter) {
        return Sight::Sees(Mark::Char(code), at + 2);
    }
    if letter == ENDING {
        Sight::Wrong(Flaw::Syntax, at)
    } else {
        Sight::Wrong(Flaw::Unsupported, at)
    }
}

/// The escape whose backslash stands at a place.
pub(crate) fn escape(alloc: Global, text: &[char], at: usize) -> Result<Sight<Mark>, AllocError>
    requires { at < length text.now }
    ensures value { IfOk result (λ s. s ≡ escape text.now at) }
    ensures within { IfOk result (IsSightWithin text.now at) }
{
    match peek(text, at + 1) {
        LETTER_X => Ok(fixed_code(text, at, 2)),
        LETTER_U => Ok(unicode_code(text, at)),
        LETTER_P => property(alloc, text, at, false),
        CAPITAL_P => property(alloc, text, at, true),
        letter => Ok(short_escape(at, letter)),
    }
}

/// Whether an escape that stands for a class begins at a place.
pub(crate) fn is_class_escape(text: &[char], at: usize) -> bool
    requires { at ≤ length text.now }
    ensures { result ≡ is_class_escape text.now at }
{
    let letter = peek(text, at + 1);
    peek(text, at) == BACKSLASH
        && matches!(
            letter,
            LETTER_D
                | LETTER_W
                | LETTER_S
                | CAPITAL_D
                | CAPITAL_W
                | CAPITAL_S
                | LETTER_P
                | CAPITAL_P
        )
}

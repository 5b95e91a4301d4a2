//! Looks at the characters of a pattern: its text and a place come in, counted in characters from
//! 0, and what goes out is what stands there: a character, the length of a run, or a number.
ghost use Rattle.std.specs.Prelude.{◌≡◌, ◌+◌, ◌≤◌, ◌<◌, min, IsTrue, nat_lt, length, take, drop};
ghost use Rattle.std.specs.Char.{digit_value};
ghost use Rattle.ts_pattern.specs.Characters.{ending, peek, passes, run, goes_on, value, padded_digit, AreDecimal, is_scalar};

/// What stands past the end: no character has this code.
pub(crate) const ENDING: u32 = 0x11_0000;

pub(crate) const BAR: u32 = '|' as u32;

pub(crate) const BACKSLASH: u32 = '\\' as u32;

pub(crate) const CARET: u32 = '^' as u32;

pub(crate) const CLOSE: u32 = ')' as u32;

pub(crate) const CLOSE_BRACE: u32 = '}' as u32;

pub(crate) const CLOSE_BRACKET: u32 = ']' as u32;

pub(crate) const COLON: u32 = ':' as u32;

pub(crate) const COMMA: u32 = ',' as u32;

pub(crate) const DOLLAR: u32 = '$' as u32;

pub(crate) const DOT: u32 = '.' as u32;

pub(crate) const HYPHEN: u32 = '-' as u32;

pub(crate) const NEWLINE: u32 = '\n' as u32;

pub(crate) const OPEN: u32 = '(' as u32;

pub(crate) const OPEN_BRACE: u32 = '{' as u32;

pub(crate) const OPEN_BRACKET: u32 = '[' as u32;

pub(crate) const PLUS: u32 = '+' as u32;

pub(crate) const QUESTION: u32 = '?' as u32;

pub(crate) const STAR: u32 = '*' as u32;

/// What the characters of a run have in common.
#[derive(Clone, Copy)]
pub(crate) enum Test {
    Decimal,
    Hex,
    /// A character of a property's name.
    Name,
}

/// The code of the character at a place, or `ENDING`.
pub(crate) fn peek(text: &[char], at: usize) -> u32
    ensures value { result ≡ peek text.now at }
    ensures within { result < ending → at < length text.now }
{
    if at < text.len() {
        text[at] as u32
    } else {
        ENDING
    }
}

impl Test {
    pub(crate) fn passes(self, c: char) -> bool
        ensures { result ≡ passes self c }
    {
        match self {
            Test::Decimal => c.is_digit(10),
            Test::Hex => c.is_digit(16),
            Test::Name => c.is_ascii_alphanumeric() || c == '_',
        }
    }
}

/// Whether the character with this code, if there is one, is of a property's name.
pub(crate) fn is_name_char(code: u32) -> bool
    ensures value { result ≡ passes Test.Name code }
    ensures ascii { IsTrue result → code < 128 }
{
    matches!(code, 48..=57 | 65..=90 | 95 | 97..=122)
}

/// So many characters from a place on.
pub(crate) fn part(text: &[char], at: usize, count: usize) -> &[char]
    requires { at + count ≤ length text.now }
    ensures { result.now ≡ take count (drop at text.now) }
{
    &text[at..at + count]
}

/// How many characters from a place on pass the test, one after another.
pub(crate) fn run(text: &[char], at: usize, test: Test) -> usize
    requires { at ≤ length text.now }
    ensures value { result ≡ run (passes test) text.now at }
    ensures within { at + result ≤ length text.now }
{
    let rest = &text[at..];
    'chars: for i in 0..rest.len() {
        if !test.passes(rest[i]) {
            return i;
        }
    }
    rest.len()
}

/// Whether the text goes on with this word of ASCII.
pub(crate) fn goes_on(text: &[char], at: usize, word: &[u8]) -> bool
    requires { at ≤ length text.now }
    ensures value { result ≡ goes_on text.now at word.now }
    ensures within { IsTrue result → at + length word.now ≤ length text.now }
{
    'chars: for i in 0..word.len() {
        if peek(text, at + i) != word[i] as u32 {
            return false;
        }
    }
    true
}

/// The value of a digit or a letter, and 36 for any other character.
fn digit_value(c: char) -> u32
    ensures { result ≡ digit_value c }
{
    c.to_digit(36).unwrap_or(36)
}

/// The number that the digits write, or `most` if that is less.
pub(crate) fn number(digits: &[char], radix: u32, most: u32) -> u32
    requires radix { (1 ≤ radix) × (radix ≤ 16) }
    requires most { most ≤ ending }
    ensures { result ≡ min most (value radix digits.now) }
{
    let mut number = 0;
    'digits: for i in 0..digits.len() {
        number = (number * radix + digit_value(digits[i])).min(most);
    }
    number
}

/// The digit at a place of a number that is written with `width` digits, zeros in front.
fn digit_at(digits: &[char], width: usize, at: usize) -> u32
    requires room { length digits.now ≤ width }
    requires place { at < width }
    ensures { result ≡ padded_digit digits.now width at }
{
    let zeros = width - digits.len();
    if at < zeros {
        0
    } else {
        digit_value(digits[at - zeros])
    }
}

/// Whether the one number is below the other, both by their decimal digits.
pub(crate) fn is_below(lower: &[char], upper: &[char]) -> bool
    requires lower { AreDecimal lower.now }
    requires upper { AreDecimal upper.now }
    ensures { result ≡ nat_lt (value 10 lower.now) (value 10 upper.now) }
{
    let width = lower.len().max(upper.len());
    'places: for at in 0..width {
        let low = digit_at(lower, width, at);
        let high = digit_at(upper, width, at);
        if low != high {
            return low < high;
        }
    }
    false
}

/// Whether a number is a character's code.
pub(crate) fn is_scalar(code: u32) -> bool
    ensures { result ≡ is_scalar code }
{
    code < 0xD800 || (0xE000 <= code && code <= 0x10_FFFF)
}

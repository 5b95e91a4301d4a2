//! What a byte is outside of strings: the byte goes in, and its class comes out.

ghost use Rattle.std.specs.Prelude.{◌≡◌};
ghost use Rattle.ts_ojson.specs.Machine.{class_of};

/// What a byte is outside of strings.
#[derive(Clone, Copy, PartialEq, Eq, Debug)]
pub(crate) enum Class {
    Blank,
    Quote,
    Comma,
    Colon,
    OpenArray,
    CloseArray,
    OpenObject,
    CloseObject,
    Minus,
    Plus,
    Point,
    Zero,
    Digit,
    Exponent,
    LetterT,
    LetterF,
    LetterN,
    Other,
}

pub(crate) fn class_at(byte: u8) -> Class
    ensures { result ≡ class_of byte }
{
    match byte {
        b' ' | b'\t' | b'\n' | b'\r' => Class::Blank,
        b'"' => Class::Quote,
        b',' => Class::Comma,
        b':' => Class::Colon,
        b'[' => Class::OpenArray,
        b']' => Class::CloseArray,
        b'{' => Class::OpenObject,
        b'}' => Class::CloseObject,
        b'-' => Class::Minus,
        b'+' => Class::Plus,
        b'.' => Class::Point,
        b'0' => Class::Zero,
        b'1'..=b'9' => Class::Digit,
        b'e' | b'E' => Class::Exponent,
        b't' => Class::LetterT,
        b'f' => Class::LetterF,
        b'n' => Class::LetterN,
        _ => Class::Other,
    }
}

//! A text and a place in; the byte there, or the end of a run of bytes from there, out.

ghost use Rattle.std.specs.Prelude.{◌≡◌, ◌<◌, ◌≤◌, length};
ghost use Rattle.std.specs.Str.{IsCharBoundary};
ghost use Rattle.ts_ojson.specs.Places.{byte_there, class_there, AreBlank, ArePlain, NoBlank, NoPlain};

use crate::class::{Class, class_at};

/// The byte at a place, or `None` at the end.
pub(crate) fn byte_in(text: &str, at: usize) -> Option<u8>
    ensures { result ≡ byte_there text.now at }
{
    let bytes = text.as_bytes();
    if at < bytes.len() {
        Some(bytes[at])
    } else {
        None
    }
}

/// What stands at a place outside of strings, or `None` at the end.
pub(crate) fn class_in(text: &str, at: usize) -> Option<Class>
    ensures { result ≡ class_there text.now at }
{
    let bytes = text.as_bytes();
    if at < bytes.len() {
        Some(class_at(bytes[at]))
    } else {
        None
    }
}

/// The first place from `from` on where no blank stands.
pub(crate) fn blanks_end(text: &str, from: usize) -> usize
    requires { from ≤ length text.now }
    ensures within { (from ≤ result) × (result ≤ length text.now) }
    ensures blanks { AreBlank text.now from result }
    ensures stop { NoBlank text.now result }
{
    let mut at = from;
    while class_in(text, at) == Some(Class::Blank) {
        at += 1;
    }
    at
}

/// The first place from `from` on where a quote, a backslash or a control character stands, or the
/// end.
pub(crate) fn plain_end(text: &str, from: usize) -> usize
    requires { from ≤ length text.now }
    ensures within { (from ≤ result) × (result ≤ length text.now) }
    ensures plain { ArePlain text.now from result }
    ensures stop { NoPlain text.now result }
    ensures boundary { IsCharBoundary text.now result }
{
    let bytes = text.as_bytes();
    let mut at = from;
    while at < bytes.len() && bytes[at] >= 32 && bytes[at] != b'"' && bytes[at] != b'\\' {
        at += 1;
    }
    at
}

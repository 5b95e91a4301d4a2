//! A text and a place in; the byte there, or the end of a run of bytes from there, out.
ghost use Rattle.std.specs.Prelude.{◌≡◌, ◌+◌, ◌≤◌, ◌<◌, IsTrue, length, slice_get};
ghost use Rattle.std.specs.Str.{IsCharBoundary};
ghost use Rattle.ts_query_tree.specs.Words.{is_name_start, is_name_byte, is_blank, is_gap, stays_open, passes, run, gap_end, begins_name};

/// What the bytes of a run have in common.
#[derive(Clone, Copy)]
pub(crate) enum Test {
    /// A letter of ASCII, a digit, `_`, `-` or `.`.
    Name,
    /// Neither a quote nor a backslash.
    Plain,
}

/// The byte at a place, or `None` at the end.
pub(crate) fn byte_at(text: &str, at: usize) -> Option<u8>
    ensures { result ≡ slice_get text.now at }
{
    let bytes = text.as_bytes();
    if at < bytes.len() {
        Some(bytes[at])
    } else {
        None
    }
}

/// Whether a name can begin with the byte.
pub(crate) fn is_name_start(byte: u8) -> bool
    ensures value { result ≡ is_name_start byte }
    ensures ascii { IsTrue result → byte < 128 }
{
    matches!(byte, b'0'..=b'9' | b'A'..=b'Z' | b'_' | b'a'..=b'z')
}

/// Whether a name stands at a place.
pub(crate) fn begins_name(text: &str, at: usize) -> bool
    ensures { result ≡ begins_name text.now at }
{
    match byte_at(text, at) {
        Some(byte) => is_name_start(byte),
        None => false,
    }
}

impl Test {
    fn passes(self, byte: u8) -> bool
        ensures { result ≡ passes self byte }
    {
        match self {
            Test::Name => is_name_start(byte) || byte == b'-' || byte == b'.',
            Test::Plain => byte != b'"' && byte != b'\\',
        }
    }
}

/// How many bytes from a place on pass the test, one after another.
pub(crate) fn run(text: &str, at: usize, test: Test) -> usize
    requires { at ≤ length text.now }
    ensures value { result ≡ run (passes test) text.now at }
    ensures within { at + result ≤ length text.now }
{
    let rest = &text.as_bytes()[at..];
    'bytes: for i in 0..rest.len() {
        if !test.passes(rest[i]) {
            return i;
        }
    }
    rest.len()
}

/// Whether the byte is a space, a tab, a line feed, a vertical tab, a form feed or a carriage
/// return.
fn is_blank(byte: u8) -> bool
    ensures { result ≡ is_blank byte }
{
    matches!(byte, b' ' | b'\t'..=b'\r')
}

fn is_gap(in_comment: bool, byte: u8) -> bool
    ensures { result ≡ is_gap in_comment byte }
{
    in_comment || is_blank(byte) || byte == b';'
}

/// Whether a comment is open behind the byte.
fn stays_open(in_comment: bool, byte: u8) -> bool
    ensures { result ≡ stays_open in_comment byte }
{
    if in_comment {
        byte != b'\n'
    } else {
        byte == b';'
    }
}

/// The first place from `from` on with neither a blank nor a comment.
pub(crate) fn gap_end(text: &str, from: usize) -> usize
    requires { from ≤ length text.now }
    ensures value { result ≡ gap_end text.now from }
    ensures within { (from ≤ result) × (result ≤ length text.now) }
{
    let bytes = text.as_bytes();
    let mut at = from;
    let mut in_comment = false;
    'gap: while at < bytes.len() && is_gap(in_comment, bytes[at]) {
        in_comment = stays_open(in_comment, bytes[at]);
        at += 1;
    }
    at
}

//! Bytes in; their first line and the bytes after it out.
ghost use Rattle.std.specs.Prelude.{◌≡◌, ◌<◌, ◌↔◌, [], length, IsTrue};
ghost use Rattle.ts_script.specs.Lines.{BeginsWithLine, IsLastLine, IsBlankLine};
ghost use Rattle.ts_script.specs.Cut.{CutsAt};

use memchr::memchr;

/// The first line without its newline, and the bytes after that. One pass over the line.
pub(crate) fn first_line(bytes: &[u8]) -> (&[u8], &[u8])
    requires { bytes.now ≡ [] → ⊥ }
    ensures cut { CutsAt bytes.now result.0.now result.1.now }
    ensures shorter { length result.1.now < length bytes.now }
{
    match memchr(b'\n', bytes) {
        Some(at) => (&bytes[..at], bytes.split_at(at + 1).1),
        None => (bytes, &bytes[bytes.len()..]),
    }
}

/// Whether the line has spaces and tabs alone.
pub(crate) fn is_blank(line: &[u8]) -> bool
    ensures { IsTrue result ↔ IsBlankLine line.now }
{
    line.iter().all(|byte| *byte == b' ' || *byte == b'\t')
}

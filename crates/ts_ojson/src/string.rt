//! Strings: from the place behind a quote to the characters and the place of the quote that ends
//! them.

ghost use Rattle.std.specs.Prelude.{◌≡◌, ℕ, ◌<◌, ◌≤◌, length, [], Some, IfOk, IfErr};
ghost use Rattle.std.specs.Str.{IsCharBoundary};
ghost use Rattle.ts_ojson.specs.Characters.{quote_mark};
ghost use Rattle.ts_ojson.specs.Machine.{Frames};
ghost use Rattle.ts_ojson.specs.Roles.{Role};
ghost use Rattle.ts_ojson.specs.States.{text as in_text};
ghost use Rattle.ts_ojson.specs.Places.{byte_there, Reaches, Refused};

use crate::byte::{byte_in, plain_end};
use crate::escape::{Escape, escaped};
use crate::stop::Stop;
use std::alloc::Global;
use ts_base::Str;

/// The characters of a string, and the place of the quote that ends it. `from` is behind the quote
/// that begins it.
pub(crate) fn string(alloc: Global, text: &str, from: usize) -> Result<(Str, usize), Stop>
    requires within { from ≤ length text.now }
    requires boundary { IsCharBoundary text.now from }
    ensures later { IfOk result (λ r. (from ≤ r.1) × (r.1 < length text.now)) }
    ensures quote { IfOk result (λ r. byte_there text.now r.1 ≡ Some quote_mark) }
    ensures ok { IfOk result (λ r. (role : Role) (k : Frames)
        → Reaches text.now from (in_text Escape.Plain [] role) k
        → Reaches text.now r.1 (in_text Escape.Plain r.0 role) k) }
    ensures err { IfErr result (λ e. (role : Role) (k : Frames)
        → Reaches text.now from (in_text Escape.Plain [] role) k → Refused e text.now) }
{
    let mut end = plain_end(text, from);
    let mut read = String::from_str(alloc, &text[from..end])?;
    loop {
        match byte_in(text, end) {
            Some(b'"') => return Ok((Str::from_string(read), end)),
            Some(b'\\') => {
                let (character, next) = escaped(text, end + 1)?;
                read.push(character)?;
                end = plain_end(text, next);
                read.push_str(&text[next..end])?;
            }
            _ => return Err(Stop::Syntax(end)),
        }
    }
}

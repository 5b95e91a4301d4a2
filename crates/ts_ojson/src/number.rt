//! Numbers: from the place of the first byte to the spelling and the place behind it.

ghost use Rattle.std.specs.Prelude.{◌≡◌, ℕ, ◌+◌, ◌-◌, ◌<◌, ◌≤◌, get_or, length, [], ◌∷◌, IfOk, IfErr};
ghost use Rattle.std.specs.Str.{IsCharBoundary};
ghost use Rattle.ts_ojson.specs.Machine.{Frames};
ghost use Rattle.ts_ojson.specs.States.{number as in_number};
ghost use Rattle.ts_ojson.specs.Places.{part_there, between, Reaches, Ends, Refused};

use crate::byte::class_in;
use crate::part::Part;
use crate::stop::Stop;
use crate::value::OJson;
use std::alloc::Global;
use ts_base::Str;

/// The part after the byte at a place, where the number goes on with it.
fn part_in(text: &str, at: usize, part: Part) -> Option<Part>
    ensures { result ≡ part_there text.now at part }
{
    match class_in(text, at) {
        Some(class) => part.next(class),
        None => None,
    }
}

/// The place behind the number that begins at `from` with this part.
fn number_end(text: &str, from: usize, first: Part) -> Result<usize, Stop>
    requires within { from < length text.now }
    requires ascii { get_or text.now from 0 < 128 }
    ensures later { IfOk result (λ end. (from < end) × (end ≤ length text.now)) }
    ensures boundary { IfOk result (λ end. IsCharBoundary text.now end) }
    ensures ok { IfOk result (λ end. (k : Frames)
        → Reaches text.now (from + 1) (in_number first (get_or text.now from 0 ∷ [])) k
        → Ends text.now end (OJson.Num (between text.now from end)) k) }
    ensures err { IfErr result (λ e. (k : Frames)
        → Reaches text.now (from + 1) (in_number first (get_or text.now from 0 ∷ [])) k
        → Refused e text.now) }
{
    let mut part = first;
    let mut at = from + 1;
    while let Some(next) = part_in(text, at, part) {
        part = next;
        at += 1;
    }
    if part.may_end() {
        Ok(at)
    } else {
        Err(Stop::Syntax(at))
    }
}

/// The number whose first byte at `from` is this part, and the place behind it.
pub(crate) fn number(
    alloc: Global,
    text: &str,
    from: usize,
    first: Part,
) -> Result<(OJson, usize), Stop>
    requires within { from < length text.now }
    requires ascii { get_or text.now from 0 < 128 }
    ensures later { IfOk result (λ r. (from < r.1) × (r.1 ≤ length text.now)) }
    ensures ok { IfOk result (λ r. (k : Frames)
        → Reaches text.now (from + 1) (in_number first (get_or text.now from 0 ∷ [])) k
        → Ends text.now r.1 r.0 k) }
    ensures err { IfErr result (λ e. (k : Frames)
        → Reaches text.now (from + 1) (in_number first (get_or text.now from 0 ∷ [])) k
        → Refused e text.now) }
{
    let end = number_end(text, from, first)?;
    let spelling = Str::from_text(alloc, &text[from..end])?;
    Ok((OJson::Num(spelling), end))
}

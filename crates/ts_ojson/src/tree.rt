//! Values: from the place where a value begins to the value and the place behind it.

ghost use Rattle.std.specs.Prelude.{◌≡◌, suc, ◌+◌, ◌<◌, ◌≤◌, length, [], ◌∷◌, Some, IfOk, IfErr};
ghost use Rattle.ts_ojson.specs.Characters.{quote_mark};
ghost use Rattle.ts_ojson.specs.Machine.{Frames};
ghost use Rattle.ts_ojson.specs.Frames as frame;
ghost use Rattle.ts_ojson.specs.Roles as role;
ghost use Rattle.ts_ojson.specs.States as state;
ghost use Rattle.ts_ojson.specs.Json.{most_deep};
ghost use Rattle.ts_ojson.specs.Places.{byte_there, Reaches, Starts, Named, Ends, Refused};

use crate::byte::{blanks_end, class_in};
use crate::class::Class;
use crate::escape::Escape;
use crate::gathered::{Claimed, Gathered};
use crate::number::number;
use crate::part::Part;
use crate::stop::Stop;
use crate::string::string;
use crate::value::OJson;
use crate::word::Word;
use std::alloc::Global;
use ts_base::List;

/// The string whose quote stands at a place, and the place behind it.
fn text_value(alloc: Global, text: &str, at: usize) -> Result<(OJson, usize), Stop>
    requires { byte_there text.now at ≡ Some quote_mark }
    ensures later { IfOk result (λ r. (at < r.1) × (r.1 ≤ length text.now)) }
    ensures ok { IfOk result (λ r. (k : Frames)
        → Reaches text.now (at + 1) (state.text Escape.Plain [] role.value) k
        → Ends text.now r.1 r.0 k) }
    ensures err { IfErr result (λ e. (k : Frames)
        → Reaches text.now (at + 1) (state.text Escape.Plain [] role.value) k
        → Refused e text.now) }
{
    let (text, end) = string(alloc, text, at + 1)?;
    Ok((OJson::Text(text), end + 1))
}

/// The members with the name that begins at `at` claimed, and the place where its value begins.
fn name(
    alloc: Global,
    text: &str,
    at: usize,
    members: Gathered<OJson>,
) -> Result<(Claimed<OJson>, usize), Stop>
    requires { at ≤ length text.now }
    ensures later { IfOk result (λ r. (at < r.1) × (r.1 ≤ length text.now)) }
    ensures ok { IfOk result (λ r. (k : Frames) → Named text.now at members k
        → Starts text.now r.1 (frame.object r.0.0 r.0.1 ∷ k)) }
    ensures err { IfErr result (λ e. (k : Frames) → Named text.now at members k
        → Refused e text.now) }
{
    if class_in(text, at) != Some(Class::Quote) {
        return Err(Stop::Syntax(at));
    }
    let (name, end) = string(alloc, text, at + 1)?;
    let claimed = match members.claim(alloc, name)? {
        Some(claimed) => claimed,
        None => return Err(Stop::Duplicate(at)),
    };
    let colon = blanks_end(text, end + 1);
    if class_in(text, colon) != Some(Class::Colon) {
        return Err(Stop::Syntax(colon));
    }
    Ok((claimed, blanks_end(text, colon + 1)))
}

/// The value that begins at `at`, and the place behind it. So many more arrays and objects may be
/// open.
#[cycle(value)]
pub(crate) fn value(
    alloc: Global,
    text: &str,
    at: usize,
    room: usize,
) -> Result<(OJson, usize), Stop>
    requires { at ≤ length text.now }
    ensures later { IfOk result (λ r. (at < r.1) × (r.1 ≤ length text.now)) }
    ensures ok { IfOk result (λ r. (k : Frames) → length k + room ≡ most_deep
        → Starts text.now at k → Ends text.now r.1 r.0 k) }
    ensures err { IfErr result (λ e. (k : Frames) → length k + room ≡ most_deep
        → Starts text.now at k → Refused e text.now) }
{
    match class_in(text, at) {
        Some(Class::Quote) => text_value(alloc, text, at),
        Some(Class::OpenArray) if room > 0 => array(alloc, text, at + 1, room - 1),
        Some(Class::OpenObject) if room > 0 => object(alloc, text, at + 1, room - 1),
        Some(Class::OpenArray) => Err(Stop::Deep(at)),
        Some(Class::OpenObject) => Err(Stop::Deep(at)),
        Some(Class::Minus) => number(alloc, text, at, Part::Minus),
        Some(Class::Zero) => number(alloc, text, at, Part::Zero),
        Some(Class::Digit) => number(alloc, text, at, Part::Whole),
        Some(Class::LetterT) => Word::True.read(text, at),
        Some(Class::LetterF) => Word::False.read(text, at),
        Some(Class::LetterN) => Word::Null.read(text, at),
        Some(
            Class::Blank
            | Class::Comma
            | Class::Colon
            | Class::CloseArray
            | Class::CloseObject
            | Class::Plus
            | Class::Point
            | Class::Exponent
            | Class::Other,
        )
        | None => Err(Stop::Syntax(at)),
    }
}

/// The array whose bracket opens before `from`, and the place behind it.
#[cycle(value)]
fn array(alloc: Global, text: &str, from: usize, room: usize) -> Result<(OJson, usize), Stop>
    requires { from ≤ length text.now }
    ensures later { IfOk result (λ r. (from < r.1) × (r.1 ≤ length text.now)) }
    ensures ok { IfOk result (λ r. (k : Frames) → suc (length k) + room ≡ most_deep
        → Reaches text.now from state.first_item k → Ends text.now r.1 r.0 k) }
    ensures err { IfErr result (λ e. (k : Frames) → suc (length k) + room ≡ most_deep
        → Reaches text.now from state.first_item k → Refused e text.now) }
{
    let mut items = List::new(alloc);
    let mut at = blanks_end(text, from);
    if class_in(text, at) == Some(Class::CloseArray) {
        return Ok((OJson::Array(items), at + 1));
    }
    loop {
        let (item, end) = value(alloc, text, at, room)?;
        items.push(item)?;
        let after = blanks_end(text, end);
        let class = class_in(text, after);
        if class == Some(Class::CloseArray) {
            return Ok((OJson::Array(items), after + 1));
        }
        if class != Some(Class::Comma) {
            return Err(Stop::Syntax(after));
        }
        at = blanks_end(text, after + 1);
    }
}

/// The object whose bracket opens before `from`, and the place behind it.
#[cycle(value)]
fn object(alloc: Global, text: &str, from: usize, room: usize) -> Result<(OJson, usize), Stop>
    requires { from ≤ length text.now }
    ensures later { IfOk result (λ r. (from < r.1) × (r.1 ≤ length text.now)) }
    ensures ok { IfOk result (λ r. (k : Frames) → suc (length k) + room ≡ most_deep
        → Reaches text.now from state.first_name k → Ends text.now r.1 r.0 k) }
    ensures err { IfErr result (λ e. (k : Frames) → suc (length k) + room ≡ most_deep
        → Reaches text.now from state.first_name k → Refused e text.now) }
{
    let mut members = Gathered::new(alloc);
    let mut at = blanks_end(text, from);
    if class_in(text, at) == Some(Class::CloseObject) {
        return Ok((OJson::Object(members.into_list()), at + 1));
    }
    loop {
        let (claimed, start) = name(alloc, text, at, members)?;
        let (value, end) = value(alloc, text, start, room)?;
        members = claimed.with(value)?;
        let after = blanks_end(text, end);
        let class = class_in(text, after);
        if class == Some(Class::CloseObject) {
            return Ok((OJson::Object(members.into_list()), after + 1));
        }
        if class != Some(Class::Comma) {
            return Err(Stop::Syntax(after));
        }
        at = blanks_end(text, after + 1);
    }
}

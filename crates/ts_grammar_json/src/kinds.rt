//! A JSON value in; what it is read as out, where it is of the kind that is asked for.
ghost use Rattle.std.specs.Prelude.{◌≡◌, ◌==◌, option_map, slice_index, IfOk};
ghost use Rattle.std.specs.Option.{option_copied};
ghost use Rattle.std.specs.List.{list_all, list_any};
ghost use Rattle.ts_ojson.specs.Json.{json_of};
ghost use Rattle.ts_grammar_json.specs.Members.{members_json, items_json};
ghost use Rattle.ts_grammar_json.specs.Kinds.{text_of, truth_of, array_of, some_of, some_items_of, object_of, is_i, is_flag, flags_in, flags_of, plus_sign, integer_of, whole_of, precedence_of, word_of};

use std::alloc::{AllocError, Global};
use ts_core::{PrecValue, Str};
use ts_ojson::{OJson, OText};

pub(crate) fn text(value: &OJson) -> Option<&str>
    ensures { option_copied result ≡ text_of (json_of value.now) }
{
    if let OJson::Text(text) = value {
        Some(text.text())
    } else {
        None
    }
}

pub(crate) fn truth(value: &OJson) -> Option<bool>
    ensures { result ≡ truth_of (json_of value.now) }
{
    if let OJson::Bool(truth) = value {
        Some(*truth)
    } else {
        None
    }
}

pub(crate) fn array(value: &OJson) -> Option<&[OJson]>
    ensures { option_map items_json (option_copied result) ≡ array_of (json_of value.now) }
{
    if let OJson::Array(items) = value {
        Some(items.as_slice())
    } else {
        None
    }
}

/// The items of an array that isn't empty.
pub(crate) fn some_items(value: &OJson) -> Option<&[OJson]>
    ensures { option_map items_json (option_copied result) ≡ some_items_of (json_of value.now) }
{
    non_empty(array(value)?)
}

fn non_empty(items: &[OJson]) -> Option<&[OJson]>
    ensures { option_map items_json (option_copied result) ≡ some_of (items_json items.now) }
{
    if items.is_empty() { None } else { Some(items) }
}

pub(crate) fn object(value: &OJson) -> Option<&[(OText, OJson)]>
    ensures { option_map members_json (option_copied result) ≡ object_of (json_of value.now) }
{
    if let OJson::Object(members) = value {
        Some(members.as_slice())
    } else {
        None
    }
}

/// Flags of a pattern: a text of `i` and `u` alone, read as whether an `i` is in it.
pub(crate) fn flags(value: &OJson) -> Option<bool>
    ensures { result ≡ flags_of (json_of value.now) }
{
    ignores_case(text(value)?)
}

fn ignores_case(flags: &str) -> Option<bool>
    ensures { result ≡ flags_in flags.now }
{
    let flags = flags.as_bytes();
    if are_flags(flags) {
        Some(has_i(flags))
    } else {
        None
    }
}

fn are_flags(bytes: &[u8]) -> bool
    ensures { result ≡ list_all is_flag bytes.now }
{
    bytes.iter().all(|byte| *byte == b'i' || *byte == b'u')
}

fn has_i(bytes: &[u8]) -> bool
    ensures { result ≡ list_any is_i bytes.now }
{
    bytes.iter().any(|byte| *byte == b'i')
}

/// A number without fraction and exponent that fits 32 bits with a sign.
pub(crate) fn whole(value: &OJson) -> Option<i32>
    ensures { result ≡ whole_of (json_of value.now) }
{
    if let OJson::Num(spelling) = value {
        integer(spelling.text())
    } else {
        None
    }
}

/// The number that digits spell, after a minus or none. A plus is not read.
fn integer(spelling: &str) -> Option<i32>
    ensures { result ≡ integer_of spelling.now }
{
    if has_plus(spelling) {
        return None;
    }
    spelling.parse().ok()
}

fn has_plus(spelling: &str) -> bool
    ensures { result ≡ (slice_index spelling.now 0 == plus_sign) }
{
    spelling.starts_with('+')
}

/// The value of a precedence: a whole number or a name.
pub(crate) fn precedence(alloc: Global, value: &OJson) -> Result<Option<PrecValue>, AllocError>
    ensures { IfOk result (λ p. p ≡ precedence_of (json_of value.now)) }
{
    if let OJson::Text(name) = value {
        Ok(Some(PrecValue::Name(Str::from_text(alloc, name.text())?)))
    } else {
        Ok(whole(value).map(PrecValue::Number))
    }
}

/// A text, or null for none.
pub(crate) fn word(alloc: Global, value: &OJson) -> Result<Option<Option<Str>>, AllocError>
    ensures { IfOk result (λ w. w ≡ word_of (json_of value.now)) }
{
    if let OJson::Null = value {
        return Ok(Some(None));
    }
    match text(value) {
        Some(text) => Ok(Some(Some(Str::from_text(alloc, text)?))),
        None => Ok(None),
    }
}

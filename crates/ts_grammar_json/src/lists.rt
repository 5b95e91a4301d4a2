//! A member of a grammar file that is a list in; its names, lists of names or orderings of
//! precedences out, or its first fault.
ghost use Rattle.std.specs.Prelude.{◌≡◌, ◌≢◌, IfOk, IfErr, Ok, Err};
ghost use Rattle.ts_ojson.specs.Json.{json_of};
ghost use Rattle.ts_grammar_json.specs.Members.{items_json, members_json};
ghost use Rattle.ts_grammar_json.specs.Faults.{may, list, each_from};
ghost use Rattle.ts_grammar_json.specs.File.{is_text, text_at, each_read, list_of, list_in, ranked_faults, ranked_of, entry_faults, ranked_by, entry_of, entry_of_word};
ghost use Rattle.ts_grammar_json.specs.Found.{Gives, json_at, looked_of};

use crate::fault::GFault;
use crate::found::Found;
use crate::kinds;
use crate::member::{self, in_item, in_member};
use crate::pointer::{unknown_member, wrong, wrong_member};
use std::alloc::Global;
use ts_core::{List, Ranked, Str};
use ts_ojson::OJson;

/// The text that a value is.
fn text(alloc: Global, value: &OJson) -> Result<Str, GFault>
    ensures { Gives (is_text (json_of value.now)) (text_at (json_of value.now)) result }
{
    match kinds::text(value) {
        Some(text) => Ok(Str::from_text(alloc, text)?),
        None => Err(wrong(alloc)),
    }
}

fn texts_in(alloc: Global, items: &[OJson]) -> Result<List<Str>, GFault>
    ensures { Gives (each_from 0 is_text (items_json items.now))
        (each_read text_at (items_json items.now)) result }
{
    let mut texts = List::new(alloc);
    for (at, item) in items.iter().enumerate() {
        texts.push(in_item(alloc, at, text(alloc, item))?)?;
    }
    Ok(texts)
}

/// The texts of an array.
fn texts(alloc: Global, value: &OJson) -> Result<List<Str>, GFault>
    ensures { Gives (list is_text (json_of value.now)) (list_of text_at (json_of value.now))
        result }
{
    match kinds::array(value) {
        Some(items) => texts_in(alloc, items),
        None => Err(wrong(alloc)),
    }
}

fn groups_in(alloc: Global, items: &[OJson]) -> Result<List<List<Str>>, GFault>
    ensures { Gives (each_from 0 (list is_text) (items_json items.now))
        (each_read (list_of text_at) (items_json items.now)) result }
{
    let mut groups = List::new(alloc);
    for (at, item) in items.iter().enumerate() {
        groups.push(in_item(alloc, at, texts(alloc, item))?)?;
    }
    Ok(groups)
}

/// The arrays of texts of an array.
fn groups(alloc: Global, value: &OJson) -> Result<List<List<Str>>, GFault>
    ensures { Gives (list (list is_text) (json_of value.now))
        (list_of (list_of text_at) (json_of value.now)) result }
{
    match kinds::array(value) {
        Some(items) => groups_in(alloc, items),
        None => Err(wrong(alloc)),
    }
}

/// An entry of an ordering of precedences.
fn ranked(alloc: Global, value: &OJson) -> Result<Ranked, GFault>
    ensures { Gives (ranked_faults (json_of value.now)) (ranked_of (json_of value.now)) result }
{
    match kinds::object(value) {
        Some(members) => entry(alloc, &Found::of(members)),
        None => Err(wrong(alloc)),
    }
}

fn entry(alloc: Global, found: &Found<'_>) -> Result<Ranked, GFault>
    ensures { Gives (entry_faults (entry_of (looked_of found.now).kind) (looked_of found.now))
        (ranked_by (entry_of (looked_of found.now).kind) (looked_of found.now)) result }
{
    let kind = member::there(alloc, "type", found.kind)?;
    match kinds::text(kind) {
        Some("STRING") => Ok(Ranked::Name(member::text(alloc, "value", found.value)?)),
        Some("SYMBOL") => Ok(Ranked::Rule(member::text(alloc, "name", found.name)?)),
        Some(_) => Err(unknown_member(alloc, "type")),
        None => Err(wrong_member(alloc, "type")),
    }
}

fn ordering_in(alloc: Global, items: &[OJson]) -> Result<List<Ranked>, GFault>
    ensures { Gives (each_from 0 ranked_faults (items_json items.now))
        (each_read ranked_of (items_json items.now)) result }
{
    let mut ordering = List::new(alloc);
    for (at, item) in items.iter().enumerate() {
        ordering.push(in_item(alloc, at, ranked(alloc, item))?)?;
    }
    Ok(ordering)
}

/// An ordering of precedences.
fn ordering(alloc: Global, value: &OJson) -> Result<List<Ranked>, GFault>
    ensures { Gives (list ranked_faults (json_of value.now))
        (list_of ranked_of (json_of value.now)) result }
{
    match kinds::array(value) {
        Some(items) => ordering_in(alloc, items),
        None => Err(wrong(alloc)),
    }
}

fn orderings_in(alloc: Global, items: &[OJson]) -> Result<List<List<Ranked>>, GFault>
    ensures { Gives (each_from 0 (list ranked_faults) (items_json items.now))
        (each_read (list_of ranked_of) (items_json items.now)) result }
{
    let mut orderings = List::new(alloc);
    for (at, item) in items.iter().enumerate() {
        orderings.push(in_item(alloc, at, ordering(alloc, item))?)?;
    }
    Ok(orderings)
}

/// The orderings of an array.
fn orderings(alloc: Global, value: &OJson) -> Result<List<List<Ranked>>, GFault>
    ensures { Gives (list (list ranked_faults) (json_of value.now))
        (list_of (list_of ranked_of) (json_of value.now)) result }
{
    match kinds::array(value) {
        Some(items) => orderings_in(alloc, items),
        None => Err(wrong(alloc)),
    }
}

/// The names at a member that may be absent.
pub(crate) fn names(alloc: Global, name: &str, value: Option<&OJson>) -> Result<List<Str>, GFault>
    ensures { Gives (may name.now (list is_text) (json_at value.entry))
        (list_in text_at (json_at value.entry)) result }
{
    match value {
        Some(value) => in_member(alloc, name, texts(alloc, value)),
        None => Ok(List::new(alloc)),
    }
}

/// The lists of names at a member that may be absent.
pub(crate) fn conflicts(
    alloc: Global,
    name: &str,
    value: Option<&OJson>,
) -> Result<List<List<Str>>, GFault>
    ensures { Gives (may name.now (list (list is_text)) (json_at value.entry))
        (list_in (list_of text_at) (json_at value.entry)) result }
{
    match value {
        Some(value) => in_member(alloc, name, groups(alloc, value)),
        None => Ok(List::new(alloc)),
    }
}

/// The orderings at a member that may be absent.
pub(crate) fn precedences(
    alloc: Global,
    name: &str,
    value: Option<&OJson>,
) -> Result<List<List<Ranked>>, GFault>
    ensures { Gives (may name.now (list (list ranked_faults)) (json_at value.entry))
        (list_in (list_of ranked_of) (json_at value.entry)) result }
{
    match value {
        Some(value) => in_member(alloc, name, orderings(alloc, value)),
        None => Ok(List::new(alloc)),
    }
}

//! A member of an object that has to be of one kind in; the value that it is read as, or its fault,
//! out.
ghost use Rattle.std.specs.Prelude.{◌≡◌, ◌≢◌, List, option_map, IfOk, IfErr, Some, None, [], false, pos};
ghost use Rattle.ts_ojson.specs.Json.{json_of, array as array_json};
ghost use Rattle.ts_grammar_json.specs.declared.fault.GFault.{GFault as AnyFault};
ghost use Rattle.ts_grammar_json.specs.Pointer.{step, place};
ghost use Rattle.ts_grammar_json.specs.Members.{items_json};
ghost use Rattle.ts_grammar_json.specs.Kinds.{text_of, truth_of, array_of, some_items_of, object_of, flags_of, whole_of, precedence_of, word_of, read_or, text_in};
ghost use Rattle.ts_grammar_json.specs.Faults.{be, must, may, under, first};
ghost use Rattle.ts_grammar_json.specs.Found.{json_at, Gives};

use crate::fault::GFault;
use crate::kinds;
use crate::pointer::{above_item, above_member, missing_member, wrong_member};
use std::alloc::Global;
use ts_core::{PrecValue, Str};
use ts_ojson::OJson;

/// The answer about a member's value, seen from the object.
pub(crate) fn in_member<T>(alloc: Global, name: &str, read: Result<T, GFault>) -> Result<T, GFault>
    ensures { (faults : List AnyFault) (value : T) → Gives faults value read
        → Gives (under (step name.now) faults) value result }
{
    match read {
        Ok(value) => Ok(value),
        Err(fault) => Err(above_member(alloc, name, fault)),
    }
}

/// The answer about an item, seen from the array.
pub(crate) fn in_item<T>(alloc: Global, at: usize, read: Result<T, GFault>) -> Result<T, GFault>
    ensures { (faults : List AnyFault) (value : T) → Gives faults value read
        → Gives (under (place at) faults) value result }
{
    match read {
        Ok(value) => Ok(value),
        Err(fault) => Err(above_item(alloc, at, fault)),
    }
}

/// The value of a member that has to be there.
pub(crate) fn there<'a>(
    alloc: Global,
    name: &str,
    value: Option<&'a OJson>,
) -> Result<&'a OJson, GFault>
    ensures ok { IfOk result (λ j. json_at value.entry ≡ Some (json_of j.now)) }
    ensures missing { IfErr result (λ e. e ≢ GFault.Memory → json_at value.entry ≡ None) }
    ensures fault { IfErr result (λ e. e ≢ GFault.Memory → e ≡ GFault.Missing (step name.now)) }
{
    match value {
        Some(value) => Ok(value),
        None => Err(missing_member(alloc, name)),
    }
}

/// What a member is read as, where it is of the kind that is asked for.
fn of_kind<T>(alloc: Global, name: &str, read: Option<T>) -> Result<T, GFault>
    ensures ok { IfOk result (λ x. read ≡ Some x) }
    ensures wrong { IfErr result (λ e. e ≢ GFault.Memory → read ≡ None) }
    ensures fault { IfErr result (λ e. e ≢ GFault.Memory → e ≡ GFault.Wrong (step name.now)) }
{
    match read {
        Some(value) => Ok(value),
        None => Err(wrong_member(alloc, name)),
    }
}

pub(crate) fn text(alloc: Global, name: &str, value: Option<&OJson>) -> Result<Str, GFault>
    ensures { Gives (must name.now (be text_of) (json_at value.entry))
        (text_in (json_at value.entry)) result }
{
    let value = there(alloc, name, value)?;
    let text = of_kind(alloc, name, kinds::text(value))?;
    Ok(Str::from_text(alloc, text)?)
}

pub(crate) fn truth(alloc: Global, name: &str, value: Option<&OJson>) -> Result<bool, GFault>
    ensures { Gives (must name.now (be truth_of) (json_at value.entry))
        (read_or false truth_of (json_at value.entry)) result }
{
    let value = there(alloc, name, value)?;
    of_kind(alloc, name, kinds::truth(value))
}

pub(crate) fn whole(alloc: Global, name: &str, value: Option<&OJson>) -> Result<i32, GFault>
    ensures { Gives (must name.now (be whole_of) (json_at value.entry))
        (read_or (pos 0) whole_of (json_at value.entry)) result }
{
    let value = there(alloc, name, value)?;
    of_kind(alloc, name, kinds::whole(value))
}

pub(crate) fn precedence(
    alloc: Global,
    name: &str,
    value: Option<&OJson>,
) -> Result<PrecValue, GFault>
    ensures { Gives (must name.now (be precedence_of) (json_at value.entry))
        (read_or (PrecValue.Number (pos 0)) precedence_of (json_at value.entry)) result }
{
    let value = there(alloc, name, value)?;
    of_kind(alloc, name, kinds::precedence(alloc, value)?)
}

/// A member that has to be an object: its value.
pub(crate) fn object<'a>(
    alloc: Global,
    name: &str,
    value: Option<&'a OJson>,
) -> Result<&'a OJson, GFault>
    ensures ok { IfOk result (λ j. must name.now (be object_of) (json_at value.entry) ≡ []) }
    ensures value { IfOk result (λ j. json_at value.entry ≡ Some (json_of j.now)) }
    ensures fault { IfErr result
        (λ e. e ≢ GFault.Memory
        → first (must name.now (be object_of) (json_at value.entry)) ≡ Some e) }
{
    let value = there(alloc, name, value)?;
    of_kind(alloc, name, kinds::object(value))?;
    Ok(value)
}

/// A member that has to be an array: its items.
pub(crate) fn array<'a>(
    alloc: Global,
    name: &str,
    value: Option<&'a OJson>,
) -> Result<&'a [OJson], GFault>
    ensures ok { IfOk result (λ items. must name.now (be array_of) (json_at value.entry) ≡ []) }
    ensures value { IfOk result
        (λ items. json_at value.entry ≡ Some (array_json (items_json items.now))) }
    ensures fault { IfErr result
        (λ e. e ≢ GFault.Memory
        → first (must name.now (be array_of) (json_at value.entry)) ≡ Some e) }
{
    let value = there(alloc, name, value)?;
    of_kind(alloc, name, kinds::array(value))
}

/// A member that has to be an array with an item: its items.
pub(crate) fn some_items<'a>(
    alloc: Global,
    name: &str,
    value: Option<&'a OJson>,
) -> Result<&'a [OJson], GFault>
    ensures ok { IfOk result
        (λ items. must name.now (be some_items_of) (json_at value.entry) ≡ []) }
    ensures value { IfOk result
        (λ items. json_at value.entry ≡ Some (array_json (items_json items.now))) }
    ensures fault { IfErr result
        (λ e. e ≢ GFault.Memory
        → first (must name.now (be some_items_of) (json_at value.entry)) ≡ Some e) }
{
    let value = there(alloc, name, value)?;
    of_kind(alloc, name, kinds::some_items(value))
}

/// Flags of a pattern, which may be absent: whether an `i` is in them.
pub(crate) fn flags(alloc: Global, name: &str, value: Option<&OJson>) -> Result<bool, GFault>
    ensures { Gives (may name.now (be flags_of) (json_at value.entry))
        (read_or false flags_of (json_at value.entry)) result }
{
    match value {
        Some(value) => of_kind(alloc, name, kinds::flags(value)),
        None => Ok(false),
    }
}

/// The name of a token, which may be absent or null.
pub(crate) fn word(alloc: Global, name: &str, value: Option<&OJson>) -> Result<Option<Str>, GFault>
    ensures { Gives (may name.now (be word_of) (json_at value.entry))
        (read_or None word_of (json_at value.entry)) result }
{
    match value {
        Some(value) => of_kind(alloc, name, kinds::word(alloc, value)?),
        None => Ok(None),
    }
}

//! A fault's pointer and a step in; the pointer with the step at its start out: each begins at the
//! value that is judged, and grows on the way up to the file's top.
ghost use Rattle.std.specs.Prelude.{◌≡◌, ◌≢◌, ◌++◌, ◌∷◌, [], IfOk, OnOk, string_bytes};
ghost use Rattle.std.specs.Char.{encode_utf8};
ghost use Rattle.ts_grammar_json.specs.Pointer.{escaped, step, place};
ghost use Rattle.ts_grammar_json.specs.Faults.{from_above};

use crate::fault::GFault;
use std::alloc::{AllocError, Global};
use ts_core::Str;

/// The step to the member of this name.
fn step_text(alloc: Global, name: &str) -> Result<String, AllocError>
    ensures { IfOk result (λ s. string_bytes s ≡ step name.now) }
{
    let mut text = String::new(alloc);
    text.push('/')?;
    for c in name.chars() {
        push_escaped(&mut text, c)?;
    }
    Ok(text)
}

fn push_escaped(text: &mut String, c: char) -> Result<(), AllocError>
    ensures { OnOk result
        (string_bytes text.new ≡ string_bytes text.old ++ escaped (encode_utf8 c)) }
{
    match c {
        '~' => text.push_str("~0"),
        '/' => text.push_str("~1"),
        _ => text.push(c),
    }
}

/// The step to the item at this place, counted from 0.
fn place_text(alloc: Global, at: usize) -> Result<String, AllocError>
    ensures { IfOk result (λ s. string_bytes s ≡ place at) }
{
    format!(in alloc; "/{at}")
}

/// The pointer to the member of this name.
fn member_pointer(alloc: Global, name: &str) -> Result<Str, AllocError>
    ensures { IfOk result (λ s. s ≡ step name.now) }
{
    Ok(Str::from_string(step_text(alloc, name)?))
}

/// The pointer with this way before it.
fn joined(mut way: String, pointer: &Str) -> Result<Str, AllocError>
    ensures { IfOk result (λ s. s ≡ string_bytes way ++ pointer.now) }
{
    way.push_str(pointer.text())?;
    Ok(Str::from_string(way))
}

fn with_way(fault: GFault, way: String) -> Result<GFault, AllocError>
    ensures { IfOk result (λ f. f ≡ from_above (string_bytes way) fault) }
{
    match fault {
        GFault::Missing(pointer) => Ok(GFault::Missing(joined(way, &pointer)?)),
        GFault::Wrong(pointer) => Ok(GFault::Wrong(joined(way, &pointer)?)),
        GFault::UnknownType(pointer) => Ok(GFault::UnknownType(joined(way, &pointer)?)),
        GFault::External => Ok(GFault::External),
        GFault::Reserved => Ok(GFault::Reserved),
        GFault::Limit(limited) => Ok(GFault::Limit(limited)),
        GFault::Memory => Ok(GFault::Memory),
    }
}

fn at_member(alloc: Global, name: &str, fault: GFault) -> Result<GFault, AllocError>
    ensures { IfOk result (λ f. f ≡ from_above (step name.now) fault) }
{
    with_way(fault, step_text(alloc, name)?)
}

fn at_place(alloc: Global, at: usize, fault: GFault) -> Result<GFault, AllocError>
    ensures { IfOk result (λ f. f ≡ from_above (place at) fault) }
{
    with_way(fault, place_text(alloc, at)?)
}

fn or_memory(fault: Result<GFault, AllocError>) -> GFault
    ensures { result ≢ GFault.Memory → fault ≡ Ok result }
{
    match fault {
        Ok(fault) => fault,
        Err(_) => GFault::Memory,
    }
}

/// The fault, seen from the object whose member of this name the value at fault is.
pub(crate) fn above_member(alloc: Global, name: &str, fault: GFault) -> GFault
    ensures { result ≢ GFault.Memory → result ≡ from_above (step name.now) fault }
{
    or_memory(at_member(alloc, name, fault))
}

/// The fault, seen from the array whose item at this place the value at fault is.
pub(crate) fn above_item(alloc: Global, at: usize, fault: GFault) -> GFault
    ensures { result ≢ GFault.Memory → result ≡ from_above (place at) fault }
{
    or_memory(at_place(alloc, at, fault))
}

/// The value that is judged is itself of the wrong kind.
pub(crate) fn wrong(alloc: Global) -> GFault
    ensures { result ≢ GFault.Memory → result ≡ GFault.Wrong [] }
{
    match Str::from_text(alloc, "") {
        Ok(pointer) => GFault::Wrong(pointer),
        Err(_) => GFault::Memory,
    }
}

pub(crate) fn missing_member(alloc: Global, name: &str) -> GFault
    ensures { result ≢ GFault.Memory → result ≡ GFault.Missing (step name.now) }
{
    match member_pointer(alloc, name) {
        Ok(pointer) => GFault::Missing(pointer),
        Err(_) => GFault::Memory,
    }
}

pub(crate) fn wrong_member(alloc: Global, name: &str) -> GFault
    ensures { result ≢ GFault.Memory → result ≡ GFault.Wrong (step name.now) }
{
    match member_pointer(alloc, name) {
        Ok(pointer) => GFault::Wrong(pointer),
        Err(_) => GFault::Memory,
    }
}

pub(crate) fn unknown_member(alloc: Global, name: &str) -> GFault
    ensures { result ≢ GFault.Memory → result ≡ GFault.UnknownType (step name.now) }
{
    match member_pointer(alloc, name) {
        Ok(pointer) => GFault::UnknownType(pointer),
        Err(_) => GFault::Memory,
    }
}

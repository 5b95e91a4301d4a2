//! Properties of Unicode: from the name in an escape to the set in the tables.
ghost use Rattle.std.specs.Prelude.{◌≡◌, ◌≤◌, ◌<◌, ◌+◌, ◌^◌, IfOk, IsTrue, length, codes, take, drop};
ghost use Rattle.ucd_sets.specs.Lookup.{by_name, by_value};
ghost use Rattle.ts_pattern.specs.Characters.{IsSightWithin};
ghost use Rattle.ts_pattern.specs.Escapes.{named, prefix, found, braced_name, short_name, property};

use crate::chars::{CLOSE_BRACE, OPEN_BRACE, Test, goes_on, is_name_char, part, peek, run};
use crate::item::{Base, Item, Mark};
use crate::sight::{Flaw, Sight};
use std::alloc::{AllocError, Global};
use unicode::sets::{self, Set};

/// The tables in which a name is looked up.
#[derive(Clone, Copy)]
pub(crate) enum Table {
    Any,
    Category,
    Script,
}

fn category(name: &[u8]) -> Option<Set>
    ensures { result ≡ by_value (codes "gc") name.now }
{
    match sets::by_value(b"gc", name) {
        Ok(set) => Some(set),
        Err(_) => None,
    }
}

fn script(name: &[u8]) -> Option<Set>
    ensures { result ≡ by_value (codes "sc") name.now }
{
    match sets::by_value(b"sc", name) {
        Ok(set) => Some(set),
        Err(_) => None,
    }
}

/// A binary property, where the name is no category and no script.
fn binary(name: &[u8]) -> Option<Set>
    ensures { result ≡ by_name name.now }
{
    match sets::by_name(name) {
        Ok(set) => Some(set),
        Err(_) => None,
    }
}

fn named(table: Table, name: &[u8]) -> Option<Set>
    ensures { result ≡ named table name.now }
{
    match table {
        Table::Any => category(name).or(script(name).or(binary(name))),
        Table::Category => category(name),
        Table::Script => script(name),
    }
}

/// The tables that a prefix of a name picks, and the prefix's length.
fn prefix(text: &[char], at: usize) -> (Table, usize)
    requires { at ≤ length text.now }
    ensures value { result ≡ prefix text.now at }
    ensures within { at + result.1 ≤ length text.now }
{
    if goes_on(text, at, b"gc=") {
        (Table::Category, 3)
    } else if goes_on(text, at, b"General_Category=") {
        (Table::Category, 17)
    } else if goes_on(text, at, b"sc=") {
        (Table::Script, 3)
    } else if goes_on(text, at, b"Script=") {
        (Table::Script, 7)
    } else {
        (Table::Any, 0)
    }
}

fn found(at: usize, lacking: bool, next: usize, set: Option<Set>) -> Sight<Mark>
    ensures { result ≡ found at lacking next set }
{
    match set {
        Some(set) => {
            let base = Base::Property(set);
            Sight::Sees(Mark::Class(Item { base, lacking }), next)
        }
        None => Sight::Wrong(Flaw::UnknownProperty, at),
    }
}

fn braced_name(
    alloc: Global,
    text: &[char],
    at: usize,
    lacking: bool,
    table: Table,
    start: usize,
    count: usize,
) -> Result<Sight<Mark>, AllocError>
    requires start { at < start }
    requires count { start + count ≤ length text.now }
    ensures value { IfOk result
        (λ s. s ≡ braced_name text.now at lacking table start count) }
    ensures within { IfOk result (IsSightWithin text.now at) }
{
    if count < 1 || peek(text, start + count) != CLOSE_BRACE {
        return Ok(Sight::Wrong(Flaw::Syntax, at));
    }
    let name = sets::normalize(alloc, part(text, start, count))?;
    let set = named(table, &name);
    Ok(found(at, lacking, start + count + 1, set))
}

fn short_name(
    alloc: Global,
    text: &[char],
    at: usize,
    lacking: bool,
) -> Result<Sight<Mark>, AllocError>
    requires { at + 2 ≤ length text.now }
    ensures value { IfOk result (λ s. s ≡ short_name text.now at lacking) }
    ensures within { IfOk result (IsSightWithin text.now at) }
{
    if !is_name_char(peek(text, at + 2)) {
        return Ok(Sight::Wrong(Flaw::Syntax, at));
    }
    let name = sets::normalize(alloc, part(text, at + 2, 1))?;
    let set = named(Table::Any, &name);
    Ok(found(at, lacking, at + 3, set))
}

/// The escape of a property, from its backslash on.
pub(crate) fn property(
    alloc: Global,
    text: &[char],
    at: usize,
    lacking: bool,
) -> Result<Sight<Mark>, AllocError>
    requires { at + 2 ≤ length text.now }
    ensures value { IfOk result (λ s. s ≡ property text.now at lacking) }
    ensures within { IfOk result (IsSightWithin text.now at) }
{
    if peek(text, at + 2) != OPEN_BRACE {
        return short_name(alloc, text, at, lacking);
    }
    let (table, length) = prefix(text, at + 3);
    let start = at + 3 + length;
    let count = run(text, start, Test::Name);
    braced_name(alloc, text, at, lacking, table, start, count)
}

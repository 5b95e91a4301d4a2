//! Symbols and numbers of names, and their lists: from the bytes of a file to the value and the
//! bytes behind it.

ghost use Rattle.std.specs.Prelude.{◌≡◌};
ghost use Rattle.ts_langfile.specs.Reader.{Gives, tested, times, in_turn};
ghost use Rattle.ts_langfile.specs.Parts as spec;
ghost use Rattle.ts_langfile.specs.Parts.{number16_at, listed_at, symbol_at, symbols_at, entry_at, supertype_at, behind_symbol};

use crate::flaw::{Stop, wrong};
use crate::part::{number16, number32, tag};
use std::alloc::Global;
use ts_core::{Entry, FlatRule, Kind, List, Symbol, TokenDef};

/// Whether there may be a name of this number.
fn may_name(count: Option<u32>, name: u16) -> bool
    ensures { result ≡ spec.may_name count name }
{
    match count {
        None => true,
        Some(count) => u32::from(name) < count,
    }
}

/// The number of a name, of which there are so many, if that is known.
pub(crate) fn name(bytes: &[u8], count: Option<u32>) -> Result<(u16, &[u8]), Stop>
    ensures { Gives (λ x. (x.0, x.1.now)) result
        (tested number16_at (spec.may_name count) bytes.now) }
{
    let (name, rest) = number16(bytes)?;
    if !may_name(count, name) {
        return Err(wrong(bytes));
    }
    Ok((name, rest))
}

/// A symbol from `least` on and below `bound`.
#[tactic(auto, unfolding(crate::specs::Parts::symbol_at))]
pub(crate) fn symbol(bytes: &[u8], least: u32, bound: u32) -> Result<(Symbol, &[u8]), Stop>
    ensures { Gives (λ x. (x.0, x.1.now)) result (symbol_at least bound bytes.now) }
{
    let (number, rest) = number16(bytes)?;
    if !(least <= u32::from(number) && u32::from(number) < bound) {
        return Err(wrong(bytes));
    }
    Ok((Symbol(number), rest))
}

/// A list of symbols from `least` on and below `bound`.
#[tactic(auto, unfolding(crate::specs::Parts::symbols_at))]
pub(crate) fn symbols(
    alloc: Global,
    bytes: &[u8],
    least: u32,
    bound: u32,
) -> Result<(List<Symbol>, &[u8]), Stop>
    ensures { Gives (λ x. (x.0, x.1.now)) result (symbols_at least bound bytes.now) }
{
    let (count, start) = number32(bytes)?;
    let mut symbols = List::new(alloc);
    let mut rest = start;
    for _ in 0..count {
        let (symbol, after) = symbol(rest, least, bound)?;
        symbols.push(symbol)?;
        rest = after;
    }
    Ok((symbols, rest))
}

/// A list of sets of symbols below `bound`.
pub(crate) fn sets(
    alloc: Global,
    bytes: &[u8],
    bound: u32,
) -> Result<(List<List<Symbol>>, &[u8]), Stop>
    ensures { Gives (λ x. (x.0, x.1.now)) result (listed_at (symbols_at 0 bound) bytes.now) }
{
    let (count, start) = number32(bytes)?;
    let mut sets = List::new(alloc);
    let mut rest = start;
    for _ in 0..count {
        let (set, after) = symbols(alloc, rest, 0, bound)?;
        sets.push(set)?;
        rest = after;
    }
    Ok((sets, rest))
}

#[tactic(auto, unfolding(crate::specs::Parts::entry_at))]
fn entry(bytes: &[u8], bound: u32, names: u32) -> Result<(Entry, &[u8]), Stop>
    ensures { Gives (λ x. (x.0, x.1.now)) result (entry_at bound names bytes.now) }
{
    let (tag, start) = tag(bytes, 1)?;
    match tag {
        0 => {
            let (name, rest) = name(start, Some(names))?;
            Ok((Entry::Name(name), rest))
        }
        _ => {
            let (symbol, rest) = symbol(start, 0, bound)?;
            Ok((Entry::Rule(symbol), rest))
        }
    }
}

fn ordering(
    alloc: Global,
    bytes: &[u8],
    bound: u32,
    names: u32,
) -> Result<(List<Entry>, &[u8]), Stop>
    ensures { Gives (λ x. (x.0, x.1.now)) result (listed_at (entry_at bound names) bytes.now) }
{
    let (count, start) = number32(bytes)?;
    let mut entries = List::new(alloc);
    let mut rest = start;
    for _ in 0..count {
        let (entry, after) = entry(rest, bound, names)?;
        entries.push(entry)?;
        rest = after;
    }
    Ok((entries, rest))
}

/// A list of orderings of precedences, with symbols below `bound` and so many names.
pub(crate) fn orderings(
    alloc: Global,
    bytes: &[u8],
    bound: u32,
    names: u32,
) -> Result<(List<List<Entry>>, &[u8]), Stop>
    ensures { Gives (λ x. (x.0, x.1.now)) result
        (listed_at (listed_at (entry_at bound names)) bytes.now) }
{
    let (count, start) = number32(bytes)?;
    let mut orderings = List::new(alloc);
    let mut rest = start;
    for _ in 0..count {
        let (entries, after) = ordering(alloc, rest, bound, names)?;
        orderings.push(entries)?;
        rest = after;
    }
    Ok((orderings, rest))
}

fn is_hidden_kind(kind: Kind) -> bool
    ensures { result ≡ spec.is_hidden_kind (Some kind) }
{
    match kind {
        Kind::Named | Kind::Anonymous => false,
        Kind::Hidden => true,
    }
}

/// Whether a symbol is a token or a rule that is hidden.
fn is_hidden(tokens: &List<TokenDef>, rules: &List<FlatRule>, symbol: u16) -> bool
    ensures { result ≡ spec.is_hidden tokens.now rules.now symbol }
{
    if symbol == 0 {
        return false;
    }
    let place = symbol as usize - 1;
    if place < tokens.len() {
        return is_hidden_kind(tokens.get(place).kind);
    }
    let place = place - tokens.len();
    place < rules.len() && is_hidden_kind(rules.get(place).kind)
}

/// A hidden symbol from `least` on.
#[tactic(auto, unfolding(crate::specs::Parts::supertype_at))]
fn supertype<'a>(
    bytes: &'a [u8],
    tokens: &List<TokenDef>,
    rules: &List<FlatRule>,
    least: u32,
) -> Result<(Symbol, &'a [u8]), Stop>
    ensures { Gives (λ x. (x.0, x.1.now)) result
        (supertype_at tokens.now rules.now least bytes.now) }
{
    let (number, rest) = number16(bytes)?;
    if !(least <= u32::from(number) && is_hidden(tokens, rules, number)) {
        return Err(wrong(bytes));
    }
    Ok((Symbol(number), rest))
}

/// So many supertypes.
pub(crate) fn supertypes<'a>(
    alloc: Global,
    bytes: &'a [u8],
    count: u32,
    tokens: &List<TokenDef>,
    rules: &List<FlatRule>,
) -> Result<(List<Symbol>, &'a [u8]), Stop>
    ensures { Gives (λ x. (x.0, x.1.now)) result
        (in_turn (supertype_at tokens.now rules.now) behind_symbol count 1 bytes.now) }
{
    let mut symbols = List::new(alloc);
    let mut least = 1;
    let mut rest = bytes;
    for _ in 0..count {
        let (symbol, after) = supertype(rest, tokens, rules, least)?;
        least = u32::from(symbol.0) + 1;
        symbols.push(symbol)?;
        rest = after;
    }
    Ok((symbols, rest))
}

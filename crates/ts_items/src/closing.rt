//! Closed sets of items: the parts with which a set begins go in, and all its parts come out.
ghost use Rattle.std.specs.Prelude.{◌≡◌, ℕ, ◌+◌, ◌*◌, ◌^◌, ◌<◌, ◌↔◌, length, slice_get, Some, IfOk, OnOk};
ghost use Rattle.std.specs.List.{Contains};
ghost use Rattle.ts_bits.specs.Members.{Has, IsWide};
ghost use Rattle.ts_items.specs.Parts.{line_of, In};
ghost use Rattle.ts_items.specs.Rows.{FromOne};
ghost use Rattle.ts_items.specs.Sets.{HasAt, AreWide, GainsTokens, QueuesGains};
ghost use Rattle.ts_items.specs.Closing.{Asked, AskedBy, CanFollow, IsLinePart, AreLineParts, AddsParts, AddsBegun, AreBegun, AddsSets, IsPool, Closes};

use crate::flow::flow;
use crate::part::Part;
use crate::sets::{clear_all, join};
use crate::tables::Tabled;
use indexmap::IndexSet;
use std::alloc::{AllocError, Global};
use ts_bits::BitSet;

fn pool_at(pool: &IndexSet<BitSet>, at: usize) -> &BitSet
    requires { at < length pool.now.keys }
    ensures { slice_get pool.now.keys at ≡ Some result.now }
{
    let Some(set) = pool.get_index(at) else {
        unreachable!()
    };
    set
}

/// The tokens that can come after the step at the dot.
fn behind<'a>(tabled: &'a Tabled, pool: &'a IndexSet<BitSet>, part: Part) -> &'a BitSet
    requires part { IsLinePart (length tabled.now.tables.productions.items) pool.now.keys part }
    requires pool { AreWide tabled.now.tables.width pool.now.keys }
    ensures members { (t : ℕ) → Has result.now t ↔ CanFollow tabled.now.grammar pool.now.keys
        part t }
    ensures wide { IsWide tabled.now.tables.width result.now }
{
    tabled.stands();
    match tabled.symbol_at(part.line, usize::from(part.dot) + 1) {
        Some(symbol) => &tabled.firsts()[usize::from(symbol)],
        None => pool_at(pool, part.tokens),
    }
}

/// Adds what one part asks for.
fn ask(
    tabled: &Tabled,
    pool: &IndexSet<BitSet>,
    asked: &mut [BitSet],
    queue: &mut Vec<u16>,
    part: Part,
) -> Result<(), AllocError>
    requires part { IsLinePart (length tabled.now.tables.productions.items) pool.now.keys part }
    requires pool { AreWide tabled.now.tables.width pool.now.keys }
    requires count { length asked.old ≡ length tabled.now.tables.firsts.items }
    requires wide { AreWide tabled.now.tables.width asked.old }
    ensures gains { OnOk result (GainsTokens (AskedBy tabled.now.grammar pool.now.keys part)
        asked.old asked.new) }
    ensures tells { OnOk result (QueuesGains asked.old asked.new queue.old.items queue.new.items) }
{
    match tabled.symbol_at(part.line, usize::from(part.dot)) {
        Some(symbol) => join(asked, queue, symbol, behind(tabled, pool, part)),
        None => Ok(()),
    }
}

/// Adds what all parts ask for.
fn ask_all(
    tabled: &Tabled,
    pool: &IndexSet<BitSet>,
    asked: &mut [BitSet],
    queue: &mut Vec<u16>,
    kernel: &[Part],
) -> Result<(), AllocError>
    requires parts { AreLineParts (length tabled.now.tables.productions.items) pool.now.keys
        kernel.now }
    requires pool { AreWide tabled.now.tables.width pool.now.keys }
    requires count { length asked.old ≡ length tabled.now.tables.firsts.items }
    requires wide { AreWide tabled.now.tables.width asked.old }
    ensures gains { OnOk result (GainsTokens
        (FromOne (AskedBy tabled.now.grammar pool.now.keys) kernel.now) asked.old asked.new) }
    ensures tells { OnOk result (QueuesGains asked.old asked.new queue.old.items queue.new.items) }
{
    for part in kernel {
        ask(tabled, pool, asked, queue, *part)?;
    }
    Ok(())
}

/// The place of a set in the pool, at whose end it is put where it is new.
pub(crate) fn place_of(
    alloc: Global,
    pool: &mut IndexSet<BitSet>,
    set: &BitSet,
) -> Result<usize, AllocError>
    ensures grows { OnOk result (AddsSets pool.old.keys pool.new.keys) }
    ensures pool { OnOk result ((n : ℕ) → IsPool n pool.old.keys → IsWide n set.now
        → IsPool n pool.new.keys) }
    ensures inside { IfOk result (λ place. place < length pool.new.keys) }
    ensures same { IfOk result (λ place. (t : ℕ) → HasAt pool.new.keys place t ↔ Has set.now t) }
{
    if let Some(place) = pool.get_index_of(set) {
        return Ok(place);
    }
    let (place, _) = pool.insert_full(set.copy(alloc)?)?;
    Ok(place)
}

/// Adds the parts that begin some lines.
fn add_lines(parts: &mut Vec<Part>, lines: &[u16], tokens: usize) -> Result<(), AllocError>
    ensures { OnOk result (AddsParts (λ q. Contains lines.now q.line × (q.dot ≡ 0)
        × (q.tokens ≡ tokens)) parts.old.items parts.new.items) }
{
    for line in lines {
        parts.push(Part {
            line: *line,
            dot: 0,
            tokens,
        })?;
    }
    Ok(())
}

/// Adds the parts that begin the lines of one symbol.
fn add_symbol(
    alloc: Global,
    pool: &mut IndexSet<BitSet>,
    parts: &mut Vec<Part>,
    lines: &[u16],
    tokens: &BitSet,
) -> Result<(), AllocError>
    requires { 64 * length tokens.now.words.items < 2 ^ 64 }
    ensures grows { OnOk result (AddsSets pool.old.keys pool.new.keys) }
    ensures pool { OnOk result ((n : ℕ) → IsPool n pool.old.keys → IsWide n tokens.now
        → IsPool n pool.new.keys) }
    ensures adds { OnOk result
        (AddsBegun pool.new.keys lines.now tokens.now parts.old.items parts.new.items) }
{
    if lines.is_empty() {
        return Ok(());
    }
    match tokens.least() {
        Some(_token) => {
            let place = place_of(alloc, pool, tokens)?;
            add_lines(parts, lines, place)
        }
        None => Ok(()),
    }
}

/// Adds the parts that begin the productions of what is asked for.
fn add_begun(
    alloc: Global,
    lines: &[Vec<u16>],
    pool: &mut IndexSet<BitSet>,
    asked: &[BitSet],
    parts: &mut Vec<Part>,
) -> Result<(), AllocError>
    requires lines { length lines.now ≡ length asked.now }
    requires wide { (n : ℕ) × (64 * n < 2 ^ 64) × AreWide n asked.now × IsPool n pool.old.keys }
    ensures grows { OnOk result (AddsSets pool.old.keys pool.new.keys) }
    ensures pool { OnOk result ((n : ℕ) → IsPool n pool.old.keys → AreWide n asked.now
        → IsPool n pool.new.keys) }
    ensures begun { OnOk result (AreBegun lines.now asked.now pool.new.keys
        (length asked.now) parts.old.items parts.new.items) }
{
    for symbol in 0..asked.len() {
        add_symbol(alloc, pool, parts, lines[symbol].as_slice(), &asked[symbol])?;
    }
    Ok(())
}

/// For each symbol that the parts ask for, over and over, the tokens behind it.
fn ask_for(
    alloc: Global,
    tabled: &Tabled,
    pool: &IndexSet<BitSet>,
    asked: &mut [BitSet],
    kernel: &[Part],
) -> Result<(), AllocError>
    requires parts { AreLineParts (length tabled.now.tables.productions.items) pool.now.keys
        kernel.now }
    requires pool { AreWide tabled.now.tables.width pool.now.keys }
    requires count { length asked.old ≡ length tabled.now.tables.firsts.items }
    requires wide { AreWide tabled.now.tables.width asked.old }
    ensures count { OnOk result (length asked.new ≡ length asked.old) }
    ensures wide { OnOk result (AreWide tabled.now.tables.width asked.new) }
    ensures asked { OnOk result ((y t : ℕ) → HasAt asked.new y t
        ↔ Asked tabled.now.grammar (In pool.now.keys kernel.now) y t) }
{
    tabled.stands();
    clear_all(asked);
    let mut queue = Vec::new(alloc);
    ask_all(tabled, pool, asked, &mut queue, kernel)?;
    flow(alloc, tabled.edges(), tabled.firsts(), asked, &mut queue)?;
    Ok(())
}

/// All parts of the closed set of a kernel.
pub(crate) fn close(
    alloc: Global,
    tabled: &Tabled,
    pool: &mut IndexSet<BitSet>,
    asked: &mut [BitSet],
    kernel: &[Part],
) -> Result<Vec<Part>, AllocError>
    requires parts { AreLineParts (length tabled.now.tables.productions.items) pool.old.keys
        kernel.now }
    requires pool { IsPool tabled.now.tables.width pool.old.keys }
    requires count { length asked.old ≡ length tabled.now.tables.firsts.items }
    requires wide { AreWide tabled.now.tables.width asked.old }
    ensures count { OnOk result (length asked.new ≡ length asked.old) }
    ensures wide { OnOk result (AreWide tabled.now.tables.width asked.new) }
    ensures grows { OnOk result (AddsSets pool.old.keys pool.new.keys) }
    ensures pool { OnOk result (IsPool tabled.now.tables.width pool.new.keys) }
    ensures closes { IfOk result (λ v. Closes tabled.now.grammar
        (length tabled.now.tables.productions.items) pool.new.keys kernel.now v.items) }
{
    ts_bits::same_words();
    tabled.stands();
    ask_for(alloc, tabled, pool, asked, kernel)?;
    let mut parts = Vec::new(alloc);
    parts.extend_from_slice(kernel)?;
    add_begun(alloc, tabled.lines(), pool, asked, &mut parts)?;
    Ok(parts)
}

//! The items that compete on a token: the parts of a set of items go in, and its reductions and
//! shift items with their weights come out.
ghost use Rattle.std.specs.Prelude.{◌≡◌, ℕ, ◌<◌, ◌≤◌, length, IfOk, IsTrue, ◌↔◌, ◌⊎◌};
ghost use Rattle.std.specs.List.{Contains};
ghost use Rattle.ts_core.specs.declared.flat.FlatGrammar.{FlatGrammar as Flat};
ghost use Rattle.ts_items.specs.declared.part.Part.{Part as Parts};
ghost use Rattle.ts_bits.specs.Members.{Has, IsWide};
ghost use Rattle.ts_items.specs.Sets.{HasAt, AreWide};
ghost use Rattle.ts_table.specs.declared.candidates.Candidate.{Candidate as Candidates};
ghost use Rattle.ts_table.specs.Marks.{AreMarksOf};
ghost use Rattle.ts_table.specs.Candidates.{candidate_of, IsCompletePart, IsShiftPart, PicksFrom, ComesAfter};

use crate::marks::{Marks, Weight};
use indexmap::IndexSet;
use std::alloc::{AllocError, Global};
use ts_bits::BitSet;
use ts_items::Part;

/// An item that competes: the line of its production, and its weight.
#[derive(Debug, Clone, Copy, PartialEq, Eq)]
pub(crate) struct Candidate {
    pub line: u16,
    pub weight: Weight,
}

/// Whether a set of a pool has a token.
pub(crate) fn pool_has(pool: &IndexSet<BitSet>, at: usize, token: u16) -> bool
    ensures { IsTrue result ↔ HasAt pool.now.keys at token }
{
    match pool.get_index(at) {
        Some(set) => set.contains(usize::from(token)),
        None => false,
    }
}

/// Whether a symbol can begin with a token, by sets for each symbol.
fn begins(firsts: &[BitSet], symbol: u16, token: u16) -> bool
    ensures { IsTrue result ↔ HasAt firsts.now symbol token }
{
    let symbol = usize::from(symbol);
    if symbol >= firsts.len() {
        return false;
    }
    firsts[symbol].contains(usize::from(token))
}

/// Whether a part stands for complete items of the grammar.
fn is_complete(marks: &Marks, part: Part) -> bool
    requires { part.line ≤ length marks.now.productions.items }
    ensures { (g : Flat) → AreMarksOf g marks.now → IsTrue result ↔ IsCompletePart g part }
{
    if part.line == 0 {
        return false;
    }
    usize::from(part.dot) == marks.size(part.line)
}

/// Whether a part stands for shift items on a token.
fn is_shift(marks: &Marks, firsts: &[BitSet], part: Part, token: u16) -> bool
    requires { part.line ≤ length marks.now.productions.items }
    ensures { (g : Flat) → AreMarksOf g marks.now
        → IsTrue result ↔ IsShiftPart g firsts.now token part }
{
    if part.dot == 0 {
        return false;
    }
    match marks.symbol_at(part.line, part.dot) {
        Some(symbol) => begins(firsts, symbol, token),
        None => false,
    }
}

/// The candidate of a part.
fn candidate_at(marks: &Marks, part: Part) -> Candidate
    requires { part.line ≤ length marks.now.productions.items }
    ensures { (g : Flat) → AreMarksOf g marks.now → result ≡ candidate_of g part }
{
    Candidate {
        line: part.line,
        weight: marks.weight(part.line, part.dot),
    }
}

/// The parts that stand for complete items of the grammar.
pub(crate) fn complete_parts(
    alloc: Global,
    marks: &Marks,
    parts: &[Part],
) -> Result<Vec<Part>, AllocError>
    requires { (q : Parts) → Contains parts.now q → q.line ≤ length marks.now.productions.items }
    ensures { IfOk result (λ v. (g : Flat) → AreMarksOf g marks.now
        → (q : Parts) → Contains v.items q ↔ (Contains parts.now q × IsCompletePart g q)) }
{
    let mut complete = Vec::new(alloc);
    for part in parts {
        if is_complete(marks, *part) {
            complete.push(*part)?;
        }
    }
    Ok(complete)
}

/// In how many words each of some sets is held, and 0 where there are none.
pub(crate) fn width_of(sets: &[BitSet]) -> usize
    ensures { (n : ℕ) → AreWide n sets.now → 0 < length sets.now → result ≡ n }
{
    match sets.first() {
        Some(set) => set.words.len(),
        None => 0,
    }
}

/// Adds a set of a pool.
fn add_set(found: &mut BitSet, pool: &IndexSet<BitSet>, at: usize)
    requires { (n : ℕ) × IsWide n found.old × AreWide n pool.now.keys }
    ensures members { (t : ℕ) → Has found.new t ↔ (Has found.old t ⊎ HasAt pool.now.keys at t) }
    ensures wide { (n : ℕ) → IsWide n found.old → AreWide n pool.now.keys → IsWide n found.new }
{
    if let Some(set) = pool.get_index(at) {
        found.union_with(set);
    }
}

/// All tokens that come after some of the parts.
pub(crate) fn lookaheads(
    alloc: Global,
    pool: &IndexSet<BitSet>,
    parts: &[Part],
    width: usize,
) -> Result<BitSet, AllocError>
    requires { AreWide width pool.now.keys }
    ensures { IfOk result (λ s. (t : ℕ) → Has s t ↔ ComesAfter pool.now.keys parts.now t) }
{
    let mut found = BitSet::new(alloc, width)?;
    for part in parts {
        add_set(&mut found, pool, part.tokens);
    }
    Ok(found)
}

/// The reductions on a token, by the parts of complete items.
pub(crate) fn reductions(
    alloc: Global,
    marks: &Marks,
    complete: &[Part],
    pool: &IndexSet<BitSet>,
    token: u16,
) -> Result<Vec<Candidate>, AllocError>
    requires { (q : Parts) → Contains complete.now q → q.line ≤ length marks.now.productions.items }
    ensures { IfOk result (λ v. (g : Flat) → AreMarksOf g marks.now
        → (c : Candidates) → Contains v.items c
        ↔ PicksFrom g complete.now (λ q. HasAt pool.now.keys q.tokens token) c) }
{
    let mut found = Vec::new(alloc);
    for part in complete {
        if pool_has(pool, part.tokens, token) {
            found.push(candidate_at(marks, *part))?;
        }
    }
    Ok(found)
}

/// The shift items on a token.
pub(crate) fn shift_items(
    alloc: Global,
    marks: &Marks,
    parts: &[Part],
    firsts: &[BitSet],
    token: u16,
) -> Result<Vec<Candidate>, AllocError>
    requires { (q : Parts) → Contains parts.now q → q.line ≤ length marks.now.productions.items }
    ensures { IfOk result (λ v. (g : Flat) → AreMarksOf g marks.now
        → (c : Candidates) → Contains v.items c
        ↔ PicksFrom g parts.now (IsShiftPart g firsts.now token) c) }
{
    let mut found = Vec::new(alloc);
    for part in parts {
        if is_shift(marks, firsts, *part, token) {
            found.push(candidate_at(marks, *part))?;
        }
    }
    Ok(found)
}

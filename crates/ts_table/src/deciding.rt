//! What stays of reductions and of a shift: the candidates go in, and the reductions that are kept,
//! and which of both kinds stay, come out.
ghost use Rattle.std.specs.Prelude.{◌≡◌, ◌<◌, length, IfOk, IsTrue, ◌↔◌, ◌⊎◌};
ghost use Rattle.std.specs.List.{Contains};
ghost use Rattle.ts_core.specs.declared.flat.Assoc.TheVariants.{Left as LeftSide, Right as RightSide};
ghost use Rattle.ts_table.specs.declared.candidates.Candidate.{Candidate as Candidates};
ghost use Rattle.ts_table.specs.declared.deciding.Verdict.TheVariants.{Shift, Reduce};
ghost use Rattle.ts_table.specs.Marks.{HigherBy};
ghost use Rattle.ts_table.specs.Deciding.{IsTopOf, StaysOf, AreAll, ShiftWins, ReduceWins};

use crate::candidates::Candidate;
use crate::marks::Weight;
use crate::orderings::is_higher;
use std::alloc::{AllocError, Global};
use ts_core::{Assoc, FlatGrammar};

/// What stays where there are a shift and reductions.
#[derive(Debug, Clone, Copy, PartialEq, Eq)]
pub(crate) enum Verdict {
    Shift,
    Reduce,
    Both,
}

/// Whether one of some candidates is higher than a weight.
fn some_above(grammar: &FlatGrammar, candidates: &[Candidate], weight: Weight) -> bool
    ensures { IsTrue result ↔ (q : Candidates) × Contains candidates.now q
        × HigherBy grammar.now q.weight weight }
{
    for candidate in candidates {
        if is_higher(grammar, candidate.weight, weight) {
            return true;
        }
    }
    false
}

/// Whether one of some candidates is higher than one of the others.
fn some_higher(grammar: &FlatGrammar, above: &[Candidate], below: &[Candidate]) -> bool
    ensures { IsTrue result ↔ (r : Candidates) × Contains below.now r
        × ((q : Candidates) × Contains above.now q × HigherBy grammar.now q.weight r.weight) }
{
    for candidate in below {
        if some_above(grammar, above, candidate.weight) {
            return true;
        }
    }
    false
}

/// Whether no reduction is higher than a candidate.
fn is_top(grammar: &FlatGrammar, reductions: &[Candidate], candidate: Candidate) -> bool
    ensures { IsTrue result ↔ IsTopOf grammar.now reductions.now candidate }
{
    if some_above(grammar, reductions, candidate.weight) {
        return false;
    }
    true
}

/// The reductions that no other is higher than.
fn tops(
    alloc: Global,
    grammar: &FlatGrammar,
    reductions: &[Candidate],
) -> Result<Vec<Candidate>, AllocError>
    ensures { IfOk result (λ v. (r : Candidates) → Contains v.items r
        ↔ (Contains reductions.now r × IsTopOf grammar.now reductions.now r)) }
{
    let mut kept = Vec::new(alloc);
    for candidate in reductions {
        if is_top(grammar, reductions, *candidate) {
            kept.push(*candidate)?;
        }
    }
    Ok(kept)
}

/// A list, and where it is empty all reductions.
fn all_if_empty(
    mut kept: Vec<Candidate>,
    reductions: &[Candidate],
) -> Result<Vec<Candidate>, AllocError>
    ensures { IfOk result (λ v. (length kept.items ≡ 0 → v.items ≡ reductions.now)
        × (0 < length kept.items → v.items ≡ kept.items)) }
{
    if kept.is_empty() {
        kept.extend_from_slice(reductions)?;
        return Ok(kept);
    }
    Ok(kept)
}

/// The reductions that stay.
pub(crate) fn keep(
    alloc: Global,
    grammar: &FlatGrammar,
    reductions: &[Candidate],
) -> Result<Vec<Candidate>, AllocError>
    ensures { IfOk result (λ v. (r : Candidates) → Contains v.items r
        ↔ StaysOf grammar.now reductions.now r) }
{
    let kept = tops(alloc, grammar, reductions)?;
    all_if_empty(kept, reductions)
}

/// Whether two associativities are the same.
fn is_side(assoc: Assoc, side: Assoc) -> bool
    ensures { IsTrue result ↔ (assoc ≡ side) }
{
    match (assoc, side) {
        (Assoc::Left, Assoc::Left) => true,
        (Assoc::Right, Assoc::Right) => true,
        (Assoc::Absent, Assoc::Absent) => true,
        (Assoc::Left, Assoc::Right | Assoc::Absent) => false,
        (Assoc::Right, Assoc::Left | Assoc::Absent) => false,
        (Assoc::Absent, Assoc::Left | Assoc::Right) => false,
    }
}

/// Whether all candidates have an associativity.
fn all_have(candidates: &[Candidate], side: Assoc) -> bool
    ensures { IsTrue result ↔ AreAll side candidates.now }
{
    for candidate in candidates {
        if !is_side(candidate.weight.assoc, side) {
            return false;
        }
    }
    true
}

/// The verdict by what is higher, and by the side of all reductions.
fn choose(higher: bool, lower: bool, left: bool, right: bool) -> Verdict
    requires { IsTrue left → IsTrue right → ⊥ }
    ensures shift { (result ≡ Shift)
        ↔ ((IsTrue lower → ⊥) × (IsTrue higher ⊎ IsTrue right)) }
    ensures reduce { (result ≡ Reduce)
        ↔ ((IsTrue higher → ⊥) × (IsTrue lower ⊎ IsTrue left)) }
{
    match (higher, lower, left, right) {
        (true, true, _, _) => Verdict::Both,
        (true, false, _, _) => Verdict::Shift,
        (false, true, _, _) => Verdict::Reduce,
        (false, false, true, _) => Verdict::Reduce,
        (false, false, false, true) => Verdict::Shift,
        (false, false, false, false) => Verdict::Both,
    }
}

/// What stays of a shift and of reductions.
pub(crate) fn judge(
    grammar: &FlatGrammar,
    shifts: &[Candidate],
    reductions: &[Candidate],
) -> Verdict
    requires { 0 < length reductions.now }
    ensures shift { (result ≡ Shift) ↔ ShiftWins grammar.now (Contains shifts.now)
        (Contains reductions.now) }
    ensures reduce { (result ≡ Reduce) ↔ ReduceWins grammar.now (Contains shifts.now)
        (Contains reductions.now) }
{
    let higher = some_higher(grammar, shifts, reductions);
    let lower = some_higher(grammar, reductions, shifts);
    let left = all_have(reductions, Assoc::Left);
    let right = all_have(reductions, Assoc::Right);
    choose(higher, lower, left, right)
}

//! Patterns that are open: from parts, bars and quantifiers to a regular expression and its
//! measures.
ghost use Rattle.std.specs.Prelude.{◌≡◌, ◌≤◌, ◌*◌, ◌+◌, ℕ, min, max, nat_lt, [], ◌∷◌, ◌++◌, Option, None, Some, IfOk, if◌then◌else◌};
ghost use Rattle.ts_pattern.specs.Trees.{Pattern, Atom, set, group, once, or, only, empty, joined_parts, chosen, factor, greater_count, nesting, limit_passed};
ghost use Rattle.ts_pattern.specs.Limits.{stopped_nesting, stopped_positions};
ghost use Rattle.ts_pattern.specs.Machine.{plus, times_last, last_branch, built_before, built_pieces, built_atom, level_of, part_of, IsTimes, IsFinish};

use crate::limits::{MOST_COUNTED, MOST_NESTED, MOST_POSITIONS};
use std::alloc::{AllocError, Global};
use ts_base::{Boxed, List};
use ts_core::Re;

/// A whole atom. What nests deeper than is read has no expression.
#[derive(Drop)]
pub(crate) struct Part {
    pub(crate) re: Re,
    pub(crate) nesting: u32,
    pub(crate) greatest: u32,
    pub(crate) positions: u32,
}

/// A pattern that is open: its branches so far and the pieces of the last one, how deep its groups
/// nest, its greatest count, and the positions of its last piece and of all before it.
#[derive(Drop)]
pub(crate) struct Level {
    branches: List<Re>,
    pieces: List<Re>,
    nesting: u32,
    greatest: u32,
    earlier: u32,
    latest: u32,
    /// Whether a quantifier can follow.
    repeatable: bool,
}

/// What a whole pattern is.
#[derive(Drop)]
pub(crate) enum Finished {
    Whole(Re),
    /// It passes this limit.
    Over(u32),
}

fn joined(mut parts: List<Re>) -> Re
    ensures { result ≡ joined_parts parts }
{
    if parts.len() > 1 {
        return Re::Cat(parts);
    }
    match parts.pop() {
        Some(part) => part,
        None => Re::Empty,
    }
}

fn chosen(mut branches: List<Re>, last: Re) -> Result<Re, AllocError>
    ensures { IfOk result (λ r. r ≡ chosen (branches ++ last ∷ [])) }
{
    if branches.is_empty() {
        return Ok(last);
    }
    branches.push(last)?;
    Ok(Re::Alt(branches))
}

fn greater_count(least: u32, most: Option<u32>) -> u32
    ensures { result ≡ greater_count least most }
{
    match most {
        Some(most) => least.max(most),
        None => least,
    }
}

fn factor(least: u32, most: Option<u32>) -> u32
    ensures { result ≡ factor least most }
{
    match most {
        Some(most) => most,
        None => least.max(1),
    }
}

/// So many positions so many times, up to one more than are allowed.
fn multiplied(positions: u32, factor: u32) -> u32
    ensures { (n : ℕ) → positions ≡ stopped_positions n
        → result ≡ stopped_positions (n * factor) }
{
    let most = MOST_POSITIONS + 1;
    (positions.min(most) * factor.min(most)).min(most)
}

fn added(positions: u32, others: u32) -> u32
    ensures { (n k : ℕ) → positions ≡ stopped_positions n → others ≡ stopped_positions k
        → result ≡ stopped_positions (n + k) }
{
    let most = MOST_POSITIONS + 1;
    (positions.min(most) + others.min(most)).min(most)
}

/// The expression of a group that nests so deep, up to one more than is allowed.
fn grouped(branches: List<Re>, pieces: List<Re>, depth: u32) -> Result<Re, AllocError>
    ensures { IfOk result (λ r. (p : Pattern) → branches ≡ built_before p
        → pieces ≡ built_pieces (last_branch p) → depth ≡ stopped_nesting (nesting p + 1)
        → r ≡ built_atom (group p)) }
{
    if depth > MOST_NESTED {
        return Ok(Re::Empty);
    }
    chosen(branches, joined(pieces))
}

fn limit_passed(nesting: u32, greatest: u32, positions: u32) -> Option<u32>
    ensures { result ≡ limit_passed nesting greatest positions }
{
    if nesting > MOST_NESTED {
        Some(MOST_NESTED)
    } else if greatest > MOST_COUNTED {
        Some(MOST_COUNTED)
    } else if positions > MOST_POSITIONS {
        Some(MOST_POSITIONS)
    } else {
        None
    }
}

impl Part {
    /// One set.
    pub(crate) fn of_set(ranges: List<(u32, u32)>) -> Part
        ensures { result ≡ part_of (set ranges) }
    {
        Part {
            re: Re::Set(ranges),
            nesting: 0,
            greatest: 0,
            positions: 1,
        }
    }
}

impl Level {
    /// The empty pattern.
    pub(crate) fn new(alloc: Global) -> Level
        ensures { result ≡ level_of (only empty) }
    {
        Level {
            branches: List::new(alloc),
            pieces: List::new(alloc),
            nesting: 0,
            greatest: 0,
            earlier: 0,
            latest: 0,
            repeatable: false,
        }
    }

    /// With one more piece, which is this atom.
    pub(crate) fn with(self, part: Part) -> Result<Level, AllocError>
        ensures { IfOk result (λ l. (p : Pattern) (a : Atom) → self ≡ level_of p → part ≡ part_of a
            → l ≡ level_of (plus p (once a))) }
    {
        let Level {
            branches,
            mut pieces,
            nesting,
            greatest,
            earlier,
            latest,
            repeatable: _,
        } = self;
        pieces.push(part.re)?;
        Ok(Level {
            branches,
            pieces,
            nesting: nesting.max(part.nesting),
            greatest: greatest.max(part.greatest),
            earlier: added(earlier, latest),
            latest: part.positions,
            repeatable: true,
        })
    }

    /// With a bar.
    pub(crate) fn with_bar(self, alloc: Global) -> Result<Level, AllocError>
        ensures { IfOk result (λ l. (p : Pattern) → self ≡ level_of p → l ≡ level_of (or p empty)) }
    {
        let Level {
            mut branches,
            pieces,
            nesting,
            greatest,
            earlier,
            latest,
            repeatable: _,
        } = self;
        branches.push(joined(pieces))?;
        Ok(Level {
            branches,
            pieces: List::new(alloc),
            nesting,
            greatest,
            earlier: added(earlier, latest),
            latest: 0,
            repeatable: false,
        })
    }

    /// With a quantifier on its last piece, where it can have one.
    pub(crate) fn with_times(
        self,
        alloc: Global,
        least: u32,
        most: Option<u32>,
    ) -> Result<Option<Level>, AllocError>
        ensures { IfOk result
            (λ r. (p : Pattern) → self ≡ level_of p → IsTimes (times_last p least most) r) }
    {
        let Level {
            branches,
            mut pieces,
            nesting,
            greatest,
            earlier,
            latest,
            repeatable,
        } = self;
        if !repeatable {
            return Ok(None);
        }
        let Some(last) = pieces.pop() else {
            return Ok(None);
        };
        pieces.push(Re::Repeat(Boxed::new(alloc, last)?, least, most))?;
        Ok(Some(Level {
            branches,
            pieces,
            nesting,
            greatest: greatest.max(greater_count(least, most)),
            earlier,
            latest: multiplied(latest, factor(least, most)),
            repeatable: false,
        }))
    }

    /// The group of it.
    pub(crate) fn close(self) -> Result<Part, AllocError>
        ensures { IfOk result (λ a. (p : Pattern) → self ≡ level_of p → a ≡ part_of (group p)) }
    {
        let Level {
            branches,
            pieces,
            nesting,
            greatest,
            earlier,
            latest,
            repeatable: _,
        } = self;
        let nesting = nesting.min(MOST_NESTED) + 1;
        Ok(Part {
            re: grouped(branches, pieces, nesting)?,
            nesting,
            greatest,
            positions: added(earlier, latest),
        })
    }

    /// The whole pattern of it.
    pub(crate) fn finish(self) -> Result<Finished, AllocError>
        ensures { IfOk result (λ f. (p : Pattern) → self ≡ level_of p → IsFinish p f) }
    {
        let Level {
            branches,
            pieces,
            nesting,
            greatest,
            earlier,
            latest,
            repeatable: _,
        } = self;
        match limit_passed(nesting, greatest, added(earlier, latest)) {
            Some(limit) => Ok(Finished::Over(limit)),
            None => Ok(Finished::Whole(chosen(branches, joined(pieces))?)),
        }
    }
}

//! Edits of texts: a text and an edit come in, and the text after it or a refusal comes out.
ghost use Rattle.std.specs.Prelude.{◌≡◌, ◌↔◌, ℕ, All, length, ◌≤◌};
ghost use Rattle.std.specs.Prelude.{IsErrOf, IfOk, IsOkUnless, IsTrue};
ghost use Rattle.ts_text.specs.Edit.{AreApart, IsPartOf, InRange, apply_of, replaced_from, Fits, IsOver};
ghost use Rattle.ts_text.specs.Text.{most_bytes};

use crate::text::{MOST_BYTES, Text};
use crate::writing::Writer;
use std::alloc::{AllocError, Global};
use thiserror::Error;
use ts_base::List;

/// One replacement in a text: the bytes from `start` up to `end` give way to `new`.
#[derive(Debug, PartialEq, Eq, Drop)]
pub struct Part {
    /// Where the bytes begin that go.
    pub start: u32,

    /// Where they end. Equal to `start`, nothing goes.
    pub end: u32,

    /// What comes in their place.
    pub new: Text,
}

/// One change of a text: one or more replacements at once. All places are those of the text before
/// it, and no text with a part of them alone is ever there.
#[derive(Debug, PartialEq, Eq, Drop)]
pub struct Edit {
    /// The replacements, rising and apart: each ends below the start of the next.
    pub parts: List<Part>,
}

/// Why an edit of a text was not made.
#[derive(Debug, PartialEq, Eq, Drop, Error)]
pub enum EditFault {
    /// There is no part; the start of one is above its end, its end is past the text, or one of
    /// them is inside a character; or a part does not end below the start of the next.
    #[error("the edit's range is not one of the text")]
    Range,

    /// The text would have too many bytes: so many.
    #[error("{0} bytes are too many for a text")]
    Size(u64),

    /// There is no memory for the new text.
    #[error("out of memory")]
    Memory,
}

/// The text after an edit, all its parts replaced at once.
///
/// The new text shares the pieces of the old one that lie between the parts. What is copied are the
/// pieces at the parts' ends.
///
/// # Errors
///
/// `Range` where there is no part, or the parts do not lie in the text, in order, apart and on
/// characters; else `Size` where the new text would have more than `MOST_BYTES` bytes; else
/// `Memory`, where memory runs out.
pub fn apply(alloc: Global, text: &Text, edit: &Edit) -> Result<Text, EditFault>
    ensures ok { IfOk result (λ after. after ≡ apply_of text.now edit.now) }
    ensures range { IsErrOf result EditFault.Range ↔ ¬ (InRange text.now edit.now) }
    ensures size { (n : ℕ) → IsErrOf result (EditFault.Size n) ↔ IsOver text.now edit.now n }
    ensures accepts { IsOkUnless result EditFault.Memory ↔
        InRange text.now edit.now × Fits text.now edit.now }
{
    let parts = edit.parts.as_slice();
    if !is_in_range(text, edit) {
        return Err(EditFault::Range);
    }
    let size = size_after(text, parts);
    if size > u64::from(MOST_BYTES) {
        return Err(EditFault::Size(size));
    }
    match rewritten(alloc, text, parts) {
        Ok(after) => Ok(after),
        Err(_) => Err(EditFault::Memory),
    }
}

/// Whether the parts lie in the text, in order, apart and on characters, and there is one.
fn is_in_range(text: &Text, edit: &Edit) -> bool
    ensures { IsTrue result ↔ InRange text.now edit.now }
{
    let parts = edit.parts.as_slice();
    !parts.is_empty() && are_within(text, parts) && are_apart(parts)
}

/// Whether each part lies in the text, its places in order and on characters.
fn are_within(text: &Text, parts: &[Part]) -> bool
    ensures { IsTrue result ↔ All (IsPartOf text.now) parts.now }
{
    for part in parts {
        if !is_part_of(text, part) {
            return false;
        }
    }
    true
}

fn is_part_of(text: &Text, part: &Part) -> bool
    ensures { IsTrue result ↔ IsPartOf text.now part.now }
{
    part.start <= part.end && text.is_boundary(part.start) && text.is_boundary(part.end)
}

/// Whether each part ends below the start of the next.
fn are_apart(parts: &[Part]) -> bool
    ensures { IsTrue result ↔ AreApart parts.now }
{
    let mut next = 1;
    while next < parts.len() {
        if parts[next - 1].end >= parts[next].start {
            return false;
        }
        next += 1;
    }
    true
}

/// How many bytes the text has after the edit.
fn size_after(text: &Text, parts: &[Part]) -> u64
    requires within { All (IsPartOf text.now) parts.now }
    requires apart { AreApart parts.now }
    ensures { result ≡ length (replaced_from text.now 0 parts.now) }
{
    let length = text.len();
    let mut size = 0;
    let mut place = 0;
    for part in parts {
        size += u64::from(part.start - place) + u64::from(part.new.len());
        place = part.end;
    }
    size + u64::from(length - place)
}

/// The text after the edit. It shares the pieces that the edit leaves.
#[tactic(auto, using(crate::proofs::PartLemmas::rewritten_start, crate::proofs::PartLemmas::kept_ordered, crate::proofs::PartLemmas::kept_from, crate::proofs::PartLemmas::kept_to, crate::proofs::PartLemmas::kept_fits, crate::proofs::PartLemmas::new_from, crate::proofs::PartLemmas::ends_on, crate::proofs::PartLemmas::new_fits, crate::proofs::PartLemmas::rewritten_more, crate::proofs::PartLemmas::last_from, crate::proofs::PartLemmas::last_ordered, crate::proofs::PartLemmas::last_fits, crate::proofs::PartLemmas::rewritten_end, crate::proofs::PartLemmas::rewritten_small))]
fn rewritten(alloc: Global, text: &Text, parts: &[Part]) -> Result<Text, AllocError>
    requires within { All (IsPartOf text.now) parts.now }
    requires apart { AreApart parts.now }
    requires fits { length (replaced_from text.now 0 parts.now) ≤ most_bytes }
    ensures { IfOk result (λ after. after ≡ replaced_from text.now 0 parts.now) }
{
    let length = text.len();
    let mut writer = Writer::new(alloc, text.pieces().len() + 1)?;
    let mut place = 0;
    for part in parts {
        writer.put_range(alloc, text, place, part.start)?;
        writer.put_range(alloc, &part.new, 0, part.new.len())?;
        place = part.end;
    }
    writer.put_range(alloc, text, place, length)?;
    writer.text(alloc)
}

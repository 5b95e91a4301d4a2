//! Makes the pieces of a text: what goes in are characters and parts of texts, in order, and what
//! comes out is the text of them all.
ghost use Rattle.std.specs.Prelude.{◌≡◌, ◌+◌, ◌-◌, ◌<◌, ◌≤◌, ◌++◌, [], length, take, IfOk, OnOk};
ghost use Rattle.std.specs.List.{slice_range};
ghost use Rattle.std.specs.Str.{IsCharBoundary};
ghost use Rattle.ts_text.specs.Pieces.{IsPiece, IsPartOfPiece};
ghost use Rattle.ts_text.specs.Text.{most_bytes};
ghost use Rattle.ts_text.specs.Written.{pending_of, written};

use crate::piece::{PIECE, Piece};
use crate::text::{Text, piece_at};
use crate::writing::Writer;
use std::alloc::{AllocError, Global};
use std::mem;
use ts_base::{Shared, Str};

impl Writer {
    /// Nothing yet, with room for so many pieces.
    pub(crate) fn new(alloc: Global, count: usize) -> Result<Writer, AllocError>
        ensures { IfOk result (λ writer. written writer ≡ []) }
    {
        Ok(Writer {
            text: Text::with_room(alloc, count)?,
            pending: String::new(alloc),
        })
    }

    /// Writes a copy of some characters.
    #[tactic(auto, using(crate::proofs::WriterLemmas::put_turn, crate::proofs::WriterLemmas::put_room, crate::proofs::WriterLemmas::put_done, crate::proofs::WriterLemmas::put_fewer))]
    pub(crate) fn put(&mut self, alloc: Global, text: &str) -> Result<(), AllocError>
        requires { length (written self.old) + length text.now ≤ most_bytes }
        ensures { OnOk result (written self.new ≡ written self.old ++ text.now) }
    {
        let mut rest = text;
        while self.pending.len() + rest.len() > PIECE {
            let count = self.fill(alloc, rest)?;
            let (_, later) = rest.split_at(count);
            rest = later;
        }
        self.pending.push_str(rest)?;
        Ok(())
    }

    /// Writes as many of the characters as the next piece is to have, and ends it.
    #[tactic(auto, using(crate::proofs::WriterLemmas::put_more, crate::proofs::WriterLemmas::fill_fits))]
    fn fill(&mut self, alloc: Global, text: &str) -> Result<usize, AllocError>
        requires some { 1 < length (pending_of self.old) + length text.now }
        requires fits { length (written self.old) + length text.now ≤ most_bytes }
        ensures on { IfOk result (λ count. IsCharBoundary text.now count) }
        ensures bytes { IfOk result (λ count.
            written self.new ≡ written self.old ++ take count text.now) }
        ensures ended { IfOk result (λ count. (pending_of self.new ≡ [])
            × (0 < length (pending_of self.old) + count)) }
    {
        let size = piece_size(self.pending.len() + text.len());
        let count = next_boundary(text, size.saturating_sub(self.pending.len()));
        let (first, _) = text.split_at(count);
        self.pending.push_str(first)?;
        self.close(alloc)?;
        Ok(count)
    }

    /// Makes a piece of what is pending.
    #[tactic(auto, using(crate::proofs::WriterLemmas::closed, crate::proofs::WriterLemmas::close_fits, crate::proofs::WriterLemmas::close_some, crate::proofs::WriterLemmas::close_utf8, crate::proofs::WriterLemmas::no_bytes))]
    fn close(&mut self, alloc: Global) -> Result<(), AllocError>
        requires { length (written self.old) ≤ most_bytes }
        ensures bytes { OnOk result (written self.new ≡ written self.old) }
        ensures ended { OnOk result (pending_of self.new ≡ []) }
    {
        if self.pending.is_empty() {
            return Ok(());
        }
        let content = mem::replace(&mut self.pending, String::new(alloc));
        let content = Shared::new(alloc, Str::from_string(content))?;
        self.text.push(content)?;
        Ok(())
    }

    /// Writes a piece. It is shared, but for a small one, or behind few characters that are pending: so
    /// pieces do not become smaller and smaller.
    #[tactic(auto, using(crate::proofs::WriterLemmas::shared, crate::proofs::WriterLemmas::share_fits, crate::proofs::WriterLemmas::share_some, crate::proofs::WriterLemmas::share_utf8))]
    fn share(&mut self, alloc: Global, piece: &Piece) -> Result<(), AllocError>
        requires piece { IsPiece piece.now }
        requires fits { length (written self.old) + length piece.now.content ≤ most_bytes }
        ensures { OnOk result (written self.new ≡ written self.old ++ piece.now.content) }
    {
        if is_small(piece.text()) || is_short(self.pending.as_str()) {
            self.put(alloc, piece.text())?;
            return Ok(());
        }
        self.close(alloc)?;
        self.text.push(piece.content.try_clone()?)?;
        Ok(())
    }

    /// Writes what a piece has between two places of its text.
    #[tactic(auto, using(crate::proofs::WriterLemmas::whole_part))]
    fn put_part(
        &mut self,
        alloc: Global,
        piece: &Piece,
        from: u32,
        to: u32,
    ) -> Result<(), AllocError>
        requires piece { IsPiece piece.now }
        requires part { IsPartOfPiece piece.now from to }
        requires fits { length (written self.old) + (to - from) ≤ most_bytes }
        ensures { OnOk result (written self.new
            ≡ written self.old ++ slice_range piece.now.content (from - piece.now.start) (to - piece.now.start)) }
    {
        let text = piece.text();
        let start = (from - piece.start) as usize;
        let end = (to - piece.start) as usize;
        if start == 0 && end == text.len() {
            self.share(alloc, piece)?;
            return Ok(());
        }
        self.put(alloc, &text[start..end])?;
        Ok(())
    }

    /// Writes what a text has between two places. Pieces that lie between them are shared.
    #[tactic(auto, using(crate::proofs::WriterLemmas::far_within, crate::proofs::WriterLemmas::far_goes_on, crate::proofs::WriterLemmas::part_is, crate::proofs::WriterLemmas::part_fits, crate::proofs::WriterLemmas::written_start, crate::proofs::WriterLemmas::written_more, crate::proofs::WriterLemmas::written_end, crate::proofs::WriterLemmas::nothing_written, crate::proofs::WriterLemmas::some_between, crate::proofs::PieceLemmas::in_turn_of, crate::proofs::PieceLemmas::piece_is, crate::proofs::PieceLemmas::end_small))]
    pub(crate) fn put_range(
        &mut self,
        alloc: Global,
        text: &Text,
        from: u32,
        to: u32,
    ) -> Result<(), AllocError>
        requires ordered { from ≤ to }
        requires from { IsCharBoundary text.now from }
        requires to { IsCharBoundary text.now to }
        requires fits { length (written self.old) + (to - from) ≤ most_bytes }
        ensures { OnOk result (written self.new ≡ written self.old ++ slice_range text.now from to) }
    {
        if from == to {
            return Ok(());
        }
        let pieces = text.pieces();
        let mut next = piece_at(pieces, from);
        let mut place = from;
        while place < to {
            let piece = &pieces[next];
            let last = piece.end().min(to);
            self.put_part(alloc, piece, place, last)?;
            place = last;
            next += 1;
        }
        Ok(())
    }

    /// The text of what was written.
    ///
    /// # Errors
    ///
    /// `AllocError` where memory runs out.
    #[tactic(auto, using(crate::proofs::WriterLemmas::text_written))]
    pub(crate) fn text(self, alloc: Global) -> Result<Text, AllocError>
        requires { length (written self) ≤ most_bytes }
        ensures { IfOk result (λ text. text ≡ written self) }
    {
        let mut writer = self;
        writer.close(alloc)?;
        let Writer { text, pending: _ } = writer;
        Ok(text)
    }
}

/// Whether a piece of these characters is so small that it is better joined to others.
fn is_small(text: &str) -> bool {
    text.len() < PIECE / 2
}

/// Whether there are characters, and too few for a piece.
fn is_short(text: &str) -> bool {
    !text.is_empty() && is_small(text)
}

/// How many bytes the next piece is to have, where so many are to come: half of them, where they
/// are less than two pieces.
fn piece_size(count: usize) -> usize
    requires { 1 < count }
    ensures some { 0 < result }
    ensures within { result ≤ count }
{
    if count < 2 * PIECE { count / 2 } else { PIECE }
}

/// The first place from this one on that lies between two characters.
#[tactic(auto, using(crate::proofs::WriterLemmas::not_at_end))]
fn next_boundary(text: &str, place: usize) -> usize
    requires { place ≤ length text.now }
    ensures on { IsCharBoundary text.now result }
    ensures above { place ≤ result }
{
    let mut at = place;
    while !text.is_char_boundary(at) {
        at += 1;
    }
    at
}

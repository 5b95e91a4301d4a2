//! Texts: bytes come in, and a text of them or the place where they are none comes out.
ghost use Rattle.std.specs.Prelude.{◌≡◌, ◌↔◌, ◌+◌, ◌-◌, ◌<◌, ◌≤◌, ◌++◌, ℕ, [], true, length, drop, slice_index};
ghost use Rattle.std.specs.Prelude.{IsErrOf, IsOkUnless, IfOk, OnOk, IsTrue, MatchOption};
ghost use Rattle.std.specs.List.{slice_range};
ghost use Rattle.std.specs.Str.{IsUtf8, IsCharBoundary};
ghost use Rattle.ts_text.specs.Text.{most_bytes, IsText, BreaksAt};
ghost use Rattle.ts_text.specs.Same.{IsSameTo};
ghost use Rattle.ts_text.specs.Point.{point_of};
ghost use Rattle.ts_text.specs.Pieces.{bytes_of, AreInTurn, StandFor, IsBetween, IsPieceAt};

use crate::piece::{PIECE, Piece};
use crate::point::PointWalk;
use crate::rest::{Rest, rest_of};
use crate::slice::Slice;
use crate::writing::Writer;
use std::alloc::{AllocError, Global};
use std::marker::Model;
use std::{fmt, str};
use thiserror::Error;
use ts_base::{Shared, Str};

/// The most bytes that a text has: 1 MiB.
pub const MOST_BYTES: u32 = 1_048_576;

/// A text of at most `MOST_BYTES` bytes, which contracts see as those bytes. They are UTF-8.
///
/// It never changes. It is kept in pieces of some thousand bytes, which texts share: one that an edit
/// leaves has the pieces of the text before it, but for those where they differ.
#[derive(Drop)]
pub struct Text {
    pieces: Vec<Piece>,
    len: u32,
}

impl Model for Text {
    ghost use Rattle.ts_base.specs.Bytes.{Bytes};
    ghost use Rattle.ts_text.specs.Pieces.{bytes_of, StandFor};

    ghost Value = { Bytes };

    ghost view = { λ text. bytes_of text.pieces.items };

    ghost invariant = { λ text. StandFor text.pieces.items text.len };
}

/// Why bytes are no text.
#[derive(Debug, PartialEq, Eq, Drop, Error)]
pub enum TextFault {
    /// They are not UTF-8. The number is the length of their longest prefix that is.
    #[error("the bytes are not UTF-8 from byte {0} on")]
    Utf8(u32),

    /// They are too many: so many.
    #[error("{0} bytes are too many for a text")]
    Size(u64),

    /// There is no memory for them.
    #[error("out of memory")]
    Memory,
}

impl Text {
    /// The text of these bytes, which are copied.
    ///
    /// # Errors
    ///
    /// `Size` above `MOST_BYTES` bytes, else `Utf8` where they are not UTF-8 as the Unicode
    /// standard has it, else `Memory`, where memory runs out.
    pub fn from_bytes(alloc: Global, bytes: &[u8]) -> Result<Text, TextFault>
        ensures ok { IfOk result (λ text. text ≡ bytes.now) }
        ensures accepts { IsOkUnless result TextFault.Memory ↔ IsText bytes.now }
        ensures size { (n : ℕ) → IsErrOf result (TextFault.Size n) ↔
            (n ≡ length bytes.now) × (most_bytes < length bytes.now) }
        ensures utf8 { (n : ℕ) → IsErrOf result (TextFault.Utf8 n) ↔ BreaksAt bytes.now n }
    {
        if bytes.len() > MOST_BYTES as usize {
            return Err(TextFault::Size(bytes.len() as u64));
        }
        match str::from_utf8(bytes) {
            Ok(content) => match text_of(alloc, content) {
                Ok(text) => Ok(text),
                Err(_) => Err(TextFault::Memory),
            },
            Err(fault) => Err(TextFault::Utf8(fault.valid_up_to() as u32)),
        }
    }

    /// The same text once more. Its pieces are shared, and no byte is copied.
    ///
    /// # Errors
    ///
    /// `AllocError` where memory runs out.
    #[tactic(auto, using(crate::proofs::PieceLemmas::copied_fits, crate::proofs::PieceLemmas::copied_some, crate::proofs::PieceLemmas::copied_utf8, crate::proofs::PieceLemmas::copied_more, crate::proofs::PieceLemmas::copied_all))]
    pub fn try_clone(&self, alloc: Global) -> Result<Text, AllocError>
        ensures { IfOk result (λ text. text ≡ self.now) }
    {
        let pieces = self.pieces();
        let mut text = Text::with_room(alloc, pieces.len())?;
        for piece in pieces {
            text.push(piece.content.try_clone()?)?;
        }
        Ok(text)
    }

    /// The text of no bytes, with room for so many pieces.
    #[tactic(auto, using(crate::proofs::PieceLemmas::no_pieces))]
    pub(crate) fn with_room(alloc: Global, count: usize) -> Result<Text, AllocError>
        ensures { IfOk result (λ text. text ≡ []) }
    {
        Ok(Text {
            pieces: Vec::with_capacity(alloc, count)?,
            len: 0,
        })
    }

    /// Puts a piece at the end of a text in the making.
    #[tactic(auto, using(crate::proofs::PieceLemmas::pushed, crate::proofs::PieceLemmas::pushed_more))]
    pub(crate) fn push(&mut self, content: Shared<Str>) -> Result<(), AllocError>
        requires some { 0 < length content }
        requires utf8 { IsUtf8 content }
        requires fits { length self.old + length content ≤ most_bytes }
        ensures { OnOk result (self.new ≡ self.old ++ content) }
    {
        let len = content.get().len() as u32;
        self.pieces.push(Piece {
            start: self.len,
            content,
        })?;
        self.len += len;
        Ok(())
    }

    /// How many bytes the text has.
    #[tactic(auto, using(crate::proofs::PieceLemmas::is_text))]
    pub fn len(&self) -> u32
        ensures count { result ≡ length self.now }
        ensures text { IsText self.now }
    {
        self.len
    }

    /// Whether the text has no bytes.
    pub fn is_empty(&self) -> bool
        ensures { IsTrue result ↔ (length self.now ≡ 0) }
    {
        self.len == 0
    }

    /// The pieces.
    #[tactic(auto, using(crate::proofs::PieceLemmas::stand_whole))]
    pub(crate) fn pieces(&self) -> &[Piece]
        ensures whole { bytes_of result.now ≡ self.now }
        ensures pieces { StandFor result.now (length self.now) }
    {
        self.pieces.as_slice()
    }

    /// What is left from a place on. Nothing, where the place lies inside a character or behind the
    /// end.
    #[tactic(auto, using(crate::proofs::PieceLemmas::rest_bytes, crate::proofs::PieceLemmas::rest_on, crate::proofs::PieceLemmas::rest_nowhere, crate::proofs::PieceLemmas::nothing_bytes, crate::proofs::PieceLemmas::nothing_on, crate::proofs::PieceLemmas::nothing_behind, crate::proofs::PieceLemmas::is_rest, crate::proofs::PieceLemmas::is_rest_of_all, crate::proofs::PieceLemmas::in_turn_of, crate::proofs::PieceLemmas::piece_within, crate::proofs::PieceLemmas::piece_begun))]
    pub fn rest_at(&self, place: u32) -> Option<Rest<'_>>
        ensures { MatchOption result (¬ (IsCharBoundary self.now place))
            (λ rest. (rest ≡ drop place self.now) × IsCharBoundary self.now place) }
    {
        let pieces = self.pieces();
        if pieces.is_empty() {
            return if place == 0 {
                Some(rest_of("", pieces))
            } else {
                None
            };
        }
        let at = piece_at(pieces, place);
        let piece = &pieces[at];
        let content = piece.text();
        let from = (place - piece.start) as usize;
        if !content.is_char_boundary(from) {
            return None;
        }
        let (_, head) = content.split_at(from);
        let (_, later) = pieces.split_at(at + 1);
        Some(rest_of(head, later))
    }

    /// Bytes from a place on, in one stretch of memory. There is one at least.
    #[tactic(auto, using(crate::proofs::PieceLemmas::stretch_some, crate::proofs::PieceLemmas::stretch_bytes, crate::proofs::PieceLemmas::stretch_inside, crate::proofs::PieceLemmas::some_pieces, crate::proofs::PieceLemmas::in_turn_of, crate::proofs::PieceLemmas::piece_within, crate::proofs::PieceLemmas::piece_begun, crate::proofs::PieceLemmas::piece_reaches))]
    pub(crate) fn stretch(&self, place: u32) -> &[u8]
        requires { place < length self.now }
        ensures some { 0 < length result.now }
        ensures within { place + length result.now ≤ length self.now }
        ensures bytes { result.now ≡ slice_range self.now place (place + length result.now) }
    {
        let pieces = self.pieces();
        let at = piece_at(pieces, place);
        let piece = &pieces[at];
        let (_, bytes) = piece
            .text()
            .as_bytes()
            .split_at((place - piece.start) as usize);
        bytes
    }

    /// The byte that follows a place.
    #[tactic(auto, using(crate::proofs::PlaceLemmas::first_byte))]
    pub fn byte(&self, place: u32) -> u8
        requires { place < length self.now }
        ensures { result ≡ slice_index self.now place }
    {
        self.stretch(place)[0]
    }

    /// Whether a place lies in the text or at an end of it, and not inside a character.
    pub fn is_boundary(&self, place: u32) -> bool
        ensures { IsTrue result ↔ IsCharBoundary self.now place }
    {
        self.rest_at(place).is_some()
    }

    /// The bytes from `start` up to `end`. They are copied where they do not stand in one stretch of
    /// memory.
    ///
    /// # Errors
    ///
    /// `AllocError` where memory for the copy runs out.
    #[tactic(auto, using(crate::proofs::PieceLemmas::boundary_of_rest))]
    pub fn slice(&self, alloc: Global, start: u32, end: u32) -> Result<Slice<'_>, AllocError>
        requires ordered { start ≤ end }
        requires from { IsCharBoundary self.now start }
        requires to { IsCharBoundary self.now end }
        ensures { IfOk result (λ slice. slice ≡ slice_range self.now start end) }
    {
        match self.rest_at(start) {
            Some(rest) => rest.first(alloc, (end - start) as usize),
            None => unreachable!(),
        }
    }

    /// The row and the column of a place, both counted from 0 and the column in bytes: how many
    /// newlines stand before the place, and how many bytes since the last of them.
    ///
    /// It reads the text up to the place. For many places that rise, a `PointWalk` reads it once in
    /// all.
    pub fn point(&self, place: u32) -> (u32, u32)
        requires { place ≤ length self.now }
        ensures { result ≡ point_of self.now place }
    {
        PointWalk::new(self).at(place)
    }
}

/// The number of the last piece that begins at a place or before it.
///
/// The piece that would be there, were all full, is tried first.
#[tactic(auto, using(crate::proofs::PieceLemmas::between_all, crate::proofs::PieceLemmas::between_end))]
pub(crate) fn piece_at(pieces: &[Piece], place: u32) -> usize
    requires some { 0 < length pieces.now }
    requires in_turn { AreInTurn pieces.now }
    ensures { IsPieceAt pieces.now place result }
{
    let guess = place as usize / PIECE;
    if is_at(pieces, guess, place) {
        return guess;
    }
    let mut low = 0;
    let mut high = pieces.len();
    while low + 1 < high {
        let (lower, upper) = nearer(pieces, place, low, high);
        low = lower;
        high = upper;
    }
    low
}

/// The half of some pieces in which that of a place is: the numbers from the first on, below the
/// second.
#[tactic(auto, using(crate::proofs::PieceLemmas::between_low, crate::proofs::PieceLemmas::between_high))]
fn nearer(pieces: &[Piece], place: u32, low: usize, high: usize) -> (usize, usize)
    requires in_turn { AreInTurn pieces.now }
    requires between { IsBetween pieces.now place low high }
    requires several { low + 1 < high }
    ensures between { IsBetween pieces.now place result.0 result.1 }
    ensures fewer { result.1 - result.0 < high - low }
{
    let middle = low + (high - low) / 2;
    if pieces[middle].start <= place {
        (middle, high)
    } else {
        (low, middle)
    }
}

/// Whether the piece of this number is the one of a place.
fn is_at(pieces: &[Piece], number: usize, place: u32) -> bool
    requires { AreInTurn pieces.now }
    ensures { result ≡ true → IsPieceAt pieces.now place number }
{
    number < pieces.len()
        && pieces[number].start <= place
        && (number + 1 == pieces.len() || place < pieces[number + 1].start)
}

/// The text of these characters, which are copied.
fn text_of(alloc: Global, content: &str) -> Result<Text, AllocError>
    requires { length content.now ≤ most_bytes }
    ensures { IfOk result (λ text. text ≡ content.now) }
{
    let mut writer = Writer::new(alloc, content.len() / PIECE + 1)?;
    writer.put(alloc, content)?;
    writer.text(alloc)
}

/// Whether two texts have the same bytes. They may be cut at different places.
#[tactic(auto, using(crate::proofs::PlaceLemmas::same_goes_on, crate::proofs::PlaceLemmas::same_all))]
fn are_same(one: &Text, other: &Text) -> bool
    ensures { IsTrue result ↔ (one.now ≡ other.now) }
{
    let length = one.len();
    if other.len() != length {
        return false;
    }
    let mut place = 0;
    while place < length {
        let Some(count) = same_at(one, other, place) else {
            return false;
        };
        place += count;
    }
    true
}

/// How many bytes from a place on two texts have in common, as far as they stand in one stretch of
/// each. Nothing, where they differ there.
#[tactic(auto, using(crate::proofs::PlaceLemmas::same_more, crate::proofs::PlaceLemmas::differ_there))]
fn same_at(one: &Text, other: &Text, place: u32) -> Option<u32>
    requires within { place < length one.now }
    requires other { place < length other.now }
    requires few { length one.now ≤ most_bytes }
    ensures { MatchOption result (¬ (one.now ≡ other.now)) (λ count. IsSameTo one.now other.now place count) }
{
    let bytes = one.stretch(place);
    let others = other.stretch(place);
    let count = bytes.len().min(others.len());
    let (bytes, _) = bytes.split_at(count);
    let (others, _) = others.split_at(count);
    if are_equal(bytes, others) {
        Some(count as u32)
    } else {
        None
    }
}

/// Whether these are the same bytes.
fn are_equal(bytes: &[u8], others: &[u8]) -> bool
    ensures { IsTrue result ↔ (bytes.now ≡ others.now) }
{
    bytes == others
}

impl PartialEq for Text {
    ghost use Rattle.std.specs.Str.{bytes_eq};
    ghost use Rattle.std.proofs.Common.{rules};
    ghost use Rattle.std.specs.Cmp.Rules.{comparing};

    ghost eq = { bytes_eq };

    ghost laws = { Prim.search (comparing, rules) };

    fn eq(&self, other: &Text) -> bool {
        are_same(self, other)
    }
}

impl Eq for Text {
    ghost use Rattle.std.proofs.Common.{rules};
    ghost use Rattle.std.specs.Cmp.Rules.{comparing};

    ghost laws = { Prim.search (comparing, rules) };
}

impl fmt::Debug for Text {
    fn fmt<W: fmt::Write>(&self, f: &mut fmt::Formatter<W>) -> fmt::Result {
        for piece in self.pieces() {
            f.write_str(piece.text())?;
        }
        Ok(())
    }
}

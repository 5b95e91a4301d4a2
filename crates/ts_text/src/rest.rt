//! What is left of a text from a place on, read piece by piece.
ghost use Rattle.std.specs.Prelude.{◌≡◌, ◌↔◌, ◌<◌, ◌++◌, [], length, drop, take, All, IfOk, IsTrue, string_bytes};
ghost use Rattle.std.specs.Str.{IsUtf8, IsCharBoundary};
ghost use Rattle.ts_text.specs.Pieces.{bytes_of, IsPiece, IsRest};

use crate::piece::Piece;
use crate::slice::Slice;
use std::alloc::{AllocError, Global};
use std::marker::Model;

/// What is left of a text from a place on, which contracts see as those bytes.
///
/// It is read by `split`: characters that stand in one stretch of memory, and the rest behind them.
#[derive(Drop)]
pub struct Rest<'t> {
    head: &'t str,
    later: &'t [Piece],
}

impl<'t> Model for Rest<'t> {
    ghost use Rattle.std.specs.Prelude.{◌++◌};
    ghost use Rattle.ts_base.specs.Bytes.{Bytes};
    ghost use Rattle.ts_text.specs.Pieces.{bytes_of, IsPiece, IsRest};

    ghost Value = { Bytes };

    ghost view = { λ rest. rest.head.now ++ bytes_of rest.later.now };

    ghost invariant = { λ rest. IsRest rest.head.now rest.later.now };
}

impl<'t> Rest<'t> {
    /// Whether nothing is left.
    #[inline(always)]
    #[tactic(auto, using(crate::proofs::PieceLemmas::nothing_left, crate::proofs::PieceLemmas::nothing_left_here, crate::proofs::PieceLemmas::nothing_left_behind))]
    pub fn is_empty(&self) -> bool
        ensures { IsTrue result ↔ (length self.now ≡ 0) }
    {
        self.head.is_empty() && self.later.is_empty()
    }

    /// The same rest once more. No byte is copied.
    #[inline(always)]
    #[tactic(auto, using(crate::proofs::PieceLemmas::rest_utf8))]
    pub fn copied(&self) -> Rest<'t>
        ensures same { result ≡ self.now }
        ensures utf8 { IsUtf8 result }
    {
        Rest {
            head: self.head,
            later: self.later,
        }
    }

    /// The characters that come first, in one stretch of memory, and the rest behind them. There
    /// are some where anything is left; how many is a matter of how the text is kept.
    #[inline(always)]
    #[tactic(auto, using(crate::proofs::PieceLemmas::split_bytes, crate::proofs::PieceLemmas::split_some, crate::proofs::PieceLemmas::split_rest, crate::proofs::PieceLemmas::split_utf8, crate::proofs::PieceLemmas::same_rest, crate::proofs::PieceLemmas::same_utf8, crate::proofs::PieceLemmas::each_of, crate::proofs::PieceLemmas::head_some))]
    pub fn split(&self) -> (&'t str, Rest<'t>)
        ensures whole { result.0.now ++ result.1 ≡ self.now }
        ensures some { 0 < length self.now → 0 < length result.0.now }
        ensures utf8 { IsUtf8 result.1 }
    {
        if self.head.is_empty() {
            let (first, later) = opened(self.later);
            return (first, Rest { head: "", later });
        }
        let behind = Rest {
            head: "",
            later: self.later,
        };
        (self.head, behind)
    }

    /// What is left behind so many bytes.
    #[tactic(auto, using(crate::proofs::PieceLemmas::past_all, crate::proofs::PieceLemmas::past_some, crate::proofs::PieceLemmas::past_more, crate::proofs::PieceLemmas::past_fewer, crate::proofs::PieceLemmas::past_here, crate::proofs::PieceLemmas::past_rest, crate::proofs::PieceLemmas::past_bytes, crate::proofs::PieceLemmas::past_utf8))]
    pub fn past(&self, count: usize) -> Rest<'t>
        requires { IsCharBoundary self.now count }
        ensures rest { result ≡ drop count self.now }
        ensures utf8 { IsUtf8 result }
    {
        let mut head = self.head;
        let mut later = self.later;
        let mut count = count;
        while count > head.len() {
            count -= head.len();
            head = later[0].text();
            let (_, others) = later.split_at(1);
            later = others;
        }
        let (_, head) = head.split_at(count);
        Rest { head, later }
    }

    /// The first so many bytes. They are copied where they do not stand in one stretch.
    #[tactic(auto, using(crate::proofs::PieceLemmas::first_on, crate::proofs::PieceLemmas::first_bytes))]
    pub(crate) fn first(&self, alloc: Global, count: usize) -> Result<Slice<'t>, AllocError>
        requires { IsCharBoundary self.now count }
        ensures { IfOk result (λ slice. slice ≡ take count self.now) }
    {
        if count <= self.head.len() {
            let (first, _) = self.head.split_at(count);
            return Ok(Slice::lent(first));
        }
        Ok(Slice::made(joined(alloc, self, count)?))
    }
}

/// A part of a piece from a place in it on, and the pieces behind it.
pub(crate) fn rest_of<'t>(head: &'t str, later: &'t [Piece]) -> Rest<'t>
    requires { IsRest head.now later.now }
    ensures { result ≡ head.now ++ bytes_of later.now }
{
    Rest { head, later }
}

/// The characters of the first piece, and the pieces behind it. Both are empty, where there is none.
#[inline(always)]
#[tactic(auto, using(crate::proofs::PieceLemmas::opened_bytes, crate::proofs::PieceLemmas::opened_some, crate::proofs::PieceLemmas::opened_each, crate::proofs::PieceLemmas::opened_none))]
fn opened(pieces: &[Piece]) -> (&str, &[Piece])
    requires { All IsPiece pieces.now }
    ensures whole { result.0.now ++ bytes_of result.1.now ≡ bytes_of pieces.now }
    ensures some { 0 < length (bytes_of pieces.now) → 0 < length result.0.now }
    ensures each { All IsPiece result.1.now }
{
    if pieces.is_empty() {
        return ("", pieces);
    }
    let (_, later) = pieces.split_at(1);
    (pieces[0].text(), later)
}

/// The first so many bytes of a rest, in a string.
#[tactic(auto, using(crate::proofs::PieceLemmas::joined_none, crate::proofs::PieceLemmas::joined_on, crate::proofs::PieceLemmas::joined_goes_on, crate::proofs::PieceLemmas::joined_more, crate::proofs::PieceLemmas::joined_all))]
fn joined(alloc: Global, rest: &Rest<'_>, count: usize) -> Result<String, AllocError>
    requires { IsCharBoundary rest.now count }
    ensures { IfOk result (λ made. string_bytes made ≡ take count rest.now) }
{
    let mut made = String::with_capacity(alloc, count)?;
    let mut left = rest.copied();
    let mut wanting = count;
    while wanting > 0 {
        let (head, later) = left.split();
        let now = wanting.min(head.len());
        let (first, _) = head.split_at(now);
        made.push_str(first)?;
        wanting -= now;
        left = later;
    }
    Ok(made)
}

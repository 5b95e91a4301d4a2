//! Rows and columns: places of a text come in, and the row and the column of each come out.
ghost use Rattle.std.specs.Prelude.{◌≡◌, ◌≤◌, ◌<◌, ◌+◌, length, cond};
ghost use Rattle.ts_text.specs.Point.{point_of, is_newline, last_place};

use crate::text::Text;
use std::marker::Model;

/// The byte that ends a row.
const NEWLINE: u8 = b'\n';

/// A walk over the places of a text, which gives the row and the column of each. Contracts see it
/// as the text.
///
/// It remembers the last place, and reads from there. So places that never fall take one reading of
/// the text in all, and a place below the last one a reading from the start. It takes no memory.
#[derive(Debug, Drop)]
pub struct PointWalk<'a> {
    text: &'a Text,
    place: u32,
    row: u32,
    column: u32,
}

impl<'a> Model for PointWalk<'a> {
    ghost use Rattle.ts_base.specs.Bytes.{Bytes};
    ghost use Rattle.ts_text.specs.Point.{IsWalk};

    ghost Value = { Bytes };

    ghost view = { λ walk. walk.text.now };

    ghost invariant = { λ walk. IsWalk walk.text.now walk.place walk.row walk.column };
}

impl<'a> PointWalk<'a> {
    /// A walk that stands at the start of a text.
    pub fn new(text: &'a Text) -> PointWalk<'a>
        ensures { result ≡ text.now }
    {
        PointWalk {
            text,
            place: 0,
            row: 0,
            column: 0,
        }
    }

    /// The row and the column of a place, as `Text::point` gives them. The walk goes to that place.
    pub fn at(&mut self, place: u32) -> (u32, u32)
        requires { place ≤ length self.old }
        ensures point { result ≡ point_of self.old place }
        ensures same { self.new ≡ self.old }
    {
        let (row, column) = if place < self.place {
            advance(self.text, 0, place, (0, 0))
        } else {
            advance(self.text, self.place, place, (self.row, self.column))
        };
        self.place = place;
        self.row = row;
        self.column = column;
        (row, column)
    }
}

/// The point of `to`, where that of `from` is known.
#[tactic(auto, using(crate::proofs::PointLemmas::row_of_within, crate::proofs::PointLemmas::column_of_within, crate::proofs::PointLemmas::point_of_byte, crate::proofs::PointLemmas::point_here))]
fn advance(text: &Text, from: u32, to: u32, point: (u32, u32)) -> (u32, u32)
    requires rises { from ≤ to }
    requires within { to ≤ length text.now }
    requires point { point ≡ point_of text.now from }
    ensures { result ≡ point_of text.now to }
{
    let mut at = point;
    let mut place = from;
    while place < to {
        let bytes = text.stretch(place);
        let count = bytes.len().min((to - place) as usize);
        for k in 0..count {
            at = next_point(at, bytes[k]);
        }
        place += count as u32;
    }
    at
}

/// The point after a byte.
fn next_point(point: (u32, u32), byte: u8) -> (u32, u32)
    requires row { point.0 < last_place }
    requires column { point.1 < last_place }
    ensures row { result.0 ≡ cond (is_newline byte) (point.0 + 1) point.0 }
    ensures column { result.1 ≡ cond (is_newline byte) 0 (point.1 + 1) }
{
    let (row, column) = point;
    if byte == NEWLINE {
        (row + 1, 0)
    } else {
        (row, column + 1)
    }
}

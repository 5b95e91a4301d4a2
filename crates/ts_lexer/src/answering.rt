//! What was found behind the separators of a place in; the answer at that place out.
ghost use Rattle.std.specs.Prelude.{◌≡◌, ◌+◌, ◌≤◌, ◌<◌, ◌^◌, ℕ, length};
ghost use Rattle.ts_core.specs.declared.flat.FlatGrammar.{FlatGrammar as AnyGrammar};
ghost use Rattle.std.specs.Prelude.{List, drop, IsTrue, ◌↔◌, true, IfSome};
ghost use Rattle.std.specs.List.{prefix_len};
ghost use Rattle.std.specs.Str.{IsCharBoundary, IsUtf8};
ghost use Rattle.ts_core.specs.declared.symbol.Symbol.{Symbol as AnySymbol};
ghost use Rattle.ts_automata.specs.Walks.{walk_room};
ghost use Rattle.spec_lexing.specs.Seen.{is_inner as inner_byte};
ghost use Rattle.ts_lexer.specs.Passed.{IsWithinText, found_by};
ghost use Rattle.ts_lexer.specs.Answers.{IsLexedAnswer, SaysFound, extent_of};
ghost use Rattle.ts_lexer.specs.Ways.{HasRowsOn, IsReadyFor};

use crate::ahead::RowPair;
use crate::lexed::Lexed;
use crate::passing::{Passed, pass};
use crate::view::View;
use crate::ways::Way;
use crate::within::pass_within;
use ts_automata::Walk;
use ts_core::Symbol;
use ts_text::Text;

/// How many bytes were looked at.
pub(crate) fn extent(lexed: &Lexed) -> u32
    ensures { result ≡ extent_of lexed.now }
{
    match lexed {
        Lexed::Token { extent, .. } => *extent,
        Lexed::Absent { extent, .. } => *extent,
    }
}

/// Whether a byte goes on with a character.
fn goes_on(byte: u8) -> bool
    ensures { result ≡ inner_byte byte }
{
    128 <= byte && byte < 192
}

/// How many bytes there are from a place on up to the next that begins a character.
fn inner_bytes(text: &Text, place: u32) -> u32
    requires { place ≤ length text.now }
    ensures { result ≡ prefix_len inner_byte (drop place text.now) }
{
    for end in place..text.len() {
        if !goes_on(text.byte(end)) {
            return end - place;
        }
    }
    text.len() - place
}

/// The answer that says what was found behind the separators.
fn told(passed: &Passed, place: u32, size: u32) -> Lexed
    requires within { IsWithinText size passed.now }
    requires small { place + size ≤ 2 ^ 31 }
    ensures says { SaysFound place result (found_by passed.now.found passed.now.pad) }
    ensures extent { extent_of result ≡ passed.now.extent }
{
    let extent = passed.extent as u32;
    let pad = passed.pad as u32;
    match passed.found {
        Some(found) => Lexed::Token {
            token: found.symbol,
            pad,
            size: found.size as u32,
            extent,
        },
        None => Lexed::Absent {
            place: place + pad,
            extent,
        },
    }
}

/// The answer at a place inside a character.
fn inside(text: &Text, place: u32) -> Lexed
    requires within { place ≤ length text.now }
    requires inner { IsCharBoundary text.now place → ⊥ }
    ensures utf8 { IsUtf8 text.now }
    ensures answer { (g : AnyGrammar) (valid : List AnySymbol)
        → IsLexedAnswer g valid text.now place result }
{
    let _ = text.len();
    Lexed::Absent {
        place,
        extent: inner_bytes(text, place),
    }
}

/// The answer at a place, if there are rows for the valid tokens, and the piece of the text in which
/// the place lies has all that is looked at.
#[inline(always)]
pub(crate) fn answer_within(
    way: &Way,
    pair: Option<RowPair>,
    text: &Text,
    place: u32,
) -> Option<Lexed>
    requires within { place ≤ length text.now }
    requires ready { (g : AnyGrammar) × (valid : List AnySymbol) × HasRowsOn g valid way.now pair }
    ensures utf8 { IsUtf8 text.now }
    ensures answer { (g : AnyGrammar) (valid : List AnySymbol) → HasRowsOn g valid way.now pair
        → IfSome result (IsLexedAnswer g valid text.now place) }
{
    let size = text.len() - place;
    let Way::Tables(tables) = way else {
        return None;
    };
    let Some(pair) = pair else {
        return None;
    };
    let Some(rest) = text.rest_at(place) else {
        return None;
    };
    let (piece, _) = rest.split();
    let Some(passed) = pass_within(tables, pair, piece) else {
        return None;
    };
    Some(told(&passed, place, size))
}

/// The answer at a place.
pub(crate) fn answer_at(
    way: &Way,
    pair: Option<RowPair>,
    view: &View,
    walk: &mut Walk,
    text: &Text,
    place: u32,
    valid: &[Symbol],
) -> Lexed
    requires within { place ≤ length text.now }
    requires ready { (g : AnyGrammar)
        × IsReadyFor g valid.now way.now view.now pair (walk_room walk.old) }
    ensures room { walk_room walk.new ≡ walk_room walk.old }
    ensures utf8 { IsUtf8 text.now }
    ensures answer { (g : AnyGrammar)
        → IsReadyFor g valid.now way.now view.now pair (walk_room walk.old)
        → IsLexedAnswer g valid.now text.now place result }
{
    let size = text.len() - place;
    let Some(rest) = text.rest_at(place) else {
        return inside(text, place);
    };
    let passed = pass(way, pair, view, walk, &rest, valid);
    told(&passed, place, size)
}

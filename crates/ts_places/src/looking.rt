//! Looks at the heads of a place: the heads go in, and what each of them sees comes out, a token or
//! the place at which it stops.
ghost use Rattle.std.specs.Prelude.{◌≡◌, ℕ, ◌<◌, ◌++◌, List, length, slice_get, Some, IsTrue, IfSome, OnOk};
ghost use Rattle.ts_table.specs.Tables.{actions_of};
ghost use Rattle.ts_reductions.specs.declared.top.Top.{Top as AnyTop};
ghost use Rattle.ts_reductions.specs.Again.{AreLed};
ghost use Rattle.ts_reductions.specs.Asking.{AreTops};
ghost use Rattle.ts_reductions.specs.Sound.{IsSoundOver};
ghost use Rattle.ts_places.specs.Looking.{IsHeadAt, AllStandAt, HasAllAt, AreHeadsAt, SeesThere, AreSights, HasSight, IsSeenAgain, AddsSight};

use crate::shift_laws::look_laws_hold;
use crate::sights::{Sights, Span};
use std::alloc::AllocError;
use ts_core::Symbol;
use ts_graph::Graph;
use ts_lexer::{Lexed, Tokens};
use ts_reductions::{Room, Top};
use ts_table::Table;

/// Puts the heads that stand at a place, by their numbers, of those from a number on, into a list in
/// the place of others: all of them from 0 on, and those that came since there were so many heads.
///
/// # Errors
///
/// `AllocError` where memory runs out.
pub(crate) fn heads_at(
    graph: &Graph,
    from: usize,
    place: u32,
    heads: &mut Vec<usize>,
) -> Result<(), AllocError>
    ensures { OnOk result (AreHeadsAt graph.now from place heads.new.items) }
{
    heads.clear();
    for number in from..graph.count() {
        if graph.head(number).place != place {
            continue;
        }
        heads.push(number)?;
    }
    Ok(())
}

/// What is lexed where a head stands, among the tokens that are valid in its state.
fn look<L: Tokens>(
    table: &Table,
    lexer: &mut L,
    text: &L::Text,
    graph: &Graph,
    number: usize,
) -> Lexed
    requires made { L.made_for lexer.old table.now }
    requires sound { IsSoundOver table.now (L.Text.bytes text.now) graph.now }
    requires there { (look : ℕ) × IsHeadAt graph.now look number }
    ensures made { L.made_for lexer.new table.now }
    ensures sees { (look : ℕ) → IsHeadAt graph.now look number
        → SeesThere table.now (L.Text.bytes text.now) graph.now look number result }
{
    look_laws_hold();
    table.stands();
    let head = graph.head(number);
    lexer.lex(text, head.place, head.state)
}

/// Whether two tops are the same.
fn is_same(one: Top, other: Top) -> bool
    ensures { IsTrue result → one ≡ other }
{
    one == other
}

/// The top of a number.
fn top_at(tops: &[Top], number: usize) -> Top
    requires { number < length tops.now }
    ensures { slice_get tops.now number ≡ Some result }
{
    tops[number]
}

/// The bytes of the token of a number.
fn span_at(spans: &[Span], number: usize) -> Span
    requires { number < length spans.now }
    ensures { slice_get spans.now number ≡ Some result }
{
    spans[number]
}

/// Whether some action stays on a token.
fn some_acts(table: &Table, state: u16, token: Symbol) -> bool
    ensures { IsTrue result → 0 < length (actions_of table.now state token.0) }
{
    !table.actions(state, token).is_empty()
}

/// The bytes of the token of a top, if the top is one of those that are seen.
fn span_of(sights: &Sights, top: Top) -> Option<Span>
    requires { length sights.now.tops.items ≡ length sights.now.spans.items }
    ensures { IfSome result (HasSight sights.now top) }
{
    let tops = sights.tops.as_slice();
    let spans = sights.spans.as_slice();
    for k in 0..tops.len() {
        if is_same(top_at(tops, k), top) {
            return Some(span_at(spans, k));
        }
    }
    None
}

/// What a head sees behind a reduction: the token on which that stayed, if an action stays on it
/// here too.
fn seen_again(
    table: &Table,
    graph: &Graph,
    room: &Room,
    sights: &Sights,
    number: usize,
) -> Option<Lexed>
    requires there { (look : ℕ) × IsHeadAt graph.now look number }
    requires count { length sights.now.tops.items ≡ length sights.now.spans.items }
    ensures { IfSome result (IsSeenAgain table.now graph.now room.now sights.now number) }
{
    let state = graph.head(number).state;
    let Some(top) = room.led_to(state) else {
        return None;
    };
    if !some_acts(table, state, top.token) {
        return None;
    }
    match span_of(sights, top) {
        Some(span) => Some(Lexed::Token {
            token: top.token,
            pad: span.pad,
            size: span.size,
            extent: top.ahead,
        }),
        None => None,
    }
}

/// What a head sees: the token before a reduction, or what is lexed there.
fn look_once<L: Tokens>(
    table: &Table,
    lexer: &mut L,
    text: &L::Text,
    graph: &Graph,
    room: &Room,
    sights: &Sights,
    number: usize,
) -> Lexed
    requires made { L.made_for lexer.old table.now }
    requires sound { IsSoundOver table.now (L.Text.bytes text.now) graph.now }
    requires there { (look : ℕ) × IsHeadAt graph.now look number }
    requires count { length sights.now.tops.items ≡ length sights.now.spans.items }
    ensures made { L.made_for lexer.new table.now }
    ensures sees { (look : ℕ) (before : List ℕ) → IsHeadAt graph.now look number
        → AreSights table.now (L.Text.bytes text.now) graph.now look before sights.now
        → AreLed table.now (L.Text.bytes text.now) graph.now sights.now.tops.items room.now
        → SeesThere table.now (L.Text.bytes text.now) graph.now look number result }
{
    table.stands();
    match seen_again(table, graph, room, sights, number) {
        Some(lexed) => lexed,
        None => look(table, lexer, text, graph, number),
    }
}

/// Puts what a head sees to what others see.
fn add(number: usize, lexed: Lexed, sights: &mut Sights) -> Result<(), AllocError>
    ensures { OnOk result (AddsSight number lexed sights.old sights.new) }
{
    match lexed {
        Lexed::Token {
            token,
            pad,
            size,
            extent,
        } => {
            sights.tops.push(Top {
                head: number,
                token,
                ahead: extent,
            })?;
            sights.spans.push(Span { pad, size })?;
        }
        Lexed::Absent { place, extent: _ } => {
            sights.stop = Some(match sights.stop {
                Some(last) => last.max(place),
                None => place,
            });
        }
    }
    Ok(())
}

/// Looks at heads that stand at one place, and puts what they see to what others there see. The room
/// tells on which of the tokens there reductions stayed that led to these heads.
///
/// # Errors
///
/// `AllocError` where memory runs out. Some of it may be there then.
pub(crate) fn look_all<L: Tokens>(
    table: &Table,
    lexer: &mut L,
    text: &L::Text,
    graph: &Graph,
    numbers: &[usize],
    room: &Room,
    sights: &mut Sights,
) -> Result<(), AllocError>
    requires made { L.made_for lexer.old table.now }
    requires sound { IsSoundOver table.now (L.Text.bytes text.now) graph.now }
    requires stand { (look : ℕ) × AllStandAt graph.now look numbers.now }
    requires count { length sights.old.tops.items ≡ length sights.old.spans.items }
    ensures made { L.made_for lexer.new table.now }
    ensures more { OnOk result ((more : List AnyTop)
        × (sights.new.tops.items ≡ sights.old.tops.items ++ more)) }
    ensures sights { OnOk result ((look : ℕ) (before : List ℕ)
        → AllStandAt graph.now look numbers.now
        → AreSights table.now (L.Text.bytes text.now) graph.now look before sights.old
        → AreLed table.now (L.Text.bytes text.now) graph.now sights.old.tops.items room.now
        → AreSights table.now (L.Text.bytes text.now) graph.now look (before ++ numbers.now)
        sights.new) }
    ensures tops { OnOk result ((look : ℕ) (before : List ℕ)
        → AllStandAt graph.now look numbers.now
        → AreSights table.now (L.Text.bytes text.now) graph.now look before sights.old
        → AreLed table.now (L.Text.bytes text.now) graph.now sights.old.tops.items room.now
        → HasAllAt graph.now look (before ++ numbers.now)
        → AreTops table.now (L.Text.bytes text.now) graph.now look sights.new.tops.items) }
{
    look_laws_hold();
    for number in numbers {
        let lexed = look_once(table, lexer, text, graph, room, sights, *number);
        add(*number, lexed, sights)?;
    }
    Ok(())
}

//! What a stack sees: the lexer, the text and the head go in; the token that is found there,
//! or the place where none is, comes out.
ghost use Rattle.std.specs.Prelude.{◌≡◌, ◌+◌, ◌-◌, ◌^◌, min, length};
ghost use Rattle.ts_lexer.specs.Answers.{extent_of};
ghost use Rattle.ts_steps.specs.Heads.{IsOwnHead};
ghost use Rattle.ts_steps.specs.Looking.{SeesAhead, IsExtentAhead};

use crate::head::StackHead;
use crate::laws::{laws_hold, sound_laws_hold};
use ts_gss::Graph;
use ts_lexer::{Lexed, Tokens};
use ts_table::Table;

/// What is lexed where a stack stands, among the tokens that are valid in its state. The bytes that
/// were examined decide it: wherever the same bytes stand, it is the same.
pub fn look<L: Tokens>(
    table: &Table,
    lexer: &mut L,
    text: &L::Text,
    graph: &Graph,
    head: StackHead,
) -> Lexed
    requires made { L.made_for lexer.old table.now }
    requires live { IsOwnHead table.now (length (L.Text.bytes text.now)) graph.now head }
    ensures made { L.made_for lexer.new table.now }
    ensures sees { SeesAhead table.now (L.Text.bytes text.now) graph.now head result }
    ensures seen { IsExtentAhead table.now (L.Text.bytes text.now) graph.now head
        (extent_of result) }
    ensures examined { L.examined lexer.new ≡ min (L.examined lexer.old + extent_of result)
        (2 ^ 64 - 1) }
{
    laws_hold();
    sound_laws_hold();
    table.stands();
    lexer.lex(text, head.place, graph.state(head.top))
}

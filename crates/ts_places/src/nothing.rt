//! Whether a text has nothing but extras before a token on which a reduction over nothing stays:
//! the table and the text go in, and the answer comes out. On all other texts no reduction over
//! nothing stays anywhere.
ghost use Rattle.std.specs.Prelude.{◌↔◌, ℕ, ◌≤◌, length, IsTrue};
ghost use Rattle.ts_table.specs.declared.view.ParseTable.{ParseTable};
ghost use Rattle.ts_table.specs.Tables.{actions_of};
ghost use Rattle.ts_reductions.specs.Lines.{IsSetting};
ghost use Rattle.ts_places.specs.Nothing.{HasProductions, IsOverNothing, SomeIsOverNothing, IsOfNothing, SeesAtFirst};

use crate::laws::move_laws_hold;
use crate::shift_laws::{leaf_laws_hold, look_laws_hold};
use ts_core::{Action, Symbol};
use ts_lexer::{Lexed, Tokens};
use ts_reductions::Setting;
use ts_table::Table;

/// Whether an action is a reduction over nothing.
fn is_over_nothing(setting: &Setting, action: Action) -> bool
    requires { (t : ParseTable) × (size : ℕ) × IsSetting t size setting.now
        × HasProductions t action }
    ensures { (t : ParseTable) (size : ℕ) → IsSetting t size setting.now
        → HasProductions t action → IsTrue result ↔ IsOverNothing t action }
{
    match action {
        Action::Reduce(number) => setting.wanted(number).steps == 0,
        Action::Shift(_) => false,
        Action::Accept => false,
    }
}

/// Whether a reduction over nothing stays on a token where nothing was read.
fn some_is_over_nothing(table: &Table, setting: &Setting, token: Symbol) -> bool
    requires { (size : ℕ) × IsSetting table.now size setting.now }
    ensures { IsTrue result ↔ SomeIsOverNothing table.now (actions_of table.now 0 token.0) }
{
    move_laws_hold();
    table.stands();
    for action in table.actions(0, token) {
        if is_over_nothing(setting, *action) {
            return true;
        }
    }
    false
}

/// What is seen at a place where nothing was read but extras.
fn look_first<L: Tokens>(table: &Table, lexer: &mut L, text: &L::Text, place: u32) -> Lexed
    requires made { L.made_for lexer.old table.now }
    requires within { place ≤ length (L.Text.bytes text.now) }
    ensures made { L.made_for lexer.new table.now }
    ensures sees { SeesAtFirst table.now (L.Text.bytes text.now) place result }
{
    look_laws_hold();
    table.stands();
    lexer.lex(text, place, 0)
}

/// Whether a text has nothing but extras before a token on which a reduction over nothing stays.
pub fn is_of_nothing<L: Tokens>(
    table: &Table,
    setting: &Setting,
    lexer: &mut L,
    text: &L::Text,
) -> bool
    requires made { L.made_for lexer.old table.now }
    requires setting { IsSetting table.now (length (L.Text.bytes text.now)) setting.now }
    ensures made { L.made_for lexer.new table.now }
    ensures is { IsTrue result ↔ IsOfNothing table.now (L.Text.bytes text.now) }
{
    look_laws_hold();
    leaf_laws_hold();
    table.stands();
    let mut place = 0;
    loop {
        match look_first(table, lexer, text, place) {
            Lexed::Absent {
                place: _,
                extent: _,
            } => return false,
            Lexed::Token {
                token,
                pad,
                size,
                extent: _,
            } => {
                let actions = table.actions(0, token);
                if !actions.is_empty() {
                    return some_is_over_nothing(table, setting, token);
                }
                place += pad + size;
            }
        }
    }
}

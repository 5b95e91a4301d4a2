//! Following all ways to read a text from a stack on at which several moves stay, on the graph of
//! stacks: the stack goes in; the one that is left comes out, or what the text comes to.
ghost use Rattle.std.specs.Prelude.{◌≡◌, ◌<◌, ◌≤◌, false, length, None, IfOk, IfSome, OnOk};
ghost use Rattle.spec_trees.specs.Made.{most_span};
ghost use Rattle.spec_forced.specs.OnlyRuns.{IsFork};
ghost use Rattle.ts_gss.specs.Stacks.{IsOneStack};
ghost use Rattle.ts_steps.specs.LiveHeads.{config_of};
ghost use Rattle.ts_steps.specs.Settings.{IsParseSetting};
ghost use Rattle.ts_steps.specs.Heads.{IsOwnHead};
ghost use Rattle.ts_reductions.specs.Lines.{IsSetting};
ghost use Rattle.ts_glr.specs.Forks.{ComesTo};
ghost use Rattle.ts_glr.specs.Spreading.{IsOfSomeFrom};

use crate::crossing::{Crossed, cross};
use crate::nothing::follow_each;
use crate::spread::Spread;
use std::alloc::{AllocError, Global};
use std::mem::replace;
use ts_gss::Graph as Stacks;
use ts_lexer::Tokens;
use ts_places::is_of_nothing;
use ts_reductions::{Setting, setting_of};
use ts_steps::{ParseSetting, StackHead};
use ts_table::Table;

/// What stays the same on the graph of stacks, which is made where there is none yet.
fn take_setting(
    alloc: Global,
    table: &Table,
    kept: &mut Option<Setting>,
    size: u32,
) -> Result<Setting, AllocError>
    requires short { size ≤ most_span }
    requires kept { IfSome kept.old (IsSetting table.now size) }
    ensures setting { IfOk result (IsSetting table.now size) }
    ensures taken { kept.new ≡ None }
{
    match kept.take() {
        Some(setting) => Ok(setting),
        None => {
            let setting = setting_of(alloc, table, size)?;
            Ok(setting)
        }
    }
}

/// Whether extras alone lie on a stack, and the text has nothing but extras before a token on which
/// a reduction over nothing stays.
fn is_nothing<L: Tokens>(
    table: &Table,
    setting: &Setting,
    lexer: &mut L,
    text: &L::Text,
    stacks: &Stacks,
    start: StackHead,
) -> bool
    requires made { L.made_for lexer.old table.now }
    requires setting { IsSetting table.now (length (L.Text.bytes text.now)) setting.now }
    requires there { start.top < length stacks.now }
    ensures made { L.made_for lexer.new table.now }
    ensures some { result ≡ false
        → IsOfSomeFrom table.now (L.Text.bytes text.now) stacks.now start }
{
    if stacks.state(start.top) != 0 {
        return false;
    }
    is_of_nothing(table, setting, lexer, text)
}

/// Follows all ways to read a text from a stack on, on whose token several moves stay, until one
/// stack is left, before any tree is accepted, or there is none. This is the greatest place at
/// which one stopped before.
pub(crate) fn follow_fork<L: Tokens>(
    alloc: Global,
    table: &Table,
    setting: &ParseSetting,
    lexer: &mut L,
    text: &L::Text,
    stacks: &mut Stacks,
    start: StackHead,
    before: Option<u32>,
    kept: &mut Option<Setting>,
    spread: &mut Spread,
) -> Result<Crossed, AllocError>
    requires made { L.made_for lexer.old table.now }
    requires setting { IsParseSetting table.now (length (L.Text.bytes text.now)) setting.now }
    requires own { IsOwnHead table.now (length (L.Text.bytes text.now)) stacks.old start }
    requires fork { IsFork table.now.grammar (L.Text.bytes text.now) (config_of stacks.old start) }
    requires one { IsOneStack stacks.old start.top }
    requires kept { IfSome kept.old (IsSetting table.now (length (L.Text.bytes text.now))) }
    ensures made { L.made_for lexer.new table.now }
    ensures comes { IfOk result (ComesTo table.now (L.Text.bytes text.now) stacks.old before
        start) }
    ensures kept { OnOk result (IfSome kept.new
        (IsSetting table.now (length (L.Text.bytes text.now)))) }
{
    let lines = take_setting(alloc, table, kept, setting.size)?;
    if is_nothing(table, &lines, lexer, text, stacks, start) {
        let outcome = follow_each(alloc, table, setting, lexer, text)?;
        return Ok(Crossed::Told(outcome));
    }
    let own = replace(stacks, Stacks::new(alloc));
    let crossed = cross(
        alloc, table, &lines, lexer, text, own, start, before, spread,
    )?;
    *kept = Some(lines);
    Ok(crossed)
}

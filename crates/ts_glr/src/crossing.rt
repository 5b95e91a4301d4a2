//! Following all ways to read a text on the graph of stacks, from a stack on at which several moves
//! stay: the stack goes in; the one that is left comes out, or what the text comes to.
ghost use Rattle.std.specs.Prelude.{◌≡◌, ℕ, ◌<◌, ◌≤◌, ◌∷◌, [], true, List, length, None, IfOk, IfSome, OnOk};
ghost use Rattle.ts_base.specs.Bytes.{Bytes};
ghost use Rattle.spec_trees.specs.Made.{most_span};
ghost use Rattle.spec_forced.specs.OnlyRuns.{IsFork};
ghost use Rattle.spec_graph.specs.Laying.{Parsing};
ghost use Rattle.ts_table.specs.declared.view.ParseTable.{ParseTable};
ghost use Rattle.ts_gss.specs.declared.layer.Layer.{Layer};
ghost use Rattle.ts_gss.specs.Stacks.{IsOneStack};
ghost use Rattle.ts_reductions.specs.SoundLinks.{IsSoundFor};
ghost use Rattle.ts_steps.specs.declared.head.StackHead.{StackHead as AnyHead};
ghost use Rattle.ts_steps.specs.LiveHeads.{config_of};
ghost use Rattle.ts_steps.specs.Heads.{IsOwnHead};
ghost use Rattle.ts_reductions.specs.declared.setting.Setting.{Setting as AnySetting};
ghost use Rattle.ts_reductions.specs.Lines.{IsSetting};
ghost use Rattle.ts_crossing.specs.Entering.{CanEnter};
ghost use Rattle.ts_crossing.specs.Leaving.{IsStack, IsLeft};
ghost use Rattle.ts_glr.specs.Forks.{ComesTo};
ghost use Rattle.ts_glr.specs.Spreading.{IsOfSomeFrom, IsSpread, IsSpreadOut, StaysSpread, GoesBackTo, IsSpreadFor, IsLeftOf, AsksFor};

use crate::choosing::further;
use crate::laws::{left_laws_hold, over_laws_hold, packing_laws_hold};
use crate::outcome::Outcome;
use crate::spread::{Passed, Spread};
use std::alloc::{AllocError, Global};
use ts_crossing::{Left, leave, one_stack, own_stacks_enter};
use ts_gss::Graph as Stacks;
use ts_lexer::Tokens;
use ts_places::best_of;
use ts_reductions::Setting;
use ts_steps::StackHead;
use ts_table::{Table, unit_ranks};

/// What following all ways on the graph came to.
#[derive(Drop)]
pub(crate) enum Crossed {
    /// One stack is left, before any tree is accepted; and the greatest place at which one stopped.
    One(Left, Option<u32>),
    Told(Outcome),
}

/// What asking for one stack that is left came to.
#[derive(Drop)]
pub(crate) enum Asked {
    /// Several heads wait, or the one is not far enough, or some tree was accepted.
    Waits,
    /// Several ways lead down from the one head that waits.
    Fails,
    Leaves(Left),
}

/// Whether one head waits alone, past a place, and no tree was accepted.
fn is_alone(spread: &Spread, from: u32) -> bool
    ensures one { result ≡ true → length spread.now.frontier.heads.items ≡ 1 }
    ensures none { result ≡ true → spread.now.ends.accepting.items ≡ [] }
    ensures past { result ≡ true → from < spread.now.place }
{
    spread.frontier.heads.len() == 1 && spread.ends.accepting.is_empty() && spread.place > from
}

/// The head that waits alone.
fn alone(spread: &Spread, from: u32) -> Option<usize>
    ensures { IfSome result (λ head. (spread.now.frontier.heads.items ≡ head ∷ [])
        × (spread.now.ends.accepting.items ≡ []) × (from < spread.now.place)) }
{
    if is_alone(spread, from) {
        Some(spread.frontier.heads[0])
    } else {
        None
    }
}

/// The stack of the only way down from a head. It is taken out of the graph.
fn left_at(alloc: Global, spread: &mut Spread, head: usize) -> Result<Option<Left>, AllocError>
    requires there { head < length spread.old.graph.heads }
    requires sound { (P : Parsing) × IsSoundFor P spread.old.graph }
    ensures left { IfOk result (λ o. IfSome o (λ left. (numbers : List ℕ) × (foot : ℕ)
        × (s : IsStack spread.old.graph head numbers foot)
        × IsLeft spread.old.graph head s.way left.stacks left.head)) }
    ensures stays { IfOk result (λ o. o ≡ None → StaysSpread spread.old spread.new) }
    ensures ends { spread.new.ends ≡ spread.old.ends }
{
    match one_stack(&spread.graph, head, &mut spread.numbers)? {
        None => Ok(None),
        Some(foot) => {
            let links = spread.numbers.as_slice();
            let left = leave(alloc, &mut spread.graph, head, links, foot)?;
            Ok(Some(left))
        }
    }
}

/// The one stack that is left past a place, if it is.
fn ask(alloc: Global, spread: &mut Spread, from: u32) -> Result<Asked, AllocError>
    requires { (t : ParseTable) × (text : Bytes) × (s : AnySetting) × (first : List (List Layer))
        × (h : AnyHead) × IsSpread t text s first h spread.old }
    ensures asks { IfOk result (AsksFor spread.old spread.new from) }
    ensures ends { spread.new.ends ≡ spread.old.ends }
{
    match alone(spread, from) {
        None => Ok(Asked::Waits),
        Some(head) => match left_at(alloc, spread, head)? {
            None => Ok(Asked::Fails),
            Some(left) => Ok(Asked::Leaves(left)),
        },
    }
}

/// How many links were walked in vain to ask for one stack that is left.
#[derive(Drop)]
struct Pace {
    walked: usize,
}

impl Pace {
    /// Whether one stack is asked for where so many heads were made.
    fn is_due(&self, made: usize) -> bool {
        self.walked <= made
    }

    /// So many links more were walked in vain.
    fn walk(&mut self, links: usize) {
        self.walked = self.walked.saturating_add(links).saturating_add(1);
    }
}

/// The one stack that is left past a place, if it is asked for behind this place: it is not where
/// more links were walked in vain than heads were made.
fn ask_in_turn(
    alloc: Global,
    spread: &mut Spread,
    from: u32,
    pace: &mut Pace,
) -> Result<Option<Left>, AllocError>
    requires { (t : ParseTable) × (text : Bytes) × (s : AnySetting) × (first : List (List Layer))
        × (h : AnyHead) × IsSpread t text s first h spread.old }
    ensures left { IfOk result (λ o. IfSome o (IsLeftOf spread.old from)) }
    ensures stays { IfOk result (λ o. o ≡ None → StaysSpread spread.old spread.new) }
    ensures ends { spread.new.ends ≡ spread.old.ends }
{
    let made = spread.graph.count().saturating_sub(spread.graph.base());
    if !pace.is_due(made) {
        return Ok(None);
    }
    match ask(alloc, spread, from)? {
        Asked::Waits => Ok(None),
        Asked::Fails => {
            pace.walk(spread.numbers.len());
            Ok(None)
        }
        Asked::Leaves(left) => Ok(Some(left)),
    }
}

/// The outcome once all ways were followed to the end of the text, which has so many bytes: the
/// best tree, or the greatest place at which one stopped. Some way always ends.
fn ending(
    alloc: Global,
    table: &Table,
    spread: &Spread,
    size: u32,
    before: Option<u32>,
) -> Result<Crossed, AllocError>
    requires { (text : Bytes) × (first : List (List Layer)) × (h : AnyHead)
        × IsSpreadOut table.now text first h spread.now × (size ≡ length text) }
    ensures { IfOk result (λ crossed. (text : Bytes) (stacks first : List (List Layer))
        (start h : AnyHead) → GoesBackTo table.now text stacks start first h
        → IsSpreadOut table.now text first h spread.now → size ≡ length text
        → ComesTo table.now text stacks before start crossed) }
{
    over_laws_hold();
    table.stands();
    let stuck = further(before, spread.ends.stuck);
    match best_of(alloc, &spread.graph, size, spread.ends.accepting.as_slice())? {
        Some(node) => Ok(Crossed::Told(Outcome::Accepted(node))),
        None => match stuck {
            Some(place) => Ok(Crossed::Told(Outcome::Stuck(place))),
            None => unreachable!(),
        },
    }
}

/// The graph of a stack. It begins at the start of the text where extras alone lie on the stack.
fn begin(
    alloc: Global,
    stacks: Stacks,
    start: StackHead,
    spread: &mut Spread,
) -> Result<(), AllocError>
    requires can { (t : ParseTable) × (text : Bytes) × CanEnter t text stacks start }
    requires one { IsOneStack stacks start.top }
    ensures { OnOk result ((t : ParseTable) (text : Bytes) (s : AnySetting)
        → CanEnter t text stacks start → IsOwnHead t (length text) stacks start
        → IsOfSomeFrom t text stacks start → IsSetting t (length text) s
        → IsSpreadFor t text s stacks start spread.new) }
{
    packing_laws_hold();
    own_stacks_enter();
    if stacks.state(start.top) != 0 {
        spread.begin(stacks, start)?;
        return Ok(());
    }
    let none = Stacks::new(alloc);
    spread.begin(none, StackHead { top: 0, place: 0 })?;
    Ok(())
}

/// Follows all ways to read a text on the graph of stacks, from a stack on, until one stack is
/// left, before any tree is accepted, or there is none. Where one head waits alone, links are
/// walked down from it until several lead down from one head. Behind a place one stack is asked for
/// unless more links were walked in vain than heads were made, so that asking costs little beside
/// following.
pub(crate) fn cross<L: Tokens>(
    alloc: Global,
    table: &Table,
    setting: &Setting,
    lexer: &mut L,
    text: &L::Text,
    stacks: Stacks,
    start: StackHead,
    before: Option<u32>,
    spread: &mut Spread,
) -> Result<Crossed, AllocError>
    requires made { L.made_for lexer.old table.now }
    requires setting { IsSetting table.now (length (L.Text.bytes text.now)) setting.now }
    requires short { length (L.Text.bytes text.now) ≤ most_span }
    requires own { IsOwnHead table.now (length (L.Text.bytes text.now)) stacks start }
    requires fork { IsFork table.now.grammar (L.Text.bytes text.now) (config_of stacks start) }
    requires one { IsOneStack stacks start.top }
    requires some { IsOfSomeFrom table.now (L.Text.bytes text.now) stacks start }
    ensures made { L.made_for lexer.new table.now }
    ensures comes { IfOk result (ComesTo table.now (L.Text.bytes text.now) stacks before start) }
{
    left_laws_hold();
    over_laws_hold();
    own_stacks_enter();
    unit_ranks();
    table.stands();
    begin(alloc, stacks, start, spread)?;
    let mut pace = Pace { walked: 0 };
    loop {
        match spread.pass(alloc, table, setting, lexer, text)? {
            Passed::Deep => return Ok(Crossed::Told(Outcome::Deep)),
            Passed::Over => {
                let crossed = ending(alloc, table, spread, setting.size, before)?;
                return Ok(crossed);
            }
            Passed::On => match ask_in_turn(alloc, spread, start.place, &mut pace)? {
                None => {}
                Some(left) => {
                    let stuck = further(before, spread.ends.stuck);
                    return Ok(Crossed::One(left, stuck));
                }
            },
        }
    }
}

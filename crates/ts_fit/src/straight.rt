//! A quick test that no symbol derives itself alone: what comes in is a grammar, and what goes out
//! is whether the test has shown it.

ghost use Rattle.std.specs.Prelude.{◌≡◌, ℕ, ◌<◌, ◌↔◌, [], IfNone, IfOk, IfSome, IsTrue, None, OnOk, length};
ghost use Rattle.std.specs.List.{Contains};
ghost use Rattle.spec_tables.specs.Fit.{IsCyclic};
ghost use Rattle.ts_fit.specs.Misfits.{FindsFirst};
ghost use Rattle.ts_fit.specs.Searches.{LeadsAlone, LeadsTo};
ghost use Rattle.ts_fit.specs.Straight.{IsSettled, Pushed, GoesThrough};

use crate::leading::{add, has, led_to};
use indexmap::IndexSet;
use std::alloc::{AllocError, Global};
use ts_core::{FlatGrammar, Production};

/// A rule that is gone through, by its place, and the production that is next.
#[derive(Clone, Copy, Debug)]
pub(crate) struct Frame {
    pub place: usize,
    pub next: usize,
}

/// The place to which a production leads, where it isn't done.
fn open_child(
    grammar: &FlatGrammar,
    done: &IndexSet<usize>,
    production: &Production,
) -> Option<usize>
    ensures none { IfNone result ((to : ℕ) → LeadsTo grammar.now production.now to
        → Contains done.now.keys to) }
    ensures some { IfSome result (λ to. LeadsTo grammar.now production.now to) }
{
    match led_to(grammar, production) {
        Some(place) => { if has(done, place) { None } else { Some(place) } },
        None => None,
    }
}

/// The next production of a frame that leads to a place that isn't done, as a frame with that place
/// and the production's number.
fn next_open(grammar: &FlatGrammar, done: &IndexSet<usize>, frame: Frame) -> Option<Frame>
    requires there { frame.place < length grammar.now.rules }
    requires settled { IsSettled grammar.now done.now.keys frame.place frame.next }
    ensures none { IfNone result ((to : ℕ) → LeadsAlone grammar.now frame.place to
        → Contains done.now.keys to) }
    ensures there { IfSome result (λ child. child.place < length grammar.now.rules) }
    ensures settled { IfSome result (λ child.
        IsSettled grammar.now done.now.keys frame.place child.next) }
{
    let productions = grammar.rules.get(frame.place).productions.as_slice();
    for number in frame.next..productions.len() {
        if let Some(place) = open_child(grammar, done, &productions[number]) {
            return Some(Frame {
                place,
                next: number,
            });
        }
    }
    None
}

/// Puts a frame back, which goes on at a production, and the rule to which that leads on top.
fn push_both(stack: &mut Vec<Frame>, place: usize, child: Frame) -> Result<(), AllocError>
    ensures { OnOk result (Pushed stack.old.items place child stack.new.items) }
{
    stack.push(Frame {
        place,
        next: child.next,
    })?;
    stack.push(Frame {
        place: child.place,
        next: 0,
    })?;
    Ok(())
}

/// Goes on with the frame on top: its rule is done where each production leads to done places
/// alone, and else such a production's place comes on top.
fn turn(
    grammar: &FlatGrammar,
    done: &mut IndexSet<usize>,
    stack: &mut Vec<Frame>,
) -> Result<(), AllocError>
    requires { GoesThrough grammar.now (length grammar.now.rules) done.old.keys stack.old.items }
    ensures { OnOk result (GoesThrough grammar.now (length grammar.now.rules)
        done.new.keys stack.new.items) }
{
    let Some(frame) = stack.pop() else {
        return Ok(());
    };
    match next_open(grammar, done, frame) {
        Some(child) => push_both(stack, frame.place, child),
        None => add(done, frame.place),
    }
}

/// A stack with a frame for each rule.
fn all_frames(alloc: Global, grammar: &FlatGrammar) -> Result<Vec<Frame>, AllocError>
    ensures { IfOk result (λ stack. GoesThrough grammar.now (length grammar.now.rules)
        [] stack.items) }
{
    let mut stack = Vec::new(alloc);
    for place in 0..grammar.rules.len() {
        stack.push(Frame { place, next: 0 })?;
    }
    Ok(stack)
}

fn is_empty(stack: &[Frame]) -> bool
    ensures { IsTrue result ↔ stack.now ≡ [] }
{
    stack.is_empty()
}

/// Whether no rule derives itself alone, as far as going through the rules once shows it: each rule
/// is done after those to which it leads. Where no rule derives itself, each comes onto the stack
/// at most twice, and goes on at most once for each, so that three turns a rule do.
pub(crate) fn is_straight(alloc: Global, grammar: &FlatGrammar) -> Result<bool, AllocError>
    ensures { IfOk result (λ b. IsTrue b → FindsFirst (IsCyclic grammar.now) None) }
{
    let mut done = IndexSet::new(alloc);
    let mut stack = all_frames(alloc, grammar)?;
    for _turn in 0..grammar.rules.len().saturating_mul(3) {
        turn(grammar, &mut done, &mut stack)?;
    }
    Ok(is_empty(stack.as_slice()))
}

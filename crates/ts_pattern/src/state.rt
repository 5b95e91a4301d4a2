//! The walk over the signs of a text: the text of a pattern comes in, and its tree and measures go
//! out, or its first flaw. Open patterns stand on a stack of its own.
ghost use Rattle.std.specs.Prelude.{◌≡◌, ◌<◌, ◌==◌, ◌&&◌, length, IfOk, if◌then◌else◌};
ghost use Rattle.ts_pattern.specs.Trees.{Token};
ghost use Rattle.ts_pattern.specs.Reads.{Means, is_quantifier, flaw_at, IsOutcome};
ghost use Rattle.ts_pattern.specs.States.{IsTakenBy, IsState, IsTurn};

use crate::chars::{QUESTION, peek};
use crate::level::{Finished, Level, Part};
use crate::outcome::Outcome;
use crate::sets::ranges;
use crate::sight::{Flaw, Sight};
use crate::sign::{Sign, sign_at};
use crate::stack::Stack;
use std::alloc::{AllocError, Global};

/// How far the text is read: the pattern that is open, those round it, and whether the last sign
/// was a quantifier. The place counts characters.
#[derive(Drop)]
pub(crate) struct State {
    at: usize,
    level: Level,
    outer: Stack<Level>,
    quantified: bool,
}

/// What one sign leads to.
#[derive(Drop)]
pub(crate) enum Turn {
    Goes(State),
    Stops(Outcome),
}

impl Sign {
    fn is_quantifier(&self) -> bool
        ensures { (ignore_case : _) (t : Token) → Means ignore_case self.now t
            → result ≡ is_quantifier t }
    {
        match self {
            Sign::Times(_, _) => true,
            Sign::Set(_) | Sign::Open | Sign::Close | Sign::Bar => false,
        }
    }
}

/// Puts a sign to what is open. There is nothing where it cannot stand there.
fn take(
    alloc: Global,
    sign: Sign,
    level: Level,
    outer: &mut Stack<Level>,
    ignore_case: bool,
) -> Result<Option<Level>, AllocError>
    ensures { IfOk result (λ r. IsTakenBy ignore_case sign level outer.old r outer.new) }
{
    match sign {
        Sign::Set(set) => {
            let part = Part::of_set(ranges(alloc, &set, ignore_case)?);
            Ok(Some(level.with(part)?))
        }
        Sign::Open => {
            outer.push(level)?;
            Ok(Some(Level::new(alloc)))
        }
        Sign::Close => match outer.pop() {
            Some(round) => Ok(Some(round.with(level.close()?)?)),
            None => Ok(None),
        },
        Sign::Bar => Ok(Some(level.with_bar(alloc)?)),
        Sign::Times(least, most) => level.with_times(alloc, least, most),
    }
}

/// The flaw of a sign that cannot stand where it is.
fn misplaced(quantified: bool, code: u32) -> Flaw
    ensures { result ≡ flaw_at quantified code }
{
    if quantified && code == QUESTION {
        Flaw::Unsupported
    } else {
        Flaw::Syntax
    }
}

/// Reads one sign.
fn advance(
    alloc: Global,
    text: &[char],
    state: State,
    ignore_case: bool,
) -> Result<Turn, AllocError>
    requires state { IsState ignore_case text.now state }
    requires more { state.at < length text.now }
    ensures { IfOk result (IsTurn ignore_case text.now state) }
{
    let State {
        at,
        level,
        mut outer,
        quantified,
    } = state;
    match sign_at(alloc, text, at)? {
        Sight::Wrong(flaw, place) => Ok(Turn::Stops(Outcome::Flawed(flaw, place))),
        Sight::Sees(sign, next) => {
            let is_quantifier = sign.is_quantifier();
            match take(alloc, sign, level, &mut outer, ignore_case)? {
                Some(level) => Ok(Turn::Goes(State {
                    at: next,
                    level,
                    outer,
                    quantified: is_quantifier,
                })),
                None => {
                    let flaw = misplaced(quantified, peek(text, at));
                    Ok(Turn::Stops(Outcome::Flawed(flaw, at)))
                }
            }
        }
    }
}

/// What the text is whose last sign was read.
fn end(state: State) -> Result<Outcome, AllocError>
    ensures { IfOk result (λ o. (ignore_case : _) (w : _) → IsState ignore_case w state
        → state.at ≡ length w → IsOutcome ignore_case w o) }
{
    let State {
        at,
        level,
        outer,
        quantified: _,
    } = state;
    if outer.len() > 0 {
        return Ok(Outcome::Flawed(Flaw::Syntax, at));
    }
    match level.finish()? {
        Finished::Whole(re) => Ok(Outcome::Whole(re)),
        Finished::Over(limit) => Ok(Outcome::Over(limit)),
    }
}

/// Reads a whole text, by its characters.
pub(crate) fn read(alloc: Global, text: &[char], ignore_case: bool) -> Result<Outcome, AllocError>
    ensures { IfOk result (IsOutcome ignore_case text.now) }
{
    let mut state = State {
        at: 0,
        level: Level::new(alloc),
        outer: Stack::new(alloc),
        quantified: false,
    };
    'signs: while state.at < text.len() {
        match advance(alloc, text, state, ignore_case)? {
            Turn::Goes(next) => state = next,
            Turn::Stops(outcome) => return Ok(outcome),
        }
    }
    end(state)
}

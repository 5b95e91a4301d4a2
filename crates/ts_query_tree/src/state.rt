//! The walk over the signs of a text, with the brackets that are open on a stack: the bytes go in;
//! the parts of the query come out, or the place at which the text is wrong or nested too deep.
ghost use Rattle.std.specs.Prelude.{◌≡◌, ◌&&◌, nat_le, ◌≤◌, ◌<◌, ◌^◌, length, IfOk};
ghost use Rattle.ts_query_tree.specs.Reads.{IsOutcome, most_open};
ghost use Rattle.ts_query_tree.specs.Words.{gap_end};
ghost use Rattle.ts_query_tree.specs.Machine.{Follows, start, finished, is_opening};
ghost use Rattle.ts_query_tree.specs.States.{IsState, IsTurn, ended};

use crate::bytes::gap_end;
use crate::level::{Bracket, Frame, Level, Pending};
use crate::sight::{Sight, sign_at};
use crate::sign::Sign;
use crate::stack::Stack;
use crate::step::take;
use crate::tree::Part;
use std::alloc::{AllocError, Global};
use ts_base::List;

/// How many brackets may be open at once.
const MOST_OPEN: usize = 200;

/// How far the text is read: the bracket that is open, and those round it.
#[derive(Drop)]
pub(crate) struct State {
    pub(crate) at: usize,
    pub(crate) level: Level,
    pub(crate) outer: Stack<Level>,
}

/// What a text is: a query, or wrong at a place.
#[derive(Drop)]
pub(crate) enum Outcome {
    Whole(List<Part>),
    Syntax(usize),
    Deep(usize),
}

/// What one sign leads to.
#[derive(Drop)]
pub(crate) enum Turn {
    Goes(State),
    Stops(Outcome),
}

/// Whether the sign opens a bracket where no more may be open.
fn is_too_deep(sign: &Sign, depth: usize) -> bool
    ensures { result ≡ (is_opening sign.now && nat_le most_open depth) }
{
    sign.is_opening() && depth >= MOST_OPEN
}

/// Reads the sign at a place behind blanks and comments.
fn advance(alloc: Global, text: &str, state: State, at: usize) -> Result<Turn, AllocError>
    requires short { length text.now < 2 ^ 32 }
    requires state { IsState text.now state }
    requires gap { at ≡ gap_end text.now state.at }
    requires more { at < length text.now }
    ensures { IfOk result (IsTurn text.now state) }
{
    let State {
        at: _,
        level,
        mut outer,
    } = state;
    let depth = outer.len();
    match sign_at(alloc, text, at)? {
        Sight::Strange => Ok(Turn::Stops(Outcome::Syntax(at))),
        Sight::Cut(sign, place) => match take(alloc, sign, level, &mut outer)? {
            Some(_) => Ok(Turn::Stops(Outcome::Syntax(place))),
            None => Ok(Turn::Stops(Outcome::Syntax(at))),
        },
        Sight::Sees(sign, end) => {
            let too_deep = is_too_deep(&sign, depth);
            match take(alloc, sign, level, &mut outer)? {
                Some(_) if too_deep => Ok(Turn::Stops(Outcome::Deep(at))),
                Some(level) => Ok(Turn::Goes(State {
                    at: end,
                    level,
                    outer,
                })),
                None => Ok(Turn::Stops(Outcome::Syntax(at))),
            }
        }
    }
}

/// What is whole where the text ends, if it may end there.
fn finished(level: Level) -> Result<Option<List<Part>>, AllocError>
    ensures { IfOk result (λ r. r ≡ finished level) }
{
    let Level { frame, pending } = level;
    let Frame {
        bracket,
        may_group: _,
        may_ask: _,
        content,
    } = frame;
    if !matches!(bracket, Bracket::Top) || !matches!(pending, Pending::Nothing) {
        return Ok(None);
    }
    Ok(Some(content.into_parts()?))
}

/// What a text is that ends at a place.
fn ended(level: Level, at: usize) -> Result<Outcome, AllocError>
    ensures { IfOk result (λ o. o ≡ ended at (finished level)) }
{
    match finished(level)? {
        Some(parts) => Ok(Outcome::Whole(parts)),
        None => Ok(Outcome::Syntax(at)),
    }
}

/// Reads a whole text.
pub(crate) fn walk(alloc: Global, text: &str) -> Result<Outcome, AllocError>
    requires { length text.now < 2 ^ 32 }
    ensures { IfOk result (IsOutcome text.now) }
{
    let mut state = State {
        at: 0,
        level: Level {
            frame: Frame::new(alloc, Bracket::Top, false, false),
            pending: Pending::Nothing,
        },
        outer: Stack::new(alloc),
    };
    'signs: loop {
        let at = gap_end(text, state.at);
        if at == text.len() {
            let State {
                at: _,
                level,
                outer: _,
            } = state;
            let outcome = ended(level, at)?;
            return Ok(outcome);
        }
        match advance(alloc, text, state, at)? {
            Turn::Goes(next) => state = next,
            Turn::Stops(outcome) => return Ok(outcome),
        }
    }
}

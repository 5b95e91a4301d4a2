//! Classes: from an opening bracket to the items up to the closing one.
ghost use Rattle.std.specs.Prelude.{◌≡◌, ◌≢◌, false, ◌≤◌, ◌<◌, ◌+◌, IfOk, length};
ghost use Rattle.ts_pattern.specs.Characters.{close_bracket, peek, IsSightWithin};
ghost use Rattle.ts_pattern.specs.Classes.{is_itself, hyphen_mark, mark, is_joined, range_to, item_from, item, is_class, inside, IsClassSight};

use crate::chars::{BACKSLASH, CARET, CLOSE_BRACKET, ENDING, HYPHEN, peek};
use crate::escape::{escape, is_class_escape};
use crate::item::{Base, CharSet, Item, Mark};
use crate::sight::{Flaw, Sight};
use std::alloc::{AllocError, Global};
use ts_base::List;

/// Whether a `-` is itself. `opens` says that a class escape or the class's beginning is before it.
fn is_itself(text: &[char], opens: bool, at: usize) -> bool
    requires { at < length text.now }
    ensures { result ≡ is_itself text.now opens at }
{
    opens || peek(text, at + 1) == CLOSE_BRACKET || is_class_escape(text, at + 1)
}

fn hyphen_mark(text: &[char], opens: bool, at: usize) -> Sight<Mark>
    requires { at < length text.now }
    ensures value { result ≡ hyphen_mark text.now opens at }
    ensures within { IsSightWithin text.now at result }
{
    if is_itself(text, opens, at) {
        Sight::Sees(Mark::Char(HYPHEN), at + 1)
    } else if peek(text, at + 1) == ENDING {
        Sight::Wrong(Flaw::Syntax, at + 1)
    } else {
        Sight::Sees(Mark::Join, at + 1)
    }
}

fn mark(alloc: Global, text: &[char], opens: bool, at: usize) -> Result<Sight<Mark>, AllocError>
    requires { at ≤ length text.now }
    ensures value { IfOk result (λ s. s ≡ mark text.now opens at) }
    ensures within { IfOk result (IsSightWithin text.now at) }
{
    match peek(text, at) {
        BACKSLASH => escape(alloc, text, at),
        HYPHEN => Ok(hyphen_mark(text, opens, at)),
        ENDING => Ok(Sight::Wrong(Flaw::Syntax, at)),
        code => Ok(Sight::Sees(Mark::Char(code), at + 1)),
    }
}

fn one(base: Base) -> Item
    ensures { result ≡ record { base = base; lacking = false } }
{
    let lacking = false;
    Item { base, lacking }
}

/// Whether a `-` that joins stands at a place.
fn is_joined(text: &[char], at: usize) -> bool
    requires { at ≤ length text.now }
    ensures { result ≡ is_joined text.now at }
{
    peek(text, at) == HYPHEN && !is_itself(text, false, at) && peek(text, at + 1) != ENDING
}

fn range_to(at: usize, first: u32, second: usize, mark: Sight<Mark>) -> Sight<Item>
    ensures { result ≡ range_to at first second mark }
{
    match mark {
        Sight::Sees(Mark::Char(last), next) if first <= last => {
            Sight::Sees(one(Base::Range(first, last)), next)
        }
        Sight::Sees(Mark::Char(_), _) => Sight::Wrong(Flaw::Syntax, at),
        Sight::Sees(Mark::Class(_), _) => Sight::Wrong(Flaw::Syntax, second),
        Sight::Sees(Mark::Join, _) => Sight::Wrong(Flaw::Syntax, second),
        Sight::Wrong(flaw, place) => Sight::Wrong(flaw, place),
    }
}

fn item(alloc: Global, text: &[char], opens: bool, at: usize) -> Result<Sight<Item>, AllocError>
    requires { at ≤ length text.now }
    ensures value { IfOk result (λ s. s ≡ item text.now opens at) }
    ensures within { IfOk result (IsSightWithin text.now at) }
{
    match mark(alloc, text, opens, at)? {
        Sight::Sees(Mark::Char(first), next) => {
            if is_joined(text, next) {
                let last = mark(alloc, text, false, next + 1)?;
                Ok(range_to(at, first, next + 1, last))
            } else {
                Ok(Sight::Sees(one(Base::Range(first, first)), next))
            }
        }
        Sight::Sees(Mark::Class(item), next) => Ok(Sight::Sees(item, next)),
        Sight::Sees(Mark::Join, _) => Ok(Sight::Wrong(Flaw::Syntax, at)),
        Sight::Wrong(flaw, place) => Ok(Sight::Wrong(flaw, place)),
    }
}

impl Base {
    fn is_class(self) -> bool
        ensures { result ≡ is_class self }
    {
        match self {
            Base::Range(_, _) => false,
            Base::Digit | Base::Word | Base::Space | Base::Property(_) => true,
        }
    }
}

/// Where the items begin of the class whose bracket stands at a place.
fn inside(text: &[char], at: usize) -> usize
    requires { at < length text.now }
    ensures value { result ≡ inside text.now at }
    ensures after { at < result }
    ensures within { result ≤ length text.now }
{
    if peek(text, at + 1) == CARET {
        at + 2
    } else {
        at + 1
    }
}

/// The class whose bracket stands at a place.
pub(crate) fn class(alloc: Global, text: &[char], at: usize) -> Result<Sight<CharSet>, AllocError>
    requires { at < length text.now }
    ensures value { IfOk result (IsClassSight text.now at) }
    ensures within { IfOk result (IsSightWithin text.now at) }
{
    let start = inside(text, at);
    if peek(text, start) == CLOSE_BRACKET {
        return Ok(Sight::Wrong(Flaw::EmptyClass, at));
    }
    items(alloc, text, at, start)
}

/// The items from a place on, up to the closing bracket.
fn items(
    alloc: Global,
    text: &[char],
    at: usize,
    start: usize,
) -> Result<Sight<CharSet>, AllocError>
    requires after { at < start }
    requires within { start ≤ length text.now }
    requires inside { start ≡ inside text.now at }
    requires some { peek text.now start ≢ close_bracket }
    ensures value { IfOk result (IsClassSight text.now at) }
    ensures within { IfOk result (IsSightWithin text.now at) }
{
    let mut items = List::new(alloc);
    let mut opens = true;
    let mut next = start;
    'items: while peek(text, next) != CLOSE_BRACKET {
        match item(alloc, text, opens, next)? {
            Sight::Sees(item, after) => {
                items.push(item)?;
                opens = item.base.is_class();
                next = after;
            }
            Sight::Wrong(flaw, place) => return Ok(Sight::Wrong(flaw, place)),
        }
    }
    let inverted = peek(text, at + 1) == CARET;
    Ok(Sight::Sees(CharSet { inverted, items }, next + 1))
}

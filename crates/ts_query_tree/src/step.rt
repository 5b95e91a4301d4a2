//! The brackets that are open and one sign in; the same with the sign put to them out, and nothing
//! where it cannot stand there.
ghost use Rattle.std.specs.Prelude.{◌≡◌, Option, Some, None, IfOk};
ghost use Rattle.ts_query_tree.specs.Machine.{ready, is_nothing, is_asking, with_operand, takes_unit, unit_field, level_with, anchored, colon, level_marked, level_named, wild_in_field, texted, level_captured, level_without, asked, opened, put, frame_closed, closed, choice_closed, next, Follows};

use crate::level::{Bracket, Content, Frame, Level, Pending, is_wild};
use crate::sign::Sign;
use crate::stack::Stack;
use crate::tree::{Head, Mark, Operand, Part, Written};
use std::alloc::{AllocError, Global};
use ts_base::List;

fn ready(frame: Frame) -> Level
    ensures { result ≡ ready frame }
{
    Level {
        frame,
        pending: Pending::Nothing,
    }
}

fn is_nothing(pending: &Pending) -> bool
    ensures { result ≡ is_nothing pending.now }
{
    match pending {
        Pending::Nothing => true,
        Pending::Name(_) | Pending::Field(_) | Pending::Predicate(_, _) => false,
    }
}

fn is_asking(pending: &Pending) -> bool
    ensures { result ≡ is_asking pending.now }
{
    match pending {
        Pending::Predicate(_, _) => true,
        Pending::Nothing | Pending::Name(_) | Pending::Field(_) => false,
    }
}

/// With one more operand in the predicate that is open.
fn with_operand(level: Level, operand: Operand) -> Result<Option<Level>, AllocError>
    ensures { IfOk result (λ r. r ≡ with_operand level operand) }
{
    let Level { frame, pending } = level;
    match pending {
        Pending::Predicate(name, mut operands) => {
            operands.push(operand)?;
            Ok(Some(Level {
                frame,
                pending: Pending::Predicate(name, operands),
            }))
        }
        Pending::Nothing | Pending::Name(_) | Pending::Field(_) => Ok(None),
    }
}

fn takes_unit(bracket: &Bracket, pending: &Pending) -> bool
    ensures { result ≡ takes_unit bracket.now pending.now }
{
    let ready = match pending {
        Pending::Nothing | Pending::Field(_) => true,
        Pending::Name(_) | Pending::Predicate(_, _) => false,
    };
    ready && !matches!(bracket, Bracket::Opened)
}

/// Whether an item may come next, and the field that it has then.
fn unit_field(bracket: &Bracket, pending: Pending) -> Option<Option<Written>>
    ensures { result ≡ unit_field bracket.now pending }
{
    if matches!(bracket, Bracket::Opened) {
        return None;
    }
    match pending {
        Pending::Nothing => Some(None),
        Pending::Field(name) => Some(Some(name)),
        Pending::Name(_) | Pending::Predicate(_, _) => None,
    }
}

/// With one more item, where one may come.
fn level_with(
    alloc: Global,
    level: Level,
    head: Head,
    parts: List<Part>,
    repeatable: bool,
) -> Result<Option<Level>, AllocError>
    ensures { IfOk result (λ r. r ≡ level_with level head parts repeatable) }
{
    let Level { frame, pending } = level;
    match unit_field(&frame.bracket, pending) {
        None => Ok(None),
        Some(field) => Ok(Some(ready(frame.with_unit(alloc, field, head, parts, repeatable)?))),
    }
}

fn anchored(level: Level) -> Result<Option<Level>, AllocError>
    ensures { IfOk result (λ r. r ≡ anchored level) }
{
    let Level { frame, pending } = level;
    let frame = frame.entered();
    if !is_nothing(&pending) || !frame.holds_anchors() {
        return Ok(None);
    }
    Ok(Some(ready(frame.with_part(Part::Anchor, true)?)))
}

fn colon(alloc: Global, level: Level) -> Result<Option<Level>, AllocError>
    ensures { IfOk result (λ r. r ≡ colon level) }
{
    let Level { frame, pending } = level;
    match pending {
        Pending::Name(name) => Ok(Some(Level {
            frame: frame.sealed()?,
            pending: Pending::Field(name),
        })),
        Pending::Nothing => frame.colon(alloc),
        Pending::Field(_) | Pending::Predicate(_, _) => Ok(None),
    }
}

fn marked(alloc: Global, level: Level, mark: Mark) -> Result<Option<Level>, AllocError>
    ensures { IfOk result (λ r. r ≡ level_marked level mark) }
{
    let Level { frame, pending } = level;
    if !is_nothing(&pending) {
        return Ok(None);
    }
    match frame.regrouped(alloc)?.marked(mark) {
        Some(frame) => Ok(Some(ready(frame))),
        None => Ok(None),
    }
}

fn named(alloc: Global, level: Level, name: Written) -> Result<Option<Level>, AllocError>
    ensures { IfOk result (λ r. r ≡ level_named level name) }
{
    if is_asking(&level.pending) {
        return with_operand(level, Operand::Name(name));
    }
    let Level { frame, pending } = level;
    match pending {
        Pending::Nothing => Ok(Some(frame.named(alloc, name)?)),
        Pending::Field(field) => wild_in_field(alloc, frame, field, name),
        Pending::Name(_) | Pending::Predicate(_, _) => Ok(None),
    }
}

/// With a `_` that has a field.
fn wild_in_field(
    alloc: Global,
    frame: Frame,
    field: Written,
    name: Written,
) -> Result<Option<Level>, AllocError>
    ensures { IfOk result (λ r. r ≡ wild_in_field frame field name) }
{
    if !is_wild(&name) {
        return Ok(None);
    }
    let parts = List::new(alloc);
    let frame = frame.with_unit(alloc, Some(field), Head::Any(name.at), parts, true)?;
    Ok(Some(ready(frame)))
}

fn texted(alloc: Global, level: Level, text: Written) -> Result<Option<Level>, AllocError>
    ensures { IfOk result (λ r. r ≡ texted level text) }
{
    if is_asking(&level.pending) {
        return with_operand(level, Operand::Text(text));
    }
    let Level { frame, pending } = level;
    let level = Level {
        frame: frame.entered(),
        pending,
    };
    level_with(alloc, level, Head::Text(text), List::new(alloc), true)
}

fn captured(alloc: Global, level: Level, capture: Written) -> Result<Option<Level>, AllocError>
    ensures { IfOk result (λ r. r ≡ level_captured level capture) }
{
    if is_asking(&level.pending) {
        return with_operand(level, Operand::Capture(capture));
    }
    let Level { frame, pending } = level;
    if !is_nothing(&pending) {
        return Ok(None);
    }
    match frame.regrouped(alloc)?.captured(capture)? {
        Some(frame) => Ok(Some(ready(frame))),
        None => Ok(None),
    }
}

fn without(level: Level, name: Written) -> Result<Option<Level>, AllocError>
    ensures { IfOk result (λ r. r ≡ level_without level name) }
{
    let Level { frame, pending } = level;
    if !is_nothing(&pending) || !matches!(frame.bracket, Bracket::Inside(Head::Node(_))) {
        return Ok(None);
    }
    Ok(Some(ready(frame.with_part(Part::Without(name), false)?)))
}

/// With a predicate in the place of a bracket that has nothing in it yet.
fn asked(alloc: Global, level: Level, name: Written, outer: &mut Stack<Level>) -> Option<Level>
    ensures { Follows (asked level name outer.old) result outer.new }
{
    if !level.frame.may_ask || !matches!(level.frame.bracket, Bracket::Opened) {
        return None;
    }
    let Level { frame, pending: _ } = outer.pop()?;
    Some(Level {
        frame,
        pending: Pending::Predicate(name, List::new(alloc)),
    })
}

/// With one more bracket, which is so.
fn opened(
    alloc: Global,
    level: Level,
    bracket: Bracket,
    outer: &mut Stack<Level>,
) -> Result<Option<Level>, AllocError>
    ensures { IfOk result (λ r. Follows (opened level bracket outer.old) r outer.new) }
{
    let Level { frame, pending } = level;
    let frame = frame.entered();
    if !takes_unit(&frame.bracket, &pending) {
        return Ok(None);
    }
    let first = is_nothing(&pending);
    let may_group = first && frame.holds_groups();
    let may_ask = first && frame.holds_predicates();
    outer.push(Level { frame, pending })?;
    Ok(Some(ready(Frame::new(alloc, bracket, may_group, may_ask))))
}

/// Puts an item with these parts where its bracket stands.
fn put(
    alloc: Global,
    head: Head,
    content: Content,
    repeatable: bool,
    outer: &mut Stack<Level>,
) -> Result<Option<Level>, AllocError>
    ensures { IfOk result (λ r. Follows (put head content repeatable outer.old) r outer.new) }
{
    let parts = content.into_parts()?;
    match outer.pop() {
        None => Ok(None),
        Some(round) => level_with(alloc, round, head, parts, repeatable),
    }
}

fn frame_closed(
    alloc: Global,
    frame: Frame,
    outer: &mut Stack<Level>,
) -> Result<Option<Level>, AllocError>
    ensures { IfOk result (λ r. Follows (frame_closed frame outer.old) r outer.new) }
{
    let Frame {
        bracket,
        may_group: _,
        may_ask: _,
        content,
    } = frame;
    let plain = content.plain;
    let filled = content.filled;
    match bracket {
        Bracket::Inside(Head::Node(name)) => put(alloc, Head::Node(name), content, true, outer),
        Bracket::Inside(Head::Group) if filled => put(alloc, Head::Group, content, plain, outer),
        Bracket::Top | Bracket::Opened | Bracket::Inside(_) => Ok(None),
    }
}

fn closed(
    alloc: Global,
    level: Level,
    outer: &mut Stack<Level>,
) -> Result<Option<Level>, AllocError>
    ensures { IfOk result (λ r. Follows (closed level outer.old) r outer.new) }
{
    let Level { frame, pending } = level;
    match pending {
        Pending::Nothing => frame_closed(alloc, frame, outer),
        Pending::Predicate(name, operands) => {
            let part = Part::Predicate(name, operands);
            Ok(Some(ready(frame.with_part(part, false)?)))
        }
        Pending::Name(_) | Pending::Field(_) => Ok(None),
    }
}

fn choice_closed(
    alloc: Global,
    level: Level,
    outer: &mut Stack<Level>,
) -> Result<Option<Level>, AllocError>
    ensures { IfOk result (λ r. Follows (choice_closed level outer.old) r outer.new) }
{
    let Level { frame, pending } = level;
    let Frame {
        bracket,
        may_group: _,
        may_ask: _,
        content,
    } = frame;
    let closes = matches!(bracket, Bracket::Inside(Head::Choice)) && content.filled;
    if !is_nothing(&pending) || !closes {
        return Ok(None);
    }
    put(alloc, Head::Choice, content, true, outer)
}

/// What is open after a sign, where the sign can stand there.
pub(crate) fn take(
    alloc: Global,
    sign: Sign,
    level: Level,
    outer: &mut Stack<Level>,
) -> Result<Option<Level>, AllocError>
    ensures { IfOk result (λ r. Follows (next level outer.old sign) r outer.new) }
{
    match sign {
        Sign::Open => opened(alloc, level, Bracket::Opened, outer),
        Sign::Close => closed(alloc, level, outer),
        Sign::OpenChoice => opened(alloc, level, Bracket::Inside(Head::Choice), outer),
        Sign::CloseChoice => choice_closed(alloc, level, outer),
        Sign::Anchor => anchored(level),
        Sign::Colon => colon(alloc, level),
        Sign::Mark(mark) => marked(alloc, level, mark),
        Sign::Name(name) => named(alloc, level, name),
        Sign::Text(text) => texted(alloc, level, text),
        Sign::Capture(capture) => captured(alloc, level, capture),
        Sign::Without(name) => without(level, name),
        Sign::Predicate(name) => Ok(asked(alloc, level, name, outer)),
    }
}

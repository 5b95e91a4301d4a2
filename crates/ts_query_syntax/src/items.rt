//! The items of a pattern: parts that are written go in, and the items that they are come out.
ghost use Rattle.std.specs.Prelude.{◌≡◌, map, IfOk, OnOk};
ghost use Rattle.ts_query_names.specs.Given.{names_told};
ghost use Rattle.ts_query_syntax.specs.Items.{times_of, quantity_of, field_of, captures_of, node_test, test_of, is_spliced, pieces, pieces_in, items_of, is_closed};
ghost use Rattle.ts_query_syntax.specs.Levels.{after, empty_level, item_of};

use crate::level::Level;
use crate::read_query::{Item, Quantity, Test};
use std::alloc::{AllocError, Global};
use ts_base::List;
use ts_query_names::{Numbers, is_wild};
use ts_query_tree::{Head, Mark, Part, Quantity as Times, Written};

fn times_of(times: Times) -> Quantity
    ensures { result ≡ times_of times }
{
    match times {
        Times::Optional => Quantity::Optional,
        Times::Many => Quantity::Many,
        Times::Several => Quantity::Several,
    }
}

fn quantity_of(mark: &Option<Mark>) -> Quantity
    ensures { result ≡ quantity_of mark.now }
{
    match mark {
        Some(mark) => times_of(mark.quantity),
        None => Quantity::One,
    }
}

fn field_of(numbers: &Numbers, field: &Option<Written>) -> Option<u16>
    ensures { result ≡ field_of (names_told numbers.now) field.now }
{
    match field {
        Some(name) => Some(numbers.field(&name.text)),
        None => None,
    }
}

fn captures_of(
    alloc: Global,
    numbers: &Numbers,
    captures: &[Written],
) -> Result<List<u16>, AllocError>
    ensures { IfOk result (λ all. all ≡ captures_of (names_told numbers.now) captures.now) }
{
    let mut all = List::new(alloc);
    for name in captures {
        all.push(numbers.capture(&name.text))?;
    }
    Ok(all)
}

fn node_test(numbers: &Numbers, kind: &Written) -> Test
    ensures { result ≡ node_test (names_told numbers.now) kind.now }
{
    if is_wild(&kind.text) {
        return Test::Named;
    }
    Test::Kind(numbers.kind(&kind.text, true))
}

fn test_of(numbers: &Numbers, head: &Head) -> Test
    ensures { result ≡ test_of (names_told numbers.now) head.now }
{
    match head {
        Head::Any(_) => Test::Any,
        Head::Text(text) => Test::Kind(numbers.kind(&text.text, false)),
        Head::Node(kind) => node_test(numbers, kind),
        Head::Group => Test::Round,
        Head::Choice => Test::Choice,
    }
}

/// Whether an item is a group without a quantifier, whose parts stand in its place.
fn is_spliced(head: &Head, mark: &Option<Mark>) -> bool
    ensures { result ≡ is_spliced head.now mark.now }
{
    match head {
        Head::Group => mark.is_none(),
        Head::Any(_) => false,
        Head::Text(_) => false,
        Head::Node(_) => false,
        Head::Choice => false,
    }
}

/// An item over what stands in its brackets.
fn item_over(
    alloc: Global,
    numbers: &Numbers,
    tied: bool,
    field: &Option<Written>,
    head: &Head,
    inner: Level,
    mark: &Option<Mark>,
    captures: &[Written],
) -> Result<Item, AllocError>
    ensures { IfOk result (λ item. item ≡ item_of (names_told numbers.now) field.now head.now
        inner mark.now captures.now tied) }
{
    let captures = captures_of(alloc, numbers, captures)?;
    let closed = inner.is_closed();
    let Level {
        items,
        tied: _,
        without,
    } = inner;
    Ok(Item {
        tied,
        quantity: quantity_of(mark),
        field: field_of(numbers, field),
        captures,
        test: test_of(numbers, head),
        without,
        closed,
        parts: items,
    })
}

#[cycle(put)]
#[tactic(auto, using(crate::proofs::PieceLemmas::piece_laws))]
fn put(alloc: Global, numbers: &Numbers, level: &mut Level, part: &Part) -> Result<(), AllocError>
    ensures { OnOk result (level.new ≡ after level.old (pieces (names_told numbers.now) part.now)) }
{
    match part {
        Part::Item {
            field,
            head,
            parts,
            mark,
            captures,
        } => {
            if is_spliced(head, mark) {
                return put_all(alloc, numbers, level, parts.as_slice());
            }
            let inner = inner_level(alloc, numbers, parts.as_slice())?;
            let item = item_over(
                alloc,
                numbers,
                level.tied,
                field,
                head,
                inner,
                mark,
                captures.as_slice(),
            )?;
            level.add(item)
        }
        Part::Anchor => {
            level.tie();
            Ok(())
        }
        Part::Without(name) => level.lack(numbers.field(&name.text)),
        Part::Predicate(_, _) => Ok(()),
    }
}

#[cycle(put)]
fn put_all(
    alloc: Global,
    numbers: &Numbers,
    level: &mut Level,
    parts: &[Part],
) -> Result<(), AllocError>
    ensures { OnOk result
        (level.new ≡ after level.old (pieces_in (names_told numbers.now) parts.now)) }
{
    for part in parts {
        put(alloc, numbers, level, part)?;
    }
    Ok(())
}

/// What stands in a list of siblings.
#[cycle(put)]
fn inner_level(alloc: Global, numbers: &Numbers, parts: &[Part]) -> Result<Level, AllocError>
    ensures { IfOk result (λ level.
        level ≡ after empty_level (pieces_in (names_told numbers.now) parts.now)) }
{
    let mut level = Level::new(alloc);
    put_all(alloc, numbers, &mut level, parts)?;
    Ok(level)
}

/// What a pattern embeds in a list of siblings: the items of the part that it is written as.
pub(crate) fn pattern_level(
    alloc: Global,
    numbers: &Numbers,
    part: &Part,
) -> Result<Level, AllocError>
    ensures { IfOk result (λ level.
        level ≡ after empty_level (pieces (names_told numbers.now) part.now)) }
{
    let mut level = Level::new(alloc);
    put(alloc, numbers, &mut level, part)?;
    Ok(level)
}

//! What comes in is a rule tree by numbers and what stands round it, and what goes out are its
//! alternatives.

ghost use Rattle.std.specs.Prelude.{◌≡◌, ◌++◌, ◌∷◌, [], map, IfOk, OnOk};
ghost use Rattle.ts_rules.specs.Alternatives.{alternatives_of, blank, joins, sequence, single, stronger, choice_of, alternatives_each, in_field, in_alias, in_group, in_dynamic, in_sequence, group, left, left_by, last_left, step_at, followed};

use crate::tree::{Alternative, Around, NumberedStep, Tree};
use std::alloc::{AllocError, Global};
use ts_core::{Assoc, List, Prec};

/// The value of greater magnitude, the first on a tie.
pub fn stronger_of(first: i32, second: i32) -> i32
    ensures { result ≡ stronger first second }
{
    if first.unsigned_abs() < second.unsigned_abs() {
        second
    } else {
        first
    }
}

fn blank_alternative(alloc: Global) -> Alternative
    ensures { result ≡ blank }
{
    Alternative {
        dynamic: 0,
        steps: List::new(alloc),
    }
}

fn one_blank(alloc: Global) -> Result<List<Alternative>, AllocError>
    ensures { IfOk result (λ xs. xs ≡ blank ∷ []) }
{
    let mut found = List::new(alloc);
    found.push(blank_alternative(alloc))?;
    Ok(found)
}

/// The alternative of a step alone.
fn one_step(alloc: Global, symbol: u16, around: &Around) -> Result<List<Alternative>, AllocError>
    ensures { IfOk result (λ xs. xs ≡ single symbol around.now ∷ []) }
{
    let mut steps = List::new(alloc);
    steps.push(NumberedStep {
        symbol,
        prec: around.prec,
        assoc: around.assoc,
        alias: around.alias,
        field: around.field,
    })?;
    let mut found = List::new(alloc);
    found.push(Alternative {
        dynamic: around.dynamic,
        steps,
    })?;
    Ok(found)
}

/// Puts copies of steps at the end.
pub fn add_steps(steps: &mut List<NumberedStep>, more: &[NumberedStep]) -> Result<(), AllocError>
    ensures { OnOk result (steps.new ≡ steps.old ++ more.now) }
{
    for step in more {
        steps.push(*step)?;
    }
    Ok(())
}

/// One alternative after another.
fn follow(
    alloc: Global,
    first: &Alternative,
    second: &Alternative,
) -> Result<Alternative, AllocError>
    ensures { IfOk result (λ x. x ≡ followed first.now second.now) }
{
    let mut steps = List::new(alloc);
    add_steps(&mut steps, first.steps.as_slice())?;
    add_steps(&mut steps, second.steps.as_slice())?;
    Ok(Alternative {
        dynamic: stronger_of(first.dynamic, second.dynamic),
        steps,
    })
}

/// Puts an alternative's joins with each of `rest` at the end.
fn add_joins(
    alloc: Global,
    found: &mut List<Alternative>,
    first: &Alternative,
    rest: &[Alternative],
) -> Result<(), AllocError>
    ensures { OnOk result (found.new ≡ found.old ++ map (λ y. followed first.now y) rest.now) }
{
    for second in rest {
        found.push(follow(alloc, first, second)?)?;
    }
    Ok(())
}

/// Each of the first with each of the second, the first varying slowest.
fn join(
    alloc: Global,
    firsts: &[Alternative],
    rest: &[Alternative],
) -> Result<List<Alternative>, AllocError>
    ensures { IfOk result (λ xs. xs ≡ joins firsts.now rest.now) }
{
    let mut found = List::new(alloc);
    for first in firsts {
        add_joins(alloc, &mut found, first, rest)?;
    }
    Ok(found)
}

/// All joins of the members' alternatives.
fn join_all(alloc: Global, parts: &[List<Alternative>]) -> Result<List<Alternative>, AllocError>
    ensures { IfOk result (λ xs. xs ≡ sequence parts.now) }
{
    let mut found = one_blank(alloc)?;
    let mut left = parts.len();
    while left > 0 {
        left -= 1;
        found = join(alloc, parts[left].as_slice(), found.as_slice())?;
    }
    Ok(found)
}

/// Puts alternatives at the end.
fn append(found: &mut List<Alternative>, more: List<Alternative>) -> Result<(), AllocError>
    ensures { OnOk result (found.new ≡ found.old ++ more) }
{
    for alternative in more.into_vec() {
        found.push(alternative)?;
    }
    Ok(())
}

/// The steps, the last with the precedence and associativity of what stands round.
fn leave_last(
    alloc: Global,
    around: &Around,
    steps: &[NumberedStep],
) -> Result<List<NumberedStep>, AllocError>
    ensures { IfOk result (λ xs. xs ≡ last_left around.now steps.now) }
{
    let mut made = List::new(alloc);
    let mut next = 0;
    while next < steps.len() {
        let mut step = steps[next];
        next += 1;
        if next == steps.len() {
            step.prec = around.prec;
            step.assoc = around.assoc;
        }
        made.push(step)?;
    }
    Ok(made)
}

/// The alternatives of a group, whose last steps take what stands round it unless it is at the end.
fn leave(
    alloc: Global,
    around: &Around,
    found: List<Alternative>,
) -> Result<List<Alternative>, AllocError>
    ensures { IfOk result (λ xs. xs ≡ group around.now found) }
{
    if around.at_end {
        return Ok(found);
    }
    leave_all(alloc, around, found.as_slice())
}

fn leave_all(
    alloc: Global,
    around: &Around,
    found: &[Alternative],
) -> Result<List<Alternative>, AllocError>
    ensures { IfOk result (λ xs. xs ≡ map (left around.now) found.now) }
{
    let mut made = List::new(alloc);
    for alternative in found {
        made.push(Alternative {
            dynamic: alternative.dynamic,
            steps: leave_last(alloc, around, alternative.steps.as_slice())?,
        })?;
    }
    Ok(made)
}

fn round_field(around: &Around, field: u16) -> Around
    ensures { result ≡ in_field field around.now }
{
    Around {
        field: Some(field),
        ..*around
    }
}

fn round_alias(around: &Around, alias: usize) -> Around
    ensures { result ≡ in_alias alias around.now }
{
    Around {
        alias: Some(alias),
        ..*around
    }
}

fn round_dynamic(around: &Around, value: i32) -> Around
    ensures { result ≡ in_dynamic value around.now }
{
    Around {
        dynamic: stronger_of(around.dynamic, value),
        ..*around
    }
}

fn round_group(around: &Around, prec: Prec, assoc: Assoc) -> Around
    ensures { result ≡ in_group prec assoc around.now }
{
    let assoc = match assoc {
        Assoc::Absent => around.assoc,
        Assoc::Left => Assoc::Left,
        Assoc::Right => Assoc::Right,
    };
    Around {
        prec,
        assoc,
        ..*around
    }
}

fn round_member(around: &Around, last: bool) -> Around
    ensures { result ≡ in_sequence last around.now }
{
    Around {
        at_end: around.at_end && last,
        ..*around
    }
}

/// The alternatives of a rule tree, in order.
///
/// # Errors
///
/// `AllocError` where memory runs out.
#[cycle(walk)]
#[tactic(auto, using(crate::proofs::AlternativeLemmas::alternatives_seq, crate::proofs::AlternativeLemmas::alternatives_choice))]
pub fn alternatives(
    alloc: Global,
    tree: &Tree,
    around: &Around,
) -> Result<List<Alternative>, AllocError>
    ensures { IfOk result (λ xs. xs ≡ alternatives_of tree.now around.now) }
{
    match tree {
        Tree::Blank => one_blank(alloc),
        Tree::Step(symbol) => one_step(alloc, *symbol, around),
        Tree::Seq(inner) => {
            let parts = member_alternatives(alloc, inner.as_slice(), around)?;
            join_all(alloc, parts.as_slice())
        },
        Tree::Choice(inner) => branch_alternatives(alloc, inner.as_slice(), around),
        Tree::Field(field, inner) => alternatives(alloc, inner.get(), &round_field(around, *field)),
        Tree::Alias(alias, inner) => alternatives(alloc, inner.get(), &round_alias(around, *alias)),
        Tree::Group(prec, assoc, inner) => {
            let found = alternatives(alloc, inner.get(), &round_group(around, *prec, *assoc))?;
            leave(alloc, around, found)
        },
        Tree::Dynamic(value, inner) => alternatives(
            alloc,
            inner.get(),
            &round_dynamic(around, *value),
        ),
    }
}

/// The alternatives of each member of a SEQ.
#[cycle(walk)]
fn member_alternatives(
    alloc: Global,
    inner: &[Tree],
    around: &Around,
) -> Result<List<List<Alternative>>, AllocError>
    ensures { IfOk result (λ parts. parts ≡ alternatives_each inner.now around.now) }
{
    let mut parts = List::new(alloc);
    for member in inner {
        let last = parts.len() + 1 == inner.len();
        parts.push(alternatives(alloc, member, &round_member(around, last))?)?;
    }
    Ok(parts)
}

/// The alternatives of the branches of a CHOICE, one list after another.
#[cycle(walk)]
fn branch_alternatives(
    alloc: Global,
    inner: &[Tree],
    around: &Around,
) -> Result<List<Alternative>, AllocError>
    ensures { IfOk result (λ xs. xs ≡ choice_of inner.now around.now) }
{
    let mut found = List::new(alloc);
    for branch in inner {
        append(&mut found, alternatives(alloc, branch, around)?)?;
    }
    Ok(found)
}

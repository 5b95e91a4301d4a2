//! Rules: from the bytes of a file to the rules and the bytes behind them.

ghost use Rattle.std.specs.Prelude.{◌≡◌, ◌≤◌, length, IfOk};
ghost use Rattle.ts_langfile.specs.Reader.{Gives, times, in_turn};
ghost use Rattle.ts_langfile.specs.Parts as spec;
ghost use Rattle.ts_langfile.specs.Parts.{optional_at, prec_at, assoc_at, alias_at, field_at, step_at, production_at, rule_at, left_after};
ghost use Rattle.spec_tables.specs.Fit.{most_steps};

use crate::flaw::Stop;
use crate::known::Known;
use crate::part::{count, flag, signed32, tag, text};
use crate::symbols::{name, symbol};
use crate::token::kind;
use std::alloc::Global;
use ts_core::{Alias, Assoc, FlatRule, List, Prec, Production, Step};

/// How many steps a production may have.
const MOST_STEPS: u32 = 255;

#[tactic(auto, unfolding(crate::specs::Parts::prec_at))]
fn prec<'a>(bytes: &'a [u8], known: &Known) -> Result<(Prec, &'a [u8]), Stop>
    ensures { Gives (λ x. (x.0, x.1.now)) result (prec_at known.now bytes.now) }
{
    let (tag, start) = tag(bytes, 2)?;
    match tag {
        0 => Ok((Prec::Absent, start)),
        1 => {
            let (value, rest) = signed32(start)?;
            Ok((Prec::Number(value), rest))
        }
        _ => {
            let (name, rest) = name(start, known.precs)?;
            Ok((Prec::Name(name), rest))
        }
    }
}

fn assoc_of(tag: u8) -> Assoc
    ensures { result ≡ spec.assoc_of tag }
{
    match tag {
        0 => Assoc::Absent,
        1 => Assoc::Left,
        _ => Assoc::Right,
    }
}

#[tactic(auto, unfolding(crate::specs::Parts::assoc_at))]
fn assoc(bytes: &[u8]) -> Result<(Assoc, &[u8]), Stop>
    ensures { Gives (λ x. (x.0, x.1.now)) result (assoc_at bytes.now) }
{
    let (tag, rest) = tag(bytes, 2)?;
    Ok((assoc_of(tag), rest))
}

#[tactic(auto, unfolding(crate::specs::Parts::alias_at))]
fn alias(alloc: Global, bytes: &[u8]) -> Result<(Alias, &[u8]), Stop>
    ensures { Gives (λ x. (x.0, x.1.now)) result (alias_at bytes.now) }
{
    let (name, rest) = text(alloc, bytes)?;
    let (named, rest) = flag(rest)?;
    Ok((Alias { name, named }, rest))
}

fn alias_or_none(alloc: Global, bytes: &[u8]) -> Result<(Option<Alias>, &[u8]), Stop>
    ensures { Gives (λ x. (x.0, x.1.now)) result (optional_at alias_at bytes.now) }
{
    let (there, start) = flag(bytes)?;
    if !there {
        return Ok((None, start));
    }
    let (alias, rest) = alias(alloc, start)?;
    Ok((Some(alias), rest))
}

#[tactic(auto, unfolding(crate::specs::Parts::field_at))]
fn field<'a>(bytes: &'a [u8], known: &Known) -> Result<(Option<u16>, &'a [u8]), Stop>
    ensures { Gives (λ x. (x.0, x.1.now)) result (field_at known.now bytes.now) }
{
    let (there, start) = flag(bytes)?;
    if !there {
        return Ok((None, start));
    }
    let (field, rest) = name(start, known.fields)?;
    Ok((Some(field), rest))
}

#[tactic(auto, unfolding(crate::specs::Parts::step_at))]
fn step<'a>(
    alloc: Global,
    bytes: &'a [u8],
    symbols: u32,
    known: &Known,
) -> Result<(Step, &'a [u8]), Stop>
    ensures { Gives (λ x. (x.0, x.1.now)) result (step_at symbols known.now bytes.now) }
{
    let (symbol, rest) = symbol(bytes, 1, symbols)?;
    let (prec, rest) = prec(rest, known)?;
    let (assoc, rest) = assoc(rest)?;
    let (alias, rest) = alias_or_none(alloc, rest)?;
    let (field, rest) = field(rest, known)?;
    let step = Step {
        symbol,
        prec,
        assoc,
        alias,
        field,
    };
    Ok((step, rest))
}

/// So many steps.
fn steps<'a>(
    alloc: Global,
    bytes: &'a [u8],
    count: u32,
    symbols: u32,
    known: &Known,
) -> Result<(List<Step>, &'a [u8]), Stop>
    ensures { Gives (λ x. (x.0, x.1.now)) result
        (times count (step_at symbols known.now) bytes.now) }
{
    let mut steps = List::new(alloc);
    let mut rest = bytes;
    for _ in 0..count {
        let (step, after) = step(alloc, rest, symbols, known)?;
        steps.push(step)?;
        rest = after;
    }
    Ok((steps, rest))
}

#[tactic(auto, unfolding(crate::specs::Parts::production_at))]
fn production<'a>(
    alloc: Global,
    bytes: &'a [u8],
    symbols: u32,
    known: &Known,
) -> Result<(Production, &'a [u8]), Stop>
    ensures { Gives (λ x. (x.0, x.1.now)) result (production_at symbols known.now bytes.now) }
{
    let (dynamic, rest) = signed32(bytes)?;
    let (count, rest) = count(rest, MOST_STEPS)?;
    let (steps, rest) = steps(alloc, rest, count, symbols, known)?;
    Ok((Production { dynamic, steps }, rest))
}

/// So many productions.
fn productions<'a>(
    alloc: Global,
    bytes: &'a [u8],
    count: u32,
    symbols: u32,
    known: &Known,
) -> Result<(List<Production>, &'a [u8]), Stop>
    ensures read { Gives (λ x. (x.0, x.1.now)) result
        (times count (production_at symbols known.now) bytes.now) }
    ensures count { IfOk result (λ x. length x.0 ≡ count) }
{
    let mut productions = List::new(alloc);
    let mut rest = bytes;
    for _ in 0..count {
        let (production, after) = production(alloc, rest, symbols, known)?;
        productions.push(production)?;
        rest = after;
    }
    Ok((productions, rest))
}

/// A rule where at most `left` more productions may come.
#[tactic(auto, unfolding(crate::specs::Parts::rule_at))]
fn rule<'a>(
    alloc: Global,
    bytes: &'a [u8],
    symbols: u32,
    known: &Known,
    left: u32,
) -> Result<(FlatRule, &'a [u8]), Stop>
    ensures read { Gives (λ x. (x.0, x.1.now)) result (rule_at symbols known.now left bytes.now) }
    ensures few { IfOk result (λ x. length x.0.productions ≤ left) }
{
    let (name, rest) = text(alloc, bytes)?;
    let (kind, rest) = kind(rest)?;
    let (owner, rest) = symbol(rest, 0, symbols)?;
    let (count, rest) = count(rest, left)?;
    let (productions, rest) = productions(alloc, rest, count, symbols, known)?;
    let rule = FlatRule {
        name,
        kind,
        owner,
        productions,
    };
    Ok((rule, rest))
}

/// So many rules, with at most `most` productions in all.
pub(crate) fn rules<'a>(
    alloc: Global,
    bytes: &'a [u8],
    count: u32,
    symbols: u32,
    known: &Known,
    most: u32,
) -> Result<(List<FlatRule>, &'a [u8]), Stop>
    ensures read { Gives (λ x. (x.0, x.1.now)) result
        (in_turn (rule_at symbols known.now) left_after count most bytes.now) }
    ensures count { IfOk result (λ x. length x.0 ≡ count) }
{
    let mut rules = List::new(alloc);
    let mut left = most;
    let mut rest = bytes;
    for _ in 0..count {
        let (rule, after) = rule(alloc, rest, symbols, known, left)?;
        left -= rule.productions.len() as u32;
        rules.push(rule)?;
        rest = after;
    }
    Ok((rules, rest))
}

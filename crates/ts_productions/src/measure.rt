//! How many alternatives a rule tree has once its inlined steps are replaced, and how long they
//! are: what comes in is the tree and what its symbols weigh. No alternative is built.

ghost use Rattle.std.specs.Prelude.{◌≡◌, ◌+◌, ◌*◌, ◌≤◌, ◌∷◌, [], min, max};
ghost use Rattle.ts_rules.specs.Alternatives.{alternatives_of, alternatives_each, choice_of, single};
ghost use Rattle.ts_rules.specs.Counts.{many, long};
ghost use Rattle.ts_rules.specs.declared.tree.Around.{Around};
ghost use Rattle.ts_productions.specs.Sizes.{IsMeasure, IsJoined, IsSmallMeasure};

use crate::weights::{Weights, weight};
use ts_rules::Tree;

/// One more than the most productions of a grammar. Counts go no further.
pub(crate) const MANY: u64 = 65_536;

/// One more than the most steps of a production. Counts of steps go no further.
pub(crate) const LONG: u64 = 256;

/// The size of a rule tree.
#[derive(Clone, Copy, Debug)]
pub(crate) struct Measure {
    /// How many alternatives have no step, or `MANY` where there are more.
    pub(crate) blank: u64,
    /// How many come of those that have steps, or `MANY` where there are more.
    pub(crate) filled: u64,
    /// The most steps of one, or `LONG` where there are more.
    pub(crate) longest: u64,
}

/// The measure of a step.
fn step_measure(weights: &Weights, symbol: u16) -> Measure
    ensures measure { (around : Around) → IsMeasure weights.now (single symbol around ∷ []) result }
    ensures small { IsSmallMeasure result }
{
    let size = weight(weights, symbol);
    Measure {
        blank: 0,
        filled: size.many.min(MANY),
        longest: if size.many == 0 {
            0
        } else {
            size.longest.min(LONG)
        },
    }
}

/// The measure of joins, as far as their counts go.
fn joined(first: Measure, second: Measure) -> Measure
    requires { IsSmallMeasure first × IsSmallMeasure second }
    ensures blank { result.blank ≡ min many (first.blank * second.blank) }
    ensures filled { result.filled ≡ min many (first.filled * (second.blank + second.filled)
        + first.blank * second.filled) }
    ensures longest { result.longest ≡ min long (first.longest + second.longest) }
    ensures small { IsSmallMeasure result }
{
    Measure {
        blank: (first.blank * second.blank).min(MANY),
        filled: (first.filled * (second.blank + second.filled) + first.blank * second.filled).min(
            MANY,
        ),
        longest: (first.longest + second.longest).min(LONG),
    }
}

/// The measure of two lists, one after the other.
fn chosen(first: Measure, second: Measure) -> Measure
    requires { IsSmallMeasure first × IsSmallMeasure second }
    ensures blank { result.blank ≡ min many (first.blank + second.blank) }
    ensures filled { result.filled ≡ min many (first.filled + second.filled) }
    ensures longest { result.longest ≡ max first.longest second.longest }
    ensures small { IsSmallMeasure result }
{
    Measure {
        blank: (first.blank + second.blank).min(MANY),
        filled: (first.filled + second.filled).min(MANY),
        longest: first.longest.max(second.longest),
    }
}

/// Where there is no alternative, none has steps.
fn settled(measure: Measure) -> Measure
    requires { IsSmallMeasure measure }
    ensures blank { result.blank ≡ measure.blank }
    ensures filled { result.filled ≡ measure.filled }
    ensures none { measure.blank + measure.filled ≡ 0 → result.longest ≡ 0 }
    ensures some { 1 ≤ measure.blank + measure.filled → result.longest ≡ measure.longest }
    ensures small { IsSmallMeasure result }
{
    if measure.blank == 0 && measure.filled == 0 {
        Measure {
            longest: 0,
            ..measure
        }
    } else {
        measure
    }
}

/// The measure of a rule tree.
#[cycle(measure)]
pub(crate) fn measure_of(tree: &Tree, weights: &Weights) -> Measure
    ensures measure { (around : Around) → IsMeasure weights.now
        (alternatives_of tree.now around) result }
    ensures small { IsSmallMeasure result }
{
    match tree {
        Tree::Blank => Measure {
            blank: 1,
            filled: 0,
            longest: 0,
        },
        Tree::Step(symbol) => step_measure(weights, *symbol),
        Tree::Seq(inner) => settled(sequence_measure(inner.as_slice(), weights)),
        Tree::Choice(inner) => choice_measure(inner.as_slice(), weights),
        Tree::Field(_, inner) => measure_of(inner.get(), weights),
        Tree::Alias(_, inner) => measure_of(inner.get(), weights),
        Tree::Group(_, _, inner) => measure_of(inner.get(), weights),
        Tree::Dynamic(_, inner) => measure_of(inner.get(), weights),
    }
}

/// The counts of the joins of members' alternatives, and how long the longest of each are together.
#[cycle(measure)]
fn sequence_measure(inner: &[Tree], weights: &Weights) -> Measure
    ensures measure { (around : Around)
        → IsJoined weights.now (alternatives_each inner.now around) result }
    ensures small { IsSmallMeasure result }
{
    let mut all = Measure {
        blank: 1,
        filled: 0,
        longest: 0,
    };
    for member in inner {
        all = joined(all, measure_of(member, weights));
    }
    all
}

#[cycle(measure)]
fn choice_measure(inner: &[Tree], weights: &Weights) -> Measure
    ensures measure { (around : Around)
        → IsMeasure weights.now (choice_of inner.now around) result }
    ensures small { IsSmallMeasure result }
{
    let mut all = Measure {
        blank: 0,
        filled: 0,
        longest: 0,
    };
    for branch in inner {
        all = chosen(all, measure_of(branch, weights));
    }
    all
}

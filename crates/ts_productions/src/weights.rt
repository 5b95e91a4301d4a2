//! How many expansions a symbol has and how long the longest is: what comes in are the sizes of the
//! inlined rules, and every other symbol is one step.

ghost use Rattle.std.specs.Prelude.{◌≡◌, ◌+◌, ◌<◌, ◌≤◌, ◌⊎◌, IfSome, IfNone, IsTrue, IsFalse};
ghost use Rattle.ts_productions.specs.Sizes.{size_at, many_of, weigh};

use ts_rules::{NumberedStep, Size};

/// The sizes of the symbols from `first` on. A symbol that has none here stays as it is.
#[derive(Clone, Copy)]
pub(crate) struct Weights<'a> {
    pub(crate) first: u16,
    pub(crate) sizes: &'a [Size],
}

/// A symbol's place among `count` that begin at `first`.
pub(crate) fn place_of(first: u16, count: usize, symbol: u16) -> Option<usize>
    ensures there { IfSome result (λ k. (symbol ≡ first + k) × (k < count)) }
    ensures not { IfNone result ((symbol < first) ⊎ (first + count ≤ symbol)) }
{
    if symbol < first {
        return None;
    }
    let place = usize::from(symbol - first);
    if place < count { Some(place) } else { None }
}

/// The size of a symbol.
pub(crate) fn weight(weights: &Weights, symbol: u16) -> Size
    ensures { result ≡ size_at weights.now symbol }
{
    match place_of(weights.first, weights.sizes.len(), symbol) {
        Some(place) => weights.sizes[place],
        None => Size {
            many: 1,
            longest: 1,
        },
    }
}

/// Whether some step has no expansion.
pub(crate) fn is_void(weights: &Weights, steps: &[NumberedStep]) -> bool
    ensures void { IsTrue result → weigh (many_of weights.now) steps.now ≡ 0 }
    ensures not { IsFalse result → 1 ≤ weigh (many_of weights.now) steps.now }
{
    for step in steps {
        if weight(weights, step.symbol).many == 0 {
            return true;
        }
    }
    false
}

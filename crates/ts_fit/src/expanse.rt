//! The positions of a regular expression once its repeats are written out: the expression comes in,
//! and what goes out is their count, up to a bound.

ghost use Rattle.std.specs.Prelude.{◌≡◌, ◌+◌, ◌*◌, ◌<◌, ◌≤◌, ◌^◌, min, sum, map};
ghost use Rattle.ts_fit.specs.Bounds.{many_positions};
ghost use Rattle.spec_tables.specs.Fit as fit;

use ts_core::Re;

/// One more than the most positions of all tokens and separators. Counts go no further.
pub const MANY_POSITIONS: u64 = 65_537;

pub(crate) fn plus(first: u64, second: u64) -> u64
    requires { (first ≤ many_positions) × (second ≤ many_positions) }
    ensures { result ≡ min many_positions (first + second) }
{
    (first + second).min(MANY_POSITIONS)
}

/// How often a repeat counts what it repeats.
fn times(least: u32, most: Option<u32>) -> u64
    ensures times { result ≡ fit.times least most }
    ensures few { result < 2 ^ 32 }
{
    match most {
        None => u64::from(least.max(1)),
        Some(most) => u64::from(most),
    }
}

/// The positions, or `MANY_POSITIONS` where there are more.
#[cycle(positions)]
#[tactic(auto, using(crate::proofs::CapLemmas::capped_right))]
pub fn positions(re: &Re) -> u64
    ensures counted { result ≡ min many_positions (fit.positions re.now) }
    ensures few { result ≤ many_positions }
{
    match re {
        Re::Empty => 0,
        Re::Set(_) => 1,
        Re::Cat(parts) => positions_of_all(parts.as_slice()),
        Re::Alt(parts) => positions_of_all(parts.as_slice()),
        Re::Repeat(inner, least, most) => {
            let inner = positions(inner.get());
            (times(*least, *most) * inner).min(MANY_POSITIONS)
        },
    }
}

/// The positions of all expressions together, or `MANY_POSITIONS` where there are more.
#[cycle(positions)]
pub fn positions_of_all(parts: &[Re]) -> u64
    ensures counted { result ≡ min many_positions (sum (map fit.positions parts.now)) }
    ensures few { result ≤ many_positions }
{
    let mut all = 0;
    for part in parts {
        all = plus(all, positions(part));
    }
    all
}

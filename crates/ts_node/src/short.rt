//! A short form of what a rule's node says of itself, in 24 bytes where a summary takes 40: a
//! summary of small numbers goes in, the short form comes out, and the same summary out of it.
ghost use Rattle.std.specs.Prelude.{◌≡◌, IfSome};
ghost use Rattle.ts_node.specs.Short.{state_in, summary_of};

use crate::node::Summary;
use ts_core::Symbol;

/// What stands in the short form where no state was fixed.
const NO_STATE: u16 = 65_535;

/// A summary whose numbers are small. What is read most has the width that it has in a summary and
/// lies where it lies there, so that one read serves both.
#[derive(Clone, Copy)]
pub(crate) struct ShortSummary {
    pub symbol: Symbol,
    pub depth: u16,
    pub size: u32,
    pub pad: u32,
    pub extent: u32,
    pub settled: bool,
    pub dynamic: i8,
    pub nodes: u16,
    pub production: u16,
    /// The state below it, or `NO_STATE`.
    pub state: u16,
}

impl ShortSummary {
    /// The short form of a summary, or `None` where a number does not fit it.
    pub(crate) fn of(summary: Summary) -> Option<ShortSummary>
        ensures { IfSome result (λ short. summary_of short ≡ summary) }
    {
        Some(ShortSummary {
            symbol: summary.symbol,
            depth: summary.depth,
            size: summary.size,
            pad: summary.pad,
            extent: summary.extent,
            settled: summary.settled,
            dynamic: i8::try_from(summary.dynamic).ok()?,
            nodes: u16::try_from(summary.nodes).ok()?,
            production: u16::try_from(summary.production).ok()?,
            state: short_state(summary.state)?,
        })
    }

    /// The summary that it is the short form of.
    #[inline(always)]
    pub(crate) fn summary(&self) -> Summary
        ensures { result ≡ summary_of self.now }
    {
        Summary {
            symbol: self.symbol,
            depth: self.depth,
            size: self.size,
            pad: self.pad,
            extent: self.extent,
            settled: self.settled,
            state: self.state(),
            nodes: self.nodes as u32,
            production: self.production as u32,
            dynamic: self.dynamic as i64,
        }
    }

    /// The state below it, where one was fixed.
    fn state(&self) -> Option<u16>
        ensures { result ≡ state_in self.now.state }
    {
        if self.state < NO_STATE {
            Some(self.state)
        } else {
            None
        }
    }
}

/// What stands in the short form for a state, or for none. A state that would stand for none does
/// not fit it.
fn short_state(state: Option<u16>) -> Option<u16>
    ensures { IfSome result (λ short. state_in short ≡ state) }
{
    match state {
        None => Some(NO_STATE),
        Some(state) => if state < NO_STATE { Some(state) } else { None },
    }
}

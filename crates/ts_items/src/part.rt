//! Sets of items as parts: each a production, a dot, and the number of a set of tokens.

use indexmap::IndexSet;
use ts_bits::BitSet;

/// A production with a dot in it, and all tokens that may come after it.
#[derive(Debug, Clone, Copy, PartialEq, Eq, PartialOrd, Ord, Hash)]
pub struct Part {
    /// One more than the number of the production, and 0 for the start item.
    pub line: u16,
    /// How many steps of the production are before the dot.
    pub dot: u16,
    /// The place of the set of tokens.
    pub tokens: usize,
}

/// Where a set leads over a symbol.
#[derive(Debug, Clone, Copy, PartialEq, Eq)]
pub struct Goto {
    /// The symbol before which some item of the set has its dot.
    pub symbol: u16,
    /// The number of the set of the items past it.
    pub state: u16,
}

/// A set of items, and where it leads.
#[derive(Debug, Drop)]
pub struct State {
    /// The items, in no order. Parts with the same production and dot have the same tokens.
    pub parts: Vec<Part>,
    /// Where the set leads, the symbols rising.
    pub gotos: Vec<Goto>,
}

/// The sets of items of a grammar, each by its number.
#[derive(Drop)]
pub struct Items {
    /// The sets of tokens for which parts have a place.
    pub tokens: IndexSet<BitSet>,
    /// The sets of items. That of the start item is the first.
    pub states: Vec<State>,
    /// For each symbol the tokens with which it can begin.
    pub firsts: Vec<BitSet>,
}

//! What the productions of a grammar are made of, by numbers.

use ts_core::Alias;
use ts_rules::Tree;

/// The rule trees of a grammar by numbers. A symbol below `first_inlined` stays, and the symbol
/// `first_inlined + k` stands for the inlined rule of place `k`.
#[derive(Clone, Copy)]
pub struct Sources<'a> {
    /// Of the rules that have symbols, in symbol order.
    pub rules: &'a [Tree],
    /// Of the contents of the repetitions, in symbol order.
    pub contents: &'a [Tree],
    /// The symbol of the first repetition.
    pub first_repetition: u16,
    /// Of the inlined rules, in file order.
    pub inlined: &'a [Tree],
    /// The number that stands in trees for the first inlined rule, which has no symbol.
    pub first_inlined: u16,
    /// The places of all inlined rules, each after those of the inlined rules that it steps to.
    pub order: &'a [usize],
    /// An alias's place is its number in the trees.
    pub aliases: &'a [Alias],
}

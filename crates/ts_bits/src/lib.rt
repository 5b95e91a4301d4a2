//! Sets of small numbers, held as bits: numbers and sets go in, and sets and their least numbers
//! come out.
#![tactic(auto)]

mod laws;
mod set;
#[cfg(test)]
mod tests;

pub use laws::same_words;
pub use set::BitSet;

//! What a parser may take over of an old tree: a marked tree goes in, and the topmost fit node at a
//! place for a state, or settled elements of a repetition, come out.
#![tactic(auto)]

mod elements;
mod offering;
mod offers;
mod old;
#[cfg(test)]
mod tests;
mod topmost;
mod way;

pub use elements::Elements;
pub use offering::Offering;
pub use offers::{Nothing, Offers};
pub use old::Old;

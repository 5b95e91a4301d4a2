//! Shared lists that do not change: items and other lists go in, lists come out that share their
//! parts with those they were made of.
#![tactic(auto)]

mod part;
mod seq;
#[cfg(test)]
mod tests;

pub use seq::Seq;

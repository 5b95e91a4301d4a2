//! Tests of what a parse takes over of an old tree, over the whole way from a grammar file on. For
//! them there are offers that are not honest: a node goes in, and whatever the text at hand, it is
//! offered at every place for every state.
#![tactic(auto)]

mod anywhere;
#[cfg(test)]
mod elements;
#[cfg(test)]
mod lexing;
#[cfg(test)]
mod marks;
#[cfg(test)]
mod offers;

pub use anywhere::Anywhere;

//! The rules of a grammar in normal form: what comes in are a grammar file and its numbers, and
//! what goes out are the rules with their productions, where these are within the limits.
#![tactic(auto)]

mod rules;
mod trees;

pub use rules::flat_rules;

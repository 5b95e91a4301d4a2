//! The order in which clients take their turns: a word in, the clients' numbers out.
#![tactic(auto)]

mod laws;
mod number;
#[cfg(test)]
mod tests;
mod word;

pub use laws::spelled_once;
pub use word::turns;

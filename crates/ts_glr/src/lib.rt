//! The parser that keeps all readings: a parse table, a lexer, a text and nodes of an old tree go
//! in; the outcome of the text comes out, over all ways to read it.
#![tactic(auto)]

mod acting;
mod choosing;
mod crossing;
mod laws;
mod nothing;
mod outcome;
mod parsing;
mod readings;
mod spread;
mod turning;

pub use outcome::Outcome;
pub use parsing::{parse, parse_with};

//! Lexing: a text, a place and the valid tokens go in; the token that stands there comes out,
//! behind its separators, with how far the text was looked at.
#![tactic(auto)]

mod ahead;
mod answering;
mod choosing;
mod engine;
mod judging;
mod laws;
mod lexed;
mod lexer;
mod marking;
mod passing;
mod progress;
mod rules;
mod scanned;
mod scanning;
mod states;
#[cfg(test)]
mod tests;
mod tokens;
mod verdict;
mod view;
mod walking;
mod ways;
mod within;

pub use laws::{one_lexed, same_tokens, tokens_of_states};
pub use lexed::Lexed;
pub use lexer::Lexer;
pub use tokens::{Content, Tokens};

//! What stays true from one step of a parser to the next: laws alone. No value goes in or out.
#![tactic(auto)]

mod laws;

pub use laws::{no_new_tokens, same_token_again, some_move_stays};

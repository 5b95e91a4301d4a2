//! What a run of a script may come to: the journal of each document, the text of each version, and
//! the reply to each step. There is no code here but laws of these definitions.
#![tactic(auto)]

mod finder;
mod laws;

pub use finder::Finder;
pub use laws::{found_one_by_one, held_never_falls};

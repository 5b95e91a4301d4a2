//! Patterns, the regular expressions of a grammar file: from the text of a pattern to an `Re`, or
//! to the fault that it has.
#![tactic(auto)]

mod chars;
mod class;
mod escape;
mod fault;
mod item;
mod laws;
mod level;
mod limits;
mod outcome;
mod property;
mod reader;
mod sets;
mod sight;
mod sign;
mod stack;
mod state;

pub use fault::PFault;
pub use laws::{one_fault, one_pattern, refused_is_not_read, spellings_are_formed};
pub use reader::pattern;

//! Language files: a grammar in normal form as bytes, and back.
#![tactic(auto)]

mod fault;
mod flaw;
mod grammar;
mod known;
mod laws;
mod part;
mod re;
mod reader;
mod rule;
mod symbols;
mod token;
mod writer;

pub use fault::LangFault;
pub use laws::{one_fault, one_grammar, read_is_written, refused_is_not_read, written_is_read};
pub use reader::{fields, read};
pub use writer::write;

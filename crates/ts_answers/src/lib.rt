//! The answers of queries: queries that were read, a grammar, a text, its tree and a host go in;
//! what each query comes to comes out, as lines tell it.
#![tactic(auto)]

mod answering;
mod keeping;
mod queries;
mod showing;

pub use answering::{answer, answers};
pub use queries::Queries;

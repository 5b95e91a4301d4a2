//! The automaton that reads the tokens and the separators of a grammar: a grammar in normal form
//! goes in, and nodes come out, which lead on over characters, with a first node for each token and
//! separator.
#![tactic(auto)]

mod automaton;
mod classes;
mod closing;
mod compile;
mod machine;
mod node;
mod node_set;
mod numbering;
mod part;
mod room;
mod tables;
mod walk;

pub use automaton::{Automaton, build};
pub use machine::{Machine, Reader, reader_of};
pub use node::Node;
pub use tables::SetTables;
pub use walk::Walk;

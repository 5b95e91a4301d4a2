//! The tables of a machine, which contracts see: the sets of nodes in which an automaton can be, by
//! number, and where each leads.

use crate::automaton::Automaton;
use indexmap::IndexSet;

/// An automaton, its sets of nodes by number, and where each leads.
#[derive(Drop)]
pub struct SetTables {
    pub automaton: Automaton,
    pub sets: IndexSet<Vec<usize>>,
    /// The set to which each set leads over each class of characters.
    pub rows: Vec<Vec<usize>>,
    /// The first character of each class.
    pub bounds: Vec<u32>,
    /// The class of each ASCII character.
    pub ascii: Vec<usize>,
    /// The set of the first nodes of all parts.
    pub first: usize,
}

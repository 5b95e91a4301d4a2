//! The two ways of lexing a place: by the tables of a machine, or from node to node where its sets
//! are too many for tables.

use crate::ahead::LexTables;
use crate::rules::Rules;
use ts_automata::Automaton;

/// What a lexer has where there are no tables.
#[derive(Drop)]
pub(crate) struct LexNodes {
    pub automaton: Automaton,
    pub rules: Rules,
}

/// What a lexer has made ahead of all texts.
#[derive(Drop)]
pub(crate) enum Way {
    Tables(LexTables),
    Nodes(LexNodes),
}

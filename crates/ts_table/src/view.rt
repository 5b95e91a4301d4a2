//! What a table comes to, as contracts see it: a grammar, and a row for each of its states.

use ts_core::{Action, FlatGrammar, List};

/// What one state says.
#[derive(Drop)]
pub struct StateRow {
    /// For each symbol, the state to which this one leads over it.
    pub gotos: List<Option<u16>>,
    /// For the end and then for each token, the actions.
    pub actions: List<List<Action>>,
}

/// A parse table: a grammar, and the row of each state by its number.
#[derive(Drop)]
pub struct ParseTable {
    pub grammar: FlatGrammar,
    pub rows: List<StateRow>,
}

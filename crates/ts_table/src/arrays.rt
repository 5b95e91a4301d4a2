//! The rows of a table as they are held: equal rows once, and equal lists of actions once. The
//! numbers of states and symbols go in, and what stands there comes out, in constant time.
ghost use Rattle.std.specs.Prelude.{◌≡◌, ℕ, ◌<◌, length};
ghost use Rattle.ts_table.specs.Arrays.{items_at, state_in, table_rows};

use indexmap::IndexSet;
use ts_core::Action;

/// What stands for no state.
pub(crate) const NO_STATE: u16 = 65_535;

/// Where the rows of a state stand.
#[derive(Debug, Clone, Copy)]
pub(crate) struct RowPlaces {
    pub gotos: usize,
    pub actions: usize,
}

/// The rows of the states. Each list stands once.
#[derive(Drop)]
pub(crate) struct Arrays {
    pub states: Vec<RowPlaces>,
    /// For each symbol the state to which a state leads, or `NO_STATE`.
    pub gotos: IndexSet<Vec<u16>>,
    /// For the end and each token the place of a list of actions.
    pub actions: IndexSet<Vec<u32>>,
    pub lists: IndexSet<Vec<Action>>,
}

/// The state for which a number stands.
pub(crate) fn state_of(number: u16) -> Option<u16>
    ensures { result ≡ state_in number }
{
    if number == NO_STATE {
        None
    } else {
        Some(number)
    }
}

/// The row of gotos at a place.
fn goto_row(rows: &IndexSet<Vec<u16>>, at: usize) -> &[u16]
    ensures { result.now ≡ items_at rows.now.keys at }
{
    match rows.get_index(at) {
        Some(row) => row.as_slice(),
        None => &[],
    }
}

/// The row of lists at a place.
fn action_row(rows: &IndexSet<Vec<u32>>, at: usize) -> &[u32]
    ensures { result.now ≡ items_at rows.now.keys at }
{
    match rows.get_index(at) {
        Some(row) => row.as_slice(),
        None => &[],
    }
}

/// The list of actions at a place.
fn list_at(lists: &IndexSet<Vec<Action>>, at: usize) -> &[Action]
    ensures { result.now ≡ items_at lists.now.keys at }
{
    match lists.get_index(at) {
        Some(list) => list.as_slice(),
        None => &[],
    }
}

impl Arrays {
    ghost use Rattle.ts_table.specs.Tables.{goto_of, actions_of};
    ghost use Rattle.ts_table.specs.Arrays.{goto_by, actions_by};

    /// The state to which a state leads over a symbol.
    pub(crate) fn goto(&self, state: u16, symbol: u16) -> Option<u16>
        ensures { result ≡ goto_by self.now state symbol }
    {
        let state = usize::from(state);
        if state >= self.states.len() {
            return None;
        }
        let row = goto_row(&self.gotos, self.states[state].gotos);
        let symbol = usize::from(symbol);
        if symbol >= row.len() {
            return None;
        }
        state_of(row[symbol])
    }

    /// The actions of a state on a token.
    pub(crate) fn actions(&self, state: u16, token: u16) -> &[Action]
        ensures { result.now ≡ actions_by self.now state token }
    {
        let state = usize::from(state);
        if state >= self.states.len() {
            return &[];
        }
        let row = action_row(&self.actions, self.states[state].actions);
        let token = usize::from(token);
        if token >= row.len() {
            return &[];
        }
        list_at(&self.lists, row[token] as usize)
    }
}

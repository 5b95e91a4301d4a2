//! The table of a parser: a state and a symbol go in, and the actions, or the next state, come
//! out in constant time.
ghost use Rattle.std.specs.Prelude.{◌≡◌, ℕ, ◌≤◌, ◌∷◌, List, length, Some, IfSome, IsSome, ◌↔◌};
ghost use Rattle.std.specs.List.{Contains};
ghost use Rattle.ts_core.specs.declared.action.Action.{Action as AnyAction};
ghost use Rattle.ts_table.specs.Tables.{goto_of, actions_of, most_actions, IsStateOf, StandsBefore, ActsBy, EachOnce, IsTable};

use crate::arrays::Arrays;
use std::marker::Model;
use ts_core::{Action, FlatGrammar, Symbol};

/// A parse table of a grammar, by the sets of its valid LR(1) items (Knuth). State 0 is that of the
/// beginning.
#[derive(Drop)]
pub struct Table {
    pub(crate) grammar: FlatGrammar,
    pub(crate) arrays: Arrays,
}

impl Model for Table {
    ghost use Rattle.ts_table.specs.declared.view.ParseTable.{ParseTable};
    ghost use Rattle.ts_table.specs.contracts.view.ParseTable as contract;
    ghost use Rattle.std.specs.Coded.{codes};
    ghost use Rattle.ts_table.specs.Arrays.{table_of};
    ghost use Rattle.ts_table.specs.Tables.{IsTable};

    ghost Value = { ParseTable };

    ghost coded = { Prim.hlevel (codes, contract.the_row.coded) };

    ghost view = { λ a. table_of a.grammar a.arrays };

    ghost invariant = { λ a. IsTable (table_of a.grammar a.arrays) };
}

impl Table {
    /// The states stand for the sets of valid items. A call of it only tells this.
    pub fn stands(&self)
        ensures { IsTable self.now }
    {
        let _ = &self.grammar;
    }

    /// The grammar.
    pub fn grammar(&self) -> &FlatGrammar
        ensures { result.now ≡ self.now.grammar }
    {
        &self.grammar
    }

    /// How many states there are.
    pub fn states(&self) -> u32
        ensures { result ≡ length self.now.rows }
    {
        self.arrays.states.len() as u32
    }

    /// The actions of a state on a token, or on the end, each once. There are none where there is
    /// no such state.
    pub fn actions(&self, state: u16, token: Symbol) -> &[Action]
        ensures list { result.now ≡ actions_of self.now state token.0 }
        ensures exact { (read : List ℕ) (a : AnyAction) → IsStateOf self.now read state
            → Contains result.now a ↔ ActsBy self.now read token.0 a }
        ensures once { EachOnce result.now }
        ensures few { length result.now ≤ most_actions self.now }
    {
        self.arrays.actions(state, token.0)
    }

    /// The state to which a state leads over a symbol. `None` comes exactly where the state has no
    /// item before that symbol, and where there is no such state.
    pub fn goto(&self, state: u16, symbol: Symbol) -> Option<u16>
        ensures next { result ≡ goto_of self.now state symbol.0 }
        ensures leads { (read : List ℕ) → IsStateOf self.now read state
            → IfSome result (IsStateOf self.now (symbol.0 ∷ read)) }
        ensures exact { (read : List ℕ) → IsStateOf self.now read state
            → IsSome result ↔ StandsBefore self.now.grammar read symbol.0 }
    {
        self.arrays.goto(state, symbol.0)
    }
}

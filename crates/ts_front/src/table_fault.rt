//! Why a grammar has no parse table.
use std::alloc::AllocError;
use thiserror::Error;
use ts_core::{FlatGrammar, List, Symbol};
use ts_items::ItemFault;
use ts_table::TableFault;

/// Why a grammar has no parse table.
#[derive(Debug, Error, Drop)]
pub enum NoTable {
    /// There are more than 65,535 sets of items. The number is 65,536.
    #[error("too many states")]
    TooManyStates(u32),
    /// A conflict on the token between these rules, which rise, is not declared.
    #[error("a conflict that is not declared")]
    Conflict {
        grammar: FlatGrammar,
        token: Symbol,
        rules: List<Symbol>,
    },
    /// Memory ran out.
    #[error("out of memory")]
    Memory,
}

impl From<AllocError> for NoTable {
    ghost use Rattle.std.specs.Prelude.{◌≡◌};
    ghost use Rattle.ts_front.specs.declared.table_fault.NoTable.TheVariants.{Memory};

    ghost from_gives = { λ _ e. e ≡ Memory };

    fn from(_: AllocError) -> NoTable {
        NoTable::Memory
    }
}

impl From<ItemFault> for NoTable {
    ghost use Rattle.std.specs.Prelude.{◌≡◌};
    ghost use Rattle.ts_front.specs.TableGives.{items_fault};

    ghost from_gives = { λ cause e. e ≡ items_fault cause };

    fn from(cause: ItemFault) -> NoTable {
        match cause {
            ItemFault::TooManyStates(states) => NoTable::TooManyStates(states),
            ItemFault::Memory => NoTable::Memory,
        }
    }
}

impl From<TableFault> for NoTable {
    ghost use Rattle.std.specs.Prelude.{◌≡◌};
    ghost use Rattle.ts_front.specs.TableGives.{table_fault};

    ghost from_gives = { λ cause e. e ≡ table_fault cause };

    fn from(cause: TableFault) -> NoTable {
        match cause {
            TableFault::Conflict {
                grammar,
                token,
                rules,
            } => NoTable::Conflict {
                grammar,
                token,
                rules,
            },
            TableFault::Memory => NoTable::Memory,
        }
    }
}

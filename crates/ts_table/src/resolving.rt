//! Tables from sets of items: a grammar and its sets go in, and its table comes out, or the
//! conflict for which there is none.
ghost use Rattle.std.specs.Prelude.{◌≡◌, List, ◌⊎◌, IfOk, IfErr};
ghost use Rattle.ts_core.specs.declared.symbol.Symbol.{Symbol as Symbols};
ghost use Rattle.spec_tables.specs.Fit.{Fit};
ghost use Rattle.spec_tables.specs.Conflicts.{IsFirstUndeclared};
ghost use Rattle.ts_items.specs.Collection.{StandsFor};
ghost use Rattle.ts_table.specs.declared.resolving.TableFault.TheVariants.{Conflict, Memory};

use crate::building::{Built, build};
use crate::marks::Marks;
use crate::refusals::Refusal;
use crate::table::Table;
use std::alloc::{AllocError, Global};
use thiserror::Error;
use ts_core::{FlatGrammar, List, Symbol};
use ts_items::Items;

/// Why there is no table.
#[derive(Debug, Error, PartialEq, Eq, Drop)]
pub enum TableFault {
    /// More than one action stays on the token after some symbols, and no declared conflict has
    /// just these rules. The rules rise. The grammar is given back, for their names.
    #[error("a conflict that is not declared")]
    Conflict {
        grammar: FlatGrammar,
        token: Symbol,
        rules: List<Symbol>,
    },
    /// Memory ran out.
    #[error("out of memory")]
    Memory,
}

impl From<AllocError> for TableFault {
    ghost use Rattle.std.specs.Prelude.{◌≡◌};
    ghost use Rattle.ts_table.specs.declared.resolving.TableFault.TheVariants.{Memory};

    ghost from_gives = { λ _ e. e ≡ Memory };

    fn from(_: AllocError) -> TableFault {
        TableFault::Memory
    }
}

/// The fault of a conflict.
fn fault_of(grammar: FlatGrammar, refusal: Refusal) -> TableFault
    ensures { result ≡ Conflict grammar (record { 0 = refusal.token }) refusal.rules.items }
{
    TableFault::Conflict {
        grammar,
        token: Symbol(refusal.token),
        rules: List::from_vec(refusal.rules),
    }
}

/// The table of a grammar by its sets of items, with precedences, associativities and declared
/// conflicts as Tree-sitter's documentation has them.
///
/// # Errors
///
/// `Conflict` where a conflict is not declared: of these the one of the least token, and of those
/// on it the one of the least rules, compared symbol by symbol. `Memory` where memory runs out.
pub fn resolve(alloc: Global, flat: FlatGrammar, items: &Items) -> Result<Table, TableFault>
    requires fit { Fit flat }
    requires items { StandsFor flat items.now }
    ensures grammar { IfOk result (λ table. table.grammar ≡ flat) }
    ensures conflict { IfErr result (λ e. (e ≡ Memory) ⊎ ((token : Symbols) × (rules : List Symbols)
        × (e ≡ Conflict flat token rules) × IsFirstUndeclared flat token.0 rules)) }
{
    let marks = Marks::of(alloc, &flat)?;
    let built = build(alloc, &flat, &marks, items)?;
    let Built { arrays, least } = built;
    match least {
        Some(refusal) => Err(fault_of(flat, refusal)),
        None => Ok(Table {
            grammar: flat,
            arrays,
        }),
    }
}

//! A grammar in normal form in; its parse table out, or why there is none.
ghost use Rattle.std.specs.Prelude.{◌≡◌, ◌⊎◌, Ok, Err, IfOk, IfErr};
ghost use Rattle.spec_tables.specs.Fit.{Fit};
ghost use Rattle.ts_front.specs.Tables.{HasNoTable, HasTable};
ghost use Rattle.ts_front.specs.declared.table_fault.NoTable.{NoTable as AnyFault};
ghost use Rattle.ts_front.specs.declared.table_fault.NoTable.TheVariants.{Memory};

use crate::laws::one_table_fault;
use crate::table_fault::NoTable;
use std::alloc::Global;
use ts_core::FlatGrammar;
use ts_items::collection;
use ts_table::{Table, resolve};

/// The parse table of a grammar.
///
/// # Errors
///
/// `TooManyStates` where there are more than 65,535 sets of items, else `Conflict` where a conflict
/// is not declared, as `ts_table::resolve` tells it. `Memory` may come at any time.
pub fn table_of(alloc: Global, grammar: FlatGrammar) -> Result<Table, NoTable>
    requires { Fit grammar }
    ensures grammar { IfOk result (λ table. table.grammar ≡ grammar) }
    ensures has { IfOk result (λ table. HasTable grammar) }
    ensures refused { IfErr result (λ e. (e ≡ Memory) ⊎ HasNoTable grammar e) }
    ensures exact { (e : AnyFault) → HasNoTable grammar e
        → (result ≡ Err e) ⊎ (result ≡ Err Memory) }
{
    one_table_fault();
    built(alloc, grammar)
}

/// The same, without the clause on what is exact.
fn built(alloc: Global, grammar: FlatGrammar) -> Result<Table, NoTable>
    requires { Fit grammar }
    ensures grammar { IfOk result (λ table. table.grammar ≡ grammar) }
    ensures has { IfOk result (λ table. HasTable grammar) }
    ensures refused { IfErr result (λ e. (e ≡ Memory) ⊎ HasNoTable grammar e) }
{
    let items = collection(alloc, &grammar)?;
    let table = resolve(alloc, grammar, &items)?;
    table.stands();
    Ok(table)
}

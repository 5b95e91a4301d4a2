//! What stays the same through a parse: a table and the size of a text go in; the productions of
//! the table's grammar by their numbers, with that size, come out.
ghost use Rattle.std.specs.Prelude.{◌≡◌, ◌≤◌, IfOk};
ghost use Rattle.spec_trees.specs.Made.{most_span};
ghost use Rattle.ts_steps.specs.Settings.{IsParseSetting};

use crate::lines::{ProductionLine, lines_of};
use std::alloc::{AllocError, Global};
use ts_core::List;
use ts_node::Productions;
use ts_table::Table;

/// The productions of the grammar, and the size of the text in bytes.
#[derive(Drop)]
pub struct ParseSetting {
    pub(crate) productions: Productions,
    pub(crate) lines: List<ProductionLine>,
    pub size: u32,
}

/// The setting of a parse, in time by the number of productions.
///
/// # Errors
///
/// `AllocError` where memory runs out.
pub fn parse_setting(alloc: Global, table: &Table, size: u32) -> Result<ParseSetting, AllocError>
    requires { size ≤ most_span }
    ensures { IfOk result (IsParseSetting table.now size) }
{
    table.stands();
    let flat = table.grammar();
    let productions = Productions::new(alloc, flat)?;
    let lines = lines_of(alloc, flat)?;
    Ok(ParseSetting {
        productions,
        lines,
        size,
    })
}

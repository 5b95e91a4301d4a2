//! What stays the same through a parse: a table and the size of a text go in; the productions of
//! the table's grammar by their numbers, the ranks of its symbols, and the size come out.
ghost use Rattle.std.specs.Prelude.{◌≡◌, ℕ, ◌≤◌, IfOk};
ghost use Rattle.ts_core.specs.declared.flat.Production.{Production};
ghost use Rattle.spec_trees.specs.Made.{most_span};
ghost use Rattle.ts_table.specs.declared.view.ParseTable.{ParseTable};
ghost use Rattle.ts_reductions.specs.Lines.{IsSetting, HasProduction, IsWanted};

use crate::lines::{Line, lines_of};
use crate::ranks::ranks_of;
use std::alloc::{AllocError, Global};
use ts_core::List;
use ts_node::Productions;
use ts_table::Table;

/// The productions of the grammar, the ranks of its symbols, and the size of the text in bytes.
#[derive(Drop)]
pub struct Setting {
    pub(crate) productions: Productions,
    pub(crate) lines: List<Line>,
    pub(crate) ranks: List<u32>,
    pub size: u32,
}

/// What a production asks for: how many trees it takes, and the rank of its rule.
#[derive(Clone, Copy)]
pub struct Wanted {
    pub steps: usize,
    pub rank: u32,
}

impl Setting {
    /// What the production of a number asks for.
    pub fn wanted(&self, number: u32) -> Wanted
        requires { (t : ParseTable) × (size left : ℕ) × (p : Production)
            × IsSetting t size self.now × HasProduction t number left p }
        ensures { (t : ParseTable) (size left : ℕ) (p : Production)
            → IsSetting t size self.now → HasProduction t number left p
            → IsWanted t left p result }
    {
        let line = *self.lines.get(number as usize);
        let rank = *self.ranks.get(usize::from(line.left.0));
        Wanted {
            steps: line.steps,
            rank,
        }
    }
}

/// The setting of a parse, in time by the number of productions and by the greatest rank.
///
/// # Errors
///
/// `AllocError` where memory runs out.
pub fn setting_of(alloc: Global, table: &Table, size: u32) -> Result<Setting, AllocError>
    requires short { size ≤ most_span }
    ensures { IfOk result (IsSetting table.now size) }
{
    table.stands();
    let flat = table.grammar();
    let productions = Productions::new(alloc, flat)?;
    let lines = lines_of(alloc, flat)?;
    let ranks = ranks_of(alloc, flat)?;
    Ok(Setting {
        productions,
        lines,
        ranks,
        size,
    })
}

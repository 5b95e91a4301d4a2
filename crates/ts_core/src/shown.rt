//! A node of the visible tree, as the cursor gives it and the printed line has it.

use ts_base::{List, Str};

/// A node of the visible tree, as it is printed. Places, rows and columns are counted from 0;
/// columns and places are in bytes.
#[derive(Debug, PartialEq, Eq, Drop)]
pub struct Shown {
    /// How many nodes it stands in. The root's is 0.
    pub depth: u32,
    pub name: Str,
    pub named: bool,
    /// The names of the fields that it fills, each once.
    pub fields: List<Str>,
    pub start: u32,
    pub end: u32,
    /// The row of its start.
    pub row: u32,
    /// The column of its start.
    pub column: u32,
}

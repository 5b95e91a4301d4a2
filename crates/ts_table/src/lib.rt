//! Parse tables: a grammar in normal form and its sets of items go in, and a table comes out that
//! has, for each state, the actions on each token and where it leads over each symbol.
#![tactic(auto)]

mod arrays;
mod building;
mod candidates;
mod cells;
mod conflicts;
mod deciding;
mod laws;
mod marks;
mod orderings;
mod refusals;
mod resolving;
mod rows;
mod table;
mod view;

pub use laws::unit_ranks;
pub use resolving::{TableFault, resolve};
pub use table::Table;
pub use view::{ParseTable, StateRow};

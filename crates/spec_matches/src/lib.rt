//! The matches of queries in visible trees, as contracts see them. There is no code here.
#![tactic(auto)]

mod found;
mod laws;
mod placing;
mod scene;

pub use found::{Capture, Match};
pub use laws::{one_list, one_order, order_by_parts};
pub use placing::{Placing, Run, Slot};
pub use scene::Scene;

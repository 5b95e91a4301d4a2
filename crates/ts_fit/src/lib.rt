//! Whether a grammar in normal form can be used: what comes in is the grammar, and what goes out is
//! the first cause why it can't, or nothing.
#![tactic(auto)]

mod causes;
mod cyclic;
mod empty;
mod expanse;
mod laws;
mod leading;
mod limits;
mod places;
mod repetitions;
mod straight;
mod words;

pub use causes::misfit;
pub use cyclic::first_cyclic;
pub use empty::{first_empty_rule, first_empty_token};
pub use expanse::{positions, positions_of_all};
pub use laws::only_an_unused_start_is_empty;
pub use limits::has_few_positions;
pub use repetitions::first_bad_repetition;
pub use words::matches_nothing;

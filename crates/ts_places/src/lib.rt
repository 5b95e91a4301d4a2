//! One place of a text on a graph of stacks, and the next: the graph and the heads that stand at
//! the place or past it go in, and the graph with all that is done at the place comes out, with
//! what its heads there see and where it goes on. What ends there is kept: the heads that accept,
//! and the greatest place at which one stops; and at last the best tree that the graph accepts at
//! these heads comes out. Texts of nothing but extras, where a reduction over nothing stays, are
//! told by themselves: no graph is followed over them.
#![tactic(auto)]

mod best;
mod choosing;
mod end_laws;
mod ends;
mod following;
mod frontier;
mod kept;
mod laws;
mod looking;
mod nothing;
mod roots;
mod seeking;
mod shift_laws;
mod shifting;
mod sights;
mod sweep_laws;
mod sweeping;
mod turns;

pub use best::best_of;
pub use end_laws::{ends_account, ends_begin, ends_stay, ends_tell_the_outcome, roots_are_own};
pub use ends::{Ends, see_ends};
pub use following::{Next, follow_place};
pub use frontier::Frontier;
pub use nothing::is_of_nothing;
pub use sights::{Sights, Span};

//! Turns by which several clients, each on a thread of its own, share one journal. In go looks and
//! offers of items, and out come the turn of each, the journal as it was at that turn, and at the
//! end the journal.
//!
//! A shelf has one word and one slot. The word `2t` says that `t` turns are over, and the journal
//! lies in the slot. The word `2t + 1` says that turn `t` is held by one pass, which carries the
//! journal. A turn is one look or one offer. How many passes a shelf has is not limited here.
#![tactic(auto)]

mod journal;
mod pass;
mod plays;
mod shelf;
#[cfg(test)]
mod tests;
mod turnstile;
mod view;

pub use journal::{Entry, Journal};
pub use pass::Pass;
pub use shelf::{Denied, Offered, Seen, Shelf};
pub use turnstile::MOST_TURNS;
pub use view::Knowledge;

//! Replays: a script, the texts of its documents and an order of its clients' steps go in; the
//! journals of the documents and the replies to the steps come out. All runs on one thread. What a
//! step does before its turn is a call of its own, which runs on threads make too.
#![tactic(auto)]

mod asking;
mod beginning;
mod begun;
mod counting;
mod document;
mod finding;
mod keeping;
mod laws;
mod outcome;
mod replaying;
mod running;
mod sighted;
mod stepping;

pub use asking::asks_no_queries;
pub use beginning::begin;
pub use begun::{Asker, Begun};
pub use counting::{document_of, edits_in, edits_of};
pub use keeping::{keep_for, sight_of};
pub use laws::scripts_may_be_replayed;
pub use replaying::{Replayed, replay};
pub use sighted::Sighted;

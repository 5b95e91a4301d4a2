//! Sessions: the paths of a grammar and a script go in, and a session that can be run, or the
//! refusal of the files, comes out; and a session goes in, with an order of its clients' steps or
//! to run all clients at once, and what is printed of that run comes out.
#![tactic(auto)]

mod answer;
mod first;
mod judging;
mod laws;
mod opened;
mod opening;
mod openings;
mod queries;
mod replaying;
mod running;
mod session;

pub use answer::{Answer, Unanswered};
pub use laws::{
    clear_is_not_refused, clear_is_replayed, clear_is_run, one_refusal, replays_once, runs_once,
};
pub use opened::Opened;
pub use opening::{MOST_FILE_BYTES, Paths, open};
pub use session::Session;

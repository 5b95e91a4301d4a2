//! The work of a client over the shelves of documents: its steps go in, with its pass of each shelf
//! and the version that it holds of each document; a reply to each step comes out, and the passes
//! and the held versions are changed. Other clients may work at the same shelves meanwhile.
#![tactic(auto)]

mod asking;
mod desk;
mod laws;
mod looking;
mod serving;
mod spreading;
mod working;

pub use desk::Desk;
pub use laws::served_step_is_next_reply;
pub use serving::serve;
pub use working::{Client, work};

//! Runs of scripts on threads: a script and the texts of its documents go in; the journals of the
//! documents and the replies to the steps come out. Each client runs on a thread of its own, over
//! one shelf for each document.
#![tactic(auto)]

mod closing;
mod front;
mod hiring;
mod joining;
mod opening;
mod parsed;
mod parsing;
mod running;
mod worker;
mod working;

pub use running::{Ran, run};

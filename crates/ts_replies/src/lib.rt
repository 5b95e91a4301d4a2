//! The lines that tell the replies to the steps of clients, and the faults of scripts: what they
//! say comes in, and compact JSON objects with a newline go out. What the lines of versions say is
//! defined here too.
#![tactic(auto)]

mod fault;
mod line;
mod member;
mod reply;
mod result;
mod told;

pub use fault::{query_fault, script_fault};
pub use reply::{Head, Reply, ShownCapture, ShownMatch, ShownResult};
pub use told::print_reply;

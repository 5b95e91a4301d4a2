//! What is printed of a run: the journals of its documents and the replies to its clients come in,
//! and the lines that tell them go out, in their order.
#![tactic(auto)]

mod entry;
mod line;
mod making;
mod printing;
mod threads;
mod told;
mod version;

pub use printing::{transcript, transcript_on_threads};

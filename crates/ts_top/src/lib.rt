//! The one public call of the program, `run`, over its private parts.
#![tactic(auto)]

mod compile;
mod host;
mod judge;
mod laws;
mod outcome;
mod plain;
mod play;
mod program;
mod stop;

pub use host::AsciiHost;
pub use laws::{answers_once, clean_is_done, done_is_lawful};
pub use program::run;
pub use spec_output::Status;

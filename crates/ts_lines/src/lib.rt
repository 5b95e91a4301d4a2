//! The lines that the program prints: outcomes, faults and statuses come in, and compact JSON
//! objects with a newline go out. The lines of the faults of a grammar stand with its reader.
#![tactic(auto)]

mod faults;
mod line;
mod outcome;
mod status;

pub use faults::{absent, fault, fault_at_name, fault_at_number, text_fault, usage};
pub use outcome::{members_in, send_outcome};
pub use status::number;

//! What the program prints: the line of an outcome, the line of each fault, and the statuses with
//! which it ends. There is no code here.
#![tactic(auto)]

mod outcome;
mod status;

pub use outcome::ShownOutcome;
pub use status::Status;

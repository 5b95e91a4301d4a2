//! What a parse comes to as it is printed: a grammar, a text and the outcome of parsing it go in,
//! and what is shown of the outcome, its line, or the members that tell it in a line come out.
#![tactic(auto)]

mod laws;
mod outcome;
mod printing;
mod tree;

pub use laws::fresh_trees_lie_in_the_text;
pub use outcome::put_outcome;
pub use printing::{outcome_line, outcome_shown};

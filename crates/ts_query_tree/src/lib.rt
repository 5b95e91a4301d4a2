//! The text of a tree query, read into what is written there: patterns with their nodes, fields,
//! captures, groups, alternations, quantifiers, anchors and predicates, each with its place, or the
//! first fault. Which kinds and fields there are is not asked.
#![tactic(auto)]

mod bytes;
mod fault;
mod laws;
mod level;
mod reader;
mod sight;
mod sign;
mod stack;
mod state;
mod step;
mod tree;

pub use fault::TreeFault;
pub use laws::{one_fault, one_query, places_rise, refused_is_not_read, signs_fit};
pub use reader::read;
pub use tree::{Head, Mark, Operand, Part, Quantity, Written};

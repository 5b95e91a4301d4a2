//! The queries of a script: their texts, a grammar and the names of a host's predicates go in; the
//! queries, or the first fault with the number of its query, come out.
#![tactic(auto)]

mod fault;
mod laws;
mod loading;

pub use fault::LoadFault;
pub use laws::{loaded_have_no_faults, one_first_fault};
pub use loading::load;

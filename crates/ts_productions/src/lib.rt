//! The productions of a grammar in normal form: what comes in are the trees of its rules by
//! numbers, and what goes out are the productions that come of them by inlining, each once.
#![tactic(auto)]

mod expansion;
mod fault;
mod flat;
mod inlined;
mod laws;
mod measure;
mod order;
mod productions;
mod prune;
mod rules;
mod sources;
mod spread;
mod totals;
mod weights;

pub use fault::ProductionFault;
pub use laws::{few_productions, limits_of_sources, ordered_sources, repeated_halves};
pub use order::inline_order;
pub use productions::{repetition_productions, rule_productions};
pub use rules::{InlinedRules, inlined_rules};
pub use sources::Sources;

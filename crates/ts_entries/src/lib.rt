//! What a grammar file says of its rules beside their trees, by numbers: its conflicts, orderings
//! of precedences, supertypes, extras and word, and the rules to which its repetitions belong.
#![tactic(auto)]

mod contents;
mod names;
mod orderings;
mod owners;
mod supertypes;

pub use names::{extra_symbols, rule_symbol, word_symbol};
pub use orderings::{conflict_sets, precedence_orderings};
pub use owners::repetition_owners;
pub use supertypes::supertype_symbols;

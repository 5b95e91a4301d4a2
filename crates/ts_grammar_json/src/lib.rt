//! Grammar files in Tree-sitter's grammar.json form: from a JSON value to the grammar that it
//! stands for, or to its first fault with a pointer to it.
#![tactic(auto)]

mod fault;
mod file;
mod found;
mod kinds;
mod laws;
mod lists;
mod member;
mod pointer;
mod rule;
mod rule_type;
mod shape;

pub use fault::GFault;
pub use file::grammar;
pub use laws::{
    grammars_are_well_formed, grammars_have_parts_within, one_fault, one_grammar,
    refused_is_no_grammar,
};

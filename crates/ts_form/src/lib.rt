//! The normal form of a grammar whose names, inlined rules, word, extras and patterns are in order:
//! what comes in is the grammar with what is known of it, and what goes out is its normal form, or
//! the first limit that it passes.
#![tactic(auto)]

mod fault;
mod form;
mod laws;
mod names;
mod numbers;
mod rules;
mod tokens;

pub use fault::FormFault;
pub use form::normal_form;
pub use laws::{counts_agree, normal_forms_agree};

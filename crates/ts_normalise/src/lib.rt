//! The normal form of a grammar: why a grammar file is refused, and the laws that it has one normal
//! form or one refusal, and that the normal form is fit.
#![tactic(auto)]

mod accepted;
mod fault;
mod fit_laws;
mod flattening;
mod formed;
mod laws;
mod names;
mod texts;
mod trees;

pub use fault::NFault;
pub use fit_laws::{
    forms_are_within_limits, forms_have_fit_lists, forms_have_fit_productions,
    forms_have_fit_repetitions, forms_have_fit_rules, forms_have_fit_tokens,
    forms_have_short_names, normal_forms_are_fit,
};
pub use flattening::flatten;
pub use laws::{one_normal_form, one_refusal, refused_is_not_flattened};

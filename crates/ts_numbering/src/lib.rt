//! The numbers of a grammar's normal form: what comes in is a grammar file and its walk, and what
//! goes out is a number for each token, rule, repetition, field, precedence name and alias, and
//! rule trees in which these numbers stand.
#![tactic(auto)]

mod gather;
mod limits;
mod numbering;
mod shape;
mod survey;
mod trees;

pub use limits::{NumberFault, numbering_of};
pub use numbering::Numbering;
pub use shape::{Shape, shape_of};
pub use survey::{Survey, survey_of};
pub use trees::{
    alias_number, field_number, prec_number, repetition_number, rule_number, token_number,
};

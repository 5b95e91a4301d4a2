//! Rule trees of grammar files: what comes in are the trees, and what goes out is what stands in
//! them, in preorder, and their alternatives, as lists of steps. The definitions of a grammar's
//! normal form stand here.
#![tactic(auto)]

mod names;
mod numbered;
mod sights;
mod size;
mod token_marks;
mod tree;
mod walk;

pub use names::{first_inside, first_undefined, is_among, rule_names, symbol_name, used_names};
pub use numbered::{field_names, prec_names};
pub use sights::{Spot, sights_of, walk_of};
pub use size::Size;
pub use token_marks::{CoreTree, core_of, is_immediate, lexical_precedence};
pub use tree::{Alternative, Around, NumberedStep, Tree};
pub use walk::alternatives;

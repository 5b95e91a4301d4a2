//! What a tree query names: the parts of a query that is written and a grammar in normal form go
//! in, and numbers of kinds, fields and captures, the forms of predicates and the faults of what is
//! named come out.
#![tactic(auto)]

mod asking;
mod flaw;
mod form;
mod judging;
mod kinds;
mod laws;
mod lookup;
mod mention;
mod numbers;
mod scope;
mod wanted;

pub use asking::{Asking, Relation};
pub use flaw::Flaw;
pub use form::Form;
pub use laws::names_fit;
pub use lookup::numbers_of;
pub use mention::{Mention, is_round, is_wild, pattern_mentions, query_mentions};
pub use numbers::{Numbers, own_captures};
pub use scope::Scope;
pub use wanted::Wanted;

//! Tree-sitter queries: the text of a query, a grammar in normal form and the names of a host's
//! predicates go in, and its patterns, with the items in them and what is asked of the nodes that
//! they capture, or its first fault come out.
#![tactic(auto)]

mod asked;
mod builder;
mod fault;
mod items;
mod judge;
mod level;
mod patterns;
mod read_query;
mod reader;

pub use builder::Builder;
pub use fault::QueryFault;
pub use patterns::{BuildFault, Patterns};
pub use read_query::{Asked, Item, Pattern, Predicate, Quantity, QueryKind, ReadQuery, Test};
pub use reader::query;

//! The matches of a query in the visible tree of a parse tree: a grammar, a root and a query go in,
//! and the matches that are kept come out in order.
#![tactic(auto)]

mod matching;
mod tree;

pub use matching::matches;
pub use tree::VisibleTree;
pub use ts_search::{All, Keep, MatchFault};

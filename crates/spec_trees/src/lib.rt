//! Parse trees as contracts see them, and what is defined over them: depths and totals, the nodes
//! that a parser makes, the better of two trees, and the visible tree. There is no code here.
#![tactic(auto)]

mod tree;
mod visible;

pub use tree::{Element, Stretch, Tree};
pub use visible::{Focus, VisibleNode};

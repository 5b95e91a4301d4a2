//! Trees laid on the heads of a graph of stacks, and reductions in it: a graph, what is seen at its
//! heads and a key go in, and the graph with all reductions of that key comes out, or that a node
//! would be too deep.
#![tactic(auto)]

mod asking;
mod batch;
mod gathering;
mod laws;
mod laying;
mod laying_laws;
mod lines;
mod made;
mod making;
mod ranks;
mod reducing;
mod room;
mod setting;
mod top;

pub use batch::Batch;
pub use laying::lay;
pub use made::Piece;
pub use reducing::{Reduced, reduce_all};
pub use room::Room;
pub use setting::{Setting, Wanted, setting_of};
pub use top::Top;

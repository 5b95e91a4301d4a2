//! From a plain stack to a graph of stacks, and back where one stack is left: a stack at which
//! several moves stay goes in, and the graph that stands for it comes out; and the head of a graph
//! goes in, and the stack below it, if it is the only one, comes out.
#![tactic(auto)]

mod entering;
mod laws;
mod leaving;

pub use entering::enter;
pub use laws::{left_stacks_go_on, own_stacks_enter};
pub use leaving::{Left, leave, one_stack};

//! The sets of valid LR(1) items: a grammar in normal form goes in, and its sets come out, each
//! once and with a number, and with where it leads over a symbol.
#![tactic(auto)]

mod closing;
mod first;
mod flow;
mod moving;
mod numbering;
mod part;
mod plain;
mod rows;
mod sets;
mod tables;

pub use numbering::{ItemFault, collection};
pub use part::{Goto, Items, Part, State};

//! Ordered JSON: values whose members keep the order of the file, and a reader of the whole of RFC
//! 8259 that answers each fault with its place.
#![tactic(auto)]

mod byte;
mod class;
mod escape;
mod fault;
mod gathered;
mod laws;
mod number;
mod part;
mod reader;
mod stop;
mod string;
mod tree;
mod value;
mod word;

pub use fault::OFault;
pub use laws::{json_of_parts, one_fault, one_value, refused_is_not_read};
pub use reader::read;
pub use value::{OItems, OJson, OMembers, OText};

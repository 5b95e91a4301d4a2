//! Scripts of clients: the bytes of a script come in, and what it asks for goes out, or its first
//! line at fault.
#![tactic(auto)]

mod cut;
mod draft;
mod fault;
mod form;
mod laws;
mod members;
mod plan;
mod reader;
mod said;

pub use fault::SFault;
pub use laws::{one_fault, one_plan, refused_is_no_script};
pub use plan::{Plan, ScriptStep, Source};
pub use reader::{MOST_SCRIPT_BYTES, script};

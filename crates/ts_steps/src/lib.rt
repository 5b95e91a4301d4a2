//! The moves of a parser on one of its stacks, which keep what is known of its nodes: a token, an
//! extra, the number of a production, a node of an old tree, or acceptance goes in; the new stack,
//! the accepted root, or that a node would be too deep comes out. The stack that was there stays,
//! but where it is reduced alone. A node has the state below it where its caller says that its move
//! is the only one and all that it is made of has states, and how many bytes were examined for all
//! of that. `reparse` is the parser over one stack: a text and offered nodes go in; what the text
//! comes to comes out, or the stack at which several moves stay, with the token that it sees.
#![tactic(auto)]

mod accepting;
mod ahead;
mod found;
mod gathering;
mod head;
mod laws;
mod lengthening;
mod lines;
mod looking;
mod making;
mod moving;
mod reducing;
mod reparsed;
mod reparsing;
mod setting;
mod shifting;
mod taking;
mod topmost;

pub use accepting::accept;
pub use ahead::TokenAhead;
pub use found::FoundToken;
pub use head::StackHead;
pub use laws::{states_are_named, steps_fall, tokens_are_known};
pub use looking::look;
pub use reducing::reduce;
pub use reparsed::{Fork, Reparsed};
pub use reparsing::reparse;
pub use setting::{ParseSetting, parse_setting};
pub use shifting::{pass, shift};
pub use taking::take_over;

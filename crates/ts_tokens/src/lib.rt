//! The tokens of a grammar file: what comes in is the grammar with what is known of its rules, and
//! what goes out are the definitions of its tokens, its separators and its extras, or the first
//! inlined rule, word, extra or pattern that it can't have.
#![tactic(auto)]

mod causes;
mod copy;
mod definition;
mod expression;
mod extras;
mod fault;
mod inlining;
mod keyword;
mod kind;
mod names;
mod paths;
mod placed;
mod table;
mod uses;
mod word;

pub use causes::{bad_extra, bad_word};
pub use definition::{NamedToken, token_definitions};
pub use expression::expression_of;
pub use extras::{extra_tokens, separators};
pub use fault::PatternFault;
pub use inlining::{InlineFault, inline_ranks};
pub use kind::kind_of;
pub use names::name_set;
pub use table::{PatternTable, read_patterns};

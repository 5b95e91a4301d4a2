//! The types that the crates share: grammar files, grammars in normal form, parser actions, and the
//! nodes that are printed. Values of these types go in and out of every other crate; nothing is
//! computed here.
#![tactic(auto)]

mod action;
mod flat;
mod limits;
mod re;
mod rule;
mod shown;
mod symbol;

pub use action::Action;
pub use flat::{Alias, Assoc, Entry, FlatGrammar, FlatRule, Prec, Production, Step, TokenDef};
pub use limits::{Limited, Unfit};
pub use re::Re;
pub use rule::{Grammar, PrecValue, Ranked, Rule};
pub use shown::Shown;
pub use symbol::{Kind, Symbol};
pub use ts_base::{Boxed, List, Shared, Str};

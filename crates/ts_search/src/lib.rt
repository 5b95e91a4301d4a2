//! The matches of patterns: patterns and a visible tree go in, and the matches that are kept come
//! out in order.
#![tactic(auto)]

mod anchors;
mod first;
mod gathering;
mod group;
mod index;
mod keep;
mod limit;
mod listing;
mod memo;
mod next;
mod once;
mod passing;
mod places;
mod products;
mod row;
mod search;
mod siblings;
mod sight;
mod silent;
mod single;
mod stand;
mod taking;

pub use keep::{All, Keep};
pub use listing::{MatchFault, matches};
pub use sight::Sight;

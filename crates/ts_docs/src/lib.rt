//! Documents: each version of a text with what it comes to, and the journal of the edits that were
//! accepted. Texts and edits go in, and versions and journals come out.
//!
//! The tree of a version is marked for an edit and offered to the parse of the next version's text.
//! Nothing here waits, and no thread is started.
#![tactic(auto)]

mod book;
mod draft;
mod parsed;
mod parsing;
mod preparing;
mod reuse;
mod stepping;
mod version;

pub use book::{Accepted, Book};
pub use draft::{Draft, DraftOf};
pub use parsed::{Drafted, Pages, ParsedText};
pub use preparing::{Refused, opening, prepare};
pub use stepping::{Event, Told, step};
pub use version::{Version, VersionOf};

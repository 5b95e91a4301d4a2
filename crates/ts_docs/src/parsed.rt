//! What versions and drafts come to, as contracts see them. No value of these types is made.

use ts_base::List;
use ts_glr::Outcome;
use ts_shelf::Entry;
use ts_table::Table;

/// A version of a text: its number, its bytes, and what they come to by the table.
#[derive(Drop)]
pub struct ParsedText {
    pub number: u32,
    pub text: List<u8>,
    pub outcome: Outcome,
    pub table: Table,
}

/// A version that an edit made, with the client and the step that asked for it.
#[derive(Drop)]
pub struct Drafted {
    pub client: u32,
    pub step: u32,
    pub version: ParsedText,
}

/// A journal: the version that the document was opened with, what was added to it, and how much
/// more it takes.
#[derive(Drop)]
pub struct Pages {
    pub opening: ParsedText,
    pub entries: List<Entry<Drafted>>,
    pub room: u32,
}

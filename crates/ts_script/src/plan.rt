//! What a script asks for: its documents, its queries and the steps of its clients.

use ts_core::{List, Str};
use ts_text::{Edit, Text};

/// Where the first text of a document is from.
#[derive(Debug, PartialEq, Eq, Drop)]
pub enum Source {
    /// It stands in the script.
    Inline(Text),
    /// It is the file at this path.
    Path(Str),
}

/// One step of a client. Documents and queries are numbered from 0, in the order of their lines.
#[derive(Debug, PartialEq, Eq, Drop)]
pub enum ScriptStep {
    /// Changes the version that the client holds.
    Edit { document: u32, edit: Edit },
    /// Takes the latest version.
    Look { document: u32 },
    /// Asks queries of the version that the client holds. There is at least one.
    Query { document: u32, queries: List<u32> },
    /// Asks for the outcome of the version that the client holds.
    Tree { document: u32 },
    /// Looks until there is this version, or a later one.
    Await { document: u32, version: u32 },
}

/// What a script asks for.
#[derive(Debug, PartialEq, Eq, Drop)]
pub struct Plan {
    /// Where the first text of each document is from.
    pub documents: List<Source>,
    /// The text of each query.
    pub queries: List<Str>,
    /// The steps of each client, in their order. A client below the greatest may have none.
    pub clients: List<List<ScriptStep>>,
}

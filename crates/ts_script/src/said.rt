//! What one line of a script says.

use ts_core::{List, Str};

/// What one line of a script says.
#[derive(Debug, PartialEq, Eq, Drop)]
pub enum Said {
    /// A document whose first text is this one.
    Text(Str),
    /// A document whose first text is the file at this path.
    Path(Str),
    /// A query with this text.
    Load(Str),
    /// A step of a client on a document.
    Step {
        client: u32,
        document: u32,
        action: Action,
    },
}

/// What a step does.
#[derive(Debug, PartialEq, Eq, Drop)]
pub enum Action {
    /// Replaces one range.
    Change(Piece),
    /// Replaces several ranges at once.
    Changes(List<Piece>),
    Look,
    /// Asks the queries of these numbers.
    Query(List<u32>),
    Tree,
    /// Waits for the version.
    Await(u32),
}

/// A range of bytes, and what comes in its place.
#[derive(Debug, PartialEq, Eq, Drop)]
pub struct Piece {
    pub start: u32,
    pub end: u32,
    pub new: Str,
}

/// The form of a line: which members it has.
#[derive(Clone, Copy, Debug, PartialEq, Eq)]
pub enum Form {
    Text,
    Path,
    Load,
    Step(ActionForm),
}

/// The form of a step: which members it has beside its client and its document.
#[derive(Clone, Copy, Debug, PartialEq, Eq)]
pub enum ActionForm {
    Change,
    Changes,
    Look,
    Query,
    Tree,
    Await,
}

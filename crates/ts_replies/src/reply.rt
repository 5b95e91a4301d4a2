//! What lines say of versions and of the replies to a client's steps.

use spec_output::ShownOutcome;
use ts_core::{List, Str};

/// What a line says beside the outcome of a text.
#[derive(Clone, Copy, Debug, PartialEq, Eq)]
pub enum Head {
    /// It is the first version of a document.
    Opening {
        document: u32,
    },
    /// It is the version that a client's edit made in a turn of the document.
    Accepted {
        client: u32,
        document: u32,
        step: u32,
        turn: u64,
        version: u32,
    },
}

/// A node that a match captured. Its places are in bytes from 0.
#[derive(Debug, PartialEq, Eq, Drop)]
pub struct ShownCapture {
    /// The name of the capture.
    pub name: Str,
    pub start: u32,
    pub end: u32,
}

/// A match of a query.
#[derive(Debug, PartialEq, Eq, Drop)]
pub struct ShownMatch {
    /// The number of the pattern, from 0.
    pub pattern: u32,
    pub captures: List<ShownCapture>,
}

/// What a query comes to on a tree.
#[derive(Debug, PartialEq, Eq, Drop)]
pub enum ShownResult {
    /// More matches than are listed.
    Many,
    /// All its matches.
    Found(List<ShownMatch>),
}

/// The reply to a step. The version is the one that the client holds after the step, and a turn the
/// last one of the document that the step took.
#[derive(Debug, PartialEq, Eq, Drop)]
pub enum Reply {
    /// The edit made this version.
    Published {
        turn: u64,
        version: u32,
    },
    /// The edit was not made, since there is a newer version: this one.
    Newer {
        turn: u64,
        version: u32,
    },
    /// The latest version.
    Look {
        turn: u64,
        version: u32,
    },
    /// The version that was awaited, or a later one.
    Await {
        turn: u64,
        version: u32,
    },
    /// The version that was awaited did not come.
    Late {
        turn: u64,
        version: u32,
    },
    /// The edit's range is not one of the text.
    Range {
        version: u32,
    },
    /// The edit would make a text of so many bytes, which are too many.
    Size {
        size: u64,
        version: u32,
    },
    /// There was no memory for the step.
    Memory {
        version: u32,
    },
    /// What the text comes to.
    Tree {
        outcome: ShownOutcome,
        version: u32,
    },
    /// What each query of the step comes to.
    Results {
        results: List<ShownResult>,
        version: u32,
    },
    /// The queries have no tree, since the text comes to this.
    Absent {
        outcome: ShownOutcome,
        version: u32,
    },
}

//! What one pass over the bytes at a place has found so far, and at its end.

use ts_core::Symbol;

/// A token that matches, with its size in bytes.
#[derive(Clone, Copy, Debug)]
pub(crate) struct Match {
    pub symbol: Symbol,
    pub size: usize,
}

/// What was found at a place so far.
#[derive(Clone, Copy, Debug)]
pub(crate) struct Progress {
    /// The token that is taken among those that are no keywords.
    pub plain: Option<Match>,
    /// The size of the word token's longest match, or 0.
    pub word: usize,
    /// The keyword that is taken at that size.
    pub keyword: Option<Symbol>,
    /// The size of the longest separator, or 0.
    pub separator: usize,
}

/// Nothing was found so far.
pub(crate) const NOTHING: Progress = Progress {
    plain: None,
    word: 0,
    keyword: None,
    separator: 0,
};

/// What was found at a place.
#[derive(Clone, Copy, Debug)]
pub(crate) struct Scanned {
    pub best: Option<Match>,
    /// The size of the longest separator, or 0.
    pub separator: usize,
    /// How many bytes were looked at, where the end of the text counts as one.
    pub reach: usize,
}

/// Where a character leads.
#[derive(Clone, Copy, Debug)]
pub(crate) struct Turn {
    /// The set that is reached.
    pub to: usize,
    /// How many bytes the character has.
    pub len: usize,
}

/// How far the reading at a place has come.
#[derive(Clone, Copy, Debug)]
pub(crate) struct Run {
    /// The set that is reached, where tables are read.
    pub state: usize,
    /// How many bytes have been read.
    pub size: usize,
    pub progress: Progress,
}

/// What the reading of one piece more comes to.
#[derive(Clone, Copy, Debug)]
pub(crate) enum Read {
    /// All has been found. The size is how many bytes were looked at.
    Ended(Run),
    /// What follows the piece is read from here.
    Open(Run),
}

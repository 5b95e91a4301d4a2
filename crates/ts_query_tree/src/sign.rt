//! The signs that a query is written with.
ghost use Rattle.std.specs.Prelude.{◌≡◌};
ghost use Rattle.ts_query_tree.specs.Machine.{is_opening};

use crate::tree::{Mark, Written};

/// A sign of a query, with its place where a query keeps it.
#[derive(Drop)]
pub(crate) enum Sign {
    /// `(`
    Open,
    /// `)`
    Close,
    /// `[`
    OpenChoice,
    /// `]`
    CloseChoice,
    /// `.`
    Anchor,
    /// `:`
    Colon,
    /// `?`, `*` or `+`
    Mark(Mark),
    Name(Written),
    /// `"text"`
    Text(Written),
    /// `@name`
    Capture(Written),
    /// `!name`, at the name
    Without(Written),
    /// `#name?` or `#name!`
    Predicate(Written),
}

impl Sign {
    pub(crate) fn is_opening(&self) -> bool
        ensures { result ≡ is_opening self.now }
    {
        match self {
            Sign::Open | Sign::OpenChoice => true,
            Sign::Close
            | Sign::CloseChoice
            | Sign::Anchor
            | Sign::Colon
            | Sign::Mark(_)
            | Sign::Name(_)
            | Sign::Text(_)
            | Sign::Capture(_)
            | Sign::Without(_)
            | Sign::Predicate(_) => false,
        }
    }
}

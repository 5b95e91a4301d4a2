//! A document and a client of it, each between two steps.
ghost use Rattle.std.specs.Prelude.{◌≤◌, length, vec_capacity};

use ts_base::Shared;
use ts_docs::{Book, Version};
use ts_replies::Reply;
use ts_script::ScriptStep;

/// A document between two steps.
#[derive(Drop)]
pub(crate) struct Document {
    pub(crate) book: Book,
    /// How many turns of it are over.
    pub(crate) turn: u64,
}

/// A client between two steps.
#[derive(Drop)]
pub(crate) struct Client<'a> {
    pub(crate) steps: &'a [ScriptStep],
    /// The replies to its first steps.
    pub(crate) replies: Vec<Reply>,
    /// The version that it holds of each document.
    pub(crate) held: Vec<Shared<Version>>,
    ghost room: { length steps.now ≤ vec_capacity replies },
}

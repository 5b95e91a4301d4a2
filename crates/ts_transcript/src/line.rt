//! A line of a run before its bytes are made.

use ts_docs::Version;
use ts_replies::{Head, Reply};

/// A line of a run before its bytes are made.
#[derive(Clone, Copy)]
pub(crate) enum RunLine<'a> {
    /// What a version comes to.
    Version {
        head: Head,
        version: &'a Version,
    },
    /// The reply to a step of a client, both numbered from 0.
    Reply {
        client: u32,
        step: u32,
        reply: &'a Reply,
    },
}

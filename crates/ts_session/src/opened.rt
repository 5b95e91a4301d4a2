//! What the files of a grammar and a script come to: a session, or a refusal.

use crate::answer::Answer;
use crate::session::Session;

/// What the files of a grammar and a script come to.
#[derive(Drop)]
pub enum Opened {
    /// A session that can be run.
    Ready(Session),
    /// The files are refused; with the status and the line that say so.
    Refused(Answer),
}

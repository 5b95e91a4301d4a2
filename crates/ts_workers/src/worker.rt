//! A client on a thread of its own.

use ts_client::Client;
use ts_lexer::Lexer;

/// A client, with the lexer that it uses.
#[derive(Drop)]
pub(crate) struct Worker {
    pub(crate) lexer: Lexer,
    pub(crate) client: Client,
}

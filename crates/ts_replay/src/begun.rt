//! What a step comes to, up to its turn, and whose step it is.

use ts_base::Shared;
use ts_docs::{Draft, Version};
use ts_node::Node;
use ts_replies::Reply;

/// The step of this number of a client.
#[derive(Clone, Copy, Debug, PartialEq, Eq)]
pub struct Asker {
    pub client: u32,
    /// Counted from 0 among the client's own steps.
    pub number: u32,
}

/// What a step comes to, up to its turn: the reply, or what is left to do.
#[derive(Drop)]
pub enum Begun<'v, 's> {
    /// It takes no turn, and this is the reply.
    Told(Reply),
    /// To offer this draft, whose version is this one.
    Offer { draft: Draft, made: Shared<Version> },
    /// To look once.
    Look,
    /// To look until there is this version.
    Await(u32),
    /// To ask the queries of these numbers in this tree, that of the held version.
    Ask { root: &'v Node, queries: &'s [u32] },
}

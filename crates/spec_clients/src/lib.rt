//! What the work of clients comes to, each with passes of its own of the shelves of documents: what
//! holds of each client's replies by what its passes know, and what is left once all passes are
//! joined. There is no code here but laws of these definitions.
#![tactic(auto)]

mod laws;

pub use laws::{joined_work_is_lawful, next_reply_is_served};

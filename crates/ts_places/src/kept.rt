//! Memory that is kept from one place to the next.

use crate::seeking::Due;
use std::alloc::Global;
use ts_reductions::Room;

/// Lists for the heads that are looked at, for the reductions that stay at a place, and for those of
/// one key.
#[derive(Drop)]
pub(crate) struct Kept {
    pub heads: Vec<usize>,
    pub dues: Vec<Due>,
    pub room: Room,
}

impl Kept {
    /// Empty lists. It takes no memory.
    pub(crate) fn new(alloc: Global) -> Kept {
        Kept {
            heads: Vec::new(alloc),
            dues: Vec::new(alloc),
            room: Room::new(alloc),
        }
    }
}

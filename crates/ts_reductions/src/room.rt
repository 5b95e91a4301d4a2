//! Memory that is kept from one reduction to the next, and what the last ones led to: a state goes
//! in, and what was seen where a reduction stayed that led there comes out.
ghost use Rattle.std.specs.Prelude.{IfSome};
ghost use Rattle.ts_reductions.specs.Again.{HasLed, LedNone};

use crate::made::Made;
use crate::top::Top;
use std::alloc::Global;
use ts_node::Node;

/// The trees on a way: the children of a reduction, and the extras above them.
#[derive(Drop)]
pub(crate) struct Trees {
    pub children: Vec<Node>,
    pub extras: Vec<Node>,
}

/// The numbers of the links of a way, and the trees on it.
#[derive(Drop)]
pub(crate) struct Lists {
    pub numbers: Vec<usize>,
    pub trees: Trees,
}

/// Lists for reductions, and what was made by the last of them.
#[derive(Drop)]
pub struct Room {
    pub(crate) lists: Lists,
    pub(crate) mades: Vec<Made>,
}

impl Room {
    /// Empty lists. It takes no memory.
    pub fn new(alloc: Global) -> Room {
        let trees = Trees {
            children: Vec::new(alloc),
            extras: Vec::new(alloc),
        };
        Room {
            lists: Lists {
                numbers: Vec::new(alloc),
                trees,
            },
            mades: Vec::new(alloc),
        }
    }

    /// Forgets the reductions that were done last. Their memory stays for others.
    pub fn forget(&mut self)
        ensures { LedNone self.new }
    {
        self.mades.clear();
    }

    /// What was seen where a reduction stayed that led to a state, if one of those that were done last
    /// did.
    pub fn led_to(&self, state: u16) -> Option<Top>
        ensures { IfSome result (HasLed self.now state) }
    {
        for made in self.mades.as_slice() {
            if made.piece.state == state {
                return Some(made.top);
            }
        }
        None
    }
}

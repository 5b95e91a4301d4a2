//! Room for the sets of a machine: sets go in one by one, and whether there is room for them comes
//! out.

use std::alloc::{AllocError, AllocFailed};

/// How many sets, how many nodes of sets and how many places of tables there may be in a machine
/// that is made ahead. A number has 8 bytes.
const MOST_SETS: usize = 16_384;

const MOST_NODES: usize = 4_194_304;

const MOST_PLACES: usize = 8_388_608;

/// How many sets more there may be, and how many nodes in them.
#[derive(Clone, Copy, Debug)]
pub(crate) struct Room {
    sets: usize,
    nodes: usize,
}

/// Why sets have no numbers.
#[derive(Clone, Copy, Debug, PartialEq, Eq)]
pub(crate) enum Unnumbered {
    Memory,
    TooMany,
}

impl Room {
    /// Room for a machine that is made ahead, by the classes of its characters: each set has a
    /// place for each class.
    pub(crate) fn ahead(classes: usize) -> Room {
        Room {
            sets: MOST_SETS.min(MOST_PLACES / classes.max(1)),
            nodes: MOST_NODES,
        }
    }

    /// Takes the room for a set with so many nodes, if it is new.
    pub(crate) fn take(&mut self, is_new: bool, nodes: usize) -> Result<(), Unnumbered> {
        if !is_new {
            return Ok(());
        }
        if self.sets == 0 || self.nodes < nodes {
            return Err(Unnumbered::TooMany);
        }
        self.sets -= 1;
        self.nodes -= nodes;
        Ok(())
    }
}

impl From<AllocError> for Unnumbered {
    ghost use Rattle.std.specs.Prelude.{◌≡◌};
    ghost use Rattle.ts_automata.specs.declared.room.Unnumbered.TheVariants.{Memory};

    ghost from_gives = { λ _ e. e ≡ Memory };

    fn from(_fault: AllocError) -> Unnumbered {
        Unnumbered::Memory
    }
}

impl<T: Drop> From<AllocFailed<T>> for Unnumbered {
    ghost use Rattle.std.specs.Prelude.{◌≡◌};
    ghost use Rattle.ts_automata.specs.declared.room.Unnumbered.TheVariants.{Memory};

    ghost from_gives = { λ _ e. e ≡ Memory };

    fn from(_fault: AllocFailed<T>) -> Unnumbered {
        Unnumbered::Memory
    }
}

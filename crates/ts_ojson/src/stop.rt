//! Why reading stops: from the place of what is wrong to the fault that is answered.

ghost use Rattle.std.specs.Prelude.{◌≡◌, ◌^◌, ◌<◌, length};
ghost use Rattle.ts_ojson.specs.Reads.{IsFault};
ghost use Rattle.ts_ojson.specs.Places.{Refused};

use crate::fault::OFault;
use std::alloc::AllocError;

/// Why reading stops, with its place in bytes from 0.
#[derive(Debug, PartialEq, Eq, Clone, Copy)]
pub(crate) enum Stop {
    /// No text goes on like this.
    Syntax(usize),
    /// The bracket that opens a level too many.
    Deep(usize),
    /// The quote that opens a name for the second time.
    Duplicate(usize),
    /// Out of memory.
    Memory,
}

impl From<AllocError> for Stop {
    ghost use Rattle.std.specs.Prelude.{◌≡◌};
    ghost use Rattle.ts_ojson.specs.declared.stop.Stop.TheVariants.{Memory};

    ghost from_gives = { λ _ e. e ≡ Memory };

    fn from(_: AllocError) -> Stop {
        Stop::Memory
    }
}

/// The fault of a text in which reading stopped.
pub(crate) fn fault_of(text: &str, stop: Stop) -> OFault
    requires refused { Refused stop text.now }
    requires short { length text.now < 2 ^ 32 }
    ensures { IsFault result text.now }
{
    match stop {
        Stop::Syntax(at) => OFault::Syntax(at as u32),
        Stop::Deep(at) => OFault::Deep(at as u32),
        Stop::Duplicate(at) => OFault::Duplicate(at as u32),
        Stop::Memory => OFault::Memory,
    }
}

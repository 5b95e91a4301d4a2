//! Where reading stops: a place, told by the bytes from it on, or out of memory.

ghost use Rattle.std.specs.Prelude.{◌≡◌, length};

use std::alloc::{AllocError, AllocFailed};

/// The first thing that is wrong. Its place is told by how many bytes there are from it on.
#[derive(Clone, Copy, Debug, PartialEq, Eq)]
pub(crate) enum Flaw {
    /// The bytes end inside the number, byte or text that begins there.
    Short(usize),
    /// A point of the format does not hold of the number, byte or text that begins there.
    Field(usize),
}

/// Why reading stops.
#[derive(Clone, Copy, Debug, PartialEq, Eq)]
pub(crate) enum Stop {
    Flawed(Flaw),
    Memory,
}

impl From<AllocError> for Stop {
    ghost use Rattle.std.specs.Prelude.{◌≡◌};
    ghost use Rattle.ts_langfile.specs.declared.flaw.Stop.TheVariants.{Memory};

    ghost from_gives = { λ _ e. e ≡ Memory };

    fn from(_: AllocError) -> Stop {
        Stop::Memory
    }
}

/// The bytes end inside what begins where these begin.
pub(crate) fn short(bytes: &[u8]) -> Stop
    ensures { result ≡ Stop.Flawed (Flaw.Short (length bytes.now)) }
{
    Stop::Flawed(Flaw::Short(bytes.len()))
}

/// A point does not hold of what begins where these bytes begin.
pub(crate) fn wrong(bytes: &[u8]) -> Stop
    ensures { result ≡ Stop.Flawed (Flaw.Field (length bytes.now)) }
{
    Stop::Flawed(Flaw::Field(bytes.len()))
}

//! Why bytes are refused, with the place of it.

use std::alloc::AllocError;
use thiserror::Error;

/// Why bytes are no ordered JSON. Each place is in bytes from 0.
#[derive(Debug, Error, PartialEq, Eq, Clone, Copy)]
pub enum OFault {
    /// The length of the longest prefix of the input that begins some text of JSON.
    #[error("no JSON from byte {0} on")]
    Syntax(u32),
    /// The length of the longest prefix of the input that is UTF-8.
    #[error("no UTF-8 from byte {0} on")]
    Utf8(u32),
    /// The bracket that opens the 257th level.
    #[error("too deep at byte {0}")]
    Deep(u32),
    /// The quote that opens a name which stands before in the same object.
    #[error("a name for the second time at byte {0}")]
    Duplicate(u32),
    /// Memory ran out.
    #[error("out of memory")]
    Memory,
}

impl From<AllocError> for OFault {
    ghost use Rattle.std.specs.Prelude.{◌≡◌};
    ghost use Rattle.ts_ojson.specs.declared.fault.OFault.TheVariants.{Memory};

    ghost from_gives = { λ _ e. e ≡ Memory };

    fn from(_: AllocError) -> OFault {
        OFault::Memory
    }
}

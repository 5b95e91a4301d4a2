//! Why bytes are no script.

use std::alloc::AllocError;
use thiserror::Error;

/// Why bytes are no script, with the number of a line from 1.
#[derive(Debug, Error, PartialEq, Eq, Clone, Copy)]
pub enum SFault {
    /// The line has none of the forms.
    #[error("line {0} is no line of a script")]
    Line(u32),
    /// The line stands in the wrong place, or names a document or a query that is not above it.
    #[error("line {0} is out of order")]
    Order(u32),
    /// The line passes a limit. At 0 the script is too large.
    #[error("line {0} passes a limit")]
    Limit(u32),
    /// Memory ran out.
    #[error("out of memory")]
    Memory,
}

impl From<AllocError> for SFault {
    ghost use Rattle.std.specs.Prelude.{◌≡◌};
    ghost use Rattle.ts_script.specs.declared.fault.SFault.TheVariants.{Memory};

    ghost from_gives = { λ _ e. e ≡ Memory };

    fn from(_: AllocError) -> SFault {
        SFault::Memory
    }
}

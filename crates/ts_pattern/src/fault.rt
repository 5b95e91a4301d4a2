//! Why a text is no pattern.
use std::alloc::AllocError;
use thiserror::Error;

/// Why a text is no pattern. Each place is in bytes from 0, at the first byte of what is wrong.
#[derive(Debug, Error, PartialEq, Eq, Clone, Copy)]
pub enum PFault {
    /// What stands there has no place in a pattern, or the pattern ends too early.
    #[error("no pattern from byte {0} on")]
    Syntax(u32),
    /// An assertion, a lazy form, a group of another kind, a back reference or an unknown escape.
    #[error("not supported at byte {0}")]
    Unsupported(u32),
    /// Brackets with nothing written between them.
    #[error("empty class at byte {0}")]
    EmptyClass(u32),
    /// An escape of a property whose name is in no table.
    #[error("unknown property at byte {0}")]
    UnknownProperty(u32),
    /// The pattern passes this limit: 200 groups in one another, a count of 65,535 or 8,192
    /// positions.
    #[error("beyond the limit of {0}")]
    Limit(u32),
    /// Memory ran out.
    #[error("out of memory")]
    Memory,
}

impl From<AllocError> for PFault {
    ghost use Rattle.std.specs.Prelude.{◌≡◌};
    ghost use Rattle.ts_pattern.specs.declared.fault.PFault.TheVariants.{Memory};

    ghost from_gives = { λ _ e. e ≡ Memory };

    fn from(_: AllocError) -> PFault {
        PFault::Memory
    }
}

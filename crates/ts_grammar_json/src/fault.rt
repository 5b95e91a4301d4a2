//! Why a JSON value is no grammar file.
use std::alloc::AllocError;
use thiserror::Error;
use ts_core::{Limited, Str};

/// Why a JSON value is no grammar file. Each text is a pointer into the value (RFC 6901).
#[derive(Debug, Error, PartialEq, Eq, Drop)]
pub enum GFault {
    /// The member at the pointer is absent.
    #[error("a member is missing")]
    Missing(Str),
    /// The value at the pointer is of another kind than the format says.
    #[error("a value is of the wrong kind")]
    Wrong(Str),
    /// The text at the pointer names no rule type.
    #[error("a rule type is unknown")]
    UnknownType(Str),
    /// There are external tokens.
    #[error("external tokens are not read")]
    External,
    /// There are reserved words, or a rule of the type RESERVED.
    #[error("reserved words are not read")]
    Reserved,
    /// There is too much of something.
    #[error("the grammar file is too large")]
    Limit(Limited),
    /// Memory ran out.
    #[error("out of memory")]
    Memory,
}

impl From<AllocError> for GFault {
    ghost use Rattle.std.specs.Prelude.{◌≡◌};
    ghost use Rattle.ts_grammar_json.specs.declared.fault.GFault.TheVariants.{Memory};

    ghost from_gives = { λ _ e. e ≡ Memory };

    fn from(_: AllocError) -> GFault {
        GFault::Memory
    }
}

//! Why bytes are no language file.

use std::alloc::AllocError;
use thiserror::Error;
use ts_core::Unfit;

/// Why bytes are no language file. Each place is in bytes from 0.
#[derive(Debug, Error, PartialEq, Eq, Clone, Copy)]
pub enum LangFault {
    /// The bytes do not begin with `TSLF`.
    #[error("no language file")]
    Magic,
    /// The version is neither 1 nor 2.
    #[error("a language file of version {0}")]
    Version(u16),
    /// The bytes end inside the number, byte or text that begins there.
    #[error("the file ends inside what begins at byte {0}")]
    Short(u32),
    /// The grammar ends there, and bytes follow.
    #[error("the grammar ends before byte {0}")]
    Long(u32),
    /// The number, byte or text that begins there breaks a rule of the format.
    #[error("a wrong field at byte {0}")]
    Field(u32),
    /// Each field is right, but the grammar is not fit for use.
    #[error("a grammar that is not fit: {0:?}")]
    Misfit(Unfit),
    /// Memory ran out.
    #[error("out of memory")]
    Memory,
}

impl From<AllocError> for LangFault {
    ghost use Rattle.std.specs.Prelude.{◌≡◌};
    ghost use Rattle.ts_langfile.specs.declared.fault.LangFault.TheVariants.{Memory};

    ghost from_gives = { λ _ e. e ≡ Memory };

    fn from(_: AllocError) -> LangFault {
        LangFault::Memory
    }
}

//! Why the patterns of a grammar are refused.
use std::alloc::AllocError;
use thiserror::Error;
use ts_core::Str;
use ts_pattern::PFault;

/// Why the patterns of a grammar are refused.
#[derive(Debug, Error, PartialEq, Eq, Drop)]
pub enum PatternFault {
    /// A pattern can't be read. The text is the name of the rule in which it stands, and empty for
    /// an extra.
    #[error("a pattern can't be read")]
    Refused(Str, PFault),
    /// Memory ran out.
    #[error("out of memory")]
    Memory,
}

impl From<AllocError> for PatternFault {
    ghost use Rattle.std.specs.Prelude.{◌≡◌};
    ghost use Rattle.ts_tokens.specs.declared.fault.PatternFault.TheVariants.{Memory};

    ghost from_gives = { λ _ e. e ≡ Memory };

    fn from(_: AllocError) -> PatternFault {
        PatternFault::Memory
    }
}

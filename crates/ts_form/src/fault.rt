//! Why a grammar whose names and patterns are in order has no normal form: too much of something.

use std::alloc::AllocError;
use thiserror::Error;
use ts_core::Limited;

/// Why a grammar has no normal form.
#[derive(Clone, Copy, Debug, PartialEq, Eq, Error)]
pub enum FormFault {
    /// There is too much of something.
    #[error("a limit is passed")]
    Limit(Limited),
    /// Memory runs out.
    #[error("out of memory")]
    Memory,
}

impl From<AllocError> for FormFault {
    ghost use Rattle.std.specs.Prelude.{◌≡◌};
    ghost use Rattle.ts_form.specs.declared.fault.FormFault.TheVariants.{Memory};

    ghost from_gives = { λ _ e. e ≡ Memory };

    fn from(_fault: AllocError) -> FormFault {
        FormFault::Memory
    }
}

//! Why a grammar has no productions.

use std::alloc::AllocError;
use thiserror::Error;

/// Why a grammar has no productions here.
#[derive(Clone, Copy, Debug, PartialEq, Eq, Error)]
pub enum ProductionFault {
    /// There are more than 65,535, before or after inlining.
    #[error("too many productions")]
    Productions,
    /// One has more than 255 steps, before or after inlining.
    #[error("too many steps")]
    Steps,
    /// Memory runs out.
    #[error("out of memory")]
    Memory,
}

impl From<AllocError> for ProductionFault {
    ghost use Rattle.std.specs.Prelude.{◌≡◌};
    ghost use Rattle.ts_productions.specs.declared.fault.ProductionFault.TheVariants.{Memory};

    ghost from_gives = { λ _ e. e ≡ Memory };

    fn from(_fault: AllocError) -> ProductionFault {
        ProductionFault::Memory
    }
}

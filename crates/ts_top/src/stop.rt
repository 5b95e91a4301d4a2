//! Why the words have no answer by what the files hold.
use std::alloc::AllocError;
use thiserror::Error;

/// Why the words have no answer by what the files hold.
#[derive(Clone, Copy, Debug, Error)]
pub(crate) enum Stop<'a> {
    #[error("the words have none of the forms")]
    Usage,
    #[error("there is no file at {0}")]
    Absent(&'a str),
    #[error("a read failed")]
    Read,
    #[error("out of memory")]
    Memory,
}

impl From<AllocError> for Stop<'_> {
    ghost use Rattle.std.specs.Prelude.{◌≡◌};
    ghost use Rattle.ts_top.specs.declared.stop.Stop.TheVariants.{Memory};

    ghost from_gives = { λ _ made. made ≡ Memory };

    fn from(_error: AllocError) -> Self {
        Stop::Memory
    }
}

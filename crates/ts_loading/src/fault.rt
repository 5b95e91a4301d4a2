//! Why queries are not loaded.
use std::alloc::AllocError;
use thiserror::Error;
use ts_query_syntax::QueryFault;

/// Why queries are not loaded.
#[derive(Clone, Copy, Debug, PartialEq, Eq, Error)]
pub enum LoadFault {
    /// The query of this number, from 0, has this fault.
    #[error("query {number}: {fault}")]
    Query { number: u32, fault: QueryFault },
    /// Memory ran out.
    #[error("out of memory")]
    Memory,
}

impl From<AllocError> for LoadFault {
    ghost use Rattle.std.specs.Prelude.{◌≡◌};
    ghost use Rattle.ts_loading.specs.declared.fault.LoadFault.TheVariants.{Memory};

    ghost from_gives = { λ _ made. made ≡ Memory };

    fn from(_error: AllocError) -> LoadFault {
        LoadFault::Memory
    }
}

//! Why a text is no query.
use std::alloc::AllocError;
use thiserror::Error;

/// Why a text is no query, as far as that can be said without a grammar. Each place is in bytes
/// from 0, at the first byte of what is wrong.
#[derive(Debug, Error, PartialEq, Eq, Clone, Copy)]
pub enum TreeFault {
    /// What stands there has no place in a query, a string is not closed, or the query ends too
    /// early.
    #[error("no query from byte {0} on")]
    Syntax(u32),
    /// The bracket there is the 201st that is open.
    #[error("too deep at byte {0}")]
    Deep(u32),
    /// Memory ran out.
    #[error("out of memory")]
    Memory,
}

impl From<AllocError> for TreeFault {
    ghost use Rattle.std.specs.Prelude.{◌≡◌};
    ghost use Rattle.ts_query_tree.specs.declared.fault.TreeFault.TheVariants.{Memory};

    ghost from_gives = { λ _ e. e ≡ Memory };

    fn from(_: AllocError) -> TreeFault {
        TreeFault::Memory
    }
}

//! Why a text is no query of a grammar and a host.
use std::alloc::AllocError;
use thiserror::Error;
use ts_query_names::Flaw;
use ts_query_tree::TreeFault;

/// Why a text is no query of a grammar and a host. Each place is in bytes from 0, at the first byte
/// of what is wrong.
#[derive(Debug, Error, PartialEq, Eq, Clone, Copy)]
pub enum QueryFault {
    /// What stands there has no place in a query, a string is not closed, or the query ends too
    /// early.
    #[error("no query from byte {0} on")]
    Syntax(u32),
    /// The bracket there is the 201st that is open.
    #[error("too deep at byte {0}")]
    Deep(u32),
    /// No node of the grammar has that kind: a name at its first byte, a string at its quote.
    #[error("unknown node at byte {0}")]
    UnknownNode(u32),
    /// The grammar has no such field.
    #[error("unknown field at byte {0}")]
    UnknownField(u32),
    /// A predicate's capture, at its `@`, is on no item of its pattern.
    #[error("unknown capture at byte {0}")]
    UnknownCapture(u32),
    /// A predicate, at its `#`, has a name that is not known, or other operands than it takes.
    #[error("unknown predicate at byte {0}")]
    UnknownPredicate(u32),
    /// The quantifier there is on a part of a group that has a quantifier itself.
    #[error("nested quantifier at byte {0}")]
    NestedQuantifier(u32),
    /// The expression in the string there is refused.
    #[error("no regular expression at byte {0}")]
    Regex(u32),
    /// Memory ran out.
    #[error("out of memory")]
    Memory,
}

impl From<AllocError> for QueryFault {
    ghost use Rattle.std.specs.Prelude.{◌≡◌};
    ghost use Rattle.ts_query_syntax.specs.declared.fault.QueryFault.TheVariants.{Memory};

    ghost from_gives = { λ _ e. e ≡ Memory };

    fn from(_: AllocError) -> QueryFault {
        QueryFault::Memory
    }
}

impl From<Flaw> for QueryFault {
    ghost use Rattle.std.specs.Prelude.{◌≡◌};
    ghost use Rattle.ts_query_syntax.specs.Judging.{flaw_fault};

    ghost from_gives = { λ flaw e. e ≡ flaw_fault flaw };

    fn from(flaw: Flaw) -> QueryFault {
        match flaw {
            Flaw::UnknownNode(at) => QueryFault::UnknownNode(at),
            Flaw::UnknownField(at) => QueryFault::UnknownField(at),
            Flaw::UnknownCapture(at) => QueryFault::UnknownCapture(at),
            Flaw::UnknownPredicate(at) => QueryFault::UnknownPredicate(at),
            Flaw::NestedQuantifier(at) => QueryFault::NestedQuantifier(at),
        }
    }
}

impl From<TreeFault> for QueryFault {
    ghost use Rattle.std.specs.Prelude.{◌≡◌};
    ghost use Rattle.ts_query_syntax.specs.Queries.{tree_fault};

    ghost from_gives = { λ given e. e ≡ tree_fault given };

    fn from(fault: TreeFault) -> QueryFault {
        match fault {
            TreeFault::Syntax(at) => QueryFault::Syntax(at),
            TreeFault::Deep(at) => QueryFault::Deep(at),
            TreeFault::Memory => QueryFault::Memory,
        }
    }
}

//! The faults of a script's queries in; their lines out.
ghost use Rattle.std.specs.Prelude.{◌≡◌, Some, IfOk, option_map, string_bytes};
ghost use Rattle.ts_replies.specs.Faults.{query_fault_line};
ghost use Rattle.ts_session.specs.Queries.{query_line, load_line};

use std::alloc::{AllocError, Global};
use ts_loading::LoadFault;
use ts_query_syntax::QueryFault;

/// The line that says why queries are not loaded, and none for running out of memory.
pub(crate) fn load_line(alloc: Global, fault: &LoadFault) -> Result<Option<String>, AllocError>
    ensures { IfOk result (λ s. option_map string_bytes s ≡ load_line fault.now) }
{
    match fault {
        LoadFault::Query { number, fault } => query_line(alloc, *number, fault),
        LoadFault::Memory => Ok(None),
    }
}

/// The line of a fault of the query of this number, and none for running out of memory.
fn query_line(alloc: Global, number: u32, fault: &QueryFault) -> Result<Option<String>, AllocError>
    ensures { IfOk result (λ s. option_map string_bytes s ≡ query_line number fault.now) }
{
    match fault {
        QueryFault::Syntax(at) => told(alloc, "syntax", *at, number),
        QueryFault::Deep(at) => told(alloc, "deep", *at, number),
        QueryFault::UnknownNode(at) => told(alloc, "unknown node", *at, number),
        QueryFault::UnknownField(at) => told(alloc, "unknown field", *at, number),
        QueryFault::UnknownCapture(at) => told(alloc, "unknown capture", *at, number),
        QueryFault::UnknownPredicate(at) => told(alloc, "unknown predicate", *at, number),
        QueryFault::NestedQuantifier(at) => told(alloc, "nested quantifier", *at, number),
        QueryFault::Regex(at) => told(alloc, "regex", *at, number),
        QueryFault::Memory => Ok(None),
    }
}

/// The line of a fault with this word.
fn told(alloc: Global, word: &str, at: u32, number: u32) -> Result<Option<String>, AllocError>
    ensures { IfOk result (λ s.
        option_map string_bytes s ≡ Some (query_fault_line word.now at number)) }
{
    Ok(Some(ts_replies::query_fault(alloc, word, at, number)?))
}

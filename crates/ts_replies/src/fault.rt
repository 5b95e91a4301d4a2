//! The faults of a script, and of the queries in it, in; their lines out.
ghost use Rattle.std.specs.Prelude.{◌≡◌, IfOk, option_map, string_bytes};
ghost use Rattle.ts_replies.specs.Faults.{line_at, script_fault_line, query_fault_line};

use crate::line::line;
use serde_json::json;
use spec_output::Status;
use std::alloc::{AllocError, Global};
use ts_lines::{fault_at_number, number};
use ts_script::SFault;

/// The line of a script's fault, and none for running out of memory.
///
/// # Errors
///
/// `AllocError` where memory runs out, here and below.
pub fn script_fault(alloc: Global, fault: &SFault) -> Result<Option<String>, AllocError>
    ensures line { IfOk result (λ s. option_map string_bytes s ≡ script_fault_line fault.now) }
{
    match fault {
        SFault::Line(at) => Ok(Some(at_line(alloc, "line", *at)?)),
        SFault::Order(at) => Ok(Some(at_line(alloc, "order", *at)?)),
        SFault::Limit(at) => Ok(Some(at_line(alloc, "limit", *at)?)),
        SFault::Memory => Ok(None),
    }
}

fn at_line(alloc: Global, word: &str, at: u32) -> Result<String, AllocError>
    ensures { IfOk result (λ s. string_bytes s ≡ line_at word.now at) }
{
    fault_at_number(alloc, at, word, Status::Script)
}

/// The line of a fault of a query, at a place in bytes from 0. Queries are numbered from 0.
pub fn query_fault(alloc: Global, word: &str, place: u32, query: u32) -> Result<String, AllocError>
    ensures line { IfOk result (λ s. string_bytes s ≡ query_fault_line word.now place query) }
{
    let ends = number(Status::Query);
    line(
        alloc,
        json!(in alloc; {"at": place, "fault": word, "query": query, "status": ends})?,
    )
}

//! The words, places and names of a fault in; its line out.
ghost use Rattle.std.specs.Prelude.{◌≡◌, IfOk, option_map, string_bytes};
ghost use Rattle.serde_json.specs.Data.{string};
ghost use Rattle.spec_output.specs.Lines.{numeral};
ghost use Rattle.spec_output.specs.Faults.{fault_line, at_line, usage_line, absent_line, broken_line, text_fault_line};

use crate::line::line;
use crate::status::number;
use serde_json::json;
use spec_output::Status;
use std::alloc::{AllocError, Global};
use ts_text::TextFault;

/// The line of a fault that says no more than its word.
///
/// # Errors
///
/// `AllocError` where memory runs out, here and below.
pub fn fault(alloc: Global, word: &str, status: Status) -> Result<String, AllocError>
    ensures line { IfOk result (λ s. string_bytes s ≡ fault_line word.now status) }
{
    let ends = number(status);
    line(alloc, json!(in alloc; {"fault": word, "status": ends})?)
}

/// The line of a fault at a name, a pointer or a path.
pub fn fault_at_name(
    alloc: Global,
    name: &str,
    word: &str,
    status: Status,
) -> Result<String, AllocError>
    ensures line { IfOk result (λ s. string_bytes s
        ≡ at_line (string name.now) word.now status) }
{
    let ends = number(status);
    line(
        alloc,
        json!(in alloc; {"at": name, "fault": word, "status": ends})?,
    )
}

/// The line of a fault at a place in bytes from 0, at a line of a script, or with a number.
pub fn fault_at_number(
    alloc: Global,
    place: u32,
    word: &str,
    status: Status,
) -> Result<String, AllocError>
    ensures line { IfOk result (λ s. string_bytes s ≡ at_line (numeral place) word.now status) }
{
    let ends = number(status);
    line(
        alloc,
        json!(in alloc; {"at": place, "fault": word, "status": ends})?,
    )
}

/// The line where the words have none of the forms.
pub fn usage(alloc: Global) -> Result<String, AllocError>
    ensures line { IfOk result (λ s. string_bytes s ≡ usage_line) }
{
    fault(alloc, "usage", Status::Usage)
}

/// The line where there is no file at the path.
pub fn absent(alloc: Global, path: &str) -> Result<String, AllocError>
    ensures line { IfOk result (λ s. string_bytes s ≡ absent_line path.now) }
{
    fault_at_name(alloc, path, "absent", Status::Absent)
}

/// The line where the bytes at a path are no text, and none for running out of memory.
pub fn text_fault(
    alloc: Global,
    path: &str,
    cause: &TextFault,
) -> Result<Option<String>, AllocError>
    ensures line { IfOk result (λ s. option_map string_bytes s
        ≡ text_fault_line path.now cause.now) }
{
    match cause {
        TextFault::Utf8(place) => Ok(Some(broken(alloc, path, *place)?)),
        TextFault::Size(_) => Ok(Some(fault_at_name(alloc, path, "text size", Status::Text)?)),
        TextFault::Memory => Ok(None),
    }
}

/// The line where the bytes at a path are no UTF-8 from a place on.
fn broken(alloc: Global, path: &str, place: u32) -> Result<String, AllocError>
    ensures { IfOk result (λ s. string_bytes s ≡ broken_line path.now place) }
{
    let ends = number(Status::Text);
    line(
        alloc,
        json!(in alloc; {"at": path, "fault": "text", "place": place, "status": ends})?,
    )
}

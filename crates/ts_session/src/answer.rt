//! A fault of a script, of a query or of a file goes in; the answer comes out where files are
//! refused, a status and a line, or why there is none.
ghost use Rattle.std.specs.Prelude.{◌≡◌, Some, string_bytes, IfOk};
ghost use Rattle.spec_output.specs.Faults.{absent_line};
ghost use Rattle.spec_output.specs.GrammarFaults.{limit_line};
ghost use Rattle.spec_output.specs.declared.status.Status.TheVariants as ends;
ghost use Rattle.ts_core.specs.declared.limits.Limited.TheVariants.{File};
ghost use Rattle.ts_replies.specs.Faults.{script_fault_line};
ghost use Rattle.ts_session.specs.Queries.{load_line};

use crate::queries::load_line;
use spec_output::Status;
use std::alloc::{AllocError, AllocFailed, Global};
use thiserror::Error;
use ts_io::ReadFault;
use ts_loading::LoadFault;
use ts_script::SFault;

/// What is printed, and the status that goes with it.
#[derive(Debug, Drop)]
pub struct Answer {
    pub status: Status,
    pub bytes: Vec<u8>,
}

impl Answer {
    /// The answer that prints a line.
    pub(crate) fn of_line(status: Status, line: String) -> Answer
        ensures status { result.status ≡ status }
        ensures bytes { result.bytes.items ≡ string_bytes line }
    {
        Answer {
            status,
            bytes: line.into_bytes(),
        }
    }
}

/// Why there is no answer.
#[derive(Clone, Copy, Debug, PartialEq, Eq, Error)]
pub enum Unanswered {
    #[error("a read failed")]
    Read,
    #[error("out of memory")]
    Memory,
}

impl From<AllocError> for Unanswered {
    ghost use Rattle.std.specs.Prelude.{◌≡◌};
    ghost use Rattle.ts_session.specs.declared.answer.Unanswered.TheVariants.{Memory};

    ghost from_gives = { λ _ made. made ≡ Memory };

    fn from(_error: AllocError) -> Unanswered {
        Unanswered::Memory
    }
}

impl<T: Drop> From<AllocFailed<T>> for Unanswered {
    ghost use Rattle.std.specs.Prelude.{◌≡◌};
    ghost use Rattle.ts_session.specs.declared.answer.Unanswered.TheVariants.{Memory};

    ghost from_gives = { λ _ made. made ≡ Memory };

    fn from(_error: AllocFailed<T>) -> Unanswered {
        Unanswered::Memory
    }
}

/// A read that came to nothing.
pub(crate) fn unread(fault: ReadFault) -> Unanswered
    ensures { result ≡ Unanswered.Read → fault ≡ ReadFault.Failed }
{
    match fault {
        ReadFault::Failed => Unanswered::Read,
        ReadFault::Memory => Unanswered::Memory,
    }
}

/// The answer where there is no file at the path.
pub(crate) fn absent(alloc: Global, path: &str) -> Result<Answer, AllocError>
    ensures status { IfOk result (λ a. a.status ≡ ends.Absent) }
    ensures bytes { IfOk result (λ a. a.bytes.items ≡ absent_line path.now) }
{
    let line = ts_lines::absent(alloc, path)?;
    Ok(Answer::of_line(Status::Absent, line))
}

/// The answer where the grammar's file has more bytes than are read.
pub(crate) fn too_large(alloc: Global) -> Result<Answer, AllocError>
    ensures status { IfOk result (λ a. a.status ≡ ends.Grammar) }
    ensures bytes { IfOk result (λ a. a.bytes.items ≡ limit_line File) }
{
    let line = ts_lines::fault_at_name(alloc, "file", "limit", Status::Grammar)?;
    Ok(Answer::of_line(Status::Grammar, line))
}

/// The answer of bytes that are no script.
pub(crate) fn no_script(alloc: Global, fault: &SFault) -> Result<Answer, AllocError>
    ensures status { IfOk result (λ a. a.status ≡ ends.Script) }
    ensures bytes { IfOk result (λ a. script_fault_line fault.now ≡ Some a.bytes.items) }
{
    match ts_replies::script_fault(alloc, fault)? {
        Some(line) => Ok(Answer::of_line(Status::Script, line)),
        None => Err(AllocError),
    }
}

/// The answer where queries are not loaded.
pub(crate) fn not_loaded(alloc: Global, fault: &LoadFault) -> Result<Answer, AllocError>
    ensures status { IfOk result (λ a. a.status ≡ ends.Query) }
    ensures bytes { IfOk result (λ a. load_line fault.now ≡ Some a.bytes.items) }
{
    match load_line(alloc, fault)? {
        Some(line) => Ok(Answer::of_line(Status::Query, line)),
        None => Err(AllocError),
    }
}

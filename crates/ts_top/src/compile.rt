//! What was read of a file that is compiled in; its language file, or the line that says why there
//! is none, out.
ghost use Rattle.std.specs.Prelude.{◌≡◌, ◌≤◌, Option, Some, length, IfOk, IfErr};
ghost use Rattle.spec_output.specs.GrammarFaults.{limit_line};
ghost use Rattle.spec_output.specs.declared.status.Status.TheVariants.{Grammar};
ghost use Rattle.ts_base.specs.Bytes.{Bytes};
ghost use Rattle.ts_core.specs.declared.limits.Limited.TheVariants.{File};
ghost use Rattle.ts_io.specs.Read.{AnswersFor, KeepsLimit};
ghost use Rattle.ts_top.specs.Answer.{Compiled};
ghost use Rattle.ts_session.specs.Replays.{IsJudged};
ghost use Rattle.ts_session.specs.Limits.{most_file_bytes};
ghost use Rattle.ts_top.specs.declared.stop.Stop.TheVariants.{Memory};

use crate::stop::Stop;
use spec_output::Status;
use std::alloc::{AllocError, Global};
use ts_front::{Uncompiled, language_file};
use ts_io::Found;
use ts_session::Answer;

/// The answer of a file that has more bytes than are read.
pub(crate) fn too_large(alloc: Global) -> Result<Answer, AllocError>
    ensures status { IfOk result (λ a. a.status ≡ Grammar) }
    ensures bytes { IfOk result (λ a. a.bytes.items ≡ limit_line File) }
{
    let line = ts_lines::fault_at_name(alloc, "file", "limit", Status::Grammar)?;
    Ok(Answer {
        status: Status::Grammar,
        bytes: line.into_bytes(),
    })
}

/// The answer of the bytes of a file.
fn answer_of<'a>(alloc: Global, bytes: &[u8]) -> Result<Answer, Stop<'a>>
    requires { length bytes.now ≤ most_file_bytes }
    ensures judged { IfOk result (λ a. IsJudged a.status) }
    ensures compiled { IfOk result (λ a. Compiled bytes.now a.status a.bytes.items) }
    ensures stop { IfErr result (λ stop. stop ≡ Memory) }
{
    match language_file(alloc, bytes) {
        Ok(file) => Ok(Answer {
            status: Status::Done,
            bytes: file,
        }),
        Err(Uncompiled::Refused(line)) => Ok(Answer {
            status: Status::Grammar,
            bytes: line.into_bytes(),
        }),
        Err(Uncompiled::Memory) => Err(Stop::Memory),
    }
}

/// The answer of what was read of a file that is compiled.
pub(crate) fn compiled<'a>(alloc: Global, found: &Found) -> Result<Answer, Stop<'a>>
    requires { KeepsLimit most_file_bytes found.now }
    ensures judged { IfOk result (λ a. IsJudged a.status) }
    ensures compiled { IfOk result (λ a. (file : Bytes)
        → AnswersFor (Some file) most_file_bytes found.now
        → Compiled file a.status a.bytes.items) }
    ensures stop { IfErr result (λ stop. stop ≡ Memory) }
{
    match found {
        Found::Bytes(bytes) => answer_of(alloc, bytes.as_slice()),
        Found::Over => Ok(too_large(alloc)?),
        // Whoever reads the file has answered this before.
        Found::Absent => Ok(too_large(alloc)?),
    }
}

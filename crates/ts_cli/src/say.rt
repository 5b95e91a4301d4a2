//! Texts of the program's own: a text comes in and goes to a sink, and a status comes out.
ghost use Rattle.std.specs.Prelude.{◌≡◌, ◌⊎◌};
ghost use Rattle.ts_io.specs.Outside.{Appends, AppendsPrefix, Rose};

use spec_output::Status;
use ts_io::{Sink, WriteFault, put};

/// Prints a text, and answers the status of that.
pub(crate) fn say<S: Sink>(sink: &mut S, text: &str) -> Status
    ensures statuses { (result ≡ Status.Done) ⊎ (result ≡ Status.WriteFault) }
    ensures done { result ≡ Status.Done → Appends (S.taken sink.old) (S.taken sink.new) text.now }
    ensures prefix { AppendsPrefix (S.taken sink.old) (S.taken sink.new) text.now }
    ensures write { result ≡ Status.WriteFault → Rose (S.faults sink.old) (S.faults sink.new) }
{
    match put(sink, text.as_bytes()) {
        Ok(()) => Status::Done,
        Err(WriteFault::Failed) => Status::WriteFault,
    }
}

//! What a person is told on standard error: a status and the path of the last failed read come in,
//! and where standard output says nothing whole at that status, one line goes out.
ghost use Rattle.std.specs.Prelude.{◌≡◌, ◌↔◌, Some};
ghost use Rattle.spec_output.specs.Status.{number_of};
ghost use Rattle.spec_output.specs.declared.status.Status.TheVariants as ends;

use spec_output::Status;
use ts_lines::number;

/// What cut a run short.
#[derive(Clone, Copy, Debug, PartialEq, Eq)]
pub(crate) enum Trouble {
    Read,
    Write,
    Memory,
}

/// What cut a run short that ended with this status.
pub(crate) fn trouble_at(status: u8) -> Option<Trouble>
    ensures read { (result ≡ Some Trouble.Read) ↔ (status ≡ number_of ends.ReadFault) }
    ensures write { (result ≡ Some Trouble.Write) ↔ (status ≡ number_of ends.WriteFault) }
    ensures memory { (result ≡ Some Trouble.Memory) ↔ (status ≡ number_of ends.OutOfMemory) }
{
    if status == number(Status::ReadFault) {
        Some(Trouble::Read)
    } else if status == number(Status::WriteFault) {
        Some(Trouble::Write)
    } else if status == number(Status::OutOfMemory) {
        Some(Trouble::Memory)
    } else {
        None
    }
}

/// Tells in one line what cut a run short. Where standard error takes nothing, there is no one to
/// tell.
pub(crate) fn tell<R: Eprint>(rt: &R, status: u8, failed: Option<&str>) {
    let _ = match (trouble_at(status), failed) {
        (None, _) => Ok(()),
        (Some(Trouble::Read), Some(path)) => {
            eprintln!(rt; "hemshale: cannot read the file {path:?}")
        }
        (Some(Trouble::Read), None) => eprintln!(rt; "hemshale: cannot read a file"),
        (Some(Trouble::Write), _) => eprintln!(rt; "hemshale: standard output takes no more bytes"),
        (Some(Trouble::Memory), _) => eprintln!(rt; "hemshale: out of memory"),
    };
}

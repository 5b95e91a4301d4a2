//! A status in; the number that the system is given out.
ghost use Rattle.std.specs.Prelude.{◌≡◌};
ghost use Rattle.spec_output.specs.Status.{number_of};

use spec_output::Status;

/// The number that the system is given.
pub fn number(status: Status) -> u8
    ensures number { result ≡ number_of status }
{
    match status {
        Status::Done => 0,
        Status::Usage => 1,
        Status::ReadFault => 2,
        Status::WriteFault => 3,
        Status::OutOfMemory => 4,
        Status::Grammar => 5,
        Status::Query => 6,
        Status::Script => 7,
        Status::Absent => 8,
        Status::Text => 9,
    }
}

//! What gives files: the trait that says what a read answers and when it fails. A path and a limit
//! come in, and what is found there comes out.
ghost use Rattle.std.specs.Prelude.{◌≡◌, ℕ, ◌≤◌, Option, IfOk};
ghost use Rattle.ts_io.specs.Outside.{Rose, Files};
ghost use Rattle.ts_io.specs.Read.{KeepsLimit, ReadsFrom};

use std::alloc::Global;
use thiserror::Error;

/// What a read finds at a path: the file's bytes, no file, or more bytes than were asked for.
#[derive(Debug, PartialEq, Eq, Drop)]
pub enum Found {
    Bytes(Vec<u8>),
    Absent,
    Over,
}

/// Why a read has no answer: the outside failed, or there is no memory for the bytes.
#[derive(Clone, Copy, Debug, PartialEq, Eq, Error)]
pub enum ReadFault {
    #[error("the file cannot be read")]
    Failed,
    #[error("out of memory")]
    Memory,
}

/// Files by their paths.
pub trait Folder {
    /// The files, where the folder tells them.
    ghost files: { Self → Option Files };

    /// How many reads failed. It may stand at the last value of a `u64`.
    ghost faults: { Self → ℕ };

    /// Reads the whole file at `path`, of at most `limit` bytes. Where memory runs out, it is
    /// `ReadFault::Memory`.
    fn read(&mut self, alloc: Global, path: &str, limit: u64) -> Result<Found, ReadFault>
        // No read changes the files, and what it found is what is there.
        ensures same { files self.new ≡ files self.old }
        ensures told { IfOk result (ReadsFrom (files self.old) path.now limit) }
        ensures within { IfOk result (KeepsLimit limit) }

        ensures later { faults self.old ≤ faults self.new }
        ensures failed { result ≡ Err ReadFault.Failed → Rose (faults self.old) (faults self.new) };
}

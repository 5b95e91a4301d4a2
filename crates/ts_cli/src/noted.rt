//! A folder that takes notes: reads go to the folder inside, and the path of the last one that
//! failed stays known.
ghost use Rattle.std.specs.Prelude.{◌≡◌, string_bytes, None, IfSome, IsNone, IsSome};
ghost use Rattle.ts_cli.specs.Noted.{folder_of, failed_of};

use std::alloc::Global;
use ts_io::{Folder, Found, ReadFault};

/// A folder, with the path of its last failed read, where there was memory for it.
#[derive(Drop)]
pub(crate) struct Noted<F> {
    folder: F,
    failed: Option<String>,
}

impl<F> Noted<F> {
    pub(crate) fn new(folder: F) -> Noted<F>
        ensures folder { folder_of result ≡ folder }
        ensures failed { failed_of result ≡ None }
    {
        Noted {
            folder,
            failed: None,
        }
    }

    /// The path of the last failed read.
    pub(crate) fn failed(&self) -> Option<&str>
        ensures none { IsNone result → failed_of self.now ≡ None }
        ensures some { IfSome result (λ path.
            IfSome (failed_of self.now) (λ noted. path.now ≡ string_bytes noted)) }
    {
        match &self.failed {
            Some(path) => Some(path.as_str()),
            None => None,
        }
    }
}

impl<F: Folder> Folder for Noted<F> {
    ghost use Rattle.std.specs.Prelude.{◌≡◌, ◌≢◌, ◌≤◌, string_bytes, IfOk, IfSome};
    ghost use Rattle.ts_io.specs.Outside.{Rose};
    ghost use Rattle.ts_io.specs.Read.{KeepsLimit, ReadsFrom};
    ghost use Rattle.ts_cli.specs.Noted.{folder_of, failed_of};

    ghost files = { λ n. F.files (folder_of n) };

    ghost faults = { λ n. F.faults (folder_of n) };

    fn read(&mut self, alloc: Global, path: &str, limit: u64) -> Result<Found, ReadFault>
        ensures same { F.files (folder_of self.new) ≡ F.files (folder_of self.old) }
        ensures told { IfOk result (ReadsFrom (F.files (folder_of self.old)) path.now limit) }
        ensures within { IfOk result (KeepsLimit limit) }

        ensures later { F.faults (folder_of self.old) ≤ F.faults (folder_of self.new) }
        ensures failed { result ≡ Err ReadFault.Failed →
            Rose (F.faults (folder_of self.old)) (F.faults (folder_of self.new)) }

        // What it notes.
        ensures noted { result ≡ Err ReadFault.Failed →
            IfSome (failed_of self.new) (λ noted. string_bytes noted ≡ path.now) }
        ensures kept { result ≢ Err ReadFault.Failed → failed_of self.new ≡ failed_of self.old }
    {
        let result = self.folder.read(alloc, path, limit);
        if let Err(ReadFault::Failed) = result {
            self.failed = String::from_str(alloc, path).ok();
        }
        result
    }
}

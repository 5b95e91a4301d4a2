//! Files in memory: paths and bytes come in, and reads that are listed fail.
use crate::folder::{Folder, Found, ReadFault};
use std::alloc::Global;

/// Files in memory, each a path and its bytes. Of equal paths the first counts. A read copies the
/// bytes. It fails where its number is listed. Reads are numbered from 0, and those past the last
/// value of a `u64` all have that number.
#[derive(Debug, Drop)]
pub struct MemFolder {
    files: Vec<(String, Vec<u8>)>,
    failing: Vec<u64>,
    reads: u64,
    faults: u64,
}

impl MemFolder {
    ghost use Rattle.std.specs.Prelude.{◌≡◌, IfSome, IfNone, Some, None};
    ghost use Rattle.ts_io.specs.MemFolder.{as_files, files_of, failing_of, reads_of, faults_of};
    ghost use Rattle.ts_io.specs.Outside.{file_at};

    pub fn new(files: Vec<(String, Vec<u8>)>, failing: Vec<u64>) -> MemFolder
        ensures files { files_of result ≡ as_files files.items }
        ensures failing { failing_of result ≡ failing.items }
        ensures reads { reads_of result ≡ 0 }
        ensures faults { faults_of result ≡ 0 }
    {
        MemFolder {
            files,
            failing,
            reads: 0,
            faults: 0,
        }
    }

    /// The bytes of the first file with that path.
    fn bytes_at(&self, path: &str) -> Option<&[u8]>
        ensures none { IfNone result (file_at (files_of self.now) path.now ≡ None) }
        ensures some { IfSome result (λ bytes.
            file_at (files_of self.now) path.now ≡ Some bytes.now) }
    {
        for (name, bytes) in &self.files {
            if name.as_str() == path {
                return Some(bytes.as_slice());
            }
        }
        None
    }
}

impl Folder for MemFolder {
    ghost use Rattle.std.specs.Prelude.{◌≡◌, ◌≢◌, ◌≤◌, ◌↔◌, Some, Contains, IfOk};
    ghost use Rattle.ts_io.specs.Outside.{Rose, next_of};
    ghost use Rattle.ts_io.specs.Read.{KeepsLimit, ReadsFrom};
    ghost use Rattle.ts_io.specs.MemFolder.{files_of, failing_of, reads_of, faults_of};

    ghost files = { λ f. Some (files_of f) };

    ghost faults = { faults_of };

    fn read(&mut self, alloc: Global, path: &str, limit: u64) -> Result<Found, ReadFault>
        ensures same { Some (files_of self.new) ≡ Some (files_of self.old) }
        ensures told { IfOk result (ReadsFrom (Some (files_of self.old)) path.now limit) }
        ensures within { IfOk result (KeepsLimit limit) }

        ensures later { faults_of self.old ≤ faults_of self.new }
        ensures failed { result ≡ Err ReadFault.Failed →
            Rose (faults_of self.old) (faults_of self.new) }

        // Exactly when it fails, and what it counts.
        ensures fails { (result ≡ Err ReadFault.Failed) ↔
            Contains (failing_of self.old) (reads_of self.old) }
        ensures raised { result ≡ Err ReadFault.Failed →
            faults_of self.new ≡ next_of (faults_of self.old) }
        ensures kept { result ≢ Err ReadFault.Failed → faults_of self.new ≡ faults_of self.old }
        ensures reads { reads_of self.new ≡ next_of (reads_of self.old) }
        ensures failing { failing_of self.new ≡ failing_of self.old }
    {
        let number = self.reads;
        self.reads = number.saturating_add(1);
        if self.failing.contains(&number) {
            self.faults = self.faults.saturating_add(1);
            return Err(ReadFault::Failed);
        }
        let Some(bytes) = self.bytes_at(path) else {
            return Ok(Found::Absent);
        };
        if bytes.len() as u64 > limit {
            return Ok(Found::Over);
        }
        let copy = Vec::from_slice(alloc, bytes).map_err(|_| ReadFault::Memory)?;
        Ok(Found::Bytes(copy))
    }
}

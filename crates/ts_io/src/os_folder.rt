//! The files of the system: a path comes in, and what the file at it holds comes out.
ghost use Rattle.std.specs.Prelude.{IfOk};
ghost use Rattle.ts_io.specs.Read.{KeepsLimit, ReadsAll};

use crate::folder::{Folder, Found, ReadFault};
use std::alloc::Global;
use std::fs;
use std::io::{ErrorKind, Read};
use std::rt::Files;

/// How many bytes are asked of a file at once.
const CHUNK: usize = 8192;

/// The system's files, by paths as the system reads them. A read whose file is not found answers
/// `Absent`, and any other error, as at a folder or where reading is not allowed, is `Failed`. It
/// tells no bytes.
///
/// A `main` with the runtime `rt` makes one by `OsFolder::new(rt.clone()?)`, or over `&rt`.
#[derive(Drop)]
pub struct OsFolder<R> {
    rt: R,
    faults: u64,
}

impl<R> OsFolder<R> {
    ghost use Rattle.std.specs.Prelude.{◌≡◌};
    ghost use Rattle.ts_io.specs.OsFolder.{faults_of};

    pub fn new(rt: R) -> OsFolder<R>
        ensures { faults_of result ≡ 0 }
    {
        OsFolder { rt, faults: 0 }
    }
}

impl<R: Files> Folder for OsFolder<R> {
    ghost use Rattle.std.specs.Prelude.{◌≡◌, ◌≢◌, ◌≤◌, None};
    ghost use Rattle.ts_io.specs.Outside.{next_of};
    ghost use Rattle.ts_io.specs.OsFolder.{faults_of};

    ghost files = { λ _. None };

    ghost faults = { faults_of };

    fn read(&mut self, alloc: Global, path: &str, limit: u64) -> Result<Found, ReadFault>
        ensures within { IfOk result (KeepsLimit limit) }
        ensures later { faults_of self.old ≤ faults_of self.new }
        ensures raised { result ≡ Err ReadFault.Failed →
            faults_of self.new ≡ next_of (faults_of self.old) }
        ensures kept { result ≢ Err ReadFault.Failed → faults_of self.new ≡ faults_of self.old }
    {
        let result = read_file(&self.rt, alloc, path, limit);
        if let Err(ReadFault::Failed) = result {
            self.faults = self.faults.saturating_add(1);
        }
        result
    }
}

fn read_file<R: Files>(rt: &R, alloc: Global, path: &str, limit: u64) -> Result<Found, ReadFault>
    ensures { IfOk result (KeepsLimit limit) }
{
    match fs::open(rt, path) {
        Ok(mut file) => read_up_to(alloc, &mut file, limit),
        Err(error) if error.kind() == ErrorKind::NotFound => Ok(Found::Absent),
        Err(_) => Err(ReadFault::Failed),
    }
}

/// Reads to the end, or until there are more than `limit` bytes.
#[tactic(auto, using(crate::proofs::ReadLemmas::consumes_more))]
fn read_up_to<F: Read>(alloc: Global, file: &mut F, limit: u64) -> Result<Found, ReadFault>
    ensures within { IfOk result (KeepsLimit limit) }
    ensures all { IfOk result (ReadsAll (F.remaining file.old) limit) }
{
    let mut bytes = Vec::new(alloc);
    let mut chunk = [0; CHUNK];
    loop {
        let count = file.read(&mut chunk).map_err(|_| ReadFault::Failed)?;
        if count == 0 {
            return Ok(Found::Bytes(bytes));
        }
        if count as u64 > limit - bytes.len() as u64 {
            return Ok(Found::Over);
        }
        bytes
            .extend_from_slice(&chunk[..count])
            .map_err(|_| ReadFault::Memory)?;
    }
}

//! A file of rows in, as JSON; its rows out, each the words and files of a run and the answer that
//! is wanted.
use crate::content::Content;
use crate::fault::DataFault;
use crate::holding::{Hold, Meeting};
use crate::rules::Held;
use serde::Deserialize;
use serde_json::Value;
use std::alloc::Global;
use std::collections::BTreeMap;
use ts_io::{Folder, Found, ReadFault};

/// The most bytes that a file of rows has: 16 MiB.
const MOST_BYTES: u64 = 16_777_216;

/// How many bytes a write takes at most, where the row says nothing of it.
const MOST_OF_A_WRITE: usize = 4_096;

/// One run of the program, and how it has to end.
#[derive(Drop, Deserialize)]
#[serde(deny_unknown_fields)]
pub(crate) struct Row {
    pub name: String,
    pub words: Vec<String>,
    /// Files by their paths.
    #[serde(default)]
    pub files: BTreeMap<String, Held>,
    /// The numbers of the reads that fail, from 0.
    #[serde(default)]
    pub failing_reads: Vec<u64>,
    /// The numbers of the writes that fail, from 0.
    #[serde(default)]
    pub failing_writes: Vec<u64>,
    /// The numbers of the regular expressions whose build fails, from 0.
    #[serde(default)]
    pub failing_builds: Vec<u64>,
    /// Where a gate holds clients, and until when.
    #[serde(default)]
    pub holds: Vec<Hold>,
    /// A host that waits, and whom the gate holds meanwhile.
    pub meeting: Option<Meeting>,
    /// Whether any turns will do, since clients look until something comes.
    #[serde(default)]
    pub turns_are_free: bool,
    /// The most bytes that a write takes.
    pub most: Option<usize>,
    /// The status that is wanted.
    pub status: u8,
    /// The bytes that are wanted.
    pub output: Content,
}

impl Row {
    /// The most bytes that a write takes.
    pub(crate) fn most(&self) -> usize {
        self.most.unwrap_or(MOST_OF_A_WRITE)
    }
}

/// The rows of a file, as JSON.
pub(crate) fn rows_in<'a, F: Folder>(
    alloc: Global,
    folder: &mut F,
    file: &'a str,
) -> Result<Vec<Value>, DataFault<'a>> {
    match folder.read(alloc, file, MOST_BYTES) {
        Ok(Found::Bytes(bytes)) => serde_json::from_slice(alloc, bytes.as_slice()).map_err(
            |error| DataFault::NoRows { file, error },
        ),
        Ok(Found::Absent) => Err(DataFault::Absent(file)),
        Ok(Found::Over) => Err(DataFault::Large(file)),
        Err(ReadFault::Failed | ReadFault::Memory) => Err(DataFault::Unread(file)),
    }
}

//! A file of rows in, as JSON; its rows out, each a language file in words and the answer that is
//! wanted.
use crate::fault::DataFault;
use serde::Deserialize;
use std::alloc::{AllocError, Global};
use std::collections::BTreeMap;
use ts_io::{Folder, Found, ReadFault};

/// The most bytes that a file of rows has: 16 MiB.
const MOST_BYTES: u64 = 16_777_216;

/// Rows, and the words that stand for several words in them.
#[derive(Drop, Deserialize)]
#[serde(deny_unknown_fields)]
pub(crate) struct Rows {
    #[serde(default)]
    pub words: BTreeMap<String, String>,
    pub rows: Vec<Row>,
}

/// One language file, and what has to come of it.
#[derive(Drop, Deserialize)]
#[serde(deny_unknown_fields)]
pub(crate) struct Row {
    pub name: String,
    /// The file's bytes in words, as `spelling` has them.
    pub file: Vec<String>,
    /// The refusal that is wanted, or how many states there are.
    pub answer: String,
    /// Questions to the table, and the actions that are wanted.
    #[serde(default)]
    pub actions: BTreeMap<String, String>,
}

impl Row {
    /// The answer that is wanted, in one line.
    pub(crate) fn wanted(&self, alloc: Global) -> Result<String, AllocError> {
        let mut wanted = String::from_str(alloc, self.answer.as_str())?;
        for (question, actions) in &self.actions {
            push_actions(&mut wanted, question.as_str(), actions.as_str())?;
        }
        Ok(wanted)
    }
}

/// Puts a question and its actions behind an answer.
pub(crate) fn push_actions(
    answer: &mut String,
    question: &str,
    actions: &str,
) -> Result<(), AllocError> {
    answer.push_str("; ")?;
    answer.push_str(question)?;
    answer.push_str(": ")?;
    answer.push_str(actions)
}

/// The rows of a file, as JSON.
pub(crate) fn rows_in<'a, F: Folder>(
    alloc: Global,
    folder: &mut F,
    file: &'a str,
) -> Result<Rows, DataFault<'a>> {
    match folder.read(alloc, file, MOST_BYTES) {
        Ok(Found::Bytes(bytes)) => serde_json::from_slice(alloc, bytes.as_slice()).map_err(
            |error| DataFault::NoRows { file, error },
        ),
        Ok(Found::Absent) => Err(DataFault::Absent(file)),
        Ok(Found::Over) => Err(DataFault::Large(file)),
        Err(ReadFault::Failed | ReadFault::Memory) => Err(DataFault::Unread(file)),
    }
}

//! Why rows cannot be tried: which file, which row, and what is wrong there.
use std::alloc::{AllocError, AllocFailed};
use thiserror::Error;

/// What is wrong with one row's data.
#[derive(Debug, Drop, Error)]
pub(crate) enum RowFault {
    #[error("there is no such word")]
    Word,
    #[error("a question is no list of symbols, `on` and a token")]
    Question,
    #[error("the language file has more than 64 MiB")]
    Large,
    #[error("the language file is written otherwise than it is read")]
    Written,
    #[error("out of memory")]
    Memory,
}

impl From<AllocError> for RowFault {
    fn from(_error: AllocError) -> RowFault {
        RowFault::Memory
    }
}

impl<T: Drop> From<AllocFailed<T>> for RowFault {
    fn from(_error: AllocFailed<T>) -> RowFault {
        RowFault::Memory
    }
}

/// What is wrong with a file of rows.
#[derive(Debug, Drop, Error)]
pub(crate) enum DataFault<'a> {
    #[error("{0}: there is no such file")]
    Absent(&'a str),
    #[error("{0}: the file cannot be read")]
    Unread(&'a str),
    #[error("{0}: the file has more than 16 MiB")]
    Large(&'a str),
    #[error("{file}: no rows: {error}")]
    NoRows {
        file: &'a str,
        error: serde_json::Error,
    },
    #[error("{file}, {row}: {fault}")]
    Row {
        file: &'a str,
        row: &'a str,
        fault: RowFault,
    },
}

//! Why rows cannot be tried: which file, which row, and what is wrong there.
use std::alloc::{AllocError, AllocFailed};
use thiserror::Error;

/// What is wrong with one row's data.
#[derive(Debug, Drop, Error)]
pub(crate) enum RowFault {
    #[error("{0}")]
    Json(serde_json::Error),
    #[error("a `hex` is not hexadecimal")]
    Hex,
    #[error("`rules` are no text")]
    Rules,
    #[error("`most` is 0, so no write takes a byte")]
    Most,
    #[error("a client or a host waited for one that did not come")]
    Unmet,
    #[error("out of memory")]
    Memory,
}

impl From<AllocError> for RowFault {
    fn from(_error: AllocError) -> RowFault {
        RowFault::Memory
    }
}

impl<T: Drop> From<AllocFailed<T>> for RowFault {
    fn from(_error: AllocFailed<T>) -> RowFault {
        RowFault::Memory
    }
}

/// What is wrong with a file of rows. Rows are counted from 1.
#[derive(Debug, Drop, Error)]
pub(crate) enum DataFault<'a> {
    #[error("{0}: there is no such file")]
    Absent(&'a str),
    #[error("{0}: the file cannot be read")]
    Unread(&'a str),
    #[error("{0}: the file has more than 16 MiB")]
    Large(&'a str),
    #[error("{file}: no list of rows: {error}")]
    NoRows {
        file: &'a str,
        error: serde_json::Error,
    },
    #[error("{file}, row {row}: {fault}")]
    Row {
        file: &'a str,
        row: u64,
        fault: RowFault,
    },
}

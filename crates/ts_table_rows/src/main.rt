//! Tables of grammars in normal form as rows of data. Its words name files of rows beside it; it
//! spells each row's language file, reads and writes it, makes its table, prints each row whose
//! answer differs from the one wanted, and then how many rows there were and how many differed. It
//! ends with status 1 where one differs or a row cannot be read.
#![tactic(auto)]

mod answer;
mod asked;
mod fault;
mod row;
mod spelling;

use crate::answer::answer_of;
use crate::fault::{DataFault, RowFault};
use crate::row::{Row, Rows, rows_in};
use crate::spelling::spelled;
use std::alloc::Global;
use std::env;
use std::process::ExitCode;
use std::rt::{Env, Files};
use ts_io::OsFolder;

/// How many rows were tried, and how many of their answers differed from the one wanted.
#[derive(Clone, Copy, Default)]
struct Tally {
    rows: u64,
    differing: u64,
}

fn main(rt: HostRuntime) -> anyhow::Result<ExitCode> {
    let tally = tried(&rt)?;
    println!(rt; "{} rows, {} differ", tally.rows, tally.differing)?;
    Ok(ExitCode::from(u8::from(tally.differing > 0)))
}

/// The tally of all rows in the files that the program's words name.
fn tried<R: AllocGlobal + Env + Files + Print>(rt: &R) -> anyhow::Result<Tally> {
    let mut tally = Tally::default();
    let mut folder = OsFolder::new(rt);
    for word in env::args(rt)?.skip(1) {
        let file = word.as_str();
        let rows = rows_in(rt.alloc(), &mut folder, file)?;
        for row in &rows.rows {
            let agrees = agrees(rt, file, &rows, row)?;
            tally.rows = tally.rows.saturating_add(1);
            tally.differing = tally.differing.saturating_add(u64::from(!agrees));
        }
    }
    Ok(tally)
}

/// Whether a row's answer is the one wanted. Where it is not, both are printed.
fn agrees<R: AllocGlobal + Print>(
    rt: &R,
    file: &str,
    rows: &Rows,
    row: &Row,
) -> anyhow::Result<bool> {
    let given = match given(rt.alloc(), rows, row) {
        Ok(given) => given,
        Err(fault) => {
            return Err(DataFault::Row {
                file,
                row: row.name.as_str(),
                fault,
            }
            .into());
        }
    };
    let wanted = row.wanted(rt.alloc())?;
    if given == wanted {
        return Ok(true);
    }
    println!(rt; "{file}, {}:", row.name)?;
    println!(rt; "  wanted: {wanted}")?;
    println!(rt; "  given: {given}")?;
    Ok(false)
}

/// The answer to a row's language file.
fn given(alloc: Global, rows: &Rows, row: &Row) -> Result<String, RowFault> {
    let bytes = spelled(alloc, rows, row)?;
    answer_of(alloc, bytes.as_slice(), row)
}

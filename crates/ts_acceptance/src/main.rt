//! Whole runs of the program as rows of data. Its words name files of rows beside it; it makes each
//! row's run over files and a sink in memory, prints each row whose answer differs from the one
//! wanted, and then how many rows there were and how many differed. It ends with status 1 where one
//! differs or a row cannot be read.
#![tactic(auto)]

mod content;
mod fault;
mod holding;
mod notation;
mod row;
mod rules;
mod shown;
mod tally;
mod trial;
mod turns;

use crate::fault::DataFault;
use crate::row::rows_in;
use crate::shown::print_trial;
use crate::tally::Tally;
use crate::trial::Trial;
use std::env;
use std::process::ExitCode;
use std::rt::{Env, Files};
use std::sync::Wait;
use std::thread::Threads;
use ts_io::OsFolder;

fn main(rt: HostRuntime) -> anyhow::Result<ExitCode> {
    let tally = tried(&rt)?;
    println!(rt; "{} rows, {} differ", tally.rows, tally.differing)?;
    Ok(ExitCode::from(u8::from(tally.differing > 0)))
}

/// The tally of all rows in the files that the program's words name.
fn tried<R: AllocGlobal + Env + Files + Print + Threads + Wait + Sync>(
    rt: &R,
) -> anyhow::Result<Tally> {
    let mut tally = Tally::default();
    let mut folder = OsFolder::new(rt);
    for word in env::args(rt)?.skip(1) {
        let file = word.as_str();
        let rows = rows_in(rt.alloc(), &mut folder, file)?;
        let mut number = 0_u64;
        for row in rows {
            number = number.saturating_add(1);
            let trial = match Trial::of(rt, row) {
                Ok(trial) => trial,
                Err(fault) => {
                    return Err(DataFault::Row {
                        file,
                        row: number,
                        fault,
                    }
                    .into());
                }
            };
            if !trial.agrees() {
                print_trial(rt, file, &trial)?;
            }
            tally.add(trial.agrees());
        }
    }
    Ok(tally)
}

//! One row in; the answer that it wants and the answer that its run gives out.
use crate::fault::RowFault;
use crate::holding::{Holding, WaitingHost};
use crate::row::Row;
use crate::turns::without_turns;
use serde_json::Value;
use std::alloc::Global;
use std::sync::Wait;
use std::thread::Threads;
use ts_io::{MemFolder, MemSink};
use ts_predicate::Hosts;
use ts_query_syntax::Builder;
use ts_top::AsciiHost;

/// How a run ends: its status and what it wrote.
#[derive(PartialEq, Eq, Drop)]
pub(crate) struct Answer {
    pub status: u8,
    pub bytes: Vec<u8>,
}

/// A row whose run was made.
#[derive(Drop)]
pub(crate) struct Trial {
    pub name: String,
    pub wanted: Answer,
    pub given: Answer,
}

impl Trial {
    /// Makes the run of a row, over files and a sink in memory, with a gate that holds the row's
    /// clients, and with the host of the program or one that waits.
    pub(crate) fn of<R: AllocGlobal + Threads + Wait + Sync>(
        rt: &R,
        row: Value,
    ) -> Result<Trial, RowFault> {
        let alloc = rt.alloc();
        let row: Row = serde_json::from_value(alloc, row).map_err(RowFault::Json)?;
        let mut given = answer_of(rt, &row)?;
        let mut wanted = Answer {
            status: row.status,
            bytes: row.output.bytes(alloc)?,
        };
        if row.turns_are_free {
            given.bytes = without_turns(alloc, given.bytes.as_slice())?;
            wanted.bytes = without_turns(alloc, wanted.bytes.as_slice())?;
        }
        Ok(Trial {
            name: row.name.clone()?,
            wanted,
            given,
        })
    }

    /// Whether the run gave the answer that is wanted.
    pub(crate) fn agrees(&self) -> bool {
        self.given == self.wanted
    }
}

/// How the row's run ends.
fn answer_of<R: AllocGlobal + Threads + Wait + Sync>(
    rt: &R,
    row: &Row,
) -> Result<Answer, RowFault> {
    let alloc = rt.alloc();
    let most = row.most();
    if most == 0 {
        return Err(RowFault::Most);
    }
    let mut folder = folder_of(alloc, row)?;
    let failing = Vec::from_slice(alloc, row.failing_writes.as_slice())?;
    let mut sink = MemSink::new(alloc, most, failing)?;
    let gate = Holding::new(alloc, row.holds.as_slice(), row.meeting)?;
    let status = match row.meeting {
        None => {
            let hosts = AsciiHost::new(alloc)?;
            status_of(rt, row, &mut folder, &mut sink, &gate, &hosts)?
        }
        Some(meeting) => {
            let hosts = WaitingHost::new(alloc, &gate, meeting.until)?;
            status_of(rt, row, &mut folder, &mut sink, &gate, &hosts)?
        }
    };
    if gate.overran() {
        return Err(RowFault::Unmet);
    }
    let bytes = Vec::from_slice(alloc, sink.bytes())?;
    Ok(Answer { status, bytes })
}

/// The status with which the row's run ends, with this host.
fn status_of<R: AllocGlobal + Threads + Wait + Sync, H: Hosts + Sync>(
    rt: &R,
    row: &Row,
    folder: &mut MemFolder,
    sink: &mut MemSink,
    gate: &Holding,
    hosts: &H,
) -> Result<u8, RowFault> {
    let mut patterns = patterns_of(rt.alloc(), row)?;
    let words = row.words.as_slice();
    Ok(ts_top::run(rt, words, folder, sink, gate, hosts, &mut patterns))
}

/// The row's files, of which the reads fail that the row lists.
fn folder_of(alloc: Global, row: &Row) -> Result<MemFolder, RowFault> {
    let mut files = Vec::new(alloc);
    for (path, held) in &row.files {
        files.push((path.clone()?, held.bytes(alloc)?))?;
    }
    let failing = Vec::from_slice(alloc, row.failing_reads.as_slice())?;
    Ok(MemFolder::new(files, failing))
}

/// What builds the row's regular expressions, of which the builds fail that the row lists.
fn patterns_of(alloc: Global, row: &Row) -> Result<Builder, RowFault> {
    let failing = Vec::from_slice(alloc, row.failing_builds.as_slice())?;
    Ok(Builder::new(alloc, failing))
}

//! A sink in memory: bytes come in and can be looked at, and writes that are listed fail.
ghost use Rattle.std.specs.Prelude.{◌≡◌, ◌<◌, ◌≤◌, length, vec_capacity, vec_len, []};
ghost use Rattle.ts_io.specs.Room.{sink_room};

use crate::sink::{Sink, WriteFault};
use std::alloc::{AllocError, Global};

/// How many bytes a `MemSink` has room for: 16 MiB.
pub const MEM_SINK_ROOM: usize = 16_777_216;

/// A sink in memory, with room for `MEM_SINK_ROOM` bytes, that takes at most `most` bytes a write.
/// It fails at the writes whose numbers are listed, and where bytes find the room full. Writes are
/// numbered from 0, and those past the last value of a `u64` all have that number.
#[derive(Debug, Drop)]
pub struct MemSink {
    bytes: Vec<u8>,
    most: usize,
    failing: Vec<u64>,
    writes: u64,
    faults: u64,
    ghost takes: { 0 < most },
    ghost room: { sink_room ≤ vec_capacity bytes },
    ghost within: { vec_len bytes ≤ sink_room },
}

impl MemSink {
    ghost use Rattle.std.specs.Prelude.{◌↔◌, IfOk, IsTrue};
    ghost use Rattle.ts_io.specs.MemSink.{bytes_of, most_of, failing_of, writes_of, faults_of};
    ghost use Rattle.ts_io.specs.MemSink.{Fails};

    /// Takes all the room at once.
    pub fn new(alloc: Global, most: usize, failing: Vec<u64>) -> Result<MemSink, AllocError>
        requires { 0 < most }
        ensures bytes { IfOk result (λ s. bytes_of s ≡ []) }
        ensures most { IfOk result (λ s. most_of s ≡ most) }
        ensures failing { IfOk result (λ s. failing_of s ≡ failing.items) }
        ensures writes { IfOk result (λ s. writes_of s ≡ 0) }
        ensures faults { IfOk result (λ s. faults_of s ≡ 0) }
    {
        Ok(MemSink {
            bytes: Vec::with_capacity(alloc, MEM_SINK_ROOM)?,
            most,
            failing,
            writes: 0,
            faults: 0,
        })
    }

    /// What was taken so far.
    pub fn bytes(&self) -> &[u8]
        ensures { result.now ≡ bytes_of self.now }
    {
        self.bytes.as_slice()
    }

    /// Whether the next write fails.
    fn fails(&self, bytes: &[u8]) -> bool
        ensures { IsTrue result ↔ Fails self.now bytes.now }
    {
        let is_full = self.bytes.len() == MEM_SINK_ROOM;
        self.failing.contains(&self.writes) || (is_full && !bytes.is_empty())
    }
}

impl Sink for MemSink {
    ghost use Rattle.std.specs.Prelude.{◌↔◌, Some, take, IfOk, OnOk, OnErr, IsErr};
    ghost use Rattle.ts_io.specs.Outside.{Rose, Appends, next_of};
    ghost use Rattle.ts_io.specs.MemSink.{bytes_of, most_of, failing_of, writes_of, faults_of};
    ghost use Rattle.ts_io.specs.MemSink.{count_of, Fails};

    ghost taken = { λ s. Some (bytes_of s) };

    ghost faults = { faults_of };

    fn write(&mut self, bytes: &[u8]) -> Result<usize, WriteFault>
        ensures bound { IfOk result (λ n. n ≤ length bytes.now) }
        ensures some { 0 < length bytes.now → IfOk result (λ n. 0 < n) }
        ensures ok { IfOk result (λ n.
            Appends (Some (bytes_of self.old)) (Some (bytes_of self.new)) (take n bytes.now)) }
        ensures err { OnErr result (Some (bytes_of self.new) ≡ Some (bytes_of self.old)) }

        ensures later { faults_of self.old ≤ faults_of self.new }
        ensures failed { OnErr result (Rose (faults_of self.old) (faults_of self.new)) }

        // How many it takes, exactly when it fails, and what it counts.
        ensures count { IfOk result (λ n. n ≡ count_of self.old (length bytes.now)) }
        ensures fails { IsErr result ↔ Fails self.old bytes.now }
        ensures raised { OnErr result (faults_of self.new ≡ next_of (faults_of self.old)) }
        ensures kept { OnOk result (faults_of self.new ≡ faults_of self.old) }
        ensures writes { writes_of self.new ≡ next_of (writes_of self.old) }
        ensures most { most_of self.new ≡ most_of self.old }
        ensures failing { failing_of self.new ≡ failing_of self.old }
    {
        let fails = self.fails(bytes);
        self.writes = self.writes.saturating_add(1);
        if fails {
            self.faults = self.faults.saturating_add(1);
            return Err(WriteFault::Failed);
        }
        let room = MEM_SINK_ROOM - self.bytes.len();
        let count = self.most.min(bytes.len()).min(room);
        let (taken, _) = bytes.split_at(count);
        match self.bytes.extend_from_slice(taken) {
            Ok(()) => Ok(count),
            Err(_) => unreachable!(),
        }
    }
}

//! The standard output as a sink: bytes come in, and go where the program prints.
use crate::sink::{Sink, WriteFault};

/// The standard output. An error is a fault, and so is a count of 0 for a piece that is not empty.
/// It tells no bytes.
///
/// A `main` with the runtime `rt` makes one by `OutSink::new(rt.clone()?)`, or over `&rt`.
#[derive(Drop)]
pub struct OutSink<R> {
    rt: R,
    faults: u64,
}

impl<R> OutSink<R> {
    ghost use Rattle.std.specs.Prelude.{◌≡◌};
    ghost use Rattle.ts_io.specs.OutSink.{faults_of};

    pub fn new(rt: R) -> OutSink<R>
        ensures { faults_of result ≡ 0 }
    {
        OutSink { rt, faults: 0 }
    }
}

impl<R: Print> Sink for OutSink<R> {
    ghost use Rattle.std.specs.Prelude.{◌≡◌, ◌<◌, ◌≤◌, length, None, IfOk, OnOk, OnErr};
    ghost use Rattle.ts_io.specs.Outside.{next_of};
    ghost use Rattle.ts_io.specs.OutSink.{faults_of};

    ghost taken = { λ _. None };

    ghost faults = { faults_of };

    fn write(&mut self, bytes: &[u8]) -> Result<usize, WriteFault>
        ensures bound { IfOk result (λ n. n ≤ length bytes.now) }
        ensures some { 0 < length bytes.now → IfOk result (λ n. 0 < n) }
        ensures later { faults_of self.old ≤ faults_of self.new }
        ensures raised { OnErr result (faults_of self.new ≡ next_of (faults_of self.old)) }
        ensures kept { OnOk result (faults_of self.new ≡ faults_of self.old) }
    {
        match self.rt.write_some(bytes) {
            Ok(count) if count > 0 || bytes.is_empty() => Ok(count),
            Ok(_) | Err(_) => {
                self.faults = self.faults.saturating_add(1);
                Err(WriteFault::Failed)
            }
        }
    }
}

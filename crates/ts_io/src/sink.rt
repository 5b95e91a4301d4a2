//! What takes bytes: the trait that says which of them a write takes and when it fails, and `put`,
//! which writes all of them.
ghost use Rattle.std.specs.Prelude.{◌≡◌, ℕ, ◌<◌, ◌≤◌, Option, length, take, IfOk, OnOk, OnErr};
ghost use Rattle.ts_base.specs.Bytes.{Bytes};
ghost use Rattle.ts_io.specs.Outside.{Rose, Appends, AppendsPrefix};

use thiserror::Error;

/// Why bytes were not taken: the outside failed.
#[derive(Clone, Copy, Debug, PartialEq, Eq, Error)]
pub enum WriteFault {
    #[error("the output cannot be written")]
    Failed,
}

/// What takes bytes.
pub trait Sink {
    /// The bytes taken so far, where the sink tells them.
    ghost taken: { Self → Option Bytes };

    /// How many writes failed. It may stand at the last value of a `u64`.
    ghost faults: { Self → ℕ };

    /// Takes a prefix of the bytes, and answers how many they are: at least one, where there are
    /// any.
    fn write(&mut self, bytes: &[u8]) -> Result<usize, WriteFault>
        ensures bound { IfOk result (λ n. n ≤ length bytes.now) }
        ensures some { 0 < length bytes.now → IfOk result (λ n. 0 < n) }
        ensures ok { IfOk result (λ n.
            Appends (taken self.old) (taken self.new) (take n bytes.now)) }
        ensures err { OnErr result (taken self.new ≡ taken self.old) }

        ensures later { faults self.old ≤ faults self.new }
        ensures failed { OnErr result (Rose (faults self.old) (faults self.new)) };
}

/// Writes all the bytes, by as many writes as the sink asks for. After a fault some prefix of them
/// was taken. It takes no memory.
#[tactic(auto, using(crate::proofs::AppendLemmas::appends_more))]
pub fn put<S: Sink>(sink: &mut S, bytes: &[u8]) -> Result<(), WriteFault>
    ensures ok { OnOk result (Appends (S.taken sink.old) (S.taken sink.new) bytes.now) }
    ensures prefix { AppendsPrefix (S.taken sink.old) (S.taken sink.new) bytes.now }
    ensures later { S.faults sink.old ≤ S.faults sink.new }
    ensures failed { OnErr result (Rose (S.faults sink.old) (S.faults sink.new)) }
{
    let mut written = 0;
    while written < bytes.len() {
        let (_, rest) = bytes.split_at(written);
        written += sink.write(rest)?;
    }
    Ok(())
}

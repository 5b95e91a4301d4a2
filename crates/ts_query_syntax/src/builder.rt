//! A builder of regular expressions by the `regex` crate, which keeps their texts. Calls that are
//! listed fail.
ghost use Rattle.std.specs.Prelude.{◌≡◌, ◌++◌, ◌∷◌, [], true, Err, IfOk, OnOk, OnErr};
ghost use Rattle.ts_query_syntax.specs.Refusals.{IsBuiltFrom};

use crate::patterns::{BuildFault, Patterns};
use regex::Regex;
use std::alloc::{AllocError, Global};
use ts_base::Str;

/// Builds regular expressions by the `regex` crate, and keeps their texts. A call fails where its
/// number is listed. Calls are numbered from 0, and those past the last value of a `u64` all have
/// that number.
#[derive(Debug, Drop)]
pub struct Builder {
    failing: Vec<u64>,
    sources: Vec<Str>,
    calls: u64,
    refusals: u64,
}

/// The expression of a text, unless it is not to be built.
fn built(alloc: Global, fails: bool, source: &str) -> Result<Regex, BuildFault>
    ensures built { IfOk result (IsBuiltFrom source.now) }
    ensures fails { fails ≡ true → result ≡ Err BuildFault.Refused }
{
    if fails {
        return Err(BuildFault::Refused);
    }
    match Regex::new(alloc, source) {
        Ok(search) => Ok(search),
        Err(regex::Error::OutOfMemory) => Err(BuildFault::Memory),
        Err(regex::Error::Syntax(_)) => Err(BuildFault::Refused),
        Err(regex::Error::CompiledTooBig) => Err(BuildFault::Refused),
        Err(regex::Error::Internal) => Err(BuildFault::Refused),
    }
}

fn keep(alloc: Global, sources: &mut Vec<Str>, source: &str) -> Result<(), AllocError>
    ensures kept { OnOk result (sources.new.items ≡ sources.old.items ++ source.now ∷ []) }
    ensures same { OnErr result (sources.new.items ≡ sources.old.items) }
{
    let copy = Str::from_text(alloc, source)?;
    sources.push(copy)?;
    Ok(())
}

impl Builder {
    ghost use Rattle.std.specs.Prelude.{◌≡◌, []};
    ghost use Rattle.ts_query_syntax.specs.Builders.{failing_calls, sources_of, calls_of, refusals_of};

    /// A builder whose calls of these numbers fail.
    pub fn new(alloc: Global, failing: Vec<u64>) -> Builder
        ensures failing { failing_calls result ≡ failing.items }
        ensures sources { sources_of result ≡ [] }
        ensures calls { calls_of result ≡ 0 }
        ensures refusals { refusals_of result ≡ 0 }
    {
        Builder {
            failing,
            sources: Vec::new(alloc),
            calls: 0,
            refusals: 0,
        }
    }
}

impl Patterns for Builder {
    ghost use Rattle.std.specs.Prelude.{◌≡◌, ◌≢◌, ◌≤◌, ◌++◌, ◌∷◌, ◌⊎◌, [], Err, IfOk, Contains};
    ghost use Rattle.ts_query_syntax.specs.Builders.{failing_calls, sources_of, calls_of, refusals_of};
    ghost use Rattle.ts_query_syntax.specs.Refusals.{HasRisen, IsBuiltFrom, next_count};

    ghost sources = { sources_of };

    ghost refusals = { refusals_of };

    fn build(&mut self, alloc: Global, source: &str) -> Result<Regex, BuildFault>
        ensures built { IfOk result (IsBuiltFrom source.now) }
        ensures added { result ≢ Err BuildFault.Memory
            → sources_of self.new ≡ sources_of self.old ++ source.now ∷ [] }
        ensures same { result ≡ Err BuildFault.Memory → sources_of self.new ≡ sources_of self.old }
        ensures later { refusals_of self.old ≤ refusals_of self.new }
        ensures refused { result ≡ Err BuildFault.Refused
            → HasRisen (refusals_of self.old) (refusals_of self.new) }

        // When it fails, and what it counts.
        ensures fails { Contains (failing_calls self.old) (calls_of self.old)
            → (result ≡ Err BuildFault.Refused) ⊎ (result ≡ Err BuildFault.Memory) }
        ensures kept { result ≢ Err BuildFault.Refused
            → refusals_of self.new ≡ refusals_of self.old }
        ensures calls { calls_of self.new ≡ next_count (calls_of self.old) }
        ensures failing { failing_calls self.new ≡ failing_calls self.old }
    {
        let number = self.calls;
        self.calls = number.saturating_add(1);
        match built(alloc, self.failing.contains(&number), source) {
            Err(BuildFault::Memory) => Err(BuildFault::Memory),
            Ok(search) => {
                if keep(alloc, &mut self.sources, source).is_err() {
                    return Err(BuildFault::Memory);
                }
                Ok(search)
            }
            Err(BuildFault::Refused) => {
                if keep(alloc, &mut self.sources, source).is_err() {
                    return Err(BuildFault::Memory);
                }
                self.refusals = self.refusals.saturating_add(1);
                Err(BuildFault::Refused)
            }
        }
    }
}

//! What builds regular expressions: the trait that says what is answered and what is kept of it.
ghost use Rattle.std.specs.Prelude.{◌≡◌, ◌≢◌, ◌++◌, ◌∷◌, [], ℕ, ◌≤◌, List, Err, IfOk};
ghost use Rattle.ts_base.specs.Bytes.{Bytes};
ghost use Rattle.ts_query_syntax.specs.Refusals.{HasRisen, IsBuiltFrom};

use regex::Regex;
use std::alloc::Global;
use thiserror::Error;

/// Why an expression is not built: it is refused, or there is no memory for it.
#[derive(Clone, Copy, Debug, PartialEq, Eq, Error)]
pub enum BuildFault {
    #[error("the expression is not built")]
    Refused,
    #[error("out of memory")]
    Memory,
}

/// What builds the regular expressions of queries.
pub trait Patterns {
    /// The texts of the expressions that were asked for, but for those that found no memory.
    ghost sources: { Self → List Bytes };

    /// How many were refused. It may stand at the last value of a `u64`.
    ghost refusals: { Self → ℕ };

    /// The expression of a text, in the syntax of the `regex` crate.
    ///
    /// # Errors
    ///
    /// `Refused` where the text is none, or is not built for another reason. `Memory` where memory
    /// runs out.
    fn build(&mut self, alloc: Global, source: &str) -> Result<Regex, BuildFault>
        ensures built { IfOk result (IsBuiltFrom source.now) }
        ensures added { result ≢ Err BuildFault.Memory
            → sources self.new ≡ sources self.old ++ source.now ∷ [] }
        ensures same { result ≡ Err BuildFault.Memory → sources self.new ≡ sources self.old }
        ensures later { refusals self.old ≤ refusals self.new }
        ensures refused { result ≡ Err BuildFault.Refused
            → HasRisen (refusals self.old) (refusals self.new) };
}

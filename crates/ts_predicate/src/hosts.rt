//! Predicates of a host: the number of a predicate and a text go in, and whether it holds comes
//! out.
ghost use Rattle.std.specs.Prelude.{◌≡◌, ℕ, ◌<◌, ◌↔◌, List, IsTrue, length};
ghost use Rattle.ts_base.specs.Bytes.{Bytes};

use ts_base::{List, Str};

/// What answers for the predicates of a host, which are numbered in the order of their names.
pub trait Hosts {
    /// Their names.
    ghost called: { Self → List Bytes };

    /// The texts for which the predicate of a number holds.
    ghost accepts: { Self → ℕ → Bytes → Type 0 };

    /// The names, each without its `#`.
    fn names(&self) -> &List<Str>
        ensures { result.now ≡ called self.now };

    /// Whether the predicate of a number holds for the text of a node.
    fn holds(&self, number: u32, text: &str) -> bool
        requires { number < length (called self.now) }
        ensures { IsTrue result ↔ accepts self.now number text.now };
}

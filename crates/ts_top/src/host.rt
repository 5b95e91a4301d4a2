//! The predicate of a host that the program brings: a text in, and whether it is ASCII out.
ghost use Rattle.std.specs.Prelude.{◌≡◌, ◌∷◌, [], codes, IfOk};

use std::alloc::{AllocError, Global};
use ts_base::{List, Str};
use ts_predicate::Hosts;

/// A host with one predicate, `ascii?`, that holds of a text each byte of which is below 128.
#[derive(Debug, Drop)]
pub struct AsciiHost {
    names: List<Str>,
    ghost named: { names ≡ codes "ascii?" ∷ [] },
}

impl AsciiHost {
    /// The host.
    pub fn new(alloc: Global) -> Result<AsciiHost, AllocError> {
        let mut names = List::new(alloc);
        names.push(Str::from_text(alloc, "ascii?")?)?;
        Ok(AsciiHost { names })
    }
}

impl Hosts for AsciiHost {
    ghost use Rattle.std.specs.Prelude.{◌∷◌, [], codes};
    ghost use Rattle.std.specs.Str.{IsAscii};

    ghost called = { λ _. codes "ascii?" ∷ [] };

    ghost accepts = { λ _ _ text. IsAscii text };

    fn names(&self) -> &List<Str> {
        &self.names
    }

    fn holds(&self, _number: u32, text: &str) -> bool {
        text.is_ascii()
    }
}

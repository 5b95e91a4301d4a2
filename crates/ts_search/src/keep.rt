//! Which matches are kept.
ghost use Rattle.std.specs.Prelude.{◌≡◌, ◌↔◌, IsTrue, IfOk};
ghost use Rattle.spec_matches.specs.declared.found.Match.{Match as Hit};

use spec_matches::Match;
use std::alloc::{AllocError, Global};

/// What is asked of a match beside its pattern.
pub trait Keep {
    /// The matches that are kept.
    ghost kept: { Self → Hit → Type 0 };

    /// Whether a match is kept. It may change what it works with, and not what it keeps.
    ///
    /// # Errors
    ///
    /// `AllocError` where memory runs out.
    fn keeps(&mut self, alloc: Global, found: &Match) -> Result<bool, AllocError>
        ensures keeps { IfOk result (λ b. IsTrue b ↔ kept self.old found.now) }
        ensures same { self.new ≡ self.old };
}

/// Keeps all matches.
#[derive(Clone, Copy)]
pub struct All;

impl Keep for All {
    ghost kept = { λ _ _. Unit {0} };

    fn keeps(&mut self, _alloc: Global, _found: &Match) -> Result<bool, AllocError> {
        Ok(true)
    }
}

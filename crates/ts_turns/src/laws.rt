//! Laws of the definition, for the proofs of the crates above. Each is a function that does
//! nothing.
ghost use Rattle.std.specs.Prelude.{◌≡◌, ℕ, List};
ghost use Rattle.ts_base.specs.Bytes.{Bytes};
ghost use Rattle.ts_turns.specs.Turns.{Spells};

/// A word names one list of clients at most.
pub fn spelled_once()
    ensures { (word : Bytes) (a b : List ℕ) → Spells word a → Spells word b → a ≡ b }
{}

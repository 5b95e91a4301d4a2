//! Laws of sets, which other crates call: they take nothing and give their clauses.

ghost use Rattle.std.specs.Prelude.{◌≡◌, ℕ, ◌↔◌};
ghost use Rattle.ts_bits.specs.declared.set.BitSet.{BitSet as AnySet};
ghost use Rattle.ts_bits.specs.Members.{Has, IsWide};

/// Two sets of one width with the same numbers have the same words.
pub fn same_words()
    ensures { (n : ℕ) (a b : AnySet) → IsWide n a → IsWide n b
        → ((t : ℕ) → Has a t ↔ Has b t) → a.words.items ≡ b.words.items }
{}

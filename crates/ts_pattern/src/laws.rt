//! Laws of the definitions: a source has one regular expression, or one fault, and what spells a
//! tree is in form.
ghost use Rattle.std.specs.Prelude.{ℕ, ◌≡◌, ◌≢◌, ◌≤◌, Bool, List, Some, length, true};
ghost use Rattle.std.specs.List.{Contains};
ghost use Rattle.regex_class.specs.Ranges.{in_ranges, IsCanonical};
ghost use Rattle.ts_base.specs.Bytes.{Bytes};
ghost use Rattle.ts_core.specs.declared.re.Re.{Re as AnyRe};
ghost use Rattle.ts_pattern.specs.declared.fault.PFault.{PFault as AnyFault};
ghost use Rattle.ts_pattern.specs.Characters.{Text, is_scalar};
ghost use Rattle.ts_pattern.specs.Reads.{Reads, IsFault, IsTree};
ghost use Rattle.ts_pattern.specs.Trees.{Pattern as AnyPattern, one_of, quantifier, spelling};

use crate::fault::PFault;

/// A source is read as one regular expression at most.
pub fn one_pattern()
    ensures { (r q : AnyRe) (w : Bytes) (ignore_case : Bool) → Reads w ignore_case r
        → Reads w ignore_case q → r ≡ q }
{}

/// What is refused is read as nothing, unless memory ran out.
pub fn refused_is_not_read()
    ensures { (e : AnyFault) (r : AnyRe) (w : Bytes) (ignore_case : Bool) → e ≢ PFault.Memory
        → IsFault w ignore_case e → Reads w ignore_case r → ⊥ }
{}

/// Each refusal has a cause that no other has, and one place.
pub fn one_fault()
    ensures { (e f : AnyFault) (w : Bytes) (ignore_case : Bool) → e ≢ PFault.Memory
        → f ≢ PFault.Memory
        → IsFault w ignore_case e → IsFault w ignore_case f → e ≡ f }
{}

/// A tree is spelled with no more tokens than its text has characters. Its sets have characters
/// alone, by ranges in canonical form, and no quantifier's most is below its least.
pub fn spellings_are_formed()
    ensures short { (w : Text) (ignore_case : Bool) (p : AnyPattern) → IsTree ignore_case w p
        → length (spelling p) ≤ length w }
    ensures ranges { (w : Text) (ignore_case : Bool) (p : AnyPattern) (ranges : List (ℕ × ℕ))
        → IsTree ignore_case w p → Contains (spelling p) (one_of ranges)
        → IsCanonical ranges × ((c : ℕ) → in_ranges ranges c ≡ true → is_scalar c ≡ true) }
    ensures counts { (w : Text) (ignore_case : Bool) (p : AnyPattern) (least most : ℕ)
        → IsTree ignore_case w p → Contains (spelling p) (quantifier least (Some most))
        → least ≤ most }
{}

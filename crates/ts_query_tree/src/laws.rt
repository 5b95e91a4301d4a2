//! Laws of what is read, which other crates call: they take nothing and give their clauses.
ghost use Rattle.std.specs.Prelude.{◌≡◌, ◌≢◌, ◌≤◌, List, ℕ, length};
ghost use Rattle.ts_base.specs.Bytes.{Bytes};
ghost use Rattle.ts_query_tree.specs.declared.tree.Part.{Part as AnyPart};
ghost use Rattle.ts_query_tree.specs.declared.fault.TreeFault.{TreeFault as AnyFault};
ghost use Rattle.ts_query_tree.specs.Trees.{Parts, spelling, values_of};
ghost use Rattle.ts_query_tree.specs.Reads.{IsQueryText, Reads, IsFault};
ghost use Rattle.ts_query_tree.specs.Places.{places_in, Rise};

use crate::fault::TreeFault;

/// A text spells one query at most, and is read as one.
pub fn one_query()
    ensures spelled { (p q : Parts) (w : Bytes) → IsQueryText w p → IsQueryText w q
        → values_of p ≡ values_of q }
    ensures read { (x y : List AnyPart) (w : Bytes) → Reads w x → Reads w y → x ≡ y }
{}

/// What is refused is read as no query, unless memory ran out.
pub fn refused_is_not_read()
    ensures { (e : AnyFault) (x : List AnyPart) (w : Bytes) → e ≢ TreeFault.Memory → IsFault w e
        → Reads w x → ⊥ }
{}

/// Each refusal has a cause that no other has, and one place.
pub fn one_fault()
    ensures { (e f : AnyFault) (w : Bytes) → e ≢ TreeFault.Memory → f ≢ TreeFault.Memory
        → IsFault w e → IsFault w f → e ≡ f }
{}

/// What is read has its places in the order in which it is written, each before the text's end.
pub fn places_rise()
    ensures { (x : List AnyPart) (w : Bytes) → Reads w x → Rise 0 (places_in x) (length w) }
{}

/// A text has no more signs than bytes.
pub fn signs_fit()
    ensures { (q : Parts) (w : Bytes) → IsQueryText w q → length (spelling q) ≤ length w }
{}

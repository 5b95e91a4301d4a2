//! Laws of the definitions, for the proofs of the crates above. Each is a function that does
//! nothing.
ghost use Rattle.std.specs.Prelude.{◌≡◌, ℕ, List};
ghost use Rattle.ts_base.specs.Bytes.{Bytes};
ghost use Rattle.ts_core.specs.declared.flat.FlatGrammar.{FlatGrammar as AnyForm};
ghost use Rattle.ts_query_syntax.specs.declared.fault.QueryFault.{QueryFault as AnyFault};
ghost use Rattle.ts_query_syntax.specs.declared.read_query.ReadQuery.{ReadQuery as AnyQuery};
ghost use Rattle.ts_loading.specs.Loads.{AreQueries, HaveNoFaults, IsFirstFault};

/// Texts have one first fault at most, and none where they have no faults.
pub fn one_first_fault()
    ensures number { (g : AnyForm) (called texts : List Bytes) (m n : ℕ) (e f : AnyFault)
        → IsFirstFault g called texts m e → IsFirstFault g called texts n f → m ≡ n }
    ensures fault { (g : AnyForm) (called texts : List Bytes) (m n : ℕ) (e f : AnyFault)
        → IsFirstFault g called texts m e → IsFirstFault g called texts n f → e ≡ f }
    ensures either { (g : AnyForm) (called texts : List Bytes) (n : ℕ) (f : AnyFault)
        → IsFirstFault g called texts n f → HaveNoFaults g called texts → ⊥ }
{
    ts_query_tree::one_query();
    ts_query_tree::refused_is_not_read();
    ts_query_tree::one_fault();
}

/// Texts of queries have no faults.
pub fn loaded_have_no_faults()
    ensures { (g : AnyForm) (called texts : List Bytes) (queries : List AnyQuery)
        → AreQueries g called texts queries → HaveNoFaults g called texts }
{}

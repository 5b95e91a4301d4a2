//! Laws of what a query names, which other crates call: they take nothing and give their clauses.
ghost use Rattle.std.specs.Prelude.{◌≤◌, List, length};
ghost use Rattle.ts_base.specs.Bytes.{Bytes};
ghost use Rattle.ts_query_tree.specs.declared.tree.Part.{Part as AnyPart};
ghost use Rattle.ts_query_tree.specs.Reads.{Reads};
ghost use Rattle.ts_query_names.specs.Mentions.{named_in, kinds_named, any_captures};

use ts_query_tree::signs_fit;

/// A query names no more kinds and captures, and has no more patterns, than its text has bytes.
pub fn names_fit()
    ensures kinds { (x : List AnyPart) (w : Bytes) → Reads w x
        → length (kinds_named (named_in x)) ≤ length w }
    ensures captures { (x : List AnyPart) (w : Bytes) → Reads w x
        → length (any_captures (named_in x)) ≤ length w }
    ensures patterns { (x : List AnyPart) (w : Bytes) → Reads w x → length x ≤ length w }
{
    signs_fit();
}

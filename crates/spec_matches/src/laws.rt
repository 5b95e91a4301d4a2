//! Laws of matches, for the proofs of the crates above. Each is a function that does nothing.
ghost use Rattle.std.specs.Prelude.{◌≡◌, ◌↔◌, Bool, List, true};
ghost use Rattle.std.specs.List.{Contains};
ghost use Rattle.std.specs.List.Sorted.{IsStrictlySortedBy};
ghost use Rattle.std.specs.Ordering.{nat_cmp, ordering_then};
ghost use Rattle.std.specs.Cmp.Lexicographic.{slice_cmp};
ghost use Rattle.spec_trees.specs.declared.visible.VisibleNode.{VisibleNode};
ghost use Rattle.ts_query_syntax.specs.declared.read_query.ReadQuery.{ReadQuery as Asked};
ghost use Rattle.spec_matches.specs.declared.found.Capture.{Capture as Mark};
ghost use Rattle.spec_matches.specs.declared.found.Match.{Match as Hit};
ghost use Rattle.spec_matches.specs.Matches.{AreMatches, capture_cmp, capture_eq, match_cmp, match_eq};

/// A query has one list of matches in a tree, whichever are kept.
pub fn one_list()
    ensures { (query : Asked) (nodes : List VisibleNode) (keeps : Hit → Bool) (xs ys : List Hit)
        → AreMatches query nodes (λ m. keeps m ≡ true) xs
        → AreMatches query nodes (λ m. keeps m ≡ true) ys → xs ≡ ys }
{}

/// Captures, and matches, that stand in order are told by which they are, and those that compare
/// as equal are one.
pub fn one_order()
    ensures captures { (xs ys : List Mark)
        → IsStrictlySortedBy capture_cmp xs → IsStrictlySortedBy capture_cmp ys
        → ((c : Mark) → Contains xs c ↔ Contains ys c) → xs ≡ ys }
    ensures matches { (xs ys : List Hit)
        → IsStrictlySortedBy match_cmp xs → IsStrictlySortedBy match_cmp ys
        → ((m : Hit) → Contains xs m ↔ Contains ys m) → xs ≡ ys }
    ensures one_capture { (x y : Mark) → capture_eq x y ≡ true → x ≡ y }
    ensures one_match { (x y : Hit) → match_eq x y ≡ true → x ≡ y }
{}

/// Matches stand in the order of their roots, then of their patterns, and then of their captures;
/// captures in that of their nodes, then of their names, and then of their ranges.
pub fn order_by_parts()
    ensures matches { (x y : Hit) → match_cmp x y ≡ ordering_then (nat_cmp x.root y.root)
        (ordering_then (nat_cmp x.pattern y.pattern)
        (slice_cmp capture_cmp x.captures y.captures)) }
    ensures captures { (x y : Mark) → capture_cmp x y ≡ ordering_then (nat_cmp x.node y.node)
        (ordering_then (nat_cmp x.name y.name)
        (ordering_then (nat_cmp x.start y.start) (nat_cmp x.end y.end))) }
{}

//! What a pattern asks of siblings at the least: a pattern and a node go in, and whether the
//! pattern may match in the node's children comes out.
ghost use Rattle.std.specs.Prelude.{ℕ, ◌<◌, length, IfSome, IsTrue, List as Values};
ghost use Rattle.spec_trees.specs.Family.{IsParent};
ghost use Rattle.spec_matches.specs.declared.found.Capture.{Capture as Mark};
ghost use Rattle.spec_matches.specs.declared.placing.Placing.{Placing as Way};
ghost use Rattle.spec_matches.specs.Siblings.{AreChildren};
ghost use Rattle.spec_matches.specs.Taking.{Embedded};
ghost use Rattle.ts_search.specs.First.{Leads};
ghost use Rattle.ts_search.specs.Ways.{ItemTakes};

use crate::sight::Sight;
use crate::taking::{may_take, slot};
use ts_query_syntax::{Item, Pattern};

/// The first item of a pattern, where it takes some sibling in each match.
fn leader(pattern: &Pattern) -> Option<&Item>
    ensures { IfSome result (λ item. Leads item.now pattern.now.items) }
{
    if pattern.items.len() == 0 {
        return None;
    }
    let item = pattern.items.get(0);
    if slot(item).optional {
        return None;
    }
    Some(item)
}

/// Whether an item may take a child of a node, by the children's own looks alone. It takes no
/// memory.
fn may_take_child(sight: &Sight, item: &Item, n: u32) -> bool
    requires { n < length sight.now.nodes }
    ensures { (m : ℕ) → (c : Values Mark) → IsParent sight.now.nodes m n
        → ItemTakes sight.now item.now 0 m c → IsTrue result }
{
    let past = sight.past(n);
    let mut m = n + 1;
    while m < past {
        if may_take(sight, item, m) {
            return true;
        }
        m = sight.past(m);
    }
    false
}

/// Whether a pattern may match in the children of a node, by their own looks alone. It takes no
/// memory.
pub(crate) fn may_match(sight: &Sight, pattern: &Pattern, n: u32) -> bool
    requires { n < length sight.now.nodes }
    ensures { (children : Values ℕ) → (f : Way) → AreChildren sight.now.nodes n children
        → Embedded sight.now pattern.now.items pattern.now.closed children f → IsTrue result }
{
    match leader(pattern) {
        Some(item) => may_take_child(sight, item, n),
        None => true,
    }
}

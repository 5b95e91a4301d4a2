//! Moves in a visible tree: its nodes in preorder and the number of one go in, and the number of
//! its first child, next sibling or parent comes out.
ghost use Rattle.std.specs.Prelude.{◌≡◌, ◌<◌, ◌^◌, ◌↔◌, IsTrue, length, MatchOption};
ghost use Rattle.spec_trees.specs.Family.{depth_at, IsFirstChild, IsNextSibling, IsParent};
ghost use Rattle.ts_cursor.specs.Linked.{ArePasts, AreShallow, HasNone, IsPath};

use crate::links::depth;
use crate::seen::Seen;

/// The first child of a node.
pub(crate) fn first_child(nodes: &Seen, k: u32) -> Option<u32>
    requires few { length nodes.now < 2 ^ 32 }
    requires within { k < length nodes.now }
    ensures { MatchOption result (HasNone (IsFirstChild nodes.now k))
        (λ m. IsFirstChild nodes.now k m) }
{
    let next = k as usize + 1;
    if next < nodes.len() && depth(nodes, k) < depth(nodes, next as u32) {
        Some(next as u32)
    } else {
        None
    }
}

/// The next sibling of a node, where it is known what comes after its descendants.
pub(crate) fn next_sibling(nodes: &Seen, pasts: &[u32], k: u32) -> Option<u32>
    requires within { k < length nodes.now }
    requires pasts { ArePasts nodes.now pasts.now }
    ensures { MatchOption result (HasNone (IsNextSibling nodes.now k))
        (λ m. IsNextSibling nodes.now k m) }
{
    let past = pasts[k as usize];
    if is_level(nodes, past, k) {
        Some(past)
    } else {
        None
    }
}

/// Whether there is a node of the first number, and it is as deep as the other.
fn is_level(nodes: &Seen, m: u32, k: u32) -> bool
    requires { k < length nodes.now }
    ensures { IsTrue result ↔ (m < length nodes.now)
        × (depth_at nodes.now m ≡ depth_at nodes.now k) }
{
    (m as usize) < nodes.len() && depth(nodes, m) == depth(nodes, k)
}

/// The parent of a node, where it is known in which nodes it stands.
pub(crate) fn parent(nodes: &Seen, path: &[u32], k: u32) -> Option<u32>
    requires within { k < length nodes.now }
    requires shallow { AreShallow (length path.now) nodes.now }
    requires path { IsPath nodes.now k path.now }
    ensures { MatchOption result (HasNone (IsParent nodes.now k)) (λ m. IsParent nodes.now k m) }
{
    let depth = depth(nodes, k);
    if depth > 0 {
        Some(path[depth as usize - 1])
    } else {
        None
    }
}

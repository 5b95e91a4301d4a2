//! Where the descendants of visible nodes end: the nodes in preorder go in, and the number after
//! each node's descendants comes out.
ghost use Rattle.std.specs.Prelude.{◌≡◌, ◌+◌, ◌<◌, ◌^◌, IsTrue, length, IfOk, ◌↔◌};
ghost use Rattle.spec_trees.specs.Family.{depth_at};
ghost use Rattle.ts_cursor.specs.Linked.{IsPast, ArePasts, ArePastsFrom};

use crate::seen::Seen;
use std::alloc::{AllocError, Global};

/// The depth of the node of a number.
pub(crate) fn depth(nodes: &Seen, k: u32) -> u32
    requires { k < length nodes.now }
    ensures { result ≡ depth_at nodes.now k }
{
    nodes.depth(k as usize)
}

/// For each node the number of the first node after it that is not deeper, or the number of nodes.
/// It takes time by that number, since each node is passed over once.
///
/// # Errors
///
/// `AllocError` where memory runs out.
pub(crate) fn pasts(alloc: Global, nodes: &Seen) -> Result<Vec<u32>, AllocError>
    requires { length nodes.now < 2 ^ 32 }
    ensures { IfOk result (λ pasts. ArePasts nodes.now pasts.items) }
{
    let count = nodes.len() as u32;
    let mut pasts = vec![in alloc; 0u32; nodes.len()]?;
    for i in 0..count {
        let k = count - 1 - i;
        let past = past(nodes, pasts.as_slice(), k);
        pasts[k as usize] = past;
    }
    Ok(pasts)
}

/// The first node after a node that is not deeper, where that of each later node is known.
fn past(nodes: &Seen, pasts: &[u32], k: u32) -> u32
    requires few { length nodes.now < 2 ^ 32 }
    requires within { k < length nodes.now }
    requires later { ArePastsFrom nodes.now (k + 1) pasts.now }
    ensures { IsPast nodes.now k result }
{
    let mut m = k + 1;
    'later: while is_deeper(nodes, m, k) {
        m = pasts[m as usize];
    }
    m
}

/// Whether there is a node of the first number, and it is deeper than the other.
fn is_deeper(nodes: &Seen, m: u32, k: u32) -> bool
    requires { k < length nodes.now }
    ensures { IsTrue result ↔ (m < length nodes.now)
        × (depth_at nodes.now k < depth_at nodes.now m) }
{
    (m as usize) < nodes.len() && depth(nodes, m) > depth(nodes, k)
}

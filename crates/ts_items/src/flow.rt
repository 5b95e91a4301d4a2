//! Tokens that spread over edges: edges and a set of tokens for each symbol go in, and the sets
//! grow to the least ones that have what the edges bring.
ghost use Rattle.std.specs.Prelude.{◌≡◌, ℕ, ◌*◌, ◌^◌, ◌<◌, length, OnOk};
ghost use Rattle.std.specs.List.{Contains};
ghost use Rattle.ts_bits.specs.Members.{Has, IsWide};
ghost use Rattle.ts_items.specs.Sets.{AreWide, GainsTokens, QueuesGains};
ghost use Rattle.ts_items.specs.declared.flow.Edge.{Edge as Edges};
ghost use Rattle.ts_items.specs.Flow.{IsEdge, IsNet, Queued, Brought, Spreads};
ghost use Rattle.ts_items.specs.Rows.{FromOne};

use crate::sets::join;
use std::alloc::{AllocError, Global};
use ts_bits::BitSet;

/// Where a symbol's tokens go: on to another symbol, or there go those of a symbol behind it.
#[derive(Clone, Copy, Debug)]
pub(crate) struct Edge {
    pub to: u16,
    pub behind: Option<u16>,
}

/// Brings over one edge the tokens of the symbol from which it leads, or those behind.
fn hand(
    sets: &mut [BitSet],
    queue: &mut Vec<u16>,
    gives: &[BitSet],
    from: &BitSet,
    edge: Edge,
) -> Result<(), AllocError>
    requires edge { IsEdge gives.now (length sets.old) edge }
    requires wide { (n : ℕ) × AreWide n sets.old × AreWide n gives.now × IsWide n from.now }
    ensures gains { OnOk result (GainsTokens (Brought gives.now from.now edge) sets.old sets.new) }
    ensures tells { OnOk result (QueuesGains sets.old sets.new queue.old.items queue.new.items) }
{
    match edge.behind {
        Some(symbol) => join(sets, queue, edge.to, &gives[usize::from(symbol)]),
        None => join(sets, queue, edge.to, from),
    }
}

/// Brings tokens over all edges of one symbol.
fn visit(
    sets: &mut [BitSet],
    queue: &mut Vec<u16>,
    gives: &[BitSet],
    from: &BitSet,
    edges: &[Edge],
) -> Result<(), AllocError>
    requires edges { (e : Edges) → Contains edges.now e → IsEdge gives.now (length sets.old) e }
    requires wide { (n : ℕ) × AreWide n sets.old × AreWide n gives.now × IsWide n from.now }
    ensures gains { OnOk result (GainsTokens (FromOne
        (Brought gives.now from.now) edges.now) sets.old sets.new) }
    ensures tells { OnOk result (QueuesGains sets.old sets.new queue.old.items queue.new.items) }
{
    for edge in edges {
        hand(sets, queue, gives, from, *edge)?;
    }
    Ok(())
}

/// Brings tokens over all edges of one symbol where it has some, and else none.
fn visit_some(
    sets: &mut [BitSet],
    queue: &mut Vec<u16>,
    gives: &[BitSet],
    from: &BitSet,
    edges: &[Edge],
) -> Result<(), AllocError>
    requires edges { (e : Edges) → Contains edges.now e → IsEdge gives.now (length sets.old) e }
    requires narrow { 64 * length from.now.words.items < 2 ^ 64 }
    requires wide { (n : ℕ) × AreWide n sets.old × AreWide n gives.now × IsWide n from.now }
    ensures gains { OnOk result (GainsTokens (λ z u. ((t : ℕ) × Has from.now t)
        × FromOne (Brought gives.now from.now) edges.now z u) sets.old sets.new) }
    ensures tells { OnOk result (QueuesGains sets.old sets.new queue.old.items queue.new.items) }
{
    match from.least() {
        Some(_token) => visit(sets, queue, gives, from, edges),
        None => Ok(()),
    }
}

/// Brings tokens over all edges, over and over, until no set gains a token. The queue begins with
/// all symbols that have some.
pub(crate) fn flow(
    alloc: Global,
    edges: &[Vec<Edge>],
    gives: &[BitSet],
    sets: &mut [BitSet],
    queue: &mut Vec<u16>,
) -> Result<(), AllocError>
    requires net { IsNet edges.now gives.now (length sets.old) }
    requires wide { (n : ℕ) × (64 * n < 2 ^ 64) × AreWide n sets.old × AreWide n gives.now }
    requires queue { Queued sets.old queue.old.items }
    ensures { OnOk result (Spreads edges.now gives.now sets.old sets.new) }
{
    let mut next = 0;
    while next < queue.len() {
        let symbol = usize::from(queue[next]);
        let from = sets[symbol].copy(alloc)?;
        visit_some(sets, queue, gives, &from, edges[symbol].as_slice())?;
        next += 1;
    }
    Ok(())
}

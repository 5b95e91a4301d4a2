//! What is counted of a run: elements and their children go in, or two runs, and what is added up
//! over them comes out.
ghost use Rattle.std.specs.Prelude.{◌≡◌, ◌+◌, ◌*◌, ◌<◌, ◌≤◌, ◌^◌, ◌&&◌, ◌∷◌, [], max, length, take, drop};
ghost use Rattle.std.specs.Int.RustNames.{unsigned_abs};
ghost use lib.IntN.{◌+ℤ◌};
ghost use Rattle.spec_trees.specs.declared.tree.Stretch.{Stretch};
ghost use Rattle.spec_trees.specs.Trees.{all_nodes, all_spans, all_totals, all_values};
ghost use Rattle.spec_trees.specs.Made.{children_count, reach_of, most_span, node_limit};
ghost use Rattle.ts_node.specs.Held.{joined_stretch, stretch, IsCount};
ghost use Rattle.ts_node.specs.Held as held;

use crate::node::{Counts, Node, Run, Sums};
use crate::sums::{narrowed, plus, sums, wide_plus};
use spec_trees::Element;

/// What is counted of these elements and their children.
pub(crate) fn count(elements: &[Element], children: &[Node]) -> Counts
    requires some { 0 < length elements.now }
    requires own { children_count elements.now ≡ length children.now }
    requires fits { length elements.now < 2 ^ 32 }
    requires wide { length children.now < 2 ^ 32 }
    ensures { IsCount result (stretch elements.now children.now) }
{
    Counts {
        elements: elements.len() as u32,
        children: children.len() as u32,
        settled: all_settled(elements),
        values: values(elements),
        reach: reach(elements, children),
        sums: sums(children),
    }
}

/// What is counted of both, one after the other.
pub(crate) fn both(left: &Run, right: &Run) -> Counts
    requires fits { length left.now.elements + length right.now.elements < 2 ^ 32 }
    requires wide { length left.now.children + length right.now.children < 2 ^ 32 }
    ensures both { IsCount result (joined_stretch left.now right.now) }
    ensures left { 0 < length left.now.elements }
    ensures right { 0 < length right.now.elements }
{
    let (low, high) = (left.counts(), right.counts());
    together(low, high)
}

/// What is counted of two parts, one after the other, by what is counted of each.
fn together(low: Counts, high: Counts) -> Counts
    requires elements { low.elements + high.elements < 2 ^ 32 }
    requires children { low.children + high.children < 2 ^ 32 }
    requires values { unsigned_abs low.values + unsigned_abs high.values < 2 ^ 63 }
    requires reach { low.sums.spans + high.reach < 2 ^ 64 }
    requires nodes { low.sums.nodes + high.sums.nodes < 2 ^ 64 }
    requires spans { low.sums.spans + high.sums.spans < 2 ^ 64 }
    requires totals { unsigned_abs low.sums.totals + unsigned_abs high.sums.totals < 2 ^ 127 }
    ensures { (s t : Stretch) → IsCount low s → IsCount high t
        → IsCount result (joined_stretch s t) }
{
    Counts {
        elements: low.elements + high.elements,
        children: low.children + high.children,
        settled: both_so(low.settled, high.settled),
        values: plus(low.values, high.values),
        reach: low.reach.max(low.sums.spans + high.reach),
        sums: both_sums(low.sums, high.sums),
    }
}

/// What is counted of one element over its children.
pub(crate) fn counts_of_one(element: Element, children: &[Node]) -> Counts
    requires wide { length children.now < 2 ^ 32 }
    requires own { element.children ≡ length children.now }
    ensures { IsCount result (stretch (element ∷ []) children.now) }
{
    let sums = sums(children);
    Counts {
        elements: 1,
        children: element.children,
        settled: element.settled,
        values: widened(element.dynamic),
        reach: further(element.extent, sums.spans),
        sums,
    }
}

/// The dynamic totals of all children that were counted.
pub(crate) fn counted_total(counts: Counts) -> i64
    requires { (s : Stretch) × IsCount counts s × (all_nodes s.children < node_limit) }
    ensures total { (s : Stretch) → IsCount counts s → result ≡ all_totals s.children }
    ensures modest { (s : Stretch) → IsCount counts s
        → unsigned_abs result ≤ 2 ^ 31 * all_nodes s.children }
{
    narrowed(counts.sums.totals)
}

/// What is counted of elements with one more behind them, of which this is counted.
pub(crate) fn with_one(counts: Counts, one: Counts) -> Counts
    requires { (s more : Stretch) × IsCount counts s × IsCount one more
        × (length s.elements + length more.elements < 2 ^ 32)
        × (length s.children + length more.children < 2 ^ 32) }
    ensures { (s more : Stretch) → IsCount counts s → IsCount one more
        → IsCount result (joined_stretch s more) }
{
    together(counts, one)
}

/// The extent, or so many bytes, where these are more.
pub(crate) fn further(extent: u32, bytes: u64) -> u64
    ensures far { result ≡ max extent bytes }
    ensures near { result ≤ bytes + 2 ^ 32 }
{
    bytes.max(extent as u64)
}

/// The value of one production.
#[tactic(auto, using(crate::proofs::TotalLemmas::abs_small))]
fn widened(value: i32) -> i64
    ensures value { result ≡ value }
    ensures small { unsigned_abs result ≤ 2 ^ 31 }
{
    value as i64
}

fn both_so(first: bool, second: bool) -> bool
    ensures { result ≡ (first && second) }
{
    first && second
}

/// What is added up over both.
fn both_sums(low: Sums, high: Sums) -> Sums
    requires nodes { low.nodes + high.nodes < 2 ^ 64 }
    requires spans { low.spans + high.spans < 2 ^ 64 }
    requires totals { unsigned_abs low.totals + unsigned_abs high.totals < 2 ^ 127 }
    ensures nodes { result.nodes ≡ low.nodes + high.nodes }
    ensures spans { result.spans ≡ low.spans + high.spans }
    ensures depth { result.depth ≡ max low.depth high.depth }
    ensures totals { result.totals ≡ low.totals +ℤ high.totals }
{
    Sums {
        nodes: low.nodes + high.nodes,
        spans: low.spans + high.spans,
        depth: low.depth.max(high.depth),
        totals: wide_plus(low.totals, high.totals),
    }
}

/// Whether all elements are settled.
#[tactic(auto, using(crate::proofs::ElementLemmas::settled_rest, crate::proofs::ElementLemmas::unsettled_next))]
fn all_settled(elements: &[Element]) -> bool
    ensures { result ≡ held.all_settled elements.now }
{
    for element in elements {
        if !element.settled {
            return false;
        }
    }
    true
}

/// The values of the productions that added the elements together.
#[tactic(auto, using(crate::proofs::ElementLemmas::values_next))]
fn values(elements: &[Element]) -> i64
    requires { length elements.now < 2 ^ 32 }
    ensures total { result ≡ all_values elements.now }
    ensures small { unsigned_abs result ≤ 2 ^ 31 * length elements.now }
{
    let mut total = 0i64;
    for element in elements {
        total = plus(total, widened(element.dynamic));
    }
    total
}

/// Where the elements end with all that was examined for them, from where they begin.
fn reach(elements: &[Element], children: &[Node]) -> u64
    requires own { children_count elements.now ≡ length children.now }
    requires wide { length children.now < 2 ^ 32 }
    ensures reach { result ≡ reach_of elements.now children.now }
    ensures near { result ≤ most_span * length children.now + 2 ^ 32 }
{
    let mut from = 0usize;
    let mut at = 0u64;
    let mut reach = 0u64;
    for element in elements {
        let end = end_of(at, element.extent);
        reach = reach.max(end);
        let count = element.children as usize;
        let bytes = spans(own(children, from, count));
        at += bytes;
        from += count;
    }
    reach.max(at)
}

/// Where ends what was examined from a place on.
fn end_of(at: u64, extent: u32) -> u64
    requires { at < 2 ^ 63 }
    ensures sum { result ≡ at + extent }
    ensures near { result ≤ at + 2 ^ 32 }
{
    at + extent as u64
}

/// So many of the children, from a place on.
pub(crate) fn own(children: &[Node], from: usize, count: usize) -> &[Node]
    requires { from + count ≤ length children.now }
    ensures { result.now ≡ take count (drop from children.now) }
{
    let (_, behind) = children.split_at(from);
    let (first, _) = behind.split_at(count);
    first
}

/// How many bytes the nodes take, one after another.
pub(crate) fn spans(nodes: &[Node]) -> u64
    requires { length nodes.now < 2 ^ 32 }
    ensures spans { result ≡ all_spans nodes.now }
    ensures short { result ≤ most_span * length nodes.now }
{
    let mut spans = 0u64;
    for node in nodes {
        let summary = node.summary();
        spans += summary.pad as u64 + summary.size as u64;
    }
    spans
}

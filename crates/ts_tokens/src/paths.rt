//! Paths in a graph: the nodes to which each node goes come in, and what goes out are ranks that
//! fall along them, or whether a node comes back to itself.

ghost use Rattle.std.specs.Prelude.{◌≡◌, ℕ, ◌+◌, ◌<◌, ◌≤◌, ◌↔◌, length, IfOk, IfSome, IfNone, OnOk, IsTrue, IsFalse, slice_get, Some, map, MatchOption};
ghost use Rattle.std.specs.List.{Contains};
ghost use Rattle.ts_automata.specs.Sets.{Adds};
ghost use Rattle.ts_tokens.specs.Paths.{graph_of, Path, StaysInside, AreNodeRanks, AllRanked, NoneSeen, RanksFall, Continues, IsRanked, OpenLead, unseen_count, rank_of};
ghost use Rattle.ts_tokens.specs.declared.paths.Mark.TheVariants.{Unseen};

use indexmap::IndexSet;
use std::alloc::{AllocError, Global};

/// How far the search has come with a node.
#[derive(Clone, Copy, Debug, PartialEq, Eq)]
enum Mark {
    Unseen,
    /// The search is among the nodes to which it leads.
    Open,
    /// All that it leads to is done. Its rank is above theirs.
    Done(usize),
}

/// Comes from an open node to one to which it goes. It gives the next rank, or none where the
/// search came in a circle.
#[cycle(search)]
fn come_to(graph: &[Vec<usize>], marks: &mut [Mark], node: usize, next: usize) -> Option<usize>
    requires closed { StaysInside (graph_of graph.now) }
    requires node { node < length marks.old }
    requires lead { OpenLead (graph_of graph.now) marks.old node }
    requires falls { RanksFall (graph_of graph.now) marks.old next }
    requires room { next + unseen_count marks.old ≤ length marks.old }
    ensures goes { IfSome result (λ after. Continues marks.old marks.new next after) }
    ensures falls { IfSome result (λ after. RanksFall (graph_of graph.now) marks.new after) }
    ensures done { IfSome result (λ _. IsRanked marks.new node) }
    ensures cyclic { IfNone result ((k : ℕ) × Path (graph_of graph.now) k k) }
{
    match marks[node] {
        Mark::Unseen => visit(graph, marks, node, next),
        Mark::Open => None,
        Mark::Done(_) => Some(next),
    }
}

/// GoesTo through a node that is unseen, and ranks it above all that it leads to.
#[cycle(search)]
fn visit(graph: &[Vec<usize>], marks: &mut [Mark], node: usize, next: usize) -> Option<usize>
    requires closed { StaysInside (graph_of graph.now) }
    requires unseen { slice_get marks.old node ≡ Some Unseen }
    requires lead { OpenLead (graph_of graph.now) marks.old node }
    requires falls { RanksFall (graph_of graph.now) marks.old next }
    requires room { next + unseen_count marks.old ≤ length marks.old }
    ensures goes { IfSome result (λ after. Continues marks.old marks.new next after) }
    ensures falls { IfSome result (λ after. RanksFall (graph_of graph.now) marks.new after) }
    ensures done { IfSome result (λ _. IsRanked marks.new node) }
    ensures cyclic { IfNone result ((k : ℕ) × Path (graph_of graph.now) k k) }
{
    let mut next = next;
    marks[node] = Mark::Open;
    for to in graph[node].as_slice() {
        next = come_to(graph, marks, *to, next)?;
    }
    marks[node] = Mark::Done(next);
    Some(next + 1)
}

/// Ranks all nodes, or comes back to a node in a circle and answers false.
fn visit_all(graph: &[Vec<usize>], marks: &mut [Mark]) -> bool
    requires closed { StaysInside (graph_of graph.now) }
    requires unseen { NoneSeen (graph_of graph.now) marks.old }
    ensures ranked { IsTrue result → AllRanked (graph_of graph.now) marks.new }
    ensures cyclic { IsFalse result → (k : ℕ) × Path (graph_of graph.now) k k }
{
    let mut next = 0;
    for node in 0..marks.len() {
        match come_to(graph, marks, node, next) {
            Some(after) => next = after,
            None => return false,
        }
    }
    true
}

fn rank(mark: Mark) -> usize
    ensures { result ≡ rank_of mark }
{
    match mark {
        Mark::Unseen => 0,
        Mark::Open => 0,
        Mark::Done(rank) => rank,
    }
}

/// The ranks of the nodes that are done.
fn ranks_in(alloc: Global, marks: &[Mark]) -> Result<Vec<usize>, AllocError>
    ensures { IfOk result (λ ranks. ranks.items ≡ map rank_of marks.now) }
{
    let mut ranks = Vec::with_capacity(alloc, marks.len())?;
    for mark in marks {
        ranks.push(rank(*mark))?;
    }
    Ok(ranks)
}

/// Ranks of the nodes, none of which was seen, or none where some node comes back to itself.
fn ranked(
    alloc: Global,
    graph: &[Vec<usize>],
    marks: &mut [Mark],
) -> Result<Option<Vec<usize>>, AllocError>
    requires closed { StaysInside (graph_of graph.now) }
    requires unseen { NoneSeen (graph_of graph.now) marks.old }
    ensures { IfOk result (λ found. MatchOption found
        ((k : ℕ) × Path (graph_of graph.now) k k)
        (λ ranks. AreNodeRanks (graph_of graph.now) ranks.items)) }
{
    if visit_all(graph, marks) {
        return Ok(Some(ranks_in(alloc, marks)?));
    }
    Ok(None)
}

/// Ranks of the nodes that fall along each step, or none where some node comes back to itself.
pub(crate) fn ranks_of(
    alloc: Global,
    graph: &[Vec<usize>],
) -> Result<Option<Vec<usize>>, AllocError>
    requires { StaysInside (graph_of graph.now) }
    ensures { IfOk result (λ found. MatchOption found
        ((k : ℕ) × Path (graph_of graph.now) k k)
        (λ ranks. AreNodeRanks (graph_of graph.now) ranks.items)) }
{
    let mut marks = vec![in alloc; Mark::Unseen; graph.len()]?;
    let found = ranked(alloc, graph, marks.as_mut_slice())?;
    Ok(found)
}

/// Adds the nodes of a row at the end, where they are new.
fn add_row(found: &mut IndexSet<usize>, row: &[usize]) -> Result<(), AllocError>
    ensures { OnOk result (Adds (Contains row.now) found.old.keys found.new.keys) }
{
    for node in row {
        found.insert(*node)?;
    }
    Ok(())
}

fn node_at(found: &IndexSet<usize>, at: usize) -> usize
    requires { at < length found.now.keys }
    ensures { slice_get found.now.keys at ≡ Some result }
{
    let Some(node) = found.get_index(at) else {
        unreachable!()
    };
    *node
}

/// Whether a node comes back to itself.
pub(crate) fn comes_back(
    alloc: Global,
    graph: &[Vec<usize>],
    node: usize,
) -> Result<bool, AllocError>
    requires closed { StaysInside (graph_of graph.now) }
    requires node { node < length (graph_of graph.now) }
    ensures { IfOk result (λ back. IsTrue back ↔ Path (graph_of graph.now) node node) }
{
    let mut found = IndexSet::new(alloc);
    add_row(&mut found, graph[node].as_slice())?;
    let mut next = 0;
    while next < found.len() {
        let from = node_at(&found, next);
        add_row(&mut found, graph[from].as_slice())?;
        next += 1;
    }
    Ok(found.contains(&node))
}

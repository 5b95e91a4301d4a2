//! Sets of nodes with room taken ahead: nodes go in, each of them kept once, and no memory is
//! taken.
ghost use Rattle.std.specs.Prelude.{◌≡◌, ◌≤◌, ◌<◌, ◌↔◌, [], true, false, Some, IsTrue, IfOk, length, slice_get, vec_capacity};
ghost use Rattle.ts_automata.specs.Sets.{Adds};
ghost use Rattle.std.specs.Prelude.{nat_eq};
ghost use Rattle.std.specs.List.{IsDistinct};
ghost use Rattle.std.proofs.Props.{props};
ghost use Rattle.ts_automata.specs.Marked.{AreMarked, InRoom, TellMembers};

use std::alloc::{AllocError, Global};

/// Some of the nodes of an automaton, in the order in which they came.
#[derive(Debug, Drop)]
pub(crate) struct NodeSet {
    /// Whether each node is in it.
    marks: Vec<bool>,
    members: Vec<usize>,
    ghost room: { length marks.items ≤ vec_capacity members },
    ghost marked: { TellMembers marks.items members.items },
    ghost distinct: { IsDistinct nat_eq members.items } by { Prim.hlevel props },
}

/// Whether a node has a mark, which is not set.
fn is_new(marks: &[bool], node: usize) -> bool
    ensures { IsTrue result ↔ (slice_get marks.now node ≡ Some false) }
{
    if node < marks.len() {
        return !marks[node];
    }
    false
}

/// Takes away the marks of some nodes.
fn unmark(marks: &mut Vec<bool>, members: &[usize])
    ensures count { length marks.new.items ≡ length marks.old.items }
    ensures none { AreMarked marks.old.items members.now → AreMarked marks.new.items [] }
{
    for node in members {
        if *node < marks.len() {
            marks[*node] = false;
        }
    }
}

impl NodeSet {
    ghost use Rattle.ts_automata.specs.NodeSets.{node_room, nodes_of};

    /// The empty set, with room for the nodes below a number.
    pub(crate) fn new(alloc: Global, room: usize) -> Result<NodeSet, AllocError>
        ensures room { IfOk result (λ set. node_room set ≡ room) }
        ensures none { IfOk result (λ set. nodes_of set ≡ []) }
    {
        let marks = vec![in alloc; false; room]?;
        let members = Vec::with_capacity(alloc, room)?;
        Ok(NodeSet { marks, members })
    }

    /// Takes all nodes out.
    pub(crate) fn clear(&mut self)
        ensures room { node_room self.new ≡ node_room self.old }
        ensures none { nodes_of self.new ≡ [] }
    {
        unmark(&mut self.marks, self.members.as_slice());
        self.members.clear();
    }

    /// Adds a node at the end, where it is new and there is room for it.
    pub(crate) fn insert(&mut self, node: usize)
        ensures room { node_room self.new ≡ node_room self.old }
        ensures adds { Adds (InRoom (node_room self.old) (λ i. i ≡ node)) (nodes_of self.old)
            (nodes_of self.new) }
    {
        if !is_new(self.marks.as_slice(), node) {
            return;
        }
        self.marks[node] = true;
        match self.members.push(node) {
            Ok(()) => {}
            Err(_) => unreachable!(),
        }
    }

    /// The nodes, in the order in which they came.
    pub(crate) fn nodes(&self) -> &[usize]
        ensures { result.now ≡ nodes_of self.now }
    {
        self.members.as_slice()
    }
}

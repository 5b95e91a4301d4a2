//! The way of an automaton through a text, without tables: characters go in one by one, and the
//! nodes in which the automaton is come out. No memory is taken on the way.
ghost use Rattle.std.specs.Prelude.{◌≡◌, ◌∷◌, ◌++◌, ◌↔◌, ◌<◌, [], ℕ, List, IfOk, length, Some, slice_get};
ghost use Rattle.std.specs.List.{Contains};
ghost use Rattle.ts_automata.specs.Reads.{Takes, Splits};
ghost use Rattle.ts_automata.specs.Sets.{Adds, Least, Moves};
ghost use Rattle.ts_automata.specs.Marked.{InRoom, Onwards};
ghost use Rattle.ts_automata.specs.NodeSets.{node_room, nodes_of};

use crate::automaton::Automaton;
use crate::closing::is_in;
use crate::node::Node;
use crate::node_set::NodeSet;
use std::alloc::{AllocError, Global};

/// The nodes in which an automaton is, with room for the next ones.
#[derive(Debug, Drop)]
pub struct Walk {
    here: NodeSet,
    next: NodeSet,
    ghost same: { node_room next ≡ node_room here },
}

/// Adds some nodes.
fn enter(set: &mut NodeSet, entries: &[usize])
    ensures room { node_room set.new ≡ node_room set.old }
    ensures adds { Adds (InRoom (node_room set.old) (Contains entries.now)) (nodes_of set.old)
        (nodes_of set.new) }
{
    for entry in entries {
        set.insert(*entry);
    }
}

/// Adds the nodes to which one goes on.
fn expand(set: &mut NodeSet, nodes: &[Node], from: usize)
    ensures room { node_room set.new ≡ node_room set.old }
    ensures adds { Adds (InRoom (node_room set.old) (Splits nodes.now from)) (nodes_of set.old)
        (nodes_of set.new) }
{
    if from >= nodes.len() {
        return;
    }
    match &nodes[from] {
        Node::Take(_, _) => {}
        Node::Split(left, right) => {
            set.insert(*left);
            set.insert(*right);
        }
        Node::End => {}
    }
}

/// Adds all nodes to which its nodes go on.
fn close(set: &mut NodeSet, nodes: &[Node])
    ensures room { node_room set.new ≡ node_room set.old }
    ensures closed { (i : ℕ) → Contains (nodes_of set.new) i
        ↔ Least (Onwards nodes.now (node_room set.old)) (nodes_of set.old) i }
{
    let mut next = 0;
    while next < set.nodes().len() {
        let from = set.nodes()[next];
        expand(set, nodes, from);
        next += 1;
    }
}

/// Adds the node to which a character leads from another.
fn take(set: &mut NodeSet, nodes: &[Node], from: usize, c: u32)
    ensures room { node_room set.new ≡ node_room set.old }
    ensures adds { Adds (InRoom (node_room set.old) (Takes nodes.now from c)) (nodes_of set.old)
        (nodes_of set.new) }
{
    if from >= nodes.len() {
        return;
    }
    match &nodes[from] {
        Node::Take(ranges, to) => {
            if is_in(ranges.as_slice(), c) {
                set.insert(*to);
            }
        }
        Node::Split(_, _) => {}
        Node::End => {}
    }
}

/// Adds the nodes to which a character leads from some others.
fn take_all(set: &mut NodeSet, nodes: &[Node], members: &[usize], c: u32)
    ensures room { node_room set.new ≡ node_room set.old }
    ensures adds { Adds (InRoom (node_room set.old) (Moves nodes.now members.now c))
        (nodes_of set.old) (nodes_of set.new) }
{
    for from in members {
        take(set, nodes, *from, c);
    }
}

/// Makes a set that of the nodes to which a character leads from some others.
fn go_on(set: &mut NodeSet, nodes: &[Node], members: &[usize], c: u32)
    ensures room { node_room set.new ≡ node_room set.old }
    ensures goes { (kernel : List ℕ)
        × Adds (InRoom (node_room set.old) (Moves nodes.now members.now c)) [] kernel
        × ((i : ℕ) → Contains (nodes_of set.new) i
        ↔ Least (Onwards nodes.now (node_room set.old)) kernel i) }
{
    set.clear();
    take_all(set, nodes, members, c);
    close(set, nodes);
}

impl Walk {
    ghost use Rattle.ts_automata.specs.Walks.{HasCome, walk_room, walk_nodes};

    /// Room for the way of an automaton with so many nodes.
    ///
    /// # Errors
    ///
    /// `AllocError` where there is no memory for it.
    pub fn new(alloc: Global, nodes: usize) -> Result<Walk, AllocError>
        ensures { IfOk result (λ walk. walk_room walk ≡ nodes) }
    {
        let here = NodeSet::new(alloc, nodes)?;
        let next = NodeSet::new(alloc, nodes)?;
        Ok(Walk { here, next })
    }

    /// Goes to where nothing has been read.
    pub fn begin(&mut self, automaton: &Automaton)
        ensures room { walk_room self.new ≡ walk_room self.old }
        ensures stands { walk_room self.old ≡ length automaton.now.nodes.items
            → HasCome automaton.now [] self.new }
    {
        self.here.clear();
        enter(&mut self.here, automaton.entries.as_slice());
        close(&mut self.here, automaton.nodes.as_slice());
    }

    /// Goes on over a character.
    pub fn step(&mut self, automaton: &Automaton, c: char)
        ensures room { walk_room self.new ≡ walk_room self.old }
        ensures stands { (w : List ℕ) → walk_room self.old ≡ length automaton.now.nodes.items
            → HasCome automaton.now w self.old → HasCome automaton.now (w ++ c ∷ []) self.new }
    {
        let members = self.here.nodes();
        go_on(
            &mut self.next,
            automaton.nodes.as_slice(),
            members,
            c as u32,
        );
        std::mem::swap(&mut self.here, &mut self.next);
    }

    /// The nodes in which the automaton is.
    pub fn members(&self) -> &[usize]
        ensures { result.now ≡ walk_nodes self.now }
    {
        self.here.nodes()
    }
}

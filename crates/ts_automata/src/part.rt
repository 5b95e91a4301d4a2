//! The nodes of one token or separator: its expression goes in, the nodes are added to those that
//! are there, and its first node comes out.
ghost use Rattle.std.specs.Prelude.{◌≤◌, length, IfOk, OnOk};
ghost use Rattle.spec_lexing.specs.Words.{regular_of};
ghost use Rattle.ts_automata.specs.Parts.{HasPart, Fills};

use crate::compile::add;
use crate::node::Node;
use std::alloc::{AllocError, Global};
use ts_core::Re;

/// Adds the nodes of one part, and answers the first.
pub(crate) fn add_nodes(alloc: Global, nodes: &mut Vec<Node>, re: &Re) -> Result<usize, AllocError>
    ensures { IfOk result (HasPart nodes.old.items nodes.new.items (regular_of re.now)) }
{
    let end = nodes.len();
    nodes.push(Node::End)?;
    let entry = add(alloc, nodes, re, end)?;
    Ok(entry)
}

/// Gives all nodes up to this many that have no part yet to the part.
pub(crate) fn own(owners: &mut Vec<usize>, count: usize, part: usize) -> Result<(), AllocError>
    ensures { length owners.old.items ≤ count
        → OnOk result (Fills owners.old.items owners.new.items count part) }
{
    for _node in owners.len()..count {
        owners.push(part)?;
    }
    Ok(())
}

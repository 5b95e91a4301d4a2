//! Each call once: nodes are pushed, and what lies on the stacks is compared.
use crate::{Graph, Taken, turn};
use std::test::Fail;
use ts_core::Symbol;
use ts_node::Node;

#[test]
fn a_node_lies_on_its_stack(rt: HostRuntime) -> Result<(), Fail> {
    let alloc = rt.alloc();
    let mut graph = Graph::new(alloc);
    let top = graph.push(0, Node::leaf(Symbol(2), 0, 1, 2, None), 7)?;
    assert_eq!(rt; top, 1);
    assert_eq!(rt; graph.state(top), 7);
    assert_eq!(rt; graph.extra(top), false);
    let lifted = graph.lift(alloc, top)?;
    assert_eq!(rt; lifted.extras.len(), 0);
    let taken = graph.take(alloc, top, 0)?;
    assert_eq!(rt; taken.nodes.len(), 0);
    assert_eq!(rt; graph.deepest(), 1);
    assert_eq!(rt; graph.depth(top), 1);
    let packed = graph.push_packed(0, Node::leaf(Symbol(2), 0, 1, 2, None), 7, 3)?;
    let Taken {
        mut nodes,
        first,
        others,
        below,
    } = graph.take_off(alloc, packed, 1)?;
    turn(&mut nodes);
    assert_eq!(rt; nodes.len(), 1);
    assert_eq!(rt; first, 3);
    assert_eq!(rt; others, 0);
    assert_eq!(rt; below, 0);
    graph.keep(nodes);
    let last = graph.push(0, Node::leaf(Symbol(2), 0, 1, 2, None), 7)?;
    let node = graph.take_node(last);
    assert_eq!(rt; node.extra(), false);
    Ok(())
}

//! One link and the ways over it: what takes memory, each call once.
use crate::Graph;
use spec_graph::Head;
use std::test::Fail;
use ts_core::Symbol;
use ts_node::Node;

#[test]
fn a_way_leads_down(rt: HostRuntime) -> Result<(), Fail> {
    let alloc = rt.alloc();
    let mut graph = Graph::new(alloc);
    let bottom = graph.base();
    let top = graph.open(Head { state: 7, place: 3 }, None)?;
    let other = graph.open(Head { state: 8, place: 3 }, Some(top))?;
    assert_eq!(rt; graph.open(Head { state: 7, place: 3 }, Some(other))?, top);
    assert_eq!(rt; graph.count(), 3);
    let None = graph.between(top, bottom) else {
        panic!(rt; "a link before one was put there")
    };
    graph.push(top, bottom, Node::leaf(Symbol(2), 0, 3, 4, None), 1)?;
    assert_eq!(rt; graph.between(top, bottom), Some(0));
    let mut numbers = Vec::new(alloc);
    assert_eq!(rt; graph.only_way(top, 1, &mut numbers)?, Some(bottom));
    assert_eq!(rt; numbers[0], 0);
    assert_eq!(rt; graph.ways(alloc, top, 1)?.len(), 1);
    assert_eq!(rt; graph.ways_to(alloc, top, 1, 0)?.len(), 1);
    assert_eq!(rt; graph.latest_end(alloc, top, 1, 3)?, Some(0));
    let stack = graph.take_stack(alloc, bottom);
    assert_eq!(rt; stack.state(bottom), 0);
    assert_eq!(rt; graph.count(), 1);
    graph.lie_over(stack, bottom, 0);
    Ok(())
}

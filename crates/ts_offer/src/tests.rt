//! Each call once: a leaf is offered just at its place and for its state.
use crate::{Nothing, Offers, Old};
use std::test::Fail;
use ts_core::Symbol;
use ts_node::Node;

#[test]
fn a_leaf_is_offered_at_its_place_for_its_state(rt: HostRuntime) -> Result<(), Fail> {
    let leaf = Node::leaf(Symbol(1), 1, 2, 4, Some(4));
    let mut old = Old::new(rt.alloc(), &leaf)?;
    assert!(rt; old.at(0, 5).is_none());
    assert!(rt; old.at(0, 4).is_some());
    assert!(rt; old.at(1, 4).is_none());
    Ok(())
}

#[test]
fn a_leaf_lends_no_elements(rt: HostRuntime) -> Result<(), Fail> {
    let leaf = Node::leaf(Symbol(1), 1, 2, 4, Some(4));
    let mut old = Old::new(rt.alloc(), &leaf)?;
    assert!(rt; old.elements_at(0, 4, Symbol(1)).is_none());
    assert!(rt; old.elements_at(3, 4, Symbol(1)).is_none());
    Ok(())
}

#[test]
fn nothing_is_offered(rt: HostRuntime) -> Result<(), Fail> {
    let mut nothing = Nothing;
    assert!(rt; nothing.at(0, 0).is_none());
    assert!(rt; nothing.elements_at(0, 0, Symbol(2)).is_none());
    Ok(())
}

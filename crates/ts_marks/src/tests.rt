//! Marking once: a leaf, by an edit of two parts.
use crate::mark;
use std::alloc::Global;
use std::test::Fail;
use ts_base::List;
use ts_core::Symbol;
use ts_node::Node;
use ts_text::{Edit, Part, Text, apply};

/// A leaf of a text, marked by an edit of the text.
fn marked_leaf(alloc: Global, text: &Text, leaf: &Node, edit: &Edit) -> Result<Option<Node>, Fail> {
    let _ = leaf.nodes();
    if leaf.pad() + leaf.size() > text.len() {
        return Ok(None);
    }
    match apply(alloc, text, edit) {
        Ok(_) => Ok(Some(mark(alloc, leaf, edit)?)),
        Err(_) => Ok(None),
    }
}

/// An edit that puts `xy` in the place of byte 1, and takes byte 4 out.
fn two_parts(alloc: Global) -> Result<Edit, Fail> {
    let mut parts = List::new(alloc);
    parts.push(Part {
        start: 1,
        end: 2,
        new: Text::from_bytes(alloc, b"xy")?,
    })?;
    parts.push(Part {
        start: 4,
        end: 5,
        new: Text::from_bytes(alloc, b"")?,
    })?;
    Ok(Edit { parts })
}

#[test]
fn sizes_follow_an_edit_of_two_parts(rt: HostRuntime) -> Result<(), Fail> {
    let alloc = rt.alloc();
    let text = Text::from_bytes(alloc, b"  abcd")?;
    let leaf = Node::leaf(Symbol(1), 2, 4, 7, Some(4));
    let edit = two_parts(alloc)?;
    let Some(marked) = marked_leaf(alloc, &text, &leaf, &edit)? else {
        panic!(rt; "not marked");
    };
    assert_eq!(rt; marked.pad(), 3);
    assert_eq!(rt; marked.size(), 3);
    assert_eq!(rt; marked.settled(), false);
    Ok(())
}

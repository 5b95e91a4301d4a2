//! Which leaves of a tree an insertion unsettles: one that ends where the text grows, since the
//! lexer looked past its end, and none before it.
use crate::lexing::lexer_of;
use std::alloc::Global;
use std::test::Fail;
use ts_base::List;
use ts_docs::{Version, opening};
use ts_front::table_in;
use ts_marks::mark;
use ts_node::Node;
use ts_table::Table;
use ts_text::{Edit, Part, Text, apply};

/// Words, one of which is a keyword, with blanks between them.
const WORDS: &str = r#"{"name": "words", "word": "name", "rules": {
    "words": {"type": "REPEAT", "content": {"type": "SYMBOL", "name": "_word"}},
    "_word": {"type": "CHOICE", "members": [
        {"type": "SYMBOL", "name": "in"}, {"type": "SYMBOL", "name": "name"}]},
    "in": {"type": "STRING", "value": "in"},
    "name": {"type": "PATTERN", "value": "[a-z]+"}},
    "extras": [{"type": "PATTERN", "value": "\\s"}]}"#;

/// The first version of a document of this text.
fn version_of(alloc: Global, table: &Table, text: &[u8]) -> Result<Version, Fail> {
    let mut lexer = lexer_of(alloc, table)?;
    let text = Text::from_bytes(alloc, text)?;
    let _ = text.len();
    Ok(opening(alloc, table, &mut lexer, text)?)
}

/// The edit that puts an `x` at a place.
fn insertion(alloc: Global, place: u32) -> Result<Edit, Fail> {
    let mut parts = List::new(alloc);
    parts.push(Part {
        start: place,
        end: place,
        new: Text::from_bytes(alloc, b"x")?,
    })?;
    Ok(Edit { parts })
}

/// The tree of a text, marked by an edit of the text.
fn marked_tree(alloc: Global, text: &Text, tree: &Node, edit: &Edit) -> Result<Option<Node>, Fail> {
    let _ = tree.nodes();
    if tree.pad() + tree.size() > text.len() {
        return Ok(None);
    }
    match apply(alloc, text, edit) {
        Ok(_) => Ok(Some(mark(alloc, tree, edit)?)),
        Err(_) => Ok(None),
    }
}

/// The tree of a version, marked by the insertion of an `x` at a place.
fn marked(alloc: Global, version: &Version, place: u32) -> Result<Option<Node>, Fail> {
    let edit = insertion(alloc, place)?;
    match version.marked() {
        Some(tree) => marked_tree(alloc, version.text(), tree, &edit),
        None => Ok(None),
    }
}

/// The child of a node of this number.
fn child(node: &Node, k: u32) -> Option<&Node> {
    if k < node.children() {
        Some(node.child(k))
    } else {
        None
    }
}

/// Whether a tree is settled, or in it the leaf of the word of this number.
fn is_settled(root: &Node, word: Option<u32>) -> Option<bool> {
    match word {
        Some(k) => word_is_settled(root, k),
        None => Some(root.settled()),
    }
}

/// Whether the leaf of the word of this number is settled.
fn word_is_settled(root: &Node, k: u32) -> Option<bool> {
    let words = child(root, 0)?;
    let word = child(words, k)?;
    let leaf = child(word, 0)?;
    Some(leaf.settled())
}

/// Whether the tree of `in in`, or the leaf of one of its words, stays settled when an `x` is put
/// at its end.
fn stays_by(alloc: Global, table: &Table, word: Option<u32>) -> Result<Option<bool>, Fail> {
    let version = version_of(alloc, table, b"in in")?;
    match marked(alloc, &version, 5)? {
        Some(tree) => Ok(is_settled(&tree, word)),
        None => Ok(None),
    }
}

/// The same by the table of `WORDS`.
fn stays(alloc: Global, word: Option<u32>) -> Result<Option<bool>, Fail> {
    let table = table_in(alloc, WORDS.as_bytes())?;
    stays_by(alloc, &table, word)
}

#[test]
fn a_word_that_reaches_to_an_edit_is_not_settled(rt: HostRuntime) -> Result<(), Fail> {
    let alloc = rt.alloc();
    assert_eq!(rt; stays(alloc, Some(0))?, Some(true));
    assert_eq!(rt; stays(alloc, Some(1))?, Some(false));
    assert_eq!(rt; stays(alloc, None)?, Some(false));
    Ok(())
}

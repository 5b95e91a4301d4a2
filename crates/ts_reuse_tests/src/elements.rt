//! An edit in the middle of a long list: the elements that it leaves are taken over at once, so
//! that few bytes are lexed, and the tree is that of a whole parse.
use std::alloc::{AllocError, Global};
use std::test::Fail;
use ts_base::List;
use ts_docs::{Version, opening, prepare};
use ts_front::table_in;
use ts_lexer::Lexer;
use ts_node::Node;
use ts_text::{Edit, Part, Text};

/// A list of letters.
const LETTERS: &str = r#"{"name": "letters", "rules": {
    "letters": {"type": "REPEAT", "content": {"type": "SYMBOL", "name": "letter"}},
    "letter": {"type": "PATTERN", "value": "[a-z]"}}}"#;

const COUNT: usize = 400;

/// The edit that puts a text in the place of the byte in the middle.
fn middle(alloc: Global, new: Text) -> Result<Edit, AllocError> {
    let mut parts = List::new(alloc);
    parts.push(Part {
        start: 200,
        end: 201,
        new,
    })?;
    Ok(Edit { parts })
}

/// How many elements the list in the tree of a version has.
fn elements(version: &Version) -> Option<u32> {
    let root: &Node = version.marked()?;
    if root.children() == 1 {
        Some(root.child(0).elements())
    } else {
        None
    }
}

#[test]
fn elements_are_taken_over_behind_an_edit(rt: HostRuntime) -> Result<(), Fail> {
    let alloc = rt.alloc();
    let grammar = LETTERS.as_bytes();
    assert!(rt; grammar.len() < 1_000);
    let table = table_in(alloc, grammar)?;
    let automaton = ts_automata::build(alloc, table.grammar())?;
    let mut lexer = Lexer::new(alloc, automaton, &table)?;
    let text = Text::from_bytes(alloc, &[b'a'; COUNT])?;
    let _ = text.len();
    let version = opening(alloc, &table, &mut lexer, text)?;
    assert_eq!(rt; version.number(), 0);
    assert_eq!(rt; elements(&version), Some(400));
    let whole = lexer.examined();
    assert!(rt; whole >= 400);
    let edit = middle(alloc, Text::from_bytes(alloc, b"b".as_slice())?)?;
    let draft = prepare(alloc, &table, &mut lexer, &version, 0, 0, &edit)?;
    assert_eq!(rt; elements(draft.version().get()), Some(400));
    assert!(rt; lexer.examined().saturating_sub(whole) < 40);
    Ok(())
}

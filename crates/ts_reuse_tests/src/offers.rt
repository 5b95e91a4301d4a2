//! Parses with offers that are not honest: a leaf of another text is offered everywhere. Nothing is
//! said of what they come to but that the call returns, and what is so of each parse of such bytes.
ghost use Rattle.std.specs.Prelude.{◌≡◌, ◌<◌, ◌↔◌, true, IfOk, IfSome, IsTrue};
ghost use Rattle.spec_trees.specs.Trees.{children_of, is_settled, span_of};
ghost use Rattle.ts_lexer.specs.Lexers.{IsLexerOf};
ghost use Rattle.ts_steps.specs.Good.{EachTree};
ghost use Rattle.ts_steps.specs.Heads.{IsOwnWithin};
ghost use Rattle.ts_steps.specs.Reparsing.{IsOffered};

use crate::Anywhere;
use crate::lexing::lexer_of;
use std::alloc::{AllocError, Global};
use std::test::Fail;
use ts_front::table_in;
use ts_glr::{Outcome, parse_with};
use ts_lexer::Lexer;
use ts_node::Node;
use ts_offer::Nothing;
use ts_table::Table;
use ts_text::Text;

/// Two parts, each of them a run of `a` or one `b`.
const PAIR: &str = r#"{"name": "pair", "rules": {
    "pair": {"type": "SEQ", "members": [
        {"type": "CHOICE", "members": [
            {"type": "SYMBOL", "name": "run"}, {"type": "SYMBOL", "name": "one"}]},
        {"type": "CHOICE", "members": [
            {"type": "SYMBOL", "name": "run"}, {"type": "SYMBOL", "name": "one"}]}]},
    "run": {"type": "PATTERN", "value": "a+"},
    "one": {"type": "STRING", "value": "b"}}}"#;

/// What a text comes to without offers and with one that is not honest, and how many times the
/// node was offered.
#[derive(Drop)]
struct Outcomes {
    fresh: Outcome,
    offered: u32,
    outcome: Outcome,
}

/// The tree of a text, if it has one.
fn tree_of(
    alloc: Global,
    table: &Table,
    lexer: &mut Lexer,
    text: &Text,
) -> Result<Option<Node>, AllocError>
    requires { IsLexerOf lexer.old table.now }
    ensures made { IsLexerOf lexer.new table.now }
    ensures own { IfOk result (λ o. IfSome o
        (λ root. EachTree (IsOwnWithin table.now.grammar) (children_of root))) }
{
    let _ = text.len();
    match parse_with(alloc, table, lexer, text, &mut Nothing)? {
        Outcome::Accepted(root) => Ok(Some(root)),
        Outcome::Stuck(_) | Outcome::Deep => Ok(None),
    }
}

/// How many bytes a node takes, its pad among them.
fn span(node: &Node) -> u32
    ensures { result ≡ span_of node.now }
{
    let _ = node.nodes();
    node.pad() + node.size()
}

/// Whether a node that a parser made may be offered: it is settled and has bytes.
fn may_be_offered(node: &Node) -> bool
    ensures { IsTrue result ↔ (is_settled node.now ≡ true) × (0 < span_of node.now) }
{
    node.settled() && span(node) > 0
}

/// What a text comes to where a node is offered everywhere.
#[tactic(auto, using(crate::proofs::OfferLemmas::same))]
fn tried_with(
    alloc: Global,
    table: &Table,
    lexer: &mut Lexer,
    text: &Text,
    node: &Node,
) -> Result<Outcomes, AllocError>
    requires made { IsLexerOf lexer.old table.now }
    requires offered { IsOffered table.now.grammar node.now }
{
    let _ = text.len();
    let fresh = parse_with(alloc, table, lexer, text, &mut Nothing)?;
    let mut offers = Anywhere::new(node);
    let outcome = parse_with(alloc, table, lexer, text, &mut offers)?;
    Ok(Outcomes {
        fresh,
        offered: offers.offered(),
        outcome,
    })
}

/// What a text comes to where the first of two leaves of another tree is offered everywhere.
#[tactic(auto, using(crate::proofs::OfferLemmas::child_offered))]
fn tried_over(
    alloc: Global,
    table: &Table,
    lexer: &mut Lexer,
    text: &Text,
    other: &Node,
) -> Result<Option<Outcomes>, AllocError>
    requires made { IsLexerOf lexer.old table.now }
    requires own { EachTree (IsOwnWithin table.now.grammar) (children_of other.now) }
{
    if other.children() != 2 {
        return Ok(None);
    }
    let node = other.child(0);
    if !may_be_offered(node) {
        return Ok(None);
    }
    let tried = tried_with(alloc, table, lexer, text, node)?;
    Ok(Some(tried))
}

/// What a text comes to where the first leaf of another text, which has two, is offered everywhere.
fn tried_in(
    alloc: Global,
    table: &Table,
    other: &[u8],
    text: &[u8],
) -> Result<Option<Outcomes>, Fail> {
    let mut lexer = lexer_of(alloc, table)?;
    let other = Text::from_bytes(alloc, other)?;
    let text = Text::from_bytes(alloc, text)?;
    match tree_of(alloc, table, &mut lexer, &other)? {
        Some(root) => Ok(tried_over(alloc, table, &mut lexer, &text, &root)?),
        None => Ok(None),
    }
}

/// The same for two texts of `PAIR`.
fn tried(alloc: Global, other: &[u8], text: &[u8]) -> Result<Option<Outcomes>, Fail> {
    let table = table_in(alloc, PAIR.as_bytes())?;
    tried_in(alloc, &table, other, text)
}

/// How many bytes the accepted tree takes.
fn bytes(outcome: &Outcome) -> Option<u32> {
    match outcome {
        Outcome::Accepted(root) => Some(root.size()),
        Outcome::Stuck(_) | Outcome::Deep => None,
    }
}

/// The place at which a text is stuck.
fn stuck(outcome: &Outcome) -> Option<u32> {
    match outcome {
        Outcome::Stuck(place) => Some(*place),
        Outcome::Accepted(_) | Outcome::Deep => None,
    }
}

#[test]
fn a_leaf_of_another_text_takes_no_more_bytes(rt: HostRuntime) -> Result<(), Fail> {
    let Some(tried) = tried(rt.alloc(), b"ab", b"bb")? else {
        panic!(rt; "no leaf");
    };
    assert!(rt; tried.offered > 0);
    assert_eq!(rt; bytes(&tried.fresh), Some(2));
    assert_eq!(rt; bytes(&tried.outcome), Some(2));
    Ok(())
}

#[test]
fn a_byte_of_no_token_is_stuck_whatever_is_offered(rt: HostRuntime) -> Result<(), Fail> {
    let Some(tried) = tried(rt.alloc(), b"ab", b"b?")? else {
        panic!(rt; "no leaf");
    };
    assert!(rt; tried.offered > 0);
    assert_eq!(rt; stuck(&tried.fresh), Some(1));
    assert_eq!(rt; stuck(&tried.outcome), Some(1));
    Ok(())
}

#[test]
fn a_leaf_that_reaches_past_the_end_is_left(rt: HostRuntime) -> Result<(), Fail> {
    let Some(tried) = tried(rt.alloc(), b"aaaab", b"bb")? else {
        panic!(rt; "no leaf");
    };
    assert!(rt; tried.offered > 0);
    assert_eq!(rt; bytes(&tried.fresh), Some(2));
    assert_eq!(rt; bytes(&tried.outcome), Some(2));
    Ok(())
}

#[test]
fn what_is_offered_is_believed(rt: HostRuntime) -> Result<(), Fail> {
    let Some(tried) = tried(rt.alloc(), b"aaab", b"bbbb")? else {
        panic!(rt; "no leaf");
    };
    assert_eq!(rt; stuck(&tried.fresh), Some(2));
    assert_eq!(rt; bytes(&tried.outcome), Some(4));
    Ok(())
}

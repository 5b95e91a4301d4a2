//! The word token's words: its expression comes in, and an automaton goes out whose nodes tell
//! which texts are words of it.

ghost use Rattle.std.specs.Prelude.{◌≡◌, ◌↔◌, ◌∷◌, [], map, IfOk, IsTrue};
ghost use Rattle.std.specs.Str.{chars};
ghost use Rattle.spec_lexing.specs.Words.{Regular, Word, regular_of};
ghost use Rattle.ts_automata.specs.Automata.{parts_of};
ghost use Rattle.ts_automata.specs.Reads.{IsEnd};
ghost use Rattle.ts_automata.specs.Walks.{walk_room};
ghost use Rattle.ts_tokens.specs.Keywords.{HasEnd, HasRoomFor, IsWordAutomaton};

use std::alloc::{AllocError, Global};
use ts_automata::{Automaton, Node, Walk, build};
use ts_core::{FlatGrammar, Kind, List, Re, Str, TokenDef};

/// The one token of a grammar, with this expression.
fn tokens_of(alloc: Global, re: Re) -> Result<List<TokenDef>, AllocError>
    ensures { IfOk result (λ tokens. map (λ token. regular_of token.re) tokens
        ≡ regular_of re ∷ []) }
{
    let mut tokens = List::with_capacity(alloc, 1)?;
    tokens.push(TokenDef {
        name: Str::from_text(alloc, "")?,
        kind: Kind::Hidden,
        re,
        prec: 0,
        literal: false,
        immediate: false,
        keyword: false,
    })?;
    Ok(tokens)
}

/// A grammar that has one token, and nothing else.
fn grammar_of(alloc: Global, re: Re) -> Result<FlatGrammar, AllocError>
    ensures { IfOk result (λ g. parts_of g ≡ regular_of re ∷ []) }
{
    Ok(FlatGrammar {
        name: Str::from_text(alloc, "")?,
        tokens: tokens_of(alloc, re)?,
        rules: List::new(alloc),
        separators: List::new(alloc),
        extras: List::new(alloc),
        word: None,
        fields: List::new(alloc),
        precs: List::new(alloc),
        conflicts: List::new(alloc),
        precedences: List::new(alloc),
        supertypes: List::new(alloc),
    })
}

/// The automaton that reads the words of an expression.
pub(crate) fn word_automaton(alloc: Global, re: Re) -> Result<Automaton, AllocError>
    ensures { IfOk result (IsWordAutomaton (regular_of re)) }
{
    let grammar = grammar_of(alloc, re)?;
    let automaton = build(alloc, &grammar)?;
    Ok(automaton)
}

/// Whether a word ends at a node.
fn is_end(nodes: &[Node], node: usize) -> bool
    ensures { IsTrue result ↔ IsEnd nodes.now node }
{
    if node >= nodes.len() {
        return false;
    }
    match &nodes[node] {
        Node::Take(_, _) => false,
        Node::Split(_, _) => false,
        Node::End => true,
    }
}

/// Whether a word ends at one of the nodes.
fn has_end(nodes: &[Node], members: &[usize]) -> bool
    ensures { IsTrue result ↔ HasEnd nodes.now members.now }
{
    for node in members {
        if is_end(nodes, *node) {
            return true;
        }
    }
    false
}

/// Whether a text is a word of the automaton's expression. It takes no memory, and each character
/// costs at most a look at each node.
pub(crate) fn is_word(automaton: &Automaton, walk: &mut Walk, text: &str) -> bool
    ensures room { walk_room walk.new ≡ walk_room walk.old }
    ensures word { (p : Regular) → IsWordAutomaton p automaton.now
        → HasRoomFor automaton.now walk.old → IsTrue result ↔ Word p (chars text.now) }
{
    walk.begin(automaton);
    for c in text.chars() {
        walk.step(automaton, c);
    }
    has_end(automaton.nodes.as_slice(), walk.members())
}

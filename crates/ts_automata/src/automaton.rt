//! The automaton of a whole grammar: the grammar in normal form goes in, its automaton comes out.
ghost use Rattle.std.specs.Prelude.{◌∷◌, [], map, IfOk, OnOk};
ghost use Rattle.spec_lexing.specs.Words.{regular_of};
ghost use Rattle.ts_automata.specs.Automata.{IsAutomaton, Gains};

use crate::node::Node;
use crate::part::{add_nodes, own};
use std::alloc::{AllocError, Global};
use ts_core::{FlatGrammar, Re, TokenDef};

/// Nodes that read the tokens and the separators of a grammar. These are its parts, by their
/// places: the tokens, so that the token of symbol k is part k - 1, and then the separators.
#[derive(Debug, Drop)]
pub struct Automaton {
    pub nodes: Vec<Node>,
    /// The first node of each part.
    pub entries: Vec<usize>,
    /// The part of each node.
    pub owners: Vec<usize>,
}

/// Makes the automaton of a grammar.
///
/// Its nodes are at most about twice as many as the pattern positions of the grammar, where a
/// repetition counts the positions of its inner part as often as it may at least, and at most, be
/// taken.
///
/// # Errors
///
/// `AllocError` where there is no memory for it.
pub fn build(alloc: Global, flat: &FlatGrammar) -> Result<Automaton, AllocError>
    ensures { IfOk result (IsAutomaton flat.now) }
{
    let mut automaton = Automaton {
        nodes: Vec::new(alloc),
        entries: Vec::new(alloc),
        owners: Vec::new(alloc),
    };
    add_tokens(alloc, &mut automaton, flat.tokens.as_slice())?;
    add_separators(alloc, &mut automaton, flat.separators.as_slice())?;
    Ok(automaton)
}

/// Adds one part.
fn add_part(alloc: Global, automaton: &mut Automaton, re: &Re) -> Result<(), AllocError>
    ensures { OnOk result (Gains automaton.old automaton.new (regular_of re.now ∷ [])) }
{
    let part = automaton.entries.len();
    let entry = add_nodes(alloc, &mut automaton.nodes, re)?;
    let count = automaton.nodes.len();
    own(&mut automaton.owners, count, part)?;
    automaton.entries.push(entry)?;
    Ok(())
}

/// Adds the tokens, in their order.
fn add_tokens(
    alloc: Global,
    automaton: &mut Automaton,
    tokens: &[TokenDef],
) -> Result<(), AllocError>
    ensures { OnOk result
        (Gains automaton.old automaton.new (map (λ token. regular_of token.re) tokens.now)) }
{
    for token in tokens {
        add_part(alloc, automaton, &token.re)?;
    }
    Ok(())
}

/// Adds the separators, in their order.
fn add_separators(
    alloc: Global,
    automaton: &mut Automaton,
    separators: &[Re],
) -> Result<(), AllocError>
    ensures { OnOk result (Gains automaton.old automaton.new (map regular_of separators.now)) }
{
    for separator in separators {
        add_part(alloc, automaton, separator)?;
    }
    Ok(())
}

//! The tokens with which symbols can begin: productions go in, and a set for each symbol comes out.
ghost use Rattle.std.specs.Prelude.{◌≡◌, ℕ, [], ◌∷◌, ◌++◌, ◌*◌, ◌/◌, ◌^◌, ◌<◌, ◌≤◌, ◌↔◌, ◌⊎◌, length, IfOk, OnOk};
ghost use Rattle.spec_grammar.specs.Symbols.{symbol_count};
ghost use Rattle.std.specs.List.{Contains};
ghost use Rattle.ts_items.specs.Productions.{ArePlainOf};
ghost use Rattle.ts_items.specs.Rows.{Puts};
ghost use Rattle.spec_tables.specs.Items.{CanBeginWith};
ghost use Rattle.ts_items.specs.Sets.{HasAt, AreWide, GainsTokens};
ghost use Rattle.ts_items.specs.Edges.{IsFirstEdge, AreEdges, IsPlainInside, AreInside, AreFirstSets};

use crate::flow::{Edge, flow};
use crate::plain::Plain;
use crate::rows::{empty_rows, put};
use crate::sets::empty_sets;
use std::alloc::{AllocError, Global};
use ts_bits::BitSet;
use ts_core::FlatGrammar;

/// Puts in the edge from the first symbol of a production to its left side.
fn put_edge(edges: &mut [Vec<Edge>], production: &Plain) -> Result<(), AllocError>
    requires { IsPlainInside (length edges.old) production.now }
    ensures { OnOk result (Puts (IsFirstEdge production.now) edges.old edges.new) }
{
    let right = production.right.as_slice();
    if right.is_empty() {
        return Ok(());
    }
    let edge = Edge {
        to: production.left,
        behind: None,
    };
    put(edges, usize::from(right[0]), edge)
}

/// For each symbol the edges to the left sides of the productions that begin with it.
fn first_edges(
    alloc: Global,
    productions: &[Plain],
    count: usize,
) -> Result<Vec<Vec<Edge>>, AllocError>
    requires { AreInside count productions.now }
    ensures { IfOk result (λ v. AreEdges IsFirstEdge productions.now count v.items) }
{
    let mut edges = empty_rows(alloc, count)?;
    for production in productions {
        put_edge(edges.as_mut_slice(), production)?;
    }
    Ok(edges)
}

/// Gives one token itself.
fn begin_token(sets: &mut [BitSet], queue: &mut Vec<u16>, token: u16) -> Result<(), AllocError>
    requires inside { token < length sets.old }
    requires wide { (n : ℕ) × AreWide n sets.old × (token / 64 < n) }
    ensures gains { OnOk result (GainsTokens (λ y t. (y ≡ token) × (t ≡ token)) sets.old sets.new) }
    ensures queue { OnOk result (queue.new.items ≡ queue.old.items ++ token ∷ []) }
{
    sets[usize::from(token)].insert(usize::from(token));
    queue.push(token)?;
    Ok(())
}

/// Gives each token itself.
fn begin_tokens(sets: &mut [BitSet], queue: &mut Vec<u16>, tokens: u16) -> Result<(), AllocError>
    requires inside { tokens < length sets.old }
    requires wide { (n : ℕ) × AreWide n sets.old × (tokens / 64 < n) }
    ensures gains { OnOk result (GainsTokens (λ y t. (0 < t) × (t ≤ tokens)
        × (y ≡ t)) sets.old sets.new) }
    ensures queue { OnOk result ((y : ℕ) → Contains queue.new.items y
        ↔ (Contains queue.old.items y ⊎ ((0 < y) × (y ≤ tokens)))) }
{
    for token in 0..tokens {
        begin_token(sets, queue, token + 1)?;
    }
    Ok(())
}

/// Fills empty sets with the tokens with which each symbol can begin.
fn fill_firsts(
    alloc: Global,
    grammar: &FlatGrammar,
    productions: &[Plain],
    sets: &mut [BitSet],
) -> Result<(), AllocError>
    requires plain { ArePlainOf grammar.now productions.now }
    requires inside { AreInside (length sets.old) productions.now }
    requires few { (length grammar.now.tokens < length sets.old) × (length sets.old < 2 ^ 16) }
    requires wide { (n : ℕ) × (64 * n < 2 ^ 64) × AreWide n sets.old
        × (length grammar.now.tokens / 64 < n) }
    requires empty { (y t : ℕ) → HasAt sets.old y t → ⊥ }
    ensures firsts { OnOk result ((y t : ℕ) → HasAt sets.new y t ↔ CanBeginWith grammar.now y t) }
    ensures count { OnOk result (length sets.new ≡ length sets.old) }
    ensures wide { OnOk result ((n : ℕ) → AreWide n sets.old → AreWide n sets.new) }
{
    let mut queue = Vec::new(alloc);
    let tokens = grammar.tokens.len() as u16;
    begin_tokens(sets, &mut queue, tokens)?;
    let edges = first_edges(alloc, productions, sets.len())?;
    flow(alloc, edges.as_slice(), &[], sets, &mut queue)?;
    Ok(())
}

/// For each symbol the tokens with which it can begin.
pub(crate) fn first_sets(
    alloc: Global,
    grammar: &FlatGrammar,
    productions: &[Plain],
    count: usize,
    width: usize,
) -> Result<Vec<BitSet>, AllocError>
    requires plain { ArePlainOf grammar.now productions.now }
    requires inside { AreInside count productions.now }
    requires count { count ≡ symbol_count grammar.now }
    requires few { (length grammar.now.tokens < count) × (count < 2 ^ 16) }
    requires width { (length grammar.now.tokens / 64 < width) × (64 * width < 2 ^ 64) }
    ensures { IfOk result (λ v. AreFirstSets grammar.now width v.items) }
{
    let mut sets = empty_sets(alloc, count, width)?;
    fill_firsts(alloc, grammar, productions, sets.as_mut_slice())?;
    Ok(sets)
}

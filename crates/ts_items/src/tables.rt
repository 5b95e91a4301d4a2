//! What closing a set of items needs to know of a grammar: the grammar goes in, and tables with a
//! row for each production or symbol come out.
ghost use Rattle.std.specs.Prelude.{◌≡◌, ◌+◌, ◌<◌, ◌≤◌, ◌^◌, length, slice_get, IfOk, IfSome, IsSome, OnOk};
ghost use Rattle.spec_tables.specs.Fit.{Fit};
ghost use Rattle.ts_items.specs.Productions.{ArePlainOf, right_of};
ghost use Rattle.ts_items.specs.Parts.{line_of};
ghost use Rattle.ts_items.specs.Rows.{Puts};
ghost use Rattle.ts_items.specs.Edges.{IsAskEdge, AreEdges, IsPlainInside, AreInside, AreFirstSets};
ghost use Rattle.ts_items.specs.Tables.{IsLineOf, AreLines, IsTables};

use crate::first::first_sets;
use crate::flow::Edge;
use crate::plain::{Plain, plain_productions};
use crate::rows::{empty_rows, put};
use std::alloc::{AllocError, Global};
use std::marker::Model;
use ts_bits::BitSet;
use ts_core::FlatGrammar;

/// Tables of a grammar.
#[derive(Debug, Drop)]
pub(crate) struct Tables {
    /// The symbols of the start item's only step.
    pub start: Vec<u16>,
    pub productions: Vec<Plain>,
    /// For each symbol the lines of its productions.
    pub lines: Vec<Vec<u16>>,
    /// For each symbol those with which its productions begin.
    pub edges: Vec<Vec<Edge>>,
    /// For each symbol the tokens with which it can begin.
    pub firsts: Vec<BitSet>,
    /// In how many words a set of tokens is held.
    pub width: usize,
}

/// A grammar with its tables.
#[derive(Drop)]
pub(crate) struct Tabled<'g> {
    grammar: &'g FlatGrammar,
    tables: Tables,
}

impl<'g> Model for Tabled<'g> {
    ghost use Rattle.std.specs.Coded.{codes};
    ghost use Rattle.ts_core.specs.contracts.flat.FlatGrammar as contract;
    ghost use Rattle.ts_items.specs.Tables.{GrammarTables, IsTables};

    ghost Value = { GrammarTables };

    ghost coded = { Prim.hlevel (codes, contract.the_row.coded) };

    ghost view = { λ a. record { grammar = a.grammar.now; tables = a.tables } };

    ghost invariant = { λ a. IsTables a.grammar.now a.tables };
}

/// The second symbol, if there is one.
fn second(symbols: &[u16]) -> Option<u16>
    ensures { result ≡ slice_get symbols.now 1 }
{
    if symbols.len() > 1 {
        Some(symbols[1])
    } else {
        None
    }
}

/// Puts in the edge from the left side of a production to its first symbol.
fn put_edge(edges: &mut [Vec<Edge>], production: &Plain) -> Result<(), AllocError>
    requires { IsPlainInside (length edges.old) production.now }
    ensures { OnOk result (Puts (IsAskEdge production.now) edges.old edges.new) }
{
    let right = production.right.as_slice();
    if right.is_empty() {
        return Ok(());
    }
    let edge = Edge {
        to: right[0],
        behind: second(right),
    };
    put(edges, usize::from(production.left), edge)
}

/// For each symbol the edges to those with which its productions begin.
fn ask_edges(
    alloc: Global,
    productions: &[Plain],
    count: usize,
) -> Result<Vec<Vec<Edge>>, AllocError>
    requires { AreInside count productions.now }
    ensures { IfOk result (λ v. AreEdges IsAskEdge productions.now count v.items) }
{
    let mut edges = empty_rows(alloc, count)?;
    for production in productions {
        put_edge(edges.as_mut_slice(), production)?;
    }
    Ok(edges)
}

/// For each symbol the lines of its productions.
fn lines_of(alloc: Global, productions: &[Plain], count: usize) -> Result<Vec<Vec<u16>>, AllocError>
    requires inside { AreInside count productions.now }
    requires few { length productions.now < 2 ^ 16 }
    ensures { IfOk result (λ v. AreLines productions.now count v.items) }
{
    let mut lines = empty_rows(alloc, count)?;
    let mut line = 0;
    for production in productions {
        line += 1;
        put(lines.as_mut_slice(), usize::from(production.left), line)?;
    }
    Ok(lines)
}

/// The tables of a grammar.
pub(crate) fn tables_of<'g>(
    alloc: Global,
    grammar: &'g FlatGrammar,
) -> Result<Tabled<'g>, AllocError>
    requires { Fit grammar.now }
    ensures { IfOk result (λ tabled. tabled.grammar ≡ grammar.now) }
{
    let count = grammar.tokens.len() + grammar.rules.len() + 1;
    let width = grammar.tokens.len() / 64 + 1;
    let productions = plain_productions(alloc, grammar)?;
    let lines = lines_of(alloc, productions.as_slice(), count)?;
    let edges = ask_edges(alloc, productions.as_slice(), count)?;
    let firsts = first_sets(alloc, grammar, productions.as_slice(), count, width)?;
    let mut start = Vec::new(alloc);
    start.push(grammar.tokens.len() as u16 + 1)?;
    let tables = Tables {
        start,
        productions,
        lines,
        edges,
        firsts,
        width,
    };
    Ok(Tabled { grammar, tables })
}

impl Tabled<'_> {
    /// They are the tables of the grammar. A call of it only tells this.
    pub(crate) fn stands(&self)
        ensures { IsTables self.now.grammar self.now.tables }
    {
        let _ = &self.tables;
    }

    /// How many symbols there are.
    pub(crate) fn count(&self) -> usize
        ensures { result ≡ length self.now.tables.firsts.items }
    {
        self.tables.firsts.len()
    }

    /// In how many words a set of tokens is held.
    pub(crate) fn width(&self) -> usize
        ensures { result ≡ self.now.tables.width }
    {
        self.tables.width
    }

    /// For each symbol the lines of its productions.
    pub(crate) fn lines(&self) -> &[Vec<u16>]
        ensures { result.now ≡ self.now.tables.lines.items }
    {
        self.tables.lines.as_slice()
    }

    /// For each symbol those with which its productions begin.
    pub(crate) fn edges(&self) -> &[Vec<Edge>]
        ensures { result.now ≡ self.now.tables.edges.items }
    {
        self.tables.edges.as_slice()
    }

    /// For each symbol the tokens with which it can begin.
    pub(crate) fn firsts(&self) -> &[BitSet]
        ensures { result.now ≡ self.now.tables.firsts.items }
    {
        self.tables.firsts.as_slice()
    }

    /// The same, where the tables are no longer used.
    pub(crate) fn into_firsts(self) -> Vec<BitSet>
        ensures { result.items ≡ self.entry.tables.firsts.items }
    {
        self.tables.firsts
    }

    /// The symbols of a line's production.
    fn right_of(&self, line: u16) -> &[u16]
        requires { line ≤ length self.now.tables.productions.items }
        ensures { result.now ≡ right_of self.now.grammar (line_of line) }
    {
        let tables = &self.tables;
        if line == 0 {
            return tables.start.as_slice();
        }
        tables.productions[usize::from(line) - 1].right.as_slice()
    }

    /// The symbol at a place of a line's production.
    pub(crate) fn symbol_at(&self, line: u16, place: usize) -> Option<u16>
        requires { line ≤ length self.now.tables.productions.items }
        ensures is { result ≡ slice_get (right_of self.now.grammar (line_of line)) place }
        ensures inside { IfSome result (λ symbol. symbol < length self.now.tables.firsts.items) }
        ensures short { IsSome result → place + 1 < 2 ^ 16 }
    {
        self.stands();
        let right = self.right_of(line);
        if place < right.len() {
            Some(right[place])
        } else {
            None
        }
    }
}

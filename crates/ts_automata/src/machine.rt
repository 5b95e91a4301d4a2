//! An automaton made deterministic: the automaton goes in, and tables come out, by which one set of
//! nodes leads to the next over a character by one look-up. Where they would be too large, the
//! automaton comes out as it was.
ghost use Rattle.std.specs.Prelude.{◌≡◌, ◌<◌, ◌++◌, ◌∷◌, [], ℕ, List, slice_get, Some, IfOk};
ghost use Rattle.ts_automata.specs.Sets.{sets_of};
ghost use Rattle.ts_automata.specs.Machine.{HasRead, state_count};
ghost use Rattle.ts_automata.specs.Readers.{IsReader};

use crate::automaton::Automaton;
use crate::classes::{ascii_of, bounds_of, class_of};
use crate::numbering::{Numbered, determinise, set_at};
use crate::room::{Room, Unnumbered};
use crate::tables::SetTables;
use std::alloc::{AllocError, Global};
use std::marker::Model;

/// An automaton by tables that stand for its sets of nodes. Contracts see the tables.
#[derive(Drop)]
pub struct Machine {
    tables: SetTables,
}

impl Model for Machine {
    ghost use Rattle.ts_automata.specs.declared.tables.SetTables.{SetTables};
    ghost use Rattle.ts_automata.specs.contracts.tables.SetTables as contract;
    ghost use Rattle.std.specs.Coded.{codes};

    ghost Value = { SetTables };

    ghost coded = { Prim.hlevel (codes, contract.the_row.coded) };

    ghost use Rattle.ts_automata.specs.Machine.{IsMachine};

    ghost view = { λ a. a.tables };

    ghost invariant = { λ a. IsMachine a.tables };
}

/// What reads an automaton's texts: its tables, or its nodes where its sets are too many for
/// tables.
#[derive(Drop)]
pub enum Reader {
    Tables(Machine),
    Nodes(Automaton),
}

/// The tables of an automaton, where they are not too large: at most 16,384 sets, with 4,194,304
/// nodes, and 8,388,608 places for the sets that follow, by their classes. Where they are, the
/// automaton itself.
///
/// # Errors
///
/// `AllocError` where there is no memory for them.
pub fn reader_of(alloc: Global, automaton: Automaton) -> Result<Reader, AllocError>
    ensures { IfOk result (IsReader automaton) }
{
    let bounds = bounds_of(alloc, automaton.nodes.as_slice())?;
    let ascii = ascii_of(alloc, bounds.as_slice())?;
    let kernels = kernels_of(alloc, automaton.entries.as_slice())?;
    let mut room = Room::ahead(bounds.len());
    let numbered = match determinise(
        alloc,
        automaton.nodes.as_slice(),
        bounds.as_slice(),
        kernels.as_slice(),
        &mut room,
    ) {
        Ok(numbered) => numbered,
        Err(Unnumbered::Memory) => return Err(AllocError),
        Err(Unnumbered::TooMany) => return Ok(Reader::Nodes(automaton)),
    };
    let Numbered { sets, firsts, rows } = numbered;
    let first = firsts[0];
    let tables = SetTables {
        automaton,
        sets,
        rows,
        bounds,
        ascii,
        first,
    };
    Ok(Reader::Tables(Machine { tables }))
}

/// One list of first nodes.
fn kernels_of(alloc: Global, entries: &[usize]) -> Result<Vec<Vec<usize>>, AllocError>
    ensures { IfOk result (λ kernels. sets_of kernels.items ≡ entries.now ∷ []) }
{
    let mut kernels: Vec<Vec<usize>> = Vec::new(alloc);
    kernels.push(Vec::from_slice(alloc, entries)?)?;
    Ok(kernels)
}

impl Machine {
    /// The automaton.
    pub fn automaton(&self) -> &Automaton
        ensures { result.now ≡ self.now.automaton }
    {
        &self.tables.automaton
    }

    /// The set in which nothing has been read.
    pub fn first(&self) -> usize
        ensures within { result < state_count self.now }
        ensures stands { HasRead self.now [] result }
    {
        self.tables.first
    }

    /// The set to which a set leads over a character.
    pub fn next(&self, state: usize, c: char) -> usize
        requires { state < state_count self.now }
        ensures within { result < state_count self.now }
        ensures stands { (w : List ℕ) → HasRead self.now w state
            → HasRead self.now (w ++ c ∷ []) result }
    {
        let tables = &self.tables;
        let class = class_of(tables.bounds.as_slice(), tables.ascii.as_slice(), c as u32);
        tables.rows[state][class]
    }

    /// The nodes of a set, rising.
    pub fn members(&self, state: usize) -> &[usize]
        requires { state < state_count self.now }
        ensures { slice_get (sets_of self.now.sets.keys) state ≡ Some result.now }
    {
        set_at(&self.tables.sets, state)
    }

    /// How many sets there are.
    pub fn states(&self) -> usize
        ensures { result ≡ state_count self.now }
    {
        self.tables.sets.len()
    }
}

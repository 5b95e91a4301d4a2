//! Numbers for sets of nodes: an automaton and room for its sets go in, and the sets that it can be
//! in come out, each with the number of the set to which it goes on over each class of characters.
ghost use Rattle.std.specs.Prelude.{◌≡◌, ℕ, ◌<◌, List, [], length, OnOk, IfOk, slice_get, Some, map};
ghost use Rattle.std.specs.List.{Contains};
ghost use Rattle.ts_automata.specs.Sets.{sets_of, rows_of, EachAt, NumbersSet, Grew, IsNextSet, IsRow, IsFirst, IsSubset};

use crate::closing::{moved, set_of};
use crate::node::Node;
use crate::room::{Room, Unnumbered};
use indexmap::IndexSet;
use std::alloc::Global;

/// The numbered sets, the number of the first set for each list of nodes, and for each set and
/// class where it leads.
#[derive(Drop)]
pub(crate) struct Numbered {
    pub sets: IndexSet<Vec<usize>>,
    pub firsts: Vec<usize>,
    pub rows: Vec<Vec<usize>>,
}

/// The number of a set, which is added at the end where it is new.
fn number_of(
    sets: &mut IndexSet<Vec<usize>>,
    room: &mut Room,
    set: Vec<usize>,
) -> Result<usize, Unnumbered>
    ensures { IfOk result
        (λ n. NumbersSet (sets_of sets.old.keys) (sets_of sets.new.keys) set.items n) }
{
    let nodes = set.len();
    let (number, is_new) = sets.insert_full(set)?;
    room.take(is_new, nodes)?;
    Ok(number)
}

pub(crate) fn set_at(sets: &IndexSet<Vec<usize>>, at: usize) -> &[usize]
    requires { at < length sets.now.keys }
    ensures { slice_get (sets_of sets.now.keys) at ≡ Some result.now }
{
    let Some(set) = sets.get_index(at) else {
        unreachable!()
    };
    set.as_slice()
}

/// The number of the set of some first nodes.
fn first(
    alloc: Global,
    nodes: &[Node],
    sets: &mut IndexSet<Vec<usize>>,
    room: &mut Room,
    kernel: &[usize],
) -> Result<usize, Unnumbered>
    ensures grows { OnOk result (Grew (sets_of sets.old.keys) (sets_of sets.new.keys)) }
    ensures first { IfOk result (λ n. IsFirst nodes.now (sets_of sets.new.keys) kernel.now n) }
{
    let set = set_of(alloc, nodes, kernel)?;
    let number = number_of(sets, room, set)?;
    Ok(number)
}

/// Where a set leads over a character.
fn next(
    alloc: Global,
    nodes: &[Node],
    sets: &mut IndexSet<Vec<usize>>,
    room: &mut Room,
    at: usize,
    c: u32,
) -> Result<usize, Unnumbered>
    requires at { at < length sets.old.keys }
    ensures grows { OnOk result (Grew (sets_of sets.old.keys) (sets_of sets.new.keys)) }
    ensures next { IfOk result
        (λ m. (s : List ℕ) → slice_get (sets_of sets.old.keys) at ≡ Some s
        → IsNextSet nodes.now (sets_of sets.new.keys) s c m) }
{
    let kernel = moved(alloc, nodes, set_at(sets, at), c)?;
    let set = set_of(alloc, nodes, kernel.as_slice())?;
    let number = number_of(sets, room, set)?;
    Ok(number)
}

/// Where a set leads over each character.
fn row(
    alloc: Global,
    nodes: &[Node],
    bounds: &[u32],
    sets: &mut IndexSet<Vec<usize>>,
    room: &mut Room,
    at: usize,
) -> Result<Vec<usize>, Unnumbered>
    requires at { at < length sets.old.keys }
    ensures grows { OnOk result (Grew (sets_of sets.old.keys) (sets_of sets.new.keys)) }
    ensures row { IfOk result
        (λ r. (s : List ℕ) → slice_get (sets_of sets.old.keys) at ≡ Some s
        → IsRow nodes.now (sets_of sets.new.keys) s bounds.now r.items) }
{
    let mut row = Vec::new(alloc);
    for c in bounds {
        let number = next(alloc, nodes, sets, room, at, *c)?;
        row.push(number)?;
    }
    Ok(row)
}

/// The numbers of the first sets.
fn firsts(
    alloc: Global,
    nodes: &[Node],
    sets: &mut IndexSet<Vec<usize>>,
    room: &mut Room,
    kernels: &[Vec<usize>],
) -> Result<Vec<usize>, Unnumbered>
    ensures grows { OnOk result (Grew (sets_of sets.old.keys) (sets_of sets.new.keys)) }
    ensures size { IfOk result (λ r. length r.items ≡ length kernels.now) }
    ensures first { IfOk result
        (λ r. EachAt
        (λ v n. (kernel : List ℕ) → slice_get (sets_of kernels.now) v ≡ Some kernel
        → IsFirst nodes.now (sets_of sets.new.keys) kernel n) r.items) }
{
    let mut numbers = Vec::new(alloc);
    for kernel in kernels {
        let number = first(alloc, nodes, sets, room, kernel.as_slice())?;
        numbers.push(number)?;
    }
    Ok(numbers)
}

/// The sets that are reached from the first ones, and where each leads, if there is room for all of
/// them.
pub(crate) fn determinise(
    alloc: Global,
    nodes: &[Node],
    bounds: &[u32],
    kernels: &[Vec<usize>],
    room: &mut Room,
) -> Result<Numbered, Unnumbered>
    ensures { IfOk result
        (λ m. IsSubset nodes.now (sets_of kernels.now) bounds.now m.firsts.items
        (sets_of m.sets.keys) (rows_of m.rows.items)) }
{
    let mut sets = IndexSet::new(alloc);
    let first_sets = firsts(alloc, nodes, &mut sets, room, kernels)?;
    let mut rows = Vec::new(alloc);
    let mut next = 0;
    while next < sets.len() {
        let one = row(alloc, nodes, bounds, &mut sets, room, next)?;
        rows.push(one)?;
        next += 1;
    }
    Ok(Numbered {
        sets,
        firsts: first_sets,
        rows,
    })
}

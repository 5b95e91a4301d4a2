//! The numbered sets of items: a grammar goes in, its sets come out, or that there are too many.
ghost use Rattle.std.specs.Prelude.{◌≡◌, ℕ, ◌+◌, ◌<◌, ◌≤◌, ◌^◌, ◌⊎◌, [], length, slice_get, Some, List, IfOk, IfErr, OnOk};
ghost use Rattle.std.specs.Global.{Vec};
ghost use Rattle.ts_core.specs.declared.flat.FlatGrammar.{FlatGrammar as Flat};
ghost use Rattle.spec_tables.specs.Fit.{Fit};
ghost use Rattle.ts_bits.specs.declared.set.BitSet.{BitSet as Sets};
ghost use Rattle.ts_items.specs.declared.part.Part.{Part as Parts};
ghost use Rattle.ts_items.specs.declared.numbering.ItemFault.TheVariants.{Memory, TooManyStates};
ghost use Rattle.ts_items.specs.Numbers.{AreStates, HasRows, AreGotos, Enters, EntersGoto, AreOnce, StatesBy, DoneBy, CollectedBy};
ghost use Rattle.ts_items.specs.Closing.{AddsSets, IsPool};
ghost use Rattle.ts_items.specs.Sets.{AreWide};
ghost use Rattle.ts_items.specs.Collection.{most_states, too_many, StandsFor, AreTooManyStates};

use crate::closing::{close, place_of};
use crate::moving::{in_order, moved};
use crate::part::{Goto, Items, Part, State};
use crate::sets::empty_sets;
use crate::tables::{Tabled, tables_of};
use indexmap::IndexSet;
use std::alloc::{AllocError, AllocFailed, Global};
use thiserror::Error;
use ts_bits::BitSet;
use ts_core::FlatGrammar;

/// The most sets of items that there may be.
const MOST_STATES: usize = 65_535;

/// Why there are no sets of items.
#[derive(Clone, Copy, Debug, PartialEq, Eq, Error)]
pub enum ItemFault {
    /// There are more sets than can be numbered: at least so many.
    #[error("there are {0} or more sets of items")]
    TooManyStates(u32),
    /// Memory ran out.
    #[error("memory has run out")]
    Memory,
}

impl<T: Drop> From<AllocFailed<T>> for ItemFault {
    ghost from_gives = { λ _ e. e ≡ Memory };

    fn from(_fault: AllocFailed<T>) -> ItemFault {
        ItemFault::Memory
    }
}

impl From<AllocError> for ItemFault {
    ghost from_gives = { λ _ e. e ≡ Memory };

    fn from(_fault: AllocError) -> ItemFault {
        ItemFault::Memory
    }
}

/// The number of a kernel, which is put at the end where it is new.
fn number_of(kernels: &mut IndexSet<Vec<Part>>, kernel: Vec<Part>) -> Result<usize, AllocError>
    ensures grows { AddsSets kernels.old.keys kernels.new.keys }
    ensures of { (n : ℕ) (k : Vec Parts) → slice_get kernels.new.keys n ≡ Some k
        → (slice_get kernels.old.keys n ≡ Some k) ⊎ (k.items ≡ kernel.items) }
    ensures once { AreOnce kernels.old.keys → AreOnce kernels.new.keys }
    ensures place { IfOk result (λ n. (k : Vec Parts) × (slice_get kernels.new.keys n ≡ Some k)
        × (k.items ≡ kernel.items)) }
{
    let (number, _) = kernels.insert_full(kernel)?;
    Ok(number)
}

/// Adds where a set leads over a symbol, with the parts past it.
fn add_goto(
    alloc: Global,
    kernels: &mut IndexSet<Vec<Part>>,
    gotos: &mut Vec<Goto>,
    symbol: u16,
    parts: &[Part],
) -> Result<(), ItemFault>
    ensures enters { Enters parts.now kernels.old.keys kernels.new.keys }
    ensures goto { OnOk result
        (EntersGoto kernels.new.keys symbol parts.now gotos.old.items gotos.new.items) }
    ensures few { OnOk result (length kernels.old.keys ≤ most_states
        → length kernels.new.keys ≤ most_states) }
    ensures many { IfErr result (λ e. (e ≡ Memory)
        ⊎ ((e ≡ TooManyStates too_many) × (most_states < length kernels.new.keys))) }
{
    if parts.is_empty() {
        return Ok(());
    }
    let kernel = in_order(alloc, parts)?;
    let number = number_of(kernels, kernel)?;
    if kernels.len() > MOST_STATES {
        return Err(ItemFault::TooManyStates(MOST_STATES as u32 + 1));
    }
    gotos.push(Goto {
        symbol,
        state: number as u16,
    })?;
    Ok(())
}

/// Where a set leads.
fn gotos_of(
    alloc: Global,
    kernels: &mut IndexSet<Vec<Part>>,
    moved: &[Vec<Part>],
) -> Result<Vec<Goto>, ItemFault>
    requires { length moved.now < 2 ^ 16 }
    ensures grows { AddsSets kernels.old.keys kernels.new.keys }
    ensures once { AreOnce kernels.old.keys → AreOnce kernels.new.keys }
    ensures states { (g : Flat) (lines : ℕ) (pool : List Sets) (parts : List Parts)
        → HasRows g lines pool parts moved.now → AreStates g lines pool kernels.old.keys
        → AreStates g lines pool kernels.new.keys }
    ensures gotos { IfOk result (λ v. (g : Flat) (lines : ℕ) (pool : List Sets) (parts : List Parts)
        → HasRows g lines pool parts moved.now
        → AreGotos g pool kernels.new.keys parts (length moved.now) v.items) }
    ensures few { OnOk result (length kernels.old.keys ≤ most_states
        → length kernels.new.keys ≤ most_states) }
    ensures many { IfErr result (λ e. (e ≡ Memory)
        ⊎ ((e ≡ TooManyStates too_many) × (most_states < length kernels.new.keys))) }
{
    let mut gotos = Vec::new(alloc);
    for symbol in 0..moved.len() {
        add_goto(
            alloc,
            kernels,
            &mut gotos,
            symbol as u16,
            moved[symbol].as_slice(),
        )?;
    }
    Ok(gotos)
}

fn kernel_at(kernels: &IndexSet<Vec<Part>>, at: usize) -> &[Part]
    requires { at < length kernels.now.keys }
    ensures { (k : Vec Parts) × (slice_get kernels.now.keys at ≡ Some k) × (result.now ≡ k.items) }
{
    let Some(kernel) = kernels.get_index(at) else {
        unreachable!()
    };
    kernel.as_slice()
}

/// Puts in the start item, with the set of the end alone.
fn begin(
    alloc: Global,
    tabled: &Tabled,
    pool: &mut IndexSet<BitSet>,
    kernels: &mut IndexSet<Vec<Part>>,
) -> Result<(), AllocError>
    requires empty { (pool.old.keys ≡ []) × (kernels.old.keys ≡ []) }
    ensures pool { OnOk result (IsPool tabled.now.tables.width pool.new.keys) }
    ensures few { OnOk result (length kernels.new.keys ≤ most_states) }
    ensures begun { OnOk result (CollectedBy tabled.now pool.new.keys kernels.new.keys [] 0) }
{
    tabled.stands();
    let mut end = BitSet::new(alloc, tabled.width())?;
    end.insert(0);
    let tokens = place_of(alloc, pool, &end)?;
    let mut start = Vec::new(alloc);
    start.push(Part {
        line: 0,
        dot: 0,
        tokens,
    })?;
    number_of(kernels, start)?;
    Ok(())
}

/// The set of one kernel, and where it leads.
fn state_of(
    alloc: Global,
    tabled: &Tabled,
    pool: &mut IndexSet<BitSet>,
    kernels: &mut IndexSet<Vec<Part>>,
    asked: &mut [BitSet],
    at: usize,
) -> Result<State, ItemFault>
    requires at { at < length kernels.old.keys }
    requires states { StatesBy tabled.now pool.old.keys kernels.old.keys }
    requires pool { IsPool tabled.now.tables.width pool.old.keys }
    requires asked { (length asked.old ≡ length tabled.now.tables.firsts.items)
        × AreWide tabled.now.tables.width asked.old }
    ensures asked { OnOk result ((length asked.new ≡ length asked.old)
        × AreWide tabled.now.tables.width asked.new) }
    ensures pool { OnOk result (IsPool tabled.now.tables.width pool.new.keys
        × AddsSets pool.old.keys pool.new.keys) }
    ensures kernels { OnOk result (AddsSets kernels.old.keys kernels.new.keys) }
    ensures once { OnOk result (AreOnce kernels.old.keys → AreOnce kernels.new.keys) }
    ensures states { OnOk result (StatesBy tabled.now pool.new.keys kernels.new.keys) }
    ensures done { IfOk result (λ s. (k : Vec Parts) → slice_get kernels.old.keys at ≡ Some k
        → DoneBy tabled.now pool.new.keys kernels.new.keys k s) }
    ensures few { OnOk result (length kernels.old.keys ≤ most_states
        → length kernels.new.keys ≤ most_states) }
    ensures many { IfErr result (λ e. (e ≡ Memory) ⊎ ((e ≡ TooManyStates too_many)
        × (AreOnce kernels.old.keys → AreTooManyStates tabled.now.grammar))) }
{
    ts_bits::same_words();
    tabled.stands();
    let parts = close(alloc, tabled, pool, asked, kernel_at(kernels, at))?;
    let over = moved(alloc, tabled, parts.as_slice())?;
    let gotos = gotos_of(alloc, kernels, over.as_slice())?;
    Ok(State { parts, gotos })
}

/// All states, for the kernels that are there and those to which they lead.
fn states_of(
    alloc: Global,
    tabled: &Tabled,
    pool: &mut IndexSet<BitSet>,
    kernels: &mut IndexSet<Vec<Part>>,
    asked: &mut [BitSet],
) -> Result<Vec<State>, ItemFault>
    requires begun { CollectedBy tabled.now pool.old.keys kernels.old.keys [] 0 }
    requires pool { IsPool tabled.now.tables.width pool.old.keys }
    requires few { length kernels.old.keys ≤ most_states }
    requires asked { (length asked.old ≡ length tabled.now.tables.firsts.items)
        × AreWide tabled.now.tables.width asked.old }
    ensures pool { OnOk result (IsPool tabled.now.tables.width pool.new.keys) }
    ensures few { OnOk result (length kernels.new.keys ≤ most_states) }
    ensures size { IfOk result (λ v. length v.items ≡ length kernels.new.keys) }
    ensures states { IfOk result (λ v. CollectedBy tabled.now pool.new.keys kernels.new.keys v.items
        (length kernels.new.keys)) }
    ensures many { IfErr result (λ e. (e ≡ Memory) ⊎ ((e ≡ TooManyStates too_many)
        × AreTooManyStates tabled.now.grammar)) }
{
    let mut states = Vec::new(alloc);
    let mut next = 0;
    while next < kernels.len() {
        let state = state_of(alloc, tabled, pool, kernels, asked, next)?;
        states.push(state)?;
        next += 1;
    }
    Ok(states)
}

/// Numbers the sets of valid LR(1) items of a grammar (Knuth), each with where it leads over a
/// symbol. The set of the start item is number 0.
///
/// # Errors
///
/// `TooManyStates` where there are more than 65,535 sets, and `Memory` where memory runs out.
pub fn collection(alloc: Global, grammar: &FlatGrammar) -> Result<Items, ItemFault>
    requires { Fit grammar.now }
    ensures stands { IfOk result (StandsFor grammar.now) }
    ensures fits { IfOk result (λ items. AreTooManyStates grammar.now → ⊥) }
    ensures many { IfErr result (λ e. (e ≡ Memory)
        ⊎ ((e ≡ TooManyStates too_many) × AreTooManyStates grammar.now)) }
{
    ts_bits::same_words();
    let tabled = tables_of(alloc, grammar)?;
    tabled.stands();
    let mut pool = IndexSet::new(alloc);
    let mut kernels = IndexSet::new(alloc);
    begin(alloc, &tabled, &mut pool, &mut kernels)?;
    let mut asked = empty_sets(alloc, tabled.count(), tabled.width())?;
    let states = states_of(
        alloc,
        &tabled,
        &mut pool,
        &mut kernels,
        asked.as_mut_slice(),
    )?;
    Ok(Items {
        tokens: pool,
        states,
        firsts: tabled.into_firsts(),
    })
}

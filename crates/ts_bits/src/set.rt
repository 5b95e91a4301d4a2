//! A set of numbers as the bits of words: numbers and other sets go in, and whether a number is
//! there, and which is the next one, come out.

ghost use Rattle.std.specs.Prelude.{◌≡◌, ℕ, ◌+◌, ◌*◌, ◌/◌, ◌<◌, ◌≤◌, ◌^◌, List, length, false, IfOk, IsTrue, ◌↔◌, ◌⊎◌, IfSome, IfNone};
ghost use Rattle.std.specs.Int.{bit_at};
ghost use Rattle.ts_bits.specs.Lowest.{IsLowest};

use std::alloc::{AllocError, Global};

/// A set of numbers, each the place of a bit.
#[derive(Debug, PartialEq, Eq, Hash, Drop)]
pub struct BitSet {
    pub words: Vec<u64>,
}

/// Whether a place of a word holds a 1.
fn is_marked(word: u64, place: u32) -> bool
    requires { place < 64 }
    ensures { IsTrue result ↔ bit_at word place ≡ 1 }
{
    (word >> place) & 1 == 1
}

/// The lowest place of a 1 from a place on.
fn lowest(word: u64, from: u32) -> Option<u32>
    requires { from < 64 }
    ensures some { IfSome result (IsLowest word from) }
    ensures none { IfNone result ((j : ℕ) → from ≤ j → bit_at word j ≡ 1 → ⊥) }
{
    let rest = word >> from;
    if rest == 0 {
        return None;
    }
    Some(from + rest.trailing_zeros())
}

impl BitSet {
    ghost use Rattle.ts_bits.specs.Members.{Has, IsWide, IsNext};

    /// The empty set, with room for the numbers below 64 times `count`.
    pub fn new(alloc: Global, count: usize) -> Result<BitSet, AllocError>
        ensures wide { IfOk result (λ s. IsWide count s) }
        ensures empty { IfOk result (λ s. (t : ℕ) → Has s t → ⊥) }
    {
        let mut words = Vec::new(alloc);
        words.resize(count, 0)?;
        Ok(BitSet { words })
    }

    /// The same set again.
    pub fn copy(&self, alloc: Global) -> Result<BitSet, AllocError>
        ensures { IfOk result (λ s. s.words.items ≡ self.now.words.items) }
    {
        let mut words = Vec::new(alloc);
        words.extend_from_slice(self.words.as_slice())?;
        Ok(BitSet { words })
    }

    pub fn contains(&self, number: usize) -> bool
        ensures { IsTrue result ↔ Has self.now number }
    {
        let at = number / 64;
        if at >= self.words.len() {
            return false;
        }
        is_marked(self.words[at], (number % 64) as u32)
    }

    /// Adds a number, and tells whether it is new.
    pub fn insert(&mut self, number: usize) -> bool
        requires { number / 64 < length self.old.words.items }
        ensures members { (t : ℕ) → Has self.new t ↔ (Has self.old t ⊎ (t ≡ number)) }
        ensures wide { (n : ℕ) → IsWide n self.old → IsWide n self.new }
        ensures fresh { IsTrue result ↔ (Has self.old number → ⊥) }
    {
        let fresh = !self.contains(number);
        self.words[number / 64] |= 1 << (number % 64);
        fresh
    }

    /// Adds all numbers of another set, and tells whether one of them is new.
    pub fn union_with(&mut self, other: &BitSet) -> bool
        requires { length self.old.words.items ≡ length other.now.words.items }
        ensures members { (t : ℕ) → Has self.new t ↔ (Has self.old t ⊎ Has other.now t) }
        ensures wide { (n : ℕ) → IsWide n self.old → IsWide n other.now → IsWide n self.new }
        ensures same { result ≡ false → self.new.words.items ≡ self.old.words.items }
    {
        let mut changed = false;
        for at in 0..self.words.len() {
            let old = self.words[at];
            let new = old | other.words[at];
            self.words[at] = new;
            changed |= new != old;
        }
        changed
    }

    /// Takes all numbers out.
    pub fn clear(&mut self)
        ensures empty { (t : ℕ) → Has self.new t → ⊥ }
        ensures wide { (n : ℕ) → IsWide n self.old → IsWide n self.new }
    {
        for at in 0..self.words.len() {
            self.words[at] = 0;
        }
    }

    /// The least number of the set.
    pub fn least(&self) -> Option<usize>
        requires { 64 * length self.now.words.items < 2 ^ 64 }
        ensures some { IfSome result (IsNext self.now 0) }
        ensures none { IfNone result ((t : ℕ) → Has self.now t → ⊥) }
    {
        self.next_from(0)
    }

    /// The least number of the set from `from` on.
    pub fn next_from(&self, from: usize) -> Option<usize>
        requires { 64 * length self.now.words.items < 2 ^ 64 }
        ensures some { IfSome result (IsNext self.now from) }
        ensures none { IfNone result ((u : ℕ) → from ≤ u → Has self.now u → ⊥) }
    {
        let mut place = (from % 64) as u32;
        for at in from / 64..self.words.len() {
            if let Some(bit) = lowest(self.words[at], place) {
                return Some(at * 64 + bit as usize);
            }
            place = 0;
        }
        None
    }
}

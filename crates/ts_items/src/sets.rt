//! A set of tokens for each symbol: symbols and sets go in, and the sets gain what comes in.
ghost use Rattle.std.specs.Prelude.{◌≡◌, ℕ, ◌<◌, length, IfOk, OnOk};
ghost use Rattle.ts_bits.specs.Members.{Has, IsWide};
ghost use Rattle.ts_items.specs.Sets.{HasAt, AreWide, GainsTokens, QueuesGains};

use std::alloc::{AllocError, Global};
use ts_bits::BitSet;

/// So many empty sets.
pub(crate) fn empty_sets(
    alloc: Global,
    count: usize,
    width: usize,
) -> Result<Vec<BitSet>, AllocError>
    ensures count { IfOk result (λ v. length v.items ≡ count) }
    ensures wide { IfOk result (λ v. AreWide width v.items) }
    ensures empty { IfOk result (λ v. (y t : ℕ) → HasAt v.items y t → ⊥) }
{
    let mut sets = Vec::new(alloc);
    for _ in 0..count {
        sets.push(BitSet::new(alloc, width)?)?;
    }
    Ok(sets)
}

/// Takes all tokens out.
pub(crate) fn clear_all(sets: &mut [BitSet])
    ensures count { length sets.new ≡ length sets.old }
    ensures empty { (y t : ℕ) → HasAt sets.new y t → ⊥ }
    ensures wide { (n : ℕ) → AreWide n sets.old → AreWide n sets.new }
{
    for at in 0..sets.len() {
        sets[at].clear();
    }
}

/// Adds a set to that of one symbol, which is put into the queue where it gains a token.
pub(crate) fn join(
    sets: &mut [BitSet],
    queue: &mut Vec<u16>,
    symbol: u16,
    more: &BitSet,
) -> Result<(), AllocError>
    requires inside { symbol < length sets.old }
    requires wide { (n : ℕ) × AreWide n sets.old × IsWide n more.now }
    ensures gains { OnOk result (GainsTokens (λ y t. (y ≡ symbol)
        × Has more.now t) sets.old sets.new) }
    ensures tells { OnOk result (QueuesGains sets.old sets.new queue.old.items queue.new.items) }
{
    if sets[usize::from(symbol)].union_with(more) {
        queue.push(symbol)?;
    }
    Ok(())
}

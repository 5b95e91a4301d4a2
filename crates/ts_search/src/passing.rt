//! Items that are passed over: a key that asks for captures goes in, and a later one comes out that
//! asks for the same.
ghost use Rattle.std.specs.Prelude.{◌≡◌, ◌≤◌, IsTrue, MatchOption, Some, drop, length, slice_get, true};
ghost use Rattle.spec_matches.specs.declared.placing.Placing.{Placing as Way};
ghost use Rattle.ts_search.specs.declared.stand.Wanted.TheVariants as asked;
ghost use Rattle.ts_search.specs.Memory.{TellsOf};
ghost use Rattle.ts_search.specs.Passing.{AreLoose, IsFree, IsLoose, MayMove, MayPass, Settles};

use crate::places::first_taken;
use crate::stand::{Key, Siblings, Stand, Wanted};
use spec_matches::Slot;

/// Whether an item takes one sibling, and no anchor stands before it.
fn is_loose(slot: Slot) -> bool
    ensures { IsTrue result → IsLoose slot }
{
    !slot.optional && !slot.many && slot.more == 0 && !slot.tied
}

/// Whether the first of some items is so, or there is none, and no anchor at the end.
fn are_loose(siblings: &Siblings, slots: &[Slot]) -> bool
    ensures { IsTrue result → AreLoose siblings.now.closed slots.now }
{
    if slots.is_empty() {
        return !siblings.closed;
    }
    is_loose(slots[0])
}

/// Whether it is known that nothing is captured by the item of a number.
fn is_silent(siblings: &Siblings, number: usize) -> bool
    ensures { IsTrue result → slice_get siblings.now.silent number ≡ Some true }
{
    if number >= siblings.silent.len() {
        return false;
    }
    *siblings.silent.get(number)
}

/// Whether the first of some items takes one sibling, and no anchor stands there or behind it.
pub(crate) fn is_free(siblings: &Siblings, slot: Slot, rest: &[Slot]) -> bool
    ensures { IsTrue result → IsFree siblings.now slot rest.now }
{
    is_loose(slot) && are_loose(siblings, rest)
}

/// Whether an item may be passed over.
fn may_pass(siblings: &Siblings, slot: Slot, rest: &[Slot], number: usize) -> bool
    ensures { IsTrue result → MayPass siblings.now slot rest.now number }
{
    is_free(siblings, slot, rest) && is_silent(siblings, number)
}

/// Whether captures alone are asked for.
fn asks_captures(wanted: Wanted) -> bool
    ensures { IsTrue result → wanted ≡ asked.Captures }
{
    match wanted {
        Wanted::Captures => true,
        Wanted::All | Wanted::Here => false,
    }
}

/// Whether the ways that a key asks for may begin anywhere.
fn asks_anywhere(wanted: Wanted) -> bool
    ensures { IsTrue result → wanted ≡ asked.Here → ⊥ }
{
    match wanted {
        Wanted::All | Wanted::Captures => true,
        Wanted::Here => false,
    }
}

/// Whether the ways that a key asks for are those from the first sibling on that its item takes.
fn may_move(slot: Slot, key: Key) -> bool
    ensures { IsTrue result → MayMove slot key }
{
    if slot.tied && key.beside {
        return false;
    }
    !slot.optional && asks_anywhere(key.wanted)
}

/// Whether the item of a key may be passed over.
fn passes_over(siblings: &Siblings, slot: Slot, rest: &[Slot], key: Key) -> bool
    ensures { IsTrue result
        → (key.wanted ≡ asked.Captures) × MayPass siblings.now slot rest.now key.number }
{
    asks_captures(key.wanted) && may_pass(siblings, slot, rest, key.number)
}

/// The items from a number on.
pub(crate) fn from_number(all: &[Slot], number: usize) -> &[Slot]
    requires { number ≤ length all.now }
    ensures { result.now ≡ drop number all.now }
{
    let (_, rest) = all.split_at(number);
    rest
}

/// The last key that asks for the same: one from the first sibling on that its item takes, where no
/// anchor stands before that, and behind items that may be passed over, which take the first
/// siblings that they can. Where one of these items can take none, there are no ways.
#[cycle(settled)]
pub(crate) fn settled(siblings: &Siblings, all: &[Slot], key: Key) -> Option<Key>
    requires { key.number ≤ length all.now }
    ensures { MatchOption result ((t : Way) → TellsOf siblings.now all.now key t → ⊥)
        (λ to. Settles siblings.now all.now key to) }
{
    let Some((slot, rest)) = from_number(all, key.number).split_first() else {
        return Some(key);
    };
    if !may_move(*slot, key) {
        return Some(key);
    }
    let at = Stand {
        slot: *slot,
        number: key.number,
        lo: key.lo,
        beside: key.beside,
    };
    let place = first_taken(siblings, at);
    if place >= siblings.named.len() {
        return None;
    }
    if !passes_over(siblings, *slot, rest, key) {
        return Some(Key {
            number: key.number,
            lo: place,
            beside: key.beside,
            wanted: key.wanted,
        });
    }
    let next = Key {
        number: key.number + 1,
        lo: place + 1,
        beside: true,
        wanted: key.wanted,
    };
    match settled(siblings, all, next) {
        Some(to) => Some(to),
        None => None,
    }
}

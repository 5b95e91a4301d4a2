//! Which of two items is higher: their weights go in, and the answer by the grammar's orderings of
//! precedences, and else by numbers, comes out.
ghost use Rattle.std.specs.Prelude.{◌≡◌, ◌<◌, ℕ, false, slice_get, Some, IfSome, IfNone, IsTrue, ◌↔◌};
ghost use Rattle.spec_tables.specs.Actions.{key_by, prec_number, StandsAt, Orders, Decides, FirstOrders, SomeDecides, IsGreater, IsEarlier, AreOrdered};
ghost use Rattle.ts_table.specs.declared.orderings.Preference.TheVariants.{First, Neither};
ghost use Rattle.ts_table.specs.Marks.{HigherBy};

use crate::marks::Weight;
use ts_core::{Entry, FlatGrammar, List, Prec, Symbol};

/// Which of two comes earlier.
#[derive(Debug, Clone, Copy, PartialEq, Eq)]
pub(crate) enum Preference {
    First,
    Second,
    /// They are not at different places.
    Neither,
}

/// What stands for an item in an ordering.
fn key_of(weight: Weight) -> Option<Entry>
    ensures { result ≡ key_by weight.prec weight.rule }
{
    match weight.prec {
        Prec::Absent => Some(Entry::Rule(Symbol(weight.rule))),
        Prec::Number(_) => None,
        Prec::Name(name) => Some(Entry::Name(name)),
    }
}

/// The number of a precedence.
fn number_of(prec: Prec) -> Option<i32>
    ensures { result ≡ prec_number prec }
{
    match prec {
        Prec::Absent => Some(0),
        Prec::Number(value) => Some(value),
        Prec::Name(_) => None,
    }
}

/// Whether both have numbers, and the first is greater.
fn is_greater(a: Option<i32>, b: Option<i32>) -> bool
    ensures { IsTrue result ↔ IsGreater a b }
{
    match (a, b) {
        (Some(a), Some(b)) => b < a,
        (Some(_), None) | (None, _) => false,
    }
}

/// Whether two entries are the same.
fn is_same(a: Entry, b: Entry) -> bool
    ensures { IsTrue result ↔ (a ≡ b) }
{
    match (a, b) {
        (Entry::Name(a), Entry::Name(b)) => a == b,
        (Entry::Rule(a), Entry::Rule(b)) => a.0 == b.0,
        (Entry::Name(_), Entry::Rule(_)) | (Entry::Rule(_), Entry::Name(_)) => false,
    }
}

/// The first place of an entry.
fn place_of(ordering: &[Entry], key: Entry) -> Option<usize>
    ensures some { IfSome result (StandsAt ordering.now key) }
    ensures none { IfNone result ((place : ℕ) → slice_get ordering.now place ≡ Some key → ⊥) }
{
    for at in 0..ordering.len() {
        if is_same(ordering[at], key) {
            return Some(at);
        }
    }
    None
}

/// Which of two places comes first.
fn earlier(a: usize, b: usize) -> Preference
    ensures first { (result ≡ First) ↔ (a < b) }
    ensures neither { (result ≡ Neither) ↔ (a ≡ b) }
{
    if a < b {
        Preference::First
    } else if b < a {
        Preference::Second
    } else {
        Preference::Neither
    }
}

/// Which of two entries an ordering puts earlier.
fn by_ordering(ordering: &[Entry], a: Entry, b: Entry) -> Preference
    ensures first { (result ≡ First) ↔ Orders ordering.now a b }
    ensures neither { (result ≡ Neither) ↔ (Decides ordering.now a b → ⊥) }
{
    let Some(m) = place_of(ordering, a) else {
        return Preference::Neither;
    };
    let Some(n) = place_of(ordering, b) else {
        return Preference::Neither;
    };
    earlier(m, n)
}

/// Whether one of two comes earlier.
fn decides(preference: Preference) -> bool
    ensures does { IsTrue result ↔ (preference ≡ Neither → ⊥) }
    ensures neither { result ≡ false → preference ≡ Neither }
{
    match preference {
        Preference::First | Preference::Second => true,
        Preference::Neither => false,
    }
}

/// Which of two entries is put earlier by the first ordering that decides.
fn by_orderings(orderings: &[List<Entry>], a: Entry, b: Entry) -> Preference
    ensures first { (result ≡ First) ↔ FirstOrders orderings.now a b }
    ensures neither { (result ≡ Neither) ↔ (SomeDecides orderings.now a b → ⊥) }
{
    for ordering in orderings {
        let preference = by_ordering(ordering.as_slice(), a, b);
        if decides(preference) {
            return preference;
        }
    }
    Preference::Neither
}

/// Which of two keys is put earlier.
fn preferred(grammar: &FlatGrammar, a: Option<Entry>, b: Option<Entry>) -> Preference
    ensures first { (result ≡ First) ↔ IsEarlier grammar.now a b }
    ensures neither { (result ≡ Neither) ↔ (AreOrdered grammar.now a b → ⊥) }
{
    match (a, b) {
        (Some(a), Some(b)) => by_orderings(grammar.precedences.as_slice(), a, b),
        (Some(_), None) | (None, _) => Preference::Neither,
    }
}

/// Whether the first item is higher.
pub(crate) fn is_higher(grammar: &FlatGrammar, a: Weight, b: Weight) -> bool
    ensures { IsTrue result ↔ HigherBy grammar.now a b }
{
    match preferred(grammar, key_of(a), key_of(b)) {
        Preference::First => true,
        Preference::Second => false,
        Preference::Neither => is_greater(number_of(a.prec), number_of(b.prec)),
    }
}

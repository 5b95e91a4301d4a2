//! Keys at one place as numbers, by which the earlier of two keys is told.
ghost use Rattle.std.specs.Prelude.{◌≡◌, ℕ, ◌<◌, ◌≤◌, ◌↔◌, IsTrue, MatchOption};
ghost use Rattle.ts_places.specs.Turns.{turn_of, past, IsEarlier, IsSooner};

use ts_reductions::Batch;

/// How many ranks there may be.
const RANKS: u64 = 4_294_967_296;

/// The number of a key that begins at a place and has a rank, among those at its place.
fn turn_at(begins: u32, rank: u32) -> u64
    ensures { result ≡ turn_of begins rank }
{
    (begins as u64) * RANKS + (rank as u64)
}

/// The number of a key among those at its place: a later key has a lower one.
pub(crate) fn turn(key: Batch) -> u64
    ensures { result ≡ turn_of key.begins key.rank }
{
    turn_at(key.begins, key.rank)
}

/// The latest beginning of the keys of a rank that come after those from a turn on, and none where
/// there is no such key.
pub(crate) fn latest(below: u64, rank: u32) -> Option<u32>
    ensures { MatchOption result ((begins : ℕ) → turn_of begins rank < below → ⊥)
        (λ most. (begins : ℕ) → (turn_of begins rank < below) ↔ (begins ≤ most)) }
{
    let own = rank as u64;
    if below <= own {
        return None;
    }
    Some(((below - 1 - own) / RANKS) as u32)
}

/// Whether a key of a rank that begins at a place comes before one that was found.
pub(crate) fn may_come_first(found: Option<Batch>, begins: u32, rank: u32) -> bool
    ensures { IsTrue result ↔ (past found ≤ turn_of begins rank) }
{
    match found {
        Some(other) => turn(other) < turn_at(begins, rank),
        None => true,
    }
}

/// The earlier of two keys.
fn earlier(found: Batch, key: Batch) -> Batch
    ensures { IsEarlier found key result }
{
    if turn(found) < turn(key) { key } else { found }
}

/// The earlier of a key and one that was found, where the key comes after those from a turn on.
pub(crate) fn sooner(below: u64, found: Option<Batch>, key: Batch) -> Option<Batch>
    ensures { IsSooner below found key result }
{
    if turn(key) >= below {
        return found;
    }
    match found {
        Some(other) => Some(earlier(other, key)),
        None => Some(key),
    }
}

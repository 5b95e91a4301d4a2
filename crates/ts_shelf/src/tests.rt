//! What no clause says: that the calls come to an answer, with rows worked out by hand, and that
//! clients run side by side.
ghost use Rattle.std.specs.Prelude.{◌≡◌, ℕ, ◌+◌, ◌*◌, ◌<◌, ◌≤◌, ◌^◌, [], Some, IfOk, length, vec_len, vec_capacity};
ghost use Rattle.std.specs.Thread.{IsSync};
ghost use Rattle.ts_shelf.specs.Latest.{latest_of};
ghost use Rattle.ts_shelf.specs.Passes.{IsPass, IsFirst, IsOther, first_pass};

use crate::journal::{Entry, Journal};
use crate::pass::Pass;
use crate::shelf::{Denied, Offered, Seen, Shelf};
use std::alloc::{AllocError, Global};
use std::sync::atomic::{AtomicBool, Ordering};
use std::sync::{Arc, Wait};
use std::test::Fail;
use std::thread::{self, Threads};

/// Heights, none of them below the lowest one allowed, with room for some more, and a switch at
/// which
/// `shown` refuses memory.
#[derive(Drop)]
struct Heights {
    entries: Vec<Entry<u32>>,
    spare: u32,
    lowest: u32,
    latest: u32,
    refuses: Arc<AtomicBool>,
    ghost room: { vec_len entries + spare ≤ vec_capacity entries },
    ghost few: { vec_len entries + spare < 2 ^ 32 },
    ghost last: { latest ≡ latest_of (λ x. x) lowest entries.items },
}

impl Journal for Heights {
    type Item = u32;

    type Shown = u32;

    ghost entries = { λ h. h.entries.items };

    ghost room = { λ h. h.spare };

    ghost opening = { λ h. h.lowest };

    ghost shown_of = { λ item. item };

    ghost fits = { λ opening item. opening ≤ item };

    fn number(&self) -> u32 {
        self.entries.len() as u32
    }

    fn room(&self) -> u32 {
        self.spare
    }

    fn shown(&self) -> Result<u32, AllocError> {
        if self.refuses.load(Ordering::SeqCst) {
            return Err(AllocError);
        }
        Ok(self.latest)
    }

    #[tactic(auto, using(crate::proofs::LatestLemmas::latest_of_push))]
    fn add(&mut self, turn: u64, item: u32) {
        self.spare -= 1;
        self.latest = item;
        if self.entries.push(Entry { turn, item }).is_err() {
            unreachable!();
        }
    }
}

impl Heights {
    fn new(
        alloc: Global,
        lowest: u32,
        spare: u32,
        refuses: Arc<AtomicBool>,
    ) -> Result<Heights, AllocError>
        ensures empty { IfOk result (λ h. h.entries.items ≡ []) }
        ensures parts { IfOk result (λ h. (h.lowest ≡ lowest) × (h.spare ≡ spare)) }
    {
        let entries = Vec::with_capacity(alloc, spare as usize)?;
        Ok(Heights {
            entries,
            spare,
            lowest,
            latest: lowest,
            refuses,
        })
    }
}

/// A shelf over heights of which none is below this one, with so much room.
fn opened(
    alloc: Global,
    lowest: u32,
    room: u32,
) -> Result<(Shelf<Heights>, Pass<Heights>), AllocError>
    ensures shelf { IfOk result (λ r. r.1.shelf ≡ r.0) }
    ensures first { IfOk result (λ r. r.1.knows ≡ first_pass lowest room) }
{
    let refuses = Arc::new(alloc, AtomicBool::new(false))?;
    let journal = Heights::new(alloc, lowest, room, refuses)?;
    Shelf::new(alloc, journal)
}

/// How many offers a worker makes.
const OFFERS: u32 = 1000;

/// What workers met: how many of their offers were published, how many turns they took, the sum of
/// those turns, and the last one.
#[derive(Clone, Copy, Default)]
struct Tally {
    published: u64,
    turns: u64,
    sum: u64,
    last: u64,
}

impl Tally {
    fn note(&mut self, turn: u64) {
        self.turns = self.turns.saturating_add(1);
        self.sum = self.sum.saturating_add(turn);
        self.last = self.last.max(turn);
    }

    fn with(self, other: Tally) -> Tally {
        Tally {
            published: self.published.saturating_add(other.published),
            turns: self.turns.saturating_add(other.turns),
            sum: self.sum.saturating_add(other.sum),
            last: self.last.max(other.last),
        }
    }
}

/// The next height, but for the greatest.
fn above(height: u32) -> u32
    ensures { height ≤ result }
{
    height.saturating_add(1)
}

/// Looks, and offers one more than the latest height, as often as it may; others come between.
fn work<R: Wait>(rt: &R, shelf: &Shelf<Heights>, mut pass: Pass<Heights>) -> (Pass<Heights>, Tally)
    requires shelf { pass.shelf ≡ shelf.now }
    requires other { IsOther pass.knows }
    requires pass { IsPass (λ opening item. opening ≤ item) pass.knows }
    requires offers { 1000 ≤ pass.knows.offers }
    ensures shelf { result.0.shelf ≡ shelf.now }
    ensures other { IsOther result.0.knows }
    ensures pass { IsPass (λ opening item. opening ≤ item) result.0.knows }
{
    let mut tally = Tally::default();
    for _ in 0..OFFERS {
        let Ok(seen) = shelf.look(rt, &mut pass) else {
            return (pass, tally);
        };
        tally.note(seen.turn);
        thread::yield_now();
        match shelf.offer(rt, &mut pass, seen.number, above(seen.latest)) {
            Ok(Offered::Published { turn, .. }) => {
                tally.note(turn);
                tally.published = tally.published.saturating_add(1);
            }
            Ok(Offered::Newer { turn, .. }) => tally.note(turn),
            Err(_) => return (pass, tally),
        }
    }
    (pass, tally)
}

/// So many workers at once, each on a thread of its own.
fn crowd<R: Threads + Wait + Sync>(
    rt: &R,
    shelf: &Shelf<Heights>,
    mut pass: Pass<Heights>,
    workers: u32,
) -> (Pass<Heights>, Tally)
    requires shelf { pass.shelf ≡ shelf.now }
    requires first { IsFirst pass.knows }
    requires offers { workers * 1000 ≤ pass.knows.offers }
    ensures shelf { result.0.shelf ≡ shelf.now }
    ensures first { IsFirst result.0.knows }
    ensures out { result.0.knows.out ≡ pass.knows.out }
{
    if workers == 0 {
        return (pass, Tally::default());
    }
    let Ok(other) = shelf.split(&mut pass, OFFERS) else {
        unreachable!()
    };
    let ((mut pass, rest), (other, tally)) = thread::join(
        rt,
        move || -> (Pass<Heights>, Tally)
            requires { IsSync R.row × (0 < workers) × (pass.shelf ≡ shelf.now)
                × IsFirst pass.knows × (workers * 1000 ≤ pass.knows.offers + 1000) }
            ensures { (result.0.shelf ≡ shelf.entry.now) × IsFirst result.0.knows
                × (result.0.knows.out ≡ pass.knows.out) }
        { crowd(rt, shelf, pass, workers - 1) },
        move || work(rt, shelf, other),
    );
    shelf.join(&mut pass, other);
    (pass, rest.with(tally))
}

#[test]
fn workers_at_once(rt: HostRuntime) -> Result<(), Fail> {
    let (shelf, pass) = opened(rt.alloc(), 50, 16000)?;
    let (pass, tally) = crowd(&rt, &shelf, pass, 16);
    let journal = shelf.close(pass);
    assert_eq!(rt;
        (tally.turns, tally.last, tally.sum),
        (32000, 31999, 31999 * 16000)
    );
    assert!(rt; tally.published > 0);
    assert_eq!(rt; journal.entries.len() as u64, tally.published);
    assert_eq!(rt; journal.entries.len() + journal.room() as usize, 16000);
    for (place, entry) in journal.entries.iter().enumerate() {
        assert_eq!(rt; entry.item as usize, 51 + place);
    }
    Ok(())
}

/// How often a worker looks for what the other one publishes.
const LOOKS: u32 = 10_000_000;

/// How many offers a worker needs where one other entry may come between.
const TRIES: u32 = 2;

/// Publishes an entry, and then looks until another one's is there too, up to `LOOKS` times. It
/// answers whether that one came.
fn meet<R: Wait>(rt: &R, shelf: &Shelf<Heights>, mut pass: Pass<Heights>) -> (Pass<Heights>, bool)
    requires shelf { pass.shelf ≡ shelf.now }
    requires other { IsOther pass.knows }
    requires offers { 2 ≤ pass.knows.offers }
    ensures shelf { result.0.shelf ≡ shelf.now }
    ensures other { IsOther result.0.knows }
{
    for _ in 0..TRIES {
        let Ok(seen) = shelf.look(rt, &mut pass) else {
            return (pass, false);
        };
        match shelf.offer(rt, &mut pass, seen.number, seen.latest) {
            Ok(Offered::Published { .. }) => break,
            Ok(Offered::Newer { .. }) => {}
            Err(_) => return (pass, false),
        }
    }
    for _ in 0..LOOKS {
        if let Ok(seen) = shelf.look(rt, &mut pass) {
            if seen.number == 2 {
                return (pass, true);
            }
        }
        thread::yield_now();
    }
    (pass, false)
}

#[test]
fn workers_meet(rt: HostRuntime) -> Result<(), Fail> {
    let (shelf, mut pass) = opened(rt.alloc(), 0, 4)?;
    let one = shelf.split(&mut pass, 2)?;
    let two = shelf.split(&mut pass, 2)?;
    let shared = &shelf;
    let ((one, first_met), (two, second_met)) = thread::join(
        &rt,
        move || meet(&rt, shared, one),
        move || meet(&rt, shared, two),
    );
    shelf.join(&mut pass, one);
    shelf.join(&mut pass, two);
    assert!(rt; first_met && second_met);
    assert_eq!(rt; shelf.close(pass).entries.len(), 2);
    Ok(())
}

#[test]
fn looks_and_offers(rt: HostRuntime) -> Result<(), Fail> {
    let (shelf, mut pass) = opened(rt.alloc(), 7, 1)?;
    let seen = shelf.look(&rt, &mut pass)?;
    assert_eq!(rt;
        seen,
        Seen {
            turn: 0,
            number: 0,
            latest: 7
        }
    );
    let answer = shelf.offer(&rt, &mut pass, 0, 10)?;
    assert_eq!(rt; answer, Offered::Published { turn: 1, number: 1 });
    let seen = shelf.look(&rt, &mut pass)?;
    assert_eq!(rt;
        seen,
        Seen {
            turn: 2,
            number: 1,
            latest: 10
        }
    );
    let journal = shelf.close(pass);
    assert_eq!(rt; (journal.entries.len(), journal.room()), (1, 0));
    assert_eq!(rt; (journal.entries[0].turn, journal.entries[0].item), (1, 10));
    Ok(())
}

#[test]
fn offer_over_a_newer_version(rt: HostRuntime) -> Result<(), Fail> {
    let (shelf, mut pass) = opened(rt.alloc(), 8, 3)?;
    let mut other = shelf.split(&mut pass, 2)?;
    let answer = shelf.offer(&rt, &mut other, 0, 20)?;
    assert_eq!(rt; answer, Offered::Published { turn: 0, number: 1 });
    let answer = shelf.offer(&rt, &mut pass, 0, 30)?;
    assert_eq!(rt;
        answer,
        Offered::Newer {
            turn: 1,
            number: 1,
            latest: 20
        }
    );
    let answer = shelf.offer(&rt, &mut other, 1, 21)?;
    assert_eq!(rt; answer, Offered::Published { turn: 2, number: 2 });
    shelf.join(&mut pass, other);
    let seen = shelf.look(&rt, &mut pass)?;
    assert_eq!(rt;
        seen,
        Seen {
            turn: 3,
            number: 2,
            latest: 21
        }
    );
    let journal = shelf.close(pass);
    assert_eq!(rt; (journal.entries.len(), journal.room()), (2, 1));
    assert_eq!(rt; (journal.entries[0].turn, journal.entries[0].item), (0, 20));
    assert_eq!(rt; (journal.entries[1].turn, journal.entries[1].item), (2, 21));
    Ok(())
}

#[test]
fn gives_up_a_turn_without_memory(rt: HostRuntime) -> Result<(), Fail> {
    let alloc = rt.alloc();
    let refuses = Arc::new(alloc, AtomicBool::new(true))?;
    let journal = Heights::new(alloc, 20, 2, refuses.clone()?)?;
    let (shelf, mut pass) = Shelf::new(alloc, journal)?;
    assert!(rt; matches!(shelf.look(&rt, &mut pass), Err(Denied::Memory)));
    let mut other = shelf.split(&mut pass, 1)?;
    let answer = shelf.offer(&rt, &mut other, 0, 20)?;
    assert_eq!(rt; answer, Offered::Published { turn: 0, number: 1 });
    assert!(rt; matches!(shelf.offer(&rt, &mut pass, 0, 30), Err(Denied::Memory)));
    refuses.store(false, Ordering::SeqCst);
    let answer = shelf.offer(&rt, &mut pass, 0, 30)?;
    assert_eq!(rt;
        answer,
        Offered::Newer {
            turn: 1,
            number: 1,
            latest: 20
        }
    );
    shelf.join(&mut pass, other);
    assert_eq!(rt; shelf.close(pass).entries.len(), 1);
    Ok(())
}

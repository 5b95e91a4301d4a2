//! The word and the slot of a shelf, with one function for each kind of step on them: in goes a
//! seat, and out come the turn, what the journal answers, and the seat as it is after the step.
ghost use Rattle.std.specs.Prelude.{◌≡◌, ℕ, ◌+◌, ◌*◌, ◌<◌, ◌≤◌, ◌/◌, MatchBool, List, [], ◌∷◌, ◌++◌, length, IfSome, IfNone, IfOk};
ghost use Rattle.ts_shelf.specs.Calls.{Closes};
ghost use Rattle.ts_shelf.specs.Entries.{most_turns};
ghost use Rattle.ts_shelf.specs.Latest.{latest_of};
ghost use Rattle.ts_shelf.specs.Steps.{HasTurn, HasLooked, HasOffered, HasJoined};
ghost use Rattle.ts_shelf.specs.Tried.{Tried, TookTurn, Ended};
ghost use Rattle.ts_shelf.specs.Views.{IsIdle, first_view, told_view, after_turn, after_give_up, joined_view, asking, kept_part, split_part};

use crate::journal::Journal;
use crate::plays::{Ask, GiveBack, GiveOffer, GiveUp, Learn, Load, Meet, Part, Take};
use crate::view::{ShelfRule, View};
use atomic_table::{Seat, Table};
use std::alloc::{AllocError, Global};
use std::snapshot::Snapshot;
use std::sync::Wait;
use std::{hint, thread};

/// How many turns a shelf has.
pub const MOST_TURNS: u64 = 1 << 62;

/// How many tries in a row hint the processor before the thread yields.
const SPINS: u32 = 16;

pub(crate) type Rider<J> = Seat<J, View<<J as Journal>::Shown, <J as Journal>::Item>>;

/// The word and the slot of a shelf, with the steps on them.
#[derive(Drop)]
pub(crate) struct Turnstile<J: Journal> {
    pub(crate) table: Table<J, View<J::Shown, J::Item>, Snapshot<J>, ShelfRule<J>, Global>,
    pub(crate) ghost one: { (table.shared.table_id.words ≡ 1) × (table.shared.table_id.slots ≡ 1) },
}

/// What a try to take a turn gives.
enum Attempt {
    Spent,
    Took(u64),
    Again,
}

/// Lets the thread that holds the turn go on. It answers the number of tries so far.
fn pause(tries: u32) -> u32 {
    if tries < SPINS {
        hint::spin_loop();
        return tries + 1;
    }
    thread::yield_now();
    tries
}

impl<J: Journal> Turnstile<J> {
    pub(crate) fn new(alloc: Global, journal: J) -> Result<(Turnstile<J>, Rider<J>), AllocError>
    where
        J: Drop,
        requires { J.entries journal ≡ [] }
        ensures same { IfOk result (λ r. r.1.table_id ≡ r.0.table.shared.table_id) }
        ensures first { IfOk result
            (λ r. r.1.me ≡ (first_view (J.opening journal) (J.room journal), [])) }
    {
        let start = Snapshot::of(&journal);
        let mut slots = Vec::new(alloc);
        slots.push(journal)?;
        match Table::new(alloc, &[0], slots, &start) {
            Ok((table, seat)) => Ok((Turnstile { table }, seat)),
            Err(_) => Err(AllocError),
        }
    }

    /// The word, which tells how many turns are over.
    fn word(&self, seat: &mut Rider<J>) -> u64
        requires seat { (seat.old.table_id ≡ self.now.table.shared.table_id) × IsIdle seat.old.me }
        ensures same { seat.new.table_id ≡ seat.old.table_id }
        ensures view { seat.new.me ≡ (told_view seat.old.me.0 (result / 2), []) }
        ensures few { result ≤ 2 * most_turns + 1 }
        ensures more { seat.old.me.0.knows.reached ≤ result / 2 }
    {
        self.table.shared.load::<Load>(seat, 0)
    }

    /// Takes the turn, if it is the next one and the journal is there.
    fn try_take(&self, seat: &mut Rider<J>, turn: u64) -> bool
        requires seat { (seat.old.table_id ≡ self.now.table.shared.table_id) × IsIdle seat.old.me }
        requires few { turn < most_turns }
        ensures same { seat.new.table_id ≡ seat.old.table_id }
        ensures took { MatchBool result
            (HasTurn J.entries J.room J.opening J.fits seat.old.me.0 turn seat.new.me)
            (seat.new.me ≡ seat.old.me) }
    {
        let found = self
            .table
            .shared
            .compare_exchange::<Take>(seat, 0, 2 * turn, 2 * turn + 1);
        found == 2 * turn
    }

    /// One try to take a turn.
    fn attempt(&self, seat: &mut Rider<J>) -> Attempt
        requires seat { (seat.old.table_id ≡ self.now.table.shared.table_id) × IsIdle seat.old.me }
        ensures same { seat.new.table_id ≡ seat.old.table_id }
        ensures tried { Tried J.entries J.room J.opening J.fits seat.old.me.0 seat.new.me result }
    {
        let word = self.word(seat);
        if word == 2 * MOST_TURNS {
            return Attempt::Spent;
        }
        if word % 2 == 1 {
            return Attempt::Again;
        }
        if self.try_take(seat, word / 2) {
            Attempt::Took(word / 2)
        } else {
            Attempt::Again
        }
    }

    /// Waits for a turn. At `None` all turns are over.
    pub(crate) fn take<R: Wait>(&self, rt: &R, seat: &mut Rider<J>) -> Option<u64>
        requires seat { (seat.old.table_id ≡ self.now.table.shared.table_id) × IsIdle seat.old.me }
        ensures same { seat.new.table_id ≡ seat.old.table_id }
        ensures some { IfSome result
            (λ t. TookTurn J.entries J.room J.opening J.fits seat.old.me.0 t seat.new.me) }
        ensures none { IfNone result (Ended seat.old.me.0 seat.new.me) }
    {
        let mut tries = 0;
        for _ in rt.forever() {
            match self.attempt(seat) {
                Attempt::Spent => return None,
                Attempt::Took(turn) => return Some(turn),
                Attempt::Again => tries = pause(tries),
            }
        }
        unreachable!()
    }

    /// Gives the turn back after a look, with the journal as it came.
    pub(crate) fn give_back(&self, seat: &mut Rider<J>, turn: u64)
        requires table { seat.old.table_id ≡ self.now.table.shared.table_id }
        requires journal { HasLooked J.entries J.room J.opening J.fits turn seat.old.me }
        ensures same { seat.new.table_id ≡ seat.old.table_id }
        ensures view { seat.new.me
            ≡ (after_turn seat.old.me.0 seat.old.me.0.notes.held_entries 0, []) }
    {
        self.table.shared.store::<GiveBack>(seat, 0, 2 * turn + 2);
    }

    /// Gives the turn back after an offer.
    pub(crate) fn give_offer(&self, seat: &mut Rider<J>, turn: u64)
        requires table { seat.old.table_id ≡ self.now.table.shared.table_id }
        requires journal { HasOffered J.entries J.room J.opening J.fits turn seat.old.me }
        ensures same { seat.new.table_id ≡ seat.old.table_id }
        ensures view { (j : J) → seat.old.me.1 ≡ (0, j) ∷ []
            → seat.new.me ≡ (after_turn seat.old.me.0 (J.entries j) 1, []) }
    {
        self.table.shared.store::<GiveOffer>(seat, 0, 2 * turn + 2);
    }

    /// Gives the turn up, with the journal as it came.
    pub(crate) fn give_up(&self, seat: &mut Rider<J>, turn: u64)
        requires table { seat.old.table_id ≡ self.now.table.shared.table_id }
        requires journal { HasLooked J.entries J.room J.opening J.fits turn seat.old.me }
        ensures same { seat.new.table_id ≡ seat.old.table_id }
        ensures view { seat.new.me ≡ (after_give_up seat.old.me.0, []) }
    {
        self.table.shared.store::<GiveUp>(seat, 0, 2 * turn);
    }

    /// How many entries the journal has that came with the turn.
    pub(crate) fn number(&self, seat: &mut Rider<J>) -> u32
        requires table { seat.old.table_id ≡ self.now.table.shared.table_id }
        requires carried { (j : J) × (seat.old.me.1 ≡ (0, j) ∷ []) }
        ensures same { (seat.new.table_id ≡ seat.old.table_id) × (seat.new.me ≡ seat.old.me) }
        ensures number { (j : J) → seat.old.me.1 ≡ (0, j) ∷ [] → result ≡ length (J.entries j) }
    {
        let journal = seat.slot_mut(&self.table.shared, 0);
        journal.number()
    }

    /// What the journal shows that came with the turn.
    pub(crate) fn shown(&self, seat: &mut Rider<J>) -> Result<J::Shown, AllocError>
        requires table { seat.old.table_id ≡ self.now.table.shared.table_id }
        requires carried { (j : J) × (seat.old.me.1 ≡ (0, j) ∷ []) }
        ensures same { (seat.new.table_id ≡ seat.old.table_id) × (seat.new.me ≡ seat.old.me) }
        ensures shown { IfOk result (λ s. (j : J) → seat.old.me.1 ≡ (0, j) ∷ []
            → s ≡ latest_of J.shown_of (J.opening j) (J.entries j)) }
    {
        let journal = seat.slot_mut(&self.table.shared, 0);
        journal.shown()
    }

    /// Adds the item to the journal that came with the turn.
    pub(crate) fn add(&self, seat: &mut Rider<J>, turn: u64, item: J::Item)
        requires table { seat.old.table_id ≡ self.now.table.shared.table_id }
        requires carried { (j : J) × (seat.old.me.1 ≡ (0, j) ∷ []) × (0 < J.room j)
            × J.fits (J.opening j) item }
        ensures same { seat.new.table_id ≡ seat.old.table_id }
        ensures added { (j : J) → seat.old.me.1 ≡ (0, j) ∷ []
            → (k : J) × (seat.new.me ≡ (seat.old.me.0, (0, k) ∷ []))
            × (J.entries k ≡ J.entries j ++ record { turn = turn; item = item } ∷ [])
            × (J.room k + 1 ≡ J.room j) × (J.opening k ≡ J.opening j) }
    {
        let journal = seat.slot_mut(&self.table.shared, 0);
        journal.add(turn, item);
    }

    /// Cuts the first seat in two, and gives so many offers to the other.
    pub(crate) fn split(&self, seat: &mut Rider<J>, offers: u64) -> Rider<J>
        requires seat { (seat.old.table_id ≡ self.now.table.shared.table_id) × IsIdle seat.old.me }
        requires first { seat.old.me.0.knows.first ≡ 1 }
        requires offers { offers ≤ seat.old.me.0.knows.offers }
        ensures same { seat.new.table_id ≡ seat.old.table_id }
        ensures parted_same { result.table_id ≡ seat.old.table_id }
        ensures kept { seat.new.me ≡ (kept_part (asking seat.old.me.0 offers), []) }
        ensures parted { result.me ≡ (split_part (asking seat.old.me.0 offers), []) }
    {
        self.table
            .shared
            .compare_exchange::<Ask>(seat, 0, offers, offers);
        self.table.shared.split_seat::<Part>(seat)
    }

    /// Takes another seat into the first one.
    pub(crate) fn join(&self, seat: &mut Rider<J>, other: Rider<J>)
        requires seat { (seat.old.table_id ≡ self.now.table.shared.table_id) × IsIdle seat.old.me }
        requires other { (other.table_id ≡ self.now.table.shared.table_id) × IsIdle other.me }
        requires first { (seat.old.me.0.knows.first ≡ 1) × (other.me.0.knows.first ≡ 0) }
        ensures same { seat.new.table_id ≡ seat.old.table_id }
        ensures view { seat.new.me ≡ (joined_view seat.old.me.0 other.me.0, []) }
        ensures learned { HasJoined J.fits seat.new.me.0 }
    {
        self.table.shared.join_seat::<Meet>(seat, other);
        self.table.shared.load::<Learn>(seat, 0);
    }

    /// The journal, once no other seat is out.
    pub(crate) fn close(self, seat: Rider<J>) -> J
        requires seat { (seat.table_id ≡ self.table.shared.table_id) × IsIdle seat.me }
        requires alone { (seat.me.0.knows.first ≡ 1) × (seat.me.0.knows.out ≡ 0) }
        ensures { Closes J.entries J.room J.opening seat.me.0.knows result }
    {
        let Turnstile { table } = self;
        let mut closed = table.close_with(seat);
        let journal = closed.take(0);
        closed.free();
        journal
    }
}

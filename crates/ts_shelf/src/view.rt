//! What is known of each pass, and the rule that holds of all of them between any two steps. It
//! exists in proofs alone: no value of these types is made.
use crate::journal::{Entry, Journal};
use atomic_table::TableRule;
use std::collections::LinkedList;
use std::marker::PhantomData;
use std::snapshot::Snapshot;

/// What a pass knows, as contracts see it.
pub struct Knowledge<S, I> {
    /// The shelf's opening. Only a pass that was taken in by another has none.
    pub opening: Option<S>,
    /// The entries that it has seen.
    pub seen: LinkedList<Entry<I>>,
    /// The turns that it took.
    pub taken: LinkedList<u64>,
    /// One more than the last turn that it took or was told of.
    pub turn: u64,
    /// How many turns are over, as far as it knows.
    pub reached: u64,
    /// How many offers it may still make.
    pub offers: u64,
    /// 1 at the first pass, and 0 at the others.
    pub first: u64,
    /// How many other passes are out. Only the first pass has some.
    pub out: u64,
}

/// What is kept of a pass for the proofs alone.
pub struct Notes<I> {
    /// 1 at each other pass that was not taken in, and 0 at the first.
    pub other: u64,
    /// How many offers the next split is to give.
    pub asked: u64,
    /// What the two passes of the last join had seen, and their turns.
    pub own_seen: LinkedList<Entry<I>>,
    pub other_seen: LinkedList<Entry<I>>,
    pub own_turn: u64,
    pub other_turn: u64,
    /// How many other passes were out before and after the last join, or 1 and 0 where there was
    /// none.
    pub out_before: u64,
    pub out_after: u64,
    /// Whether it holds a turn, which one, and with which entries and room the journal came.
    pub holds: bool,
    pub held_turn: u64,
    pub held_entries: LinkedList<Entry<I>>,
    pub held_room: u64,
}

/// Both together, which the steps on the word change.
pub struct View<S, I> {
    pub knows: Knowledge<S, I>,
    pub notes: Notes<I>,
}

/// The rule that holds between any two steps.
pub struct ShelfRule<J> {
    journal: PhantomData<J>,
}

impl<J: Journal> TableRule<J, View<J::Shown, J::Item>, Snapshot<J>> for ShelfRule<J> {
    ghost use Rattle.ts_shelf.specs.Rule.{IsShelf};
    ghost use Rattle.ts_shelf.specs.Views.{first_view};

    ghost holds = { λ _ s. IsShelf J.entries J.room J.opening J.fits s };

    ghost first = { λ start. first_view (J.opening start.value) (J.room start.value) };
}

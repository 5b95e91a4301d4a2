//! The calls of a shelf: in go looks and offers, each with the pass of the one who asks, and out
//! come a turn and the journal as it was at that turn. At the end the journal comes out.
ghost use Rattle.std.specs.Prelude.{◌≡◌, ℕ, ◌+◌, ◌<◌, ◌≤◌, [], length, IsOk, IfOk, IfErr, OnErr, ◌↔◌};
ghost use Rattle.ts_shelf.specs.Calls.{Looked, AnswersOffer, ShowsLatest, TakesNoTurn, IsSplit, IsJoin, Closes};
ghost use Rattle.ts_shelf.specs.Entries.{most_turns};
ghost use Rattle.ts_shelf.specs.Passes.{IsPass, IsFirst, IsOther, FitsOpening, first_pass};

use crate::journal::Journal;
use crate::pass::Pass;
use crate::turnstile::Turnstile;
use std::alloc::{AllocError, Global};
use std::marker::Model;
use std::sync::Wait;
use thiserror::Error;

/// A journal that several threads add to in turns. Contracts see which shelf it is.
#[derive(Drop)]
pub struct Shelf<J: Journal> {
    turnstile: Turnstile<J>,
}

impl<J: Journal> Model for Shelf<J> {
    ghost use Rattle.atomic_table.specs.Seated.{TableId, table_id_coded};

    ghost Value = { TableId };

    ghost coded = { table_id_coded };

    ghost view = { λ s. s.turnstile.table.shared.table_id };
}

/// What a look shows: the journal with the entries of smaller turns.
#[derive(Debug, PartialEq, Eq, Drop)]
pub struct Seen<S> {
    pub turn: u64,
    pub number: u32,
    pub latest: S,
}

/// What an offer is answered.
#[derive(Debug, PartialEq, Eq, Drop)]
pub enum Offered<S> {
    /// The item was added, as the entry of this number.
    Published { turn: u64, number: u32 },
    /// The journal has more entries than the offer knew, and the item was dropped.
    Newer { turn: u64, number: u32, latest: S },
}

/// Why a look or an offer took no turn.
#[derive(Clone, Copy, Debug, PartialEq, Eq, Error)]
pub enum Denied {
    /// All turns are over (`MOST_TURNS`).
    #[error("all turns are over")]
    Spent,
    /// The copy that is shown found no memory, and the turn was given up.
    #[error("out of memory")]
    Memory,
}

impl<J: Journal> Shelf<J> {
    /// A shelf with a journal that has no entries, and its first pass, which may make as many
    /// offers as the journal has room for.
    pub fn new(alloc: Global, journal: J) -> Result<(Shelf<J>, Pass<J>), AllocError>
    where
        J: Drop,
        requires empty { J.entries journal ≡ [] }
        ensures shelf { IfOk result (λ r. r.1.shelf ≡ r.0) }
        ensures first { IfOk result
            (λ r. r.1.knows ≡ first_pass (J.opening journal) (J.room journal)) }
        ensures pass { IfOk result (λ r. IsPass J.fits r.1.knows) }
    {
        let (turnstile, seat) = Turnstile::new(alloc, journal)?;
        Ok((Shelf { turnstile }, Pass { seat }))
    }

    /// Takes a turn, and shows the journal of the entries with smaller turns. It may wait for the
    /// turn.
    ///
    /// At an `Err` no turn was taken. The pass may then know that more turns are over than it knew
    /// before.
    pub fn look<R: Wait>(&self, rt: &R, pass: &mut Pass<J>) -> Result<Seen<J::Shown>, Denied>
        requires shelf { pass.old.shelf ≡ self.now }
        ensures shelf { pass.new.shelf ≡ pass.old.shelf }
        ensures pass { IsPass J.fits pass.new.knows }
        ensures looked { IfOk result (λ r. Looked pass.old.knows pass.new.knows r.turn r.number) }
        ensures latest { IfOk result (λ r. ShowsLatest J.shown_of pass.new.knows r.latest) }
        ensures no_turn { OnErr result (TakesNoTurn pass.old.knows pass.new.knows) }
        ensures spent { IfErr result
            (λ e. (e ≡ Denied.Spent) ↔ (pass.new.knows.reached ≡ most_turns)) }
    {
        let Some(turn) = self.turnstile.take(rt, &mut pass.seat) else {
            return Err(Denied::Spent);
        };
        let number = self.turnstile.number(&mut pass.seat);
        let Ok(latest) = self.turnstile.shown(&mut pass.seat) else {
            self.turnstile.give_up(&mut pass.seat, turn);
            return Err(Denied::Memory);
        };
        self.turnstile.give_back(&mut pass.seat, turn);
        Ok(Seen {
            turn,
            number,
            latest,
        })
    }

    /// Takes a turn, and adds the item where the journal has just `base` entries at that turn. It
    /// may wait for the turn. Where the journal has more entries, or at an `Err`, the item is
    /// dropped. A turn that publishes takes no memory.
    ///
    /// At an `Err` no turn was taken. The pass may then know that more turns are over than it knew
    /// before.
    pub fn offer<R: Wait>(
        &self,
        rt: &R,
        pass: &mut Pass<J>,
        base: u32,
        item: J::Item,
    ) -> Result<Offered<J::Shown>, Denied>
    where
        J::Item: Drop,
        requires shelf { pass.old.shelf ≡ self.now }
        requires offers { 0 < pass.old.knows.offers }
        requires fits { FitsOpening J.fits pass.old.knows item }
        requires base { base ≤ length pass.old.knows.seen }
        ensures shelf { pass.new.shelf ≡ pass.old.shelf }
        ensures pass { IsPass J.fits pass.new.knows }
        ensures answered { IfOk result
            (λ r. AnswersOffer J.shown_of pass.old.knows pass.new.knows base item r) }
        ensures no_turn { OnErr result (TakesNoTurn pass.old.knows pass.new.knows) }
        ensures spent { IfErr result
            (λ e. (e ≡ Denied.Spent) ↔ (pass.new.knows.reached ≡ most_turns)) }
    {
        let Some(turn) = self.turnstile.take(rt, &mut pass.seat) else {
            return Err(Denied::Spent);
        };
        let number = self.turnstile.number(&mut pass.seat);
        if number == base {
            self.turnstile.add(&mut pass.seat, turn, item);
            let number = self.turnstile.number(&mut pass.seat);
            self.turnstile.give_offer(&mut pass.seat, turn);
            return Ok(Offered::Published { turn, number });
        }
        match self.turnstile.shown(&mut pass.seat) {
            Ok(latest) => {
                self.turnstile.give_offer(&mut pass.seat, turn);
                Ok(Offered::Newer {
                    turn,
                    number,
                    latest,
                })
            }
            Err(_) => {
                self.turnstile.give_up(&mut pass.seat, turn);
                Err(Denied::Memory)
            }
        }
    }

    /// Another pass, which has seen what the first pass has, and to which so many of its offers
    /// move. No refusal comes.
    pub fn split(&self, pass: &mut Pass<J>, offers: u32) -> Result<Pass<J>, AllocError>
        requires shelf { pass.old.shelf ≡ self.now }
        requires first { IsFirst pass.old.knows }
        requires offers { offers ≤ pass.old.knows.offers }
        ensures ok { IsOk result }
        ensures shelf { pass.new.shelf ≡ pass.old.shelf }
        ensures pass { IsPass J.fits pass.new.knows }
        ensures other_shelf { IfOk result (λ other. other.shelf ≡ pass.old.shelf) }
        ensures other_pass { IfOk result (λ other. IsPass J.fits other.knows) }
        ensures parts { IfOk result
            (λ other. IsSplit pass.old.knows pass.new.knows other.knows offers) }
    {
        let seat = self.turnstile.split(&mut pass.seat, u64::from(offers));
        Ok(Pass { seat })
    }

    /// Takes another pass of the shelf into the first one.
    pub fn join(&self, pass: &mut Pass<J>, other: Pass<J>)
        requires shelf { (pass.old.shelf ≡ self.now) × (other.shelf ≡ self.now) }
        requires first { IsFirst pass.old.knows }
        requires other { IsOther other.knows }
        ensures shelf { pass.new.shelf ≡ pass.old.shelf }
        ensures pass { IsPass J.fits pass.new.knows }
        ensures joins { IsJoin pass.old.knows other.knows pass.new.knows }
    {
        let Pass { seat } = other;
        self.turnstile.join(&mut pass.seat, seat);
    }

    /// The journal, once no other pass is out. Its entries are those that the first pass has then
    /// seen.
    pub fn close(self, pass: Pass<J>) -> J
        requires shelf { pass.shelf ≡ self }
        requires first { IsFirst pass.knows }
        requires alone { pass.knows.out ≡ 0 }
        ensures closes { Closes J.entries J.room J.opening pass.knows result }
        ensures pass { IsPass J.fits pass.knows }
    {
        let Pass { seat } = pass;
        let Shelf { turnstile } = self;
        turnstile.close(seat)
    }
}

//! One turn on the journal of a document: a look or an offer goes in, and what it is told comes
//! out.
ghost use Rattle.std.specs.Prelude.{◌≡◌, ◌<◌, length, IfOk, IsErr, OnErr};
ghost use Rattle.ts_docs.specs.declared.stepping.Event.TheVariants as event;
ghost use Rattle.ts_docs.specs.declared.stepping.Told.TheVariants as told;
ghost use Rattle.ts_shelf.specs.Entries.{RisesWithin};
ghost use Rattle.ts_docs.specs.Steps.{IsBookTurn, MayAsk, TakesCopy};

use crate::book::Book;
use crate::draft::Draft;
use crate::version::Version;
use std::alloc::AllocError;
use ts_base::Shared;
use ts_shelf::{Journal, Offered, Seen};

/// What is asked for at a turn.
#[derive(Drop)]
pub enum Event {
    /// To see the newest version.
    Look,
    /// To add a draft, if the newest version is still that of the number `base`.
    Offer { base: u32, draft: Draft },
}

/// What is told at a turn.
#[derive(Drop)]
pub enum Told {
    Seen(Seen<Shared<Version>>),
    Offered(Offered<Shared<Version>>),
}

/// Does an event at a turn, which is above all turns of the journal. An offer over the newest
/// version is published, and takes no memory.
///
/// # Errors
///
/// `AllocError` where the newest version cannot be shared once more. The turn is then not taken,
/// and a draft is dropped.
pub fn step(book: &mut Book, turn: u64, event: Event) -> Result<Told, AllocError>
    requires smaller { RisesWithin 0 turn book.old.entries }
    requires may { MayAsk book.old event }
    ensures step { IfOk result (λ told. IsBookTurn turn book.old event told book.new) }
    ensures err { OnErr result (book.new ≡ book.old) }
    ensures memory { IsErr result → TakesCopy book.old event }
{
    match event {
        Event::Look => Ok(Told::Seen(look(book, turn)?)),
        Event::Offer { base, draft } => Ok(Told::Offered(offer(book, turn, base, draft)?)),
    }
}

/// A look at a turn.
fn look(book: &Book, turn: u64) -> Result<Seen<Shared<Version>>, AllocError>
    requires { RisesWithin 0 turn book.now.entries }
    ensures { IfOk result (λ seen. IsBookTurn turn book.now event.Look (told.Seen seen) book.now) }
{
    Ok(Seen {
        turn,
        number: book.number(),
        latest: book.shown()?,
    })
}

/// An offer at a turn.
fn offer(
    book: &mut Book,
    turn: u64,
    base: u32,
    draft: Draft,
) -> Result<Offered<Shared<Version>>, AllocError>
    requires smaller { RisesWithin 0 turn book.old.entries }
    requires may { MayAsk book.old (event.Offer base draft) }
    ensures step { IfOk result (λ told_now.
        IsBookTurn turn book.old (event.Offer base draft) (told.Offered told_now) book.new) }
    ensures err { OnErr result (book.new ≡ book.old) }
    ensures memory { IsErr result → base < length book.old.entries }
{
    let number = book.number();
    if number != base {
        return Ok(Offered::Newer {
            turn,
            number,
            latest: book.shown()?,
        });
    }
    book.add(turn, draft);
    Ok(Offered::Published {
        turn,
        number: book.number(),
    })
}

//! Clients after all their steps in; their replies out, and their passes are taken in by the first
//! pass of each document.
ghost use Rattle.std.specs.Prelude.{◌≡◌, ◌≤◌, ℕ, [], length, slice_get, Some, vec_capacity};
ghost use Rattle.ts_shelf.specs.Passes.{IsFirst, IsOther};
ghost use Rattle.ts_workers.specs.declared.worker.Worker.{Worker as AnyWorker};
ghost use Rattle.ts_workers.specs.Joins.{AreOnShelves, AreAtShelves, JoinsDesk, HaveJoinedDesks, HaveJoined};
ghost use Rattle.ts_workers.specs.Workers.{all_passes, all_replies};

use crate::front::Front;
use crate::worker::Worker;
use ts_base::List;
use ts_client::{Client, Desk};
use ts_docs::Book;
use ts_replies::Reply;
use ts_shelf::Shelf;

/// Takes in the passes of all clients, and gives their replies, in the order of the clients. The
/// list of replies has room for them.
pub(crate) fn joined(
    shelves: &[Shelf<Book>],
    fronts: &mut [Front],
    workers: Vec<Worker>,
    mut replies: Vec<List<Reply>>,
) -> List<List<Reply>>
    requires fronts { AreOnShelves shelves.now fronts.old }
    requires desks { (client : ℕ) (w : AnyWorker) → slice_get workers.items client ≡ Some w
        → AreAtShelves shelves.now w.client.desks.items }
    requires none { replies.items ≡ [] }
    requires room { length workers.items ≤ vec_capacity replies }
    ensures joined { HaveJoined (all_passes workers.items) fronts.old fronts.new }
    ensures replies { result ≡ all_replies workers.items }
{
    for worker in workers {
        let Client {
            replies: own,
            desks,
        } = worker.client;
        join_desks(shelves, fronts, desks);
        if replies.push(List::from_vec(own)).is_err() {
            unreachable!();
        }
    }
    List::from_vec(replies)
}

/// Takes in the passes of a client, each at the shelf of its document.
fn join_desks(shelves: &[Shelf<Book>], fronts: &mut [Front], desks: Vec<Desk>)
    requires fronts { AreOnShelves shelves.now fronts.old }
    requires desks { AreAtShelves shelves.now desks.items }
    ensures { HaveJoinedDesks fronts.old fronts.new desks.items }
{
    let mut document = 0;
    for desk in desks {
        join_desk(&shelves[document], &mut fronts[document], desk);
        document += 1;
    }
}

/// Takes in the pass of a client.
fn join_desk(shelf: &Shelf<Book>, front: &mut Front, desk: Desk)
    requires shelf { (front.old.pass.shelf ≡ shelf.now) × (desk.pass.shelf ≡ shelf.now) }
    requires first { IsFirst front.old.pass.knows }
    requires other { IsOther desk.pass.knows }
    ensures { JoinsDesk front.old front.new desk }
{
    shelf.join(&mut front.pass, desk.pass);
}

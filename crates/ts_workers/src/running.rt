//! A script and the texts of its documents in; the journals and the replies of a run of all clients
//! at once out.
ghost use Rattle.std.specs.Prelude.{◌≡◌, length, IfOk};
ghost use Rattle.spec_history.specs.Legal.{Legal};
ghost use Rattle.ts_replay.specs.Replays.{MayReplay, AreBooks, history_of};

use crate::closing::closed;
use crate::hiring::hired;
use crate::joining::joined;
use crate::opening::{Documents, opened};
use crate::working::work_all;
use spec_clients::joined_work_is_lawful;
use spec_history::Finder;
use std::alloc::{AllocError, Global};
use std::sync::Wait;
use std::thread::Threads;
use ts_base::List;
use ts_docs::Book;
use ts_io::Gate;
use ts_replies::Reply;
use ts_script::Plan;
use ts_table::Table;
use ts_text::Text;

/// What a run leaves.
#[derive(Drop)]
pub struct Ran {
    /// The journal of each document.
    pub books: List<Book>,
    /// The replies to the steps of each client, in the order of the clients.
    pub replies: List<List<Reply>>,
}

/// Runs the steps of all clients of a script at once, each client on a thread of its own, over its
/// documents, which are opened with these texts. The finder answers the queries of the script,
/// which have the finder's numbers. Each client passes the gate before each of its steps.
///
/// The texts are parsed at once, each on a thread of its own where one can be started, and else by
/// the thread that would have started it.
///
/// All memory that journals, lexers and lists of replies need is taken before the first step. A
/// step that finds no memory for itself is answered so, and the others are run. A client for which
/// no thread can be started is run by the thread that would have started it. The call waits until
/// all clients are done; an await ends after 10,000,000 looks.
///
/// Where a step asks several queries of a tree of 1,000 nodes or more, its client asks them at
/// once, each on a thread of its own, 64 at most.
///
/// # Errors
///
/// `AllocError` where there is no memory for the first versions and for that room.
pub fn run<R: Threads + Wait + Sync, G: Gate + Sync, F: Finder + Sync>(
    rt: &R,
    alloc: Global,
    gate: &G,
    table: &Table,
    finder: &F,
    plan: &Plan,
    openings: Vec<Text>,
) -> Result<Ran, AllocError>
    requires plan { MayReplay plan.now }
    requires form { F.form finder.now ≡ table.now.grammar }
    requires queries { F.count finder.now ≡ length plan.now.queries }
    requires openings { length openings.items ≡ length plan.now.documents }
    ensures legal { IfOk result (λ r. Legal (F.finds finder.now)
        (history_of plan.now table.now.grammar openings.items r.books r.replies)) }
    ensures versions { IfOk result (λ r. AreBooks plan.now table.now openings.items r.books) }
{
    joined_work_is_lawful(finder);
    let Documents {
        shelves,
        mut fronts,
        lexers,
    } = opened(rt, alloc, table, plan, openings)?;
    let mut workers = hired(alloc, table, lexers, plan, shelves.as_slice(), &mut fronts)?;
    let replies = Vec::with_capacity(alloc, workers.len())?;
    let books = Vec::with_capacity(alloc, shelves.len())?;
    work_all(
        rt,
        alloc,
        gate,
        table,
        finder,
        plan,
        shelves.as_slice(),
        &mut workers,
    );
    let replies = joined(shelves.as_slice(), &mut fronts, workers, replies);
    let books = closed(shelves, fronts, books);
    Ok(Ran { books, replies })
}

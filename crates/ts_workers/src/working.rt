//! Clients before all steps in; the same clients after their steps, each done on a thread of its
//! own, out.
ghost use Rattle.std.specs.Prelude.{◌≡◌, List as AnyList, length};
ghost use Rattle.ts_docs.specs.declared.parsed.ParsedText.{ParsedText as AnyVersion};
ghost use Rattle.ts_replay.specs.Replays.{MayReplay};
ghost use Rattle.ts_workers.specs.Workers.{IsNext, HasDone, AreHired, HaveWorked};

use crate::worker::Worker;
use spec_history::Finder;
use std::alloc::Global;
use std::mem;
use std::sync::Wait;
use std::thread::{self, Threads};
use ts_client::{Client, work};
use ts_docs::Book;
use ts_io::Gate;
use ts_script::Plan;
use ts_shelf::Shelf;
use ts_table::Table;

/// Does the steps of all clients, each on a thread of its own where one can be started. It takes no
/// memory but that of the threads and of single steps.
pub(crate) fn work_all<R: Threads + Wait + Sync, G: Gate + Sync, F: Finder + Sync>(
    rt: &R,
    alloc: Global,
    gate: &G,
    table: &Table,
    finder: &F,
    plan: &Plan,
    shelves: &[Shelf<Book>],
    workers: &mut [Worker],
)
    requires plan { MayReplay plan.now }
    requires form { F.form finder.now ≡ table.now.grammar }
    requires queries { F.count finder.now ≡ length plan.now.queries }
    requires shelves { length shelves.now ≡ length plan.now.documents }
    requires hired { (versions : AnyList AnyVersion)
        × AreHired table.now shelves.now versions plan.now.clients workers.old }
    ensures count { length workers.new ≡ length workers.old }
    ensures worked { HaveWorked (F.finds finder.now) plan.now table.now.grammar
        workers.old workers.new }
{
    let threads = workers.len().max(1);
    thread::for_each_mut(
        rt,
        workers,
        threads,
        &|number: usize, worker: &mut Worker|
            requires { MayReplay plan.now × (F.form finder.now ≡ table.now.grammar)
                × (F.count finder.now ≡ length plan.now.queries)
                × (length shelves.now ≡ length plan.now.documents)
                × IsNext table.now shelves.now plan.now.clients number worker.now }
            ensures { HasDone (F.finds finder.entry.now) plan.entry.now table.entry.now.grammar
                number worker.entry.now worker.exit.now }
        {
            work_one(
                rt, alloc, gate, table, finder, plan, shelves, number, worker,
            )
        },
    );
}

/// Does the steps of the client of this number.
fn work_one<R: Threads + Wait + Sync, G: Gate, F: Finder + Sync>(
    rt: &R,
    alloc: Global,
    gate: &G,
    table: &Table,
    finder: &F,
    plan: &Plan,
    shelves: &[Shelf<Book>],
    number: usize,
    worker: &mut Worker,
)
    requires plan { MayReplay plan.now }
    requires form { F.form finder.now ≡ table.now.grammar }
    requires queries { F.count finder.now ≡ length plan.now.queries }
    requires shelves { length shelves.now ≡ length plan.now.documents }
    requires next { IsNext table.now shelves.now plan.now.clients number worker.old }
    ensures { HasDone (F.finds finder.now) plan.now table.now.grammar number worker.old worker.new }
{
    let none = Client {
        replies: Vec::new(alloc),
        desks: Vec::new(alloc),
    };
    let client = mem::replace(&mut worker.client, none);
    worker.client = work(
        rt,
        alloc,
        gate,
        table,
        finder,
        &mut worker.lexer,
        shelves,
        plan,
        number as u32,
        client,
    );
}

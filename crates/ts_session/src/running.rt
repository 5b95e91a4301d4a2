//! A session and a host in; what is printed of a run of all its clients at once out.
ghost use Rattle.std.specs.Prelude.{◌≡◌, length, IfOk};
ghost use Rattle.ts_predicate.specs.Predicates.{AnswersOf};
ghost use Rattle.ts_replay.specs.Replays.{MayReplay};
ghost use Rattle.ts_session.specs.Replays.{IsRun};

use crate::session::Session;
use rayon::prelude::*;
use std::alloc::{AllocError, Global};
use std::sync::Wait;
use std::thread::Threads;
use ts_answers::Queries;
use ts_base::List;
use ts_docs::Book;
use ts_io::Gate;
use ts_predicate::Hosts;
use ts_script::Plan;
use ts_table::Table;
use ts_text::Text;
use ts_transcript::transcript_on_threads;
use ts_workers::{Ran, run};

impl Session {
    /// Runs the steps of all clients of the script at once, each client on a thread of its own, and
    /// answers what is printed of that run. Several queries of one step are asked on a thread each,
    /// 64 at most, where the tree has 1,000 nodes or more. The host's predicates answer in the
    /// queries, on each of all these threads. Each client passes the gate before each of its steps.
    ///
    /// A client for which no thread can be started is run by the thread that would have started it.
    /// The call waits until all clients are done; an await ends after 10,000,000 looks. The lines are
    /// made on threads too.
    ///
    /// # Errors
    ///
    /// `AllocError` where there is no memory for the first versions, the journals, the lexers, the
    /// replies and what is printed. A step that finds no memory is answered so.
    pub fn run<R: Threads + Wait + Sync, G: Gate + Sync, H: Hosts + Sync>(
        self,
        rt: &R,
        alloc: Global,
        gate: &G,
        hosts: &H,
    ) -> Result<Vec<u8>, AllocError>
        ensures { IfOk result (λ bytes. IsRun self.table.grammar self.plan self.queries
            (AnswersOf (H.called hosts.now) (H.accepts hosts.now)) self.texts.items bytes.items) }
    {
        self.stands();
        let Session {
            table,
            plan,
            queries,
            texts,
        } = self;
        let queries = Queries {
            grammar: table.grammar(),
            queries: queries.as_slice(),
            hosts,
        };
        ran(rt, alloc, gate, &table, &plan, &queries, texts)
    }
}

/// Runs all clients of a script at once, and prints the run.
fn ran<R: Threads + Wait + Sync, G: Gate + Sync, H: Hosts + Sync>(
    rt: &R,
    alloc: Global,
    gate: &G,
    table: &Table,
    plan: &Plan,
    queries: &Queries<'_, H>,
    texts: Vec<Text>,
) -> Result<Vec<u8>, AllocError>
    requires may { MayReplay plan.now }
    requires form { queries.now.grammar.now ≡ table.now.grammar }
    requires queries { length queries.now.queries.now ≡ length plan.now.queries }
    requires count { length texts.items ≡ length plan.now.documents }
    ensures { IfOk result (λ bytes. IsRun queries.entry.now.grammar.now plan.now
        queries.entry.now.queries.now (AnswersOf (H.called queries.entry.now.hosts.now)
        (H.accepts queries.entry.now.hosts.now)) texts.items bytes.items) }
{
    let Ran { books, replies } = run(rt, alloc, gate, table, queries, plan, texts)?;
    let bytes = transcript_on_threads(
        rt,
        alloc,
        table.grammar(),
        books.as_slice(),
        replies.as_slice(),
    );
    let_go(rt, books);
    bytes
}

/// Lets the journals go, on several threads: each node of the trees of their versions is given back
/// alone.
fn let_go<R: Threads + Sync>(rt: &R, books: List<Book>) {
    books
        .into_vec()
        .into_par_iter()
        .with_min_len(1)
        .for_each(rt, |book: Book| drop(book));
}

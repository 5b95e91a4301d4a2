//! All steps of a client: the shelves of the documents go in, with the client's desk at each; its
//! replies come out, with the desks as they are then.
ghost use Rattle.std.specs.Prelude.{◌≡◌, ◌+◌, ◌<◌, List as AnyList, length, slice_get, Some, MatchBool, IsTrue};
ghost use Rattle.ts_lexer.specs.Lexers.{IsLexerOf};
ghost use Rattle.ts_script.specs.declared.plan.ScriptStep.{ScriptStep as AnyStep};
ghost use Rattle.ts_replay.specs.Replays.{MayReplay};
ghost use Rattle.ts_replay.specs.Sights.{StandsFor};
ghost use Rattle.ts_client.specs.declared.desk.Desk.{Desk as AnyDesk};
ghost use Rattle.ts_client.specs.Between.{AreAtDesks, MayServeNext, ServesNext, StopsNext};
ghost use Rattle.ts_client.specs.Working.{IsNewClient, HasWorked};

use crate::desk::Desk;
use crate::serving::serve_keeping;
use spec_clients::next_reply_is_served;
use spec_history::Finder;
use std::alloc::Global;
use std::sync::Wait;
use std::thread::Threads;
use ts_docs::Book;
use ts_io::Gate;
use ts_lexer::Lexer;
use ts_replay::{Asker, Sighted, document_of, keep_for};
use ts_replies::Reply;
use ts_script::{Plan, ScriptStep};
use ts_shelf::Shelf;
use ts_table::Table;

/// A client between two steps.
#[derive(Drop)]
pub struct Client {
    /// The replies to its first steps.
    pub replies: Vec<Reply>,
    /// Its desks, one for each document.
    pub desks: Vec<Desk>,
}

/// Does all steps of the client of this number, one after the other, while others may work at the
/// same shelves. Before each step it passes the gate, and holds nothing meanwhile but the visible
/// tree of the version that it asked last, where this step asks queries too or tells a tree. So a
/// version that is asked step after step is made visible once.
///
/// An edit is made in the version that the client holds of the document, and is published where
/// that is still the newest one; else the client then holds the newest. A look takes the newest
/// version, and an await looks until there is one of its number, 10,000,000 times at most. Of the
/// held version the tree is shown, and queries are asked in it, several of one step at once where
/// the tree is not small (`serve`).
///
/// A step that finds no memory for itself is answered so, and the replies take none. The steps end
/// early only where all turns of a document are over.
pub fn work<R: Threads + Wait + Sync, G: Gate, F: Finder + Sync>(
    rt: &R,
    alloc: Global,
    gate: &G,
    table: &Table,
    finder: &F,
    lexer: &mut Lexer,
    shelves: &[Shelf<Book>],
    plan: &Plan,
    number: u32,
    mut client: Client,
) -> Client
    requires lexer { IsLexerOf lexer.old table.now }
    requires plan { MayReplay plan.now }
    requires form { F.form finder.now ≡ table.now.grammar }
    requires queries { F.count finder.now ≡ length plan.now.queries }
    requires number { number < length plan.now.clients }
    requires shelves { length shelves.now ≡ length plan.now.documents }
    requires begins { (steps : AnyList AnyStep) → slice_get plan.now.clients number ≡ Some steps
        → IsNewClient table.now shelves.now steps client }
    ensures lexer { IsLexerOf lexer.new table.now }
    ensures works { (steps : AnyList AnyStep) → slice_get plan.now.clients number ≡ Some steps
        → HasWorked (F.finds finder.now) plan.now table.now.grammar number steps
        client.desks.items result }
{
    let steps = plan.clients.as_slice()[number as usize].as_slice();
    let mut kept = None;
    while client.replies.len() < steps.len() {
        if !go_on(
            rt,
            alloc,
            gate,
            table,
            finder,
            &mut kept,
            lexer,
            shelves,
            plan,
            steps,
            number,
            &mut client,
        ) {
            return client;
        }
    }
    client
}

/// Does the next step, and tells whether there was a turn for it.
fn go_on<'g, R: Threads + Wait + Sync, G: Gate, F: Finder + Sync>(
    rt: &R,
    alloc: Global,
    gate: &G,
    table: &Table,
    finder: &'g F,
    kept: &mut Option<Sighted<'g>>,
    lexer: &mut Lexer,
    shelves: &[Shelf<Book>],
    plan: &Plan,
    steps: &[ScriptStep],
    number: u32,
    client: &mut Client,
) -> bool
    requires lexer { IsLexerOf lexer.old table.now }
    requires plan { MayReplay plan.now }
    requires form { F.form finder.now ≡ table.now.grammar }
    requires queries { F.count finder.now ≡ length plan.now.queries }
    requires steps { slice_get plan.now.clients number ≡ Some steps.now }
    requires shelves { length shelves.now ≡ length plan.now.documents }
    requires at { (first : AnyList AnyDesk) × AreAtDesks (F.finds finder.now) plan.now table.now
        number steps.now shelves.now first client.old }
    requires kept { StandsFor (F.form finder.now) kept.old }
    requires more { length client.old.replies.items < length steps.now }
    ensures lexer { IsLexerOf lexer.new table.now }
    ensures next { (first : AnyList AnyDesk) → AreAtDesks (F.finds finder.now) plan.now table.now
        number steps.now shelves.now first client.old
        → MatchBool result
        (AreAtDesks (F.finds finder.now) plan.now table.now number steps.now shelves.now first
        client.new)
        (HasWorked (F.finds finder.now) plan.now table.now.grammar number steps.now first
        client.new) }
    ensures kept { StandsFor (F.form finder.now) kept.new }
    ensures fewer { IsTrue result
        → length client.new.replies.items ≡ length client.old.replies.items + 1 }
{
    next_reply_is_served(finder);
    serve_next(
        rt, alloc, gate, table, finder, kept, lexer, shelves, steps, number, client,
    )
}

/// The same, without what holds of all replies.
fn serve_next<'g, R: Threads + Wait + Sync, G: Gate, F: Finder + Sync>(
    rt: &R,
    alloc: Global,
    gate: &G,
    table: &Table,
    finder: &'g F,
    kept: &mut Option<Sighted<'g>>,
    lexer: &mut Lexer,
    shelves: &[Shelf<Book>],
    steps: &[ScriptStep],
    number: u32,
    client: &mut Client,
) -> bool
    requires lexer { IsLexerOf lexer.old table.now }
    requires form { F.form finder.now ≡ table.now.grammar }
    requires may { MayServeNext (F.count finder.now) table.now shelves.now steps.now client.old }
    requires kept { StandsFor (F.form finder.now) kept.old }
    ensures lexer { IsLexerOf lexer.new table.now }
    ensures kept { StandsFor (F.form finder.now) kept.new }
    ensures next { MatchBool result
        (ServesNext (F.finds finder.now) table.now shelves.now number steps.now client.old
        client.new)
        (StopsNext table.now shelves.now steps.now client.old client.new) }
{
    let step = &steps[client.replies.len()];
    let place = document_of(step);
    let asker = Asker {
        client: number,
        number: client.replies.len() as u32,
    };
    keep_for(kept, step);
    gate.pass(asker.client, asker.number);
    let Some(reply) = serve_keeping(
        rt,
        alloc,
        table,
        finder,
        kept,
        lexer,
        &shelves[place],
        &mut client.desks[place],
        asker,
        step,
    ) else {
        return false;
    };
    if client.replies.push(reply).is_err() {
        unreachable!();
    }
    true
}

//! Documents on their shelves, and lexers that are there, in; the clients of a script, before all
//! steps, out.
ghost use Rattle.std.specs.Prelude.{◌≡◌, ◌≤◌, ◌<◌, ◌^◌, [], List as AnyList, length, vec_capacity, IfOk};
ghost use Rattle.ts_base.specs.Bytes.{Bytes};
ghost use Rattle.ts_lexer.specs.Lexers.{IsLexerOf};
ghost use Rattle.ts_script.specs.Rules.{most_script_steps};
ghost use Rattle.ts_shelf.specs.Passes.{IsFirst};
ghost use Rattle.ts_replay.specs.Replays.{MayReplay};
ghost use Rattle.ts_workers.specs.Fronts.{AreFronts, versions_of, AllMayLend, Lends, HaveLent};
ghost use Rattle.ts_workers.specs.Openings.{AreLexersOf};
ghost use Rattle.ts_workers.specs.Workers.{AreHired};

use crate::front::Front;
use crate::parsing::lexer_of;
use crate::worker::Worker;
use std::alloc::{AllocError, Global};
use ts_client::{Client, Desk};
use ts_docs::Book;
use ts_lexer::Lexer;
use ts_replay::edits_in;
use ts_script::{Plan, ScriptStep};
use ts_shelf::Shelf;
use ts_table::Table;

/// The clients of a script. Each has a lexer, a desk at each document, with an offer for each of
/// its edits, and room for its replies. The lexers that are there are given away first.
///
/// # Errors
///
/// `AllocError` where memory runs out.
pub(crate) fn hired(
    alloc: Global,
    table: &Table,
    mut lexers: Vec<Lexer>,
    plan: &Plan,
    shelves: &[Shelf<Book>],
    fronts: &mut [Front],
) -> Result<Vec<Worker>, AllocError>
    requires lexers { AreLexersOf table.now lexers.items }
    requires plan { MayReplay plan.now }
    requires documents { length shelves.now ≡ length plan.now.documents }
    requires fronts { (openings : AnyList Bytes)
        × AreFronts plan.now table.now openings shelves.now 0 fronts.old }
    ensures hired { IfOk result (λ workers. AreHired table.now shelves.now (versions_of fronts.new)
        plan.now.clients workers.items) }
    ensures fronts { IfOk result (λ workers. (openings : AnyList Bytes)
        → AreFronts plan.now table.now openings shelves.now 0 fronts.old
        → AreFronts plan.now table.now openings shelves.now (length plan.now.clients) fronts.new) }
{
    let mut workers = Vec::with_capacity(alloc, plan.clients.len())?;
    for steps in plan.clients.as_slice() {
        workers.push(worker(alloc, table, &mut lexers, shelves, fronts, steps.as_slice())?)?;
    }
    Ok(workers)
}

/// A client with these steps, and a lexer that is there, or a new one.
fn worker(
    alloc: Global,
    table: &Table,
    lexers: &mut Vec<Lexer>,
    shelves: &[Shelf<Book>],
    fronts: &mut [Front],
    steps: &[ScriptStep],
) -> Result<Worker, AllocError>
    requires few { length steps.now ≤ most_script_steps }
    requires documents { length shelves.now < 2 ^ 32 }
    requires count { length fronts.old ≡ length shelves.now }
    requires lend { AllMayLend steps.now shelves.now fronts.old }
    requires lexers { AreLexersOf table.now lexers.old.items }
    ensures lexers { AreLexersOf table.now lexers.new.items }
    ensures lexer { IfOk result (λ w. IsLexerOf w.lexer table.now) }
    ensures replies { IfOk result (λ w. w.client.replies.items ≡ []) }
    ensures room { IfOk result (λ w. length steps.now ≤ vec_capacity w.client.replies) }
    ensures desks { IfOk result (λ w. length w.client.desks.items ≡ length shelves.now) }
    ensures lent { IfOk result (λ w.
        HaveLent steps.now fronts.old fronts.new w.client.desks.items) }
{
    let lexer = next_lexer(alloc, table, lexers)?;
    let replies = Vec::with_capacity(alloc, steps.len())?;
    let desks = desks(alloc, shelves, fronts, steps)?;
    Ok(Worker {
        lexer,
        client: Client { replies, desks },
    })
}

/// The last of these lexers, or a new one where there is none.
fn next_lexer(alloc: Global, table: &Table, lexers: &mut Vec<Lexer>) -> Result<Lexer, AllocError>
    requires lexers { AreLexersOf table.now lexers.old.items }
    ensures lexers { AreLexersOf table.now lexers.new.items }
    ensures lexer { IfOk result (λ lexer. IsLexerOf lexer table.now) }
{
    match lexers.pop() {
        Some(lexer) => Ok(lexer),
        None => lexer_of(alloc, table),
    }
}

/// The desks of a client with these steps, one at each document.
fn desks(
    alloc: Global,
    shelves: &[Shelf<Book>],
    fronts: &mut [Front],
    steps: &[ScriptStep],
) -> Result<Vec<Desk>, AllocError>
    requires few { length steps.now ≤ most_script_steps }
    requires documents { length shelves.now < 2 ^ 32 }
    requires count { length fronts.old ≡ length shelves.now }
    requires lend { AllMayLend steps.now shelves.now fronts.old }
    ensures count { IfOk result (λ desks. length desks.items ≡ length shelves.now) }
    ensures lent { IfOk result (λ desks. HaveLent steps.now fronts.old fronts.new desks.items) }
{
    let mut desks = Vec::with_capacity(alloc, shelves.len())?;
    for document in 0..shelves.len() {
        let edits = edits_in(steps, document as u32);
        desks.push(desk(&shelves[document], &mut fronts[document], edits)?)?;
    }
    Ok(desks)
}

/// A desk of a document, with so many offers.
fn desk(shelf: &Shelf<Book>, front: &mut Front, offers: u32) -> Result<Desk, AllocError>
    requires shelf { front.old.pass.shelf ≡ shelf.now }
    requires first { IsFirst front.old.pass.knows }
    requires offers { offers ≤ front.old.pass.knows.offers }
    ensures { IfOk result (Lends offers front.old front.new) }
{
    let version = front.version.try_clone()?;
    let pass = shelf.split(&mut front.pass, offers)?;
    Ok(Desk {
        pass,
        number: 0,
        version,
    })
}

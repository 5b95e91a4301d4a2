//! The steps of all clients in an order: documents and clients as they are at first go in, and as
//! they are at the end they come out.
ghost use Rattle.std.specs.Prelude.{◌≡◌, ℕ, ◌+◌, ◌<◌, ◌↔◌, ◌^◌, List as AnyList, [], ◌∷◌, length, slice_get, IsTrue};
ghost use Rattle.ts_base.specs.Bytes.{Bytes};
ghost use Rattle.ts_lexer.specs.Lexers.{IsLexerOf};
ghost use Rattle.ts_script.specs.declared.plan.Plan.{Plan as AnyPlan};
ghost use Rattle.ts_replay.specs.Running.{CanRun, IsRunAt, HasNext, steps_left, AreDone, SameOthers, MayTakeStep, IsStepTaken};
ghost use Rattle.ts_replay.specs.Sights.{StandsFor};

use crate::begun::Asker;
use crate::counting::document_of;
use crate::document::{Client, Document};
use crate::sighted::Sighted;
use crate::stepping::answer;
use spec_history::Finder;
use std::alloc::Global;
use ts_lexer::Lexer;
use ts_table::Table;

/// Runs the steps in the order: each number takes the next step of its client, and is passed over
/// where there is none; then come the steps that are left, the first client's first.
pub(crate) fn run<F: Finder>(
    alloc: Global,
    table: &Table,
    finder: &F,
    lexer: &mut Lexer,
    documents: &mut Vec<Document>,
    clients: &mut Vec<Client>,
    order: &[u32],
)
    requires lexer { IsLexerOf lexer.old table.now }
    requires form { F.form finder.now ≡ table.now.grammar }
    requires can { CanRun (F.finds finder.now) (F.count finder.now) table.now
        documents.old.items clients.old.items }
    ensures lexer { IsLexerOf lexer.new table.now }
    ensures done { AreDone clients.new.items (length clients.new.items) }
    ensures runs { (plan : AnyPlan) (openings : AnyList Bytes)
        → IsRunAt (F.finds finder.now) plan openings order.now order.now table.now
        documents.old.items clients.old.items
        → IsRunAt (F.finds finder.now) plan openings order.now [] table.now
        documents.new.items clients.new.items }
{
    let mut kept = None;
    take_all(
        alloc, table, finder, &mut kept, lexer, documents, clients, order,
    );
    take_rest(alloc, table, finder, &mut kept, lexer, documents, clients);
}

/// Runs the next step of each client in the order, where it has one.
fn take_all<'f, F: Finder>(
    alloc: Global,
    table: &Table,
    finder: &'f F,
    kept: &mut Option<Sighted<'f>>,
    lexer: &mut Lexer,
    documents: &mut Vec<Document>,
    clients: &mut Vec<Client>,
    order: &[u32],
)
    requires lexer { IsLexerOf lexer.old table.now }
    requires form { F.form finder.now ≡ table.now.grammar }
    requires kept { StandsFor (F.form finder.now) kept.old }
    requires can { CanRun (F.finds finder.now) (F.count finder.now) table.now
        documents.old.items clients.old.items }
    ensures lexer { IsLexerOf lexer.new table.now }
    ensures kept { StandsFor (F.form finder.now) kept.new }
    ensures can { CanRun (F.finds finder.now) (F.count finder.now) table.now
        documents.new.items clients.new.items }
    ensures runs { (plan : AnyPlan) (openings : AnyList Bytes)
        → IsRunAt (F.finds finder.now) plan openings order.now order.now table.now
        documents.old.items clients.old.items
        → IsRunAt (F.finds finder.now) plan openings order.now [] table.now
        documents.new.items clients.new.items }
{
    for client in order {
        take_next(
            alloc,
            table,
            finder,
            kept,
            lexer,
            documents,
            clients,
            *client as usize,
        );
    }
}

/// Runs all steps that are left, the first client's first.
fn take_rest<'f, F: Finder>(
    alloc: Global,
    table: &Table,
    finder: &'f F,
    kept: &mut Option<Sighted<'f>>,
    lexer: &mut Lexer,
    documents: &mut Vec<Document>,
    clients: &mut Vec<Client>,
)
    requires lexer { IsLexerOf lexer.old table.now }
    requires form { F.form finder.now ≡ table.now.grammar }
    requires kept { StandsFor (F.form finder.now) kept.old }
    requires can { CanRun (F.finds finder.now) (F.count finder.now) table.now
        documents.old.items clients.old.items }
    ensures lexer { IsLexerOf lexer.new table.now }
    ensures done { AreDone clients.new.items (length clients.new.items) }
    ensures runs { (plan : AnyPlan) (openings : AnyList Bytes) (order : AnyList ℕ)
        → IsRunAt (F.finds finder.now) plan openings order [] table.now
        documents.old.items clients.old.items
        → IsRunAt (F.finds finder.now) plan openings order [] table.now
        documents.new.items clients.new.items }
{
    for client in 0..clients.len() {
        take_own(
            alloc, table, finder, kept, lexer, documents, clients, client,
        );
    }
}

/// Runs the next step of a client, if there is one.
fn take_next<'f, F: Finder>(
    alloc: Global,
    table: &Table,
    finder: &'f F,
    kept: &mut Option<Sighted<'f>>,
    lexer: &mut Lexer,
    documents: &mut Vec<Document>,
    clients: &mut Vec<Client>,
    client: usize,
)
    requires lexer { IsLexerOf lexer.old table.now }
    requires form { F.form finder.now ≡ table.now.grammar }
    requires kept { StandsFor (F.form finder.now) kept.old }
    requires can { CanRun (F.finds finder.now) (F.count finder.now) table.now
        documents.old.items clients.old.items }
    ensures lexer { IsLexerOf lexer.new table.now }
    ensures kept { StandsFor (F.form finder.now) kept.new }
    ensures can { CanRun (F.finds finder.now) (F.count finder.now) table.now
        documents.new.items clients.new.items }
    ensures runs { (plan : AnyPlan) (openings : AnyList Bytes) (order rest : AnyList ℕ)
        → IsRunAt (F.finds finder.now) plan openings order (client ∷ rest) table.now
        documents.old.items clients.old.items
        → IsRunAt (F.finds finder.now) plan openings order rest table.now
        documents.new.items clients.new.items }
{
    if has_next(clients, client) {
        take_step(
            alloc, table, finder, kept, lexer, documents, clients, client,
        );
    }
}

/// Runs all steps of a client that are left.
fn take_own<'f, F: Finder>(
    alloc: Global,
    table: &Table,
    finder: &'f F,
    kept: &mut Option<Sighted<'f>>,
    lexer: &mut Lexer,
    documents: &mut Vec<Document>,
    clients: &mut Vec<Client>,
    client: usize,
)
    requires lexer { IsLexerOf lexer.old table.now }
    requires form { F.form finder.now ≡ table.now.grammar }
    requires kept { StandsFor (F.form finder.now) kept.old }
    requires can { CanRun (F.finds finder.now) (F.count finder.now) table.now
        documents.old.items clients.old.items }
    requires before { AreDone clients.old.items client }
    ensures lexer { IsLexerOf lexer.new table.now }
    ensures kept { StandsFor (F.form finder.now) kept.new }
    ensures can { CanRun (F.finds finder.now) (F.count finder.now) table.now
        documents.new.items clients.new.items }
    ensures count { length clients.new.items ≡ length clients.old.items }
    ensures done { AreDone clients.new.items (client + 1) }
    ensures runs { (plan : AnyPlan) (openings : AnyList Bytes) (order : AnyList ℕ)
        → IsRunAt (F.finds finder.now) plan openings order [] table.now
        documents.old.items clients.old.items
        → IsRunAt (F.finds finder.now) plan openings order [] table.now
        documents.new.items clients.new.items }
{
    while has_next(clients, client) {
        take_step(
            alloc, table, finder, kept, lexer, documents, clients, client,
        );
    }
}

/// Whether there is such a client, with a step left.
fn has_next(clients: &Vec<Client>, client: usize) -> bool
    ensures { IsTrue result ↔ HasNext clients.now.items client }
{
    client < clients.len() && clients[client].replies.len() < clients[client].steps.len()
}

/// Runs the next step of a client.
fn take_step<'f, F: Finder>(
    alloc: Global,
    table: &Table,
    finder: &'f F,
    kept: &mut Option<Sighted<'f>>,
    lexer: &mut Lexer,
    documents: &mut Vec<Document>,
    clients: &mut Vec<Client>,
    client: usize,
)
    requires lexer { IsLexerOf lexer.old table.now }
    requires form { F.form finder.now ≡ table.now.grammar }
    requires kept { StandsFor (F.form finder.now) kept.old }
    requires can { CanRun (F.finds finder.now) (F.count finder.now) table.now
        documents.old.items clients.old.items }
    requires next { HasNext clients.old.items client }
    ensures lexer { IsLexerOf lexer.new table.now }
    ensures kept { StandsFor (F.form finder.now) kept.new }
    ensures can { CanRun (F.finds finder.now) (F.count finder.now) table.now
        documents.new.items clients.new.items }
    ensures count { length clients.new.items ≡ length clients.old.items }
    ensures others { SameOthers client clients.old.items clients.new.items }
    ensures fewer { steps_left clients.new.items client < steps_left clients.old.items client }
    ensures runs { (plan : AnyPlan) (openings : AnyList Bytes) (order rest : AnyList ℕ)
        → IsRunAt (F.finds finder.now) plan openings order (client ∷ rest) table.now
        documents.old.items clients.old.items
        → IsRunAt (F.finds finder.now) plan openings order rest table.now
        documents.new.items clients.new.items }
{
    let number = client as u32;
    step_of(
        alloc,
        table,
        finder,
        kept,
        lexer,
        documents,
        &mut clients[client],
        number,
    );
}

/// Runs the next step of the client of this number.
fn step_of<'f, F: Finder>(
    alloc: Global,
    table: &Table,
    finder: &'f F,
    kept: &mut Option<Sighted<'f>>,
    lexer: &mut Lexer,
    documents: &mut Vec<Document>,
    client: &mut Client,
    number: u32,
)
    requires lexer { IsLexerOf lexer.old table.now }
    requires form { F.form finder.now ≡ table.now.grammar }
    requires kept { StandsFor (F.form finder.now) kept.old }
    requires may { MayTakeStep (F.count finder.now) table.now documents.old.items client.old }
    ensures lexer { IsLexerOf lexer.new table.now }
    ensures kept { StandsFor (F.form finder.now) kept.new }
    ensures taken { IsStepTaken (F.finds finder.now) number
        documents.old.items client.old documents.new.items client.new }
{
    let steps = client.steps;
    let step = &steps[client.replies.len()];
    let place = document_of(step);
    let asker = Asker {
        client: number,
        number: client.replies.len() as u32,
    };
    let reply = answer(
        alloc,
        table,
        finder,
        kept,
        lexer,
        &mut documents[place],
        &mut client.held[place],
        asker,
        step,
    );
    if client.replies.push(reply).is_err() {
        unreachable!();
    }
}

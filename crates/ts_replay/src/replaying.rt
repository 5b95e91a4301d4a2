//! A script and the texts of its documents in; the journals and the replies of its steps in an
//! order out.
ghost use Rattle.std.specs.Prelude.{◌≡◌, ◌<◌, ◌^◌, [], length, IfOk};
ghost use Rattle.ts_lexer.specs.Lexers.{IsLexerOf};
ghost use Rattle.spec_history.specs.Legal.{Legal};
ghost use Rattle.spec_history.specs.Orders.{InOrder};
ghost use Rattle.ts_replay.specs.Replays.{MayReplay, AreBooks, history_of};
ghost use Rattle.ts_replay.specs.Running.{books_of, replies_of, IsFresh, AreOpened, first_versions, AreClientsBegun};

use crate::counting::edits_of;
use crate::document::{Client, Document};
use crate::running::run;
use spec_history::Finder;
use std::alloc::{AllocError, Global};
use ts_base::{List, Shared};
use ts_docs::{Book, Version, opening};
use ts_lexer::Lexer;
use ts_replies::Reply;
use ts_script::{Plan, ScriptStep};
use ts_table::Table;
use ts_text::Text;

/// What a replay leaves.
#[derive(Drop)]
pub struct Replayed {
    /// The journal of each document.
    pub books: List<Book>,
    /// The replies to the steps of each client.
    pub replies: List<List<Reply>>,
}

/// Runs the steps of a script's clients over its documents, which are opened with these texts. Each
/// number of the order takes the next step of its client, and is passed over where there is none;
/// then come the steps that are left, those of the first client first. The finder answers the
/// queries of the script, which have the finder's numbers.
///
/// All memory that a journal and a list of replies needs is taken first. A step that finds no
/// memory for itself is answered so, and the others are run. It takes time by the steps, the texts
/// of the versions, what is told of them and what the finder takes; an await that waits for what
/// does not come takes no more than a look.
///
/// # Errors
///
/// `AllocError` where there is no memory for the first versions and for that room.
pub fn replay<F: Finder>(
    alloc: Global,
    table: &Table,
    finder: &F,
    lexer: &mut Lexer,
    plan: &Plan,
    openings: Vec<Text>,
    order: &[u32],
) -> Result<Replayed, AllocError>
    requires lexer { IsLexerOf lexer.old table.now }
    requires plan { MayReplay plan.now }
    requires form { F.form finder.now ≡ table.now.grammar }
    requires queries { F.count finder.now ≡ length plan.now.queries }
    requires openings { length openings.items ≡ length plan.now.documents }
    ensures lexer { IsLexerOf lexer.new table.now }
    ensures legal { IfOk result (λ r. Legal (F.finds finder.now)
        (history_of plan.now table.now.grammar openings.items r.books r.replies)) }
    ensures in_order { IfOk result (λ r. InOrder order.now
        (history_of plan.now table.now.grammar openings.items r.books r.replies)) }
    ensures versions { IfOk result (λ r. AreBooks plan.now table.now openings.items r.books) }
{
    let mut documents = opened(alloc, table, lexer, plan, openings)?;
    let mut clients = begun(alloc, documents.as_slice(), plan.clients.as_slice())?;
    run(
        alloc,
        table,
        finder,
        lexer,
        &mut documents,
        &mut clients,
        order,
    );
    Ok(Replayed {
        books: books(alloc, documents)?,
        replies: replies(alloc, clients)?,
    })
}

/// The documents before all steps.
fn opened(
    alloc: Global,
    table: &Table,
    lexer: &mut Lexer,
    plan: &Plan,
    openings: Vec<Text>,
) -> Result<Vec<Document>, AllocError>
    requires lexer { IsLexerOf lexer.old table.now }
    requires plan { MayReplay plan.now }
    requires few { length openings.items < 2 ^ 32 }
    ensures lexer { IsLexerOf lexer.new table.now }
    ensures opened { IfOk result (λ v. AreOpened plan.now table.now openings.items v.items) }
{
    let mut documents = Vec::with_capacity(alloc, openings.len())?;
    for text in openings {
        let number = documents.len() as u32;
        documents.push(document(alloc, table, lexer, plan, number, text)?)?;
    }
    Ok(documents)
}

/// The document of this number before all steps.
fn document(
    alloc: Global,
    table: &Table,
    lexer: &mut Lexer,
    plan: &Plan,
    number: u32,
    text: Text,
) -> Result<Document, AllocError>
    requires lexer { IsLexerOf lexer.old table.now }
    requires plan { MayReplay plan.now }
    ensures lexer { IsLexerOf lexer.new table.now }
    ensures fresh { IfOk result (IsFresh plan.now table.now text number) }
{
    let _ = text.len();
    let room = edits_of(plan, number);
    let version = opening(alloc, table, lexer, text)?;
    Ok(Document {
        book: Book::new(alloc, version, room)?,
        turn: 0,
    })
}

/// The clients before all steps.
fn begun<'a>(
    alloc: Global,
    documents: &[Document],
    all: &'a [List<ScriptStep>],
) -> Result<Vec<Client<'a>>, AllocError>
    ensures { IfOk result (λ v. AreClientsBegun all.now documents.now v.items) }
{
    let mut clients = Vec::with_capacity(alloc, all.len())?;
    for steps in all {
        clients.push(client(alloc, documents, steps.as_slice())?)?;
    }
    Ok(clients)
}

/// A client with these steps before all steps.
fn client<'a>(
    alloc: Global,
    documents: &[Document],
    steps: &'a [ScriptStep],
) -> Result<Client<'a>, AllocError>
    ensures steps { IfOk result (λ c. c.steps.now ≡ steps.now) }
    ensures replies { IfOk result (λ c. c.replies.items ≡ []) }
    ensures held { IfOk result (λ c. c.held.items ≡ first_versions documents.now) }
{
    Ok(Client {
        steps,
        replies: Vec::with_capacity(alloc, steps.len())?,
        held: firsts(alloc, documents)?,
    })
}

/// The first version of each document.
fn firsts(alloc: Global, documents: &[Document]) -> Result<Vec<Shared<Version>>, AllocError>
    ensures { IfOk result (λ v. v.items ≡ first_versions documents.now) }
{
    let mut held = Vec::with_capacity(alloc, documents.len())?;
    for document in documents {
        held.push(document.book.opening().try_clone()?)?;
    }
    Ok(held)
}

/// The journals of the documents.
fn books(alloc: Global, documents: Vec<Document>) -> Result<List<Book>, AllocError>
    ensures { IfOk result (λ list. list ≡ books_of documents.items) }
{
    let mut books = List::with_capacity(alloc, documents.len())?;
    for document in documents {
        books.push(document.book)?;
    }
    Ok(books)
}

/// The replies to the steps of each client.
fn replies(alloc: Global, clients: Vec<Client>) -> Result<List<List<Reply>>, AllocError>
    ensures { IfOk result (λ list. list ≡ replies_of clients.entry.items) }
{
    let mut replies = List::with_capacity(alloc, clients.len())?;
    for client in clients {
        replies.push(List::from_vec(client.replies))?;
    }
    Ok(replies)
}

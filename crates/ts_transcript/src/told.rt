//! Journals and replies in; all lines of a run out, in their order.
ghost use Rattle.std.specs.Prelude.{◌<◌, ◌≤◌, ◌^◌, List as Values, length, map, All, OnOk, IfOk};
ghost use Rattle.ts_base.specs.Bytes.{Bytes};
ghost use Rattle.ts_core.specs.declared.flat.FlatGrammar.{FlatGrammar};
ghost use Rattle.ts_docs.specs.Books.{as_entry};
ghost use Rattle.ts_replies.specs.declared.reply.Reply.{Reply as AnyReply};
ghost use Rattle.spec_history.specs.Printed.{TellsEach, AreReplyLines};
ghost use Rattle.ts_transcript.specs.Told.{AddsLines, AreLines, TellsOpening, TellsEntry, TellsJournal, TellsRun};

use crate::entry::{add_entry, add_opening, add_reply};
use crate::line::RunLine;
use std::alloc::{AllocError, Global};
use ts_core::List;
use ts_docs::{Accepted, Book};
use ts_replies::Reply;
use ts_shelf::Journal;

/// All lines of a run: of first versions, then of accepted edits, then of replies.
pub(crate) fn lines<'a>(
    alloc: Global,
    books: &'a [Book],
    replies: &'a [List<Reply>],
) -> Result<Vec<RunLine<'a>>, AllocError>
    requires documents { length books.now ≤ 2 ^ 32 }
    requires clients { length replies.now ≤ 2 ^ 32 }
    requires steps { All (λ (own : Values AnyReply). length own ≤ 2 ^ 32) replies.now }
    ensures { IfOk result (λ lines. (g : FlatGrammar) (bytes : Bytes) → AreLines g lines.items bytes
        → TellsRun g books.now replies.now bytes) }
{
    let mut out = Vec::new(alloc);
    add_openings(books, &mut out)?;
    add_journals(books, &mut out)?;
    add_clients(replies, &mut out)?;
    Ok(out)
}

/// Adds the line of each document's first version.
fn add_openings<'a>(books: &'a [Book], out: &mut Vec<RunLine<'a>>) -> Result<(), AllocError>
    requires { length books.now ≤ 2 ^ 32 }
    ensures { OnOk result (AddsLines (λ g. TellsEach (TellsOpening g) books.now)
        out.old.items out.new.items) }
{
    for (document, book) in books.iter().enumerate() {
        add_opening(document as u32, book, out)?;
    }
    Ok(())
}

/// Adds the lines of each document's accepted edits.
fn add_journals<'a>(books: &'a [Book], out: &mut Vec<RunLine<'a>>) -> Result<(), AllocError>
    requires { length books.now ≤ 2 ^ 32 }
    ensures { OnOk result (AddsLines (λ g. TellsEach (TellsJournal g) books.now)
        out.old.items out.new.items) }
{
    for (document, book) in books.iter().enumerate() {
        add_journal(document as u32, book, out)?;
    }
    Ok(())
}

/// Adds the lines of a document's accepted edits.
fn add_journal<'a>(
    document: u32,
    book: &'a Book,
    out: &mut Vec<RunLine<'a>>,
) -> Result<(), AllocError>
    ensures { OnOk result (AddsLines (λ g. TellsJournal g document book.now)
        out.old.items out.new.items) }
{
    book.stands();
    let _fits = book.number();
    add_entries(document, book.entries(), out)
}

/// Adds the line of each accepted edit.
fn add_entries<'a>(
    document: u32,
    accepted: &'a [Accepted],
    out: &mut Vec<RunLine<'a>>,
) -> Result<(), AllocError>
    requires { length accepted.now < 2 ^ 32 }
    ensures { OnOk result (AddsLines
        (λ g. TellsEach (TellsEntry g document) (map as_entry accepted.now))
        out.old.items out.new.items) }
{
    for (number, entry) in accepted.iter().enumerate() {
        add_entry(document, number as u32, entry, out)?;
    }
    Ok(())
}

/// Adds the lines of the replies to each client.
fn add_clients<'a>(replies: &'a [List<Reply>], out: &mut Vec<RunLine<'a>>) -> Result<(), AllocError>
    requires clients { length replies.now ≤ 2 ^ 32 }
    requires steps { All (λ (own : Values AnyReply). length own ≤ 2 ^ 32) replies.now }
    ensures { OnOk result (AddsLines (λ g. TellsEach AreReplyLines replies.now)
        out.old.items out.new.items) }
{
    for (client, own) in replies.iter().enumerate() {
        add_replies(client as u32, own.as_slice(), out)?;
    }
    Ok(())
}

/// Adds the lines of the replies to a client.
fn add_replies<'a>(
    client: u32,
    replies: &'a [Reply],
    out: &mut Vec<RunLine<'a>>,
) -> Result<(), AllocError>
    requires { length replies.now ≤ 2 ^ 32 }
    ensures { OnOk result (AddsLines (λ g. AreReplyLines client replies.now)
        out.old.items out.new.items) }
{
    for (step, reply) in replies.iter().enumerate() {
        add_reply(client, step as u32, reply, out)?;
    }
    Ok(())
}

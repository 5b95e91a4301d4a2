//! A version or a reply in; its line added to a list.
ghost use Rattle.std.specs.Prelude.{◌<◌, ◌^◌, suc, OnOk};
ghost use Rattle.ts_transcript.specs.Told.{AddsLines, TellsOpening, TellsAccepted, TellsReply};

use crate::line::RunLine;
use std::alloc::AllocError;
use ts_docs::{Accepted, Book};
use ts_replies::{Head, Reply};

/// Adds the line of the version with which a document was opened.
pub(crate) fn add_opening<'a>(
    document: u32,
    book: &'a Book,
    out: &mut Vec<RunLine<'a>>,
) -> Result<(), AllocError>
    ensures { OnOk result (AddsLines (λ g. TellsOpening g document book.now)
        out.old.items out.new.items) }
{
    out.push(RunLine::Version {
        head: Head::Opening { document },
        version: book.opening().get(),
    })?;
    Ok(())
}

/// Adds the line of an accepted edit of a document, which has so many before it.
pub(crate) fn add_entry<'a>(
    document: u32,
    number: u32,
    accepted: &'a Accepted,
    out: &mut Vec<RunLine<'a>>,
) -> Result<(), AllocError>
    requires { suc number < 2 ^ 32 }
    ensures { OnOk result (AddsLines (λ g. TellsAccepted g document number accepted.now)
        out.old.items out.new.items) }
{
    out.push(RunLine::Version {
        head: Head::Accepted {
            client: accepted.client,
            document,
            step: accepted.step,
            turn: accepted.turn,
            version: number + 1,
        },
        version: accepted.version.get(),
    })?;
    Ok(())
}

/// Adds the line of the reply to a step of a client.
pub(crate) fn add_reply<'a>(
    client: u32,
    step: u32,
    reply: &'a Reply,
    out: &mut Vec<RunLine<'a>>,
) -> Result<(), AllocError>
    ensures { OnOk result (AddsLines (λ g. TellsReply client step reply.now)
        out.old.items out.new.items) }
{
    out.push(RunLine::Reply {
        client,
        step,
        reply,
    })?;
    Ok(())
}

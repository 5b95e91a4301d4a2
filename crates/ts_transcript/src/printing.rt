//! Journals and replies in; all lines of a run out.
ghost use Rattle.std.specs.Prelude.{◌≡◌, ◌≤◌, ◌^◌, List as Values, length, All, IfOk};
ghost use Rattle.ts_replies.specs.declared.reply.Reply.{Reply as AnyReply};
ghost use Rattle.spec_history.specs.Histories.{History};
ghost use Rattle.spec_history.specs.Books.{IsHistoryOf};
ghost use Rattle.spec_history.specs.Printed.{IsPrinted};

use crate::making::one_by_one;
use crate::threads::on_threads;
use crate::told::lines;
use std::alloc::{AllocError, Global};
use std::thread::Threads;
use ts_core::{FlatGrammar, List};
use ts_docs::Book;
use ts_replies::Reply;

/// The lines of a run, by the journals of its documents and the replies to each client's steps. The
/// grammar is the one by which the versions were parsed.
///
/// It takes time by the bytes, the versions' texts and their trees. Each version is shown once.
///
/// # Errors
///
/// `AllocError` where memory runs out.
pub fn transcript(
    alloc: Global,
    grammar: &FlatGrammar,
    books: &[Book],
    replies: &[List<Reply>],
) -> Result<Vec<u8>, AllocError>
    requires documents { length books.now ≤ 2 ^ 32 }
    requires clients { length replies.now ≤ 2 ^ 32 }
    requires steps { All (λ (own : Values AnyReply). length own ≤ 2 ^ 32) replies.now }
    ensures printed { IfOk result (λ bytes. (h : History) → h.grammar ≡ grammar.now
        → IsHistoryOf h books.now replies.now → IsPrinted h bytes.items) }
{
    let lines = lines(alloc, books, replies)?;
    one_by_one(alloc, grammar, lines.as_slice())
}

/// The same lines, made by as many threads as there are processors.
///
/// They are made in batches of a multiple of eight lines, with 4 MiB of texts or more, and the
/// lines of two batches are kept beside the bytes of all before them.
///
/// # Errors
///
/// `AllocError` where memory runs out.
pub fn transcript_on_threads<R: Threads + Sync>(
    rt: &R,
    alloc: Global,
    grammar: &FlatGrammar,
    books: &[Book],
    replies: &[List<Reply>],
) -> Result<Vec<u8>, AllocError>
    requires documents { length books.now ≤ 2 ^ 32 }
    requires clients { length replies.now ≤ 2 ^ 32 }
    requires steps { All (λ (own : Values AnyReply). length own ≤ 2 ^ 32) replies.now }
    ensures printed { IfOk result (λ bytes. (h : History) → h.grammar ≡ grammar.now
        → IsHistoryOf h books.now replies.now → IsPrinted h bytes.items) }
{
    let lines = lines(alloc, books, replies)?;
    on_threads(rt, alloc, grammar, lines.as_slice())
}

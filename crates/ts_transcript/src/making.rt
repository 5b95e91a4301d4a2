//! Lines in; their bytes out, made one after another.
ghost use Rattle.std.specs.Prelude.{IfOk};
ghost use Rattle.ts_transcript.specs.Told.{AreLines, TellsLine};

use crate::line::RunLine;
use crate::version::version_bytes;
use std::alloc::{AllocError, Global};
use ts_core::FlatGrammar;
use ts_replies::print_reply;

/// The bytes of these lines. No more than one line is kept beside them.
pub(crate) fn one_by_one(
    alloc: Global,
    grammar: &FlatGrammar,
    lines: &[RunLine<'_>],
) -> Result<Vec<u8>, AllocError>
    ensures { IfOk result (λ bytes. AreLines grammar.now lines.now bytes.items) }
{
    let mut out = Vec::new(alloc);
    for line in lines {
        let bytes = bytes_of(alloc, grammar, line)?;
        out.extend_from_slice(bytes.as_slice())?;
    }
    Ok(out)
}

/// The bytes of a line.
pub(crate) fn bytes_of(
    alloc: Global,
    grammar: &FlatGrammar,
    line: &RunLine<'_>,
) -> Result<Vec<u8>, AllocError>
    ensures { IfOk result (λ bytes. TellsLine grammar.now line.now bytes.items) }
{
    match line {
        RunLine::Version { head, version } => version_bytes(alloc, grammar, head, version),
        RunLine::Reply {
            client,
            step,
            reply,
        } => print_reply(alloc, *client, *step, reply),
    }
}

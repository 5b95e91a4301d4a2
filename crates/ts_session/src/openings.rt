//! The documents of a script, and what was read of their files, in; their first texts out.
ghost use Rattle.std.specs.Prelude.{◌≡◌, ◌<◌, length, IfOk};
ghost use Rattle.ts_base.specs.Bytes.{Bytes};
ghost use Rattle.ts_io.specs.Outside.{Files, file_at};
ghost use Rattle.ts_script.specs.declared.plan.Source.TheVariants as source;
ghost use Rattle.ts_session.specs.Firsts.{IsFirst, AreFirsts, IsOpening, AreOpenings, HaveTextsFor, IsTextFault};
ghost use Rattle.ts_session.specs.Limits.{most_text_bytes};

use crate::first::First;
use std::alloc::{AllocError, Global};
use ts_script::Source;
use ts_text::{Text, TextFault};

/// What the first texts of documents come to.
#[derive(Debug, Drop)]
pub(crate) enum Openings {
    All(Vec<Text>),
    /// A file is no text; with the line that says so.
    Refused(String),
}

/// What the first text of one document comes to.
#[derive(Debug, Drop)]
enum Opening {
    Text(Text),
    /// The file is no text; with the line that says so.
    Refused(String),
}

/// The first texts of the documents, up to the first file that is no text.
pub(crate) fn openings_of(
    alloc: Global,
    documents: &[Source],
    firsts: &[First],
) -> Result<Openings, AllocError>
    requires { length firsts.now ≡ length documents.now }
    ensures openings { IfOk result (λ openings. (files : Files)
        → AreFirsts files documents.now firsts.now → AreOpenings files documents.now openings) }
    ensures count { IfOk result (HaveTextsFor documents.now) }
{
    let mut texts = Vec::new(alloc);
    for number in 0..documents.len() {
        match opening_of(alloc, &documents[number], &firsts[number])? {
            Opening::Text(text) => texts.push(text)?,
            Opening::Refused(line) => return Ok(Openings::Refused(line)),
        }
    }
    Ok(Openings::All(texts))
}

/// The first text of a document.
fn opening_of(alloc: Global, source: &Source, first: &First) -> Result<Opening, AllocError>
    ensures { IfOk result (λ opening. (files : Files) → IsFirst files source.now first.now
        → IsOpening files source.now opening) }
{
    match source {
        Source::Inline(text) => Ok(Opening::Text(text.try_clone(alloc)?)),
        Source::Path(path) => text_at(alloc, path.text(), first),
    }
}

/// The text of the file at a path.
fn text_at(alloc: Global, path: &str, first: &First) -> Result<Opening, AllocError>
    ensures { IfOk result (λ opening. (files : Files)
        → IsFirst files (source.Path path.now) first.now
        → IsOpening files (source.Path path.now) opening) }
{
    match first {
        First::Bytes(bytes) => text_in(alloc, path, bytes.as_slice()),
        First::Over => over(alloc, path),
        // A document from a file is none in the script.
        First::InScript => over(alloc, path),
    }
}

/// The text that these bytes of a file are.
fn text_in(alloc: Global, path: &str, bytes: &[u8]) -> Result<Opening, AllocError>
    ensures { IfOk result (λ opening. (files : Files) → file_at files path.now ≡ Some bytes.now
        → IsOpening files (source.Path path.now) opening) }
{
    match Text::from_bytes(alloc, bytes) {
        Ok(text) => Ok(Opening::Text(text)),
        Err(fault) => refused(alloc, path, &fault),
    }
}

/// The refusal of a file with more bytes than a text has.
fn over(alloc: Global, path: &str) -> Result<Opening, AllocError>
    ensures { IfOk result (λ opening. (files : Files) (bytes : Bytes)
        → file_at files path.now ≡ Some bytes → most_text_bytes < length bytes
        → IsOpening files (source.Path path.now) opening) }
{
    refused(
        alloc,
        path,
        &TextFault::Size(u64::from(ts_text::MOST_BYTES) + 1),
    )
}

/// The refusal of a file that is no text.
fn refused(alloc: Global, path: &str, fault: &TextFault) -> Result<Opening, AllocError>
    ensures { IfOk result (λ opening. (files : Files) (bytes : Bytes)
        → file_at files path.now ≡ Some bytes → IsTextFault bytes fault.now
        → IsOpening files (source.Path path.now) opening) }
{
    match ts_lines::text_fault(alloc, path, fault)? {
        Some(line) => Ok(Opening::Refused(line)),
        None => Err(AllocError),
    }
}

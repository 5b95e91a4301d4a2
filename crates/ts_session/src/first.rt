//! The documents of a script in; what was read of their files out.
ghost use Rattle.std.specs.Prelude.{◌≡◌, ◌≤◌, Some, IfOk};
ghost use Rattle.ts_io.specs.Outside.{Files, Rose};
ghost use Rattle.ts_script.specs.declared.plan.Source.TheVariants as source;
ghost use Rattle.ts_session.specs.Firsts.{IsLookedAt, AreLookedAt, HaveLengthOf};

use crate::answer::{Unanswered, unread};
use std::alloc::Global;
use ts_io::{Folder, Found};
use ts_script::Source;

/// The most bytes that a text has: 1 MiB.
const MOST_TEXT_BYTES: u64 = ts_text::MOST_BYTES as u64;

/// Where the first text of a document is, once its file was read.
#[derive(Debug, Drop)]
pub(crate) enum First {
    /// It stands in the script.
    InScript,
    /// It is a file with these bytes.
    Bytes(Vec<u8>),
    /// It is a file with more bytes than a text has.
    Over,
}

/// What a look for the files of documents comes to.
#[derive(Debug, Drop)]
pub(crate) enum Firsts {
    /// Each document that is from a file has one.
    All(Vec<First>),
    /// A file is not there; with the line that says so.
    Missing(String),
}

/// What a look for the file of one document comes to.
#[derive(Debug, Drop)]
enum Looked {
    There(First),
    /// The file is not there; with the line that says so.
    Missing(String),
}

/// Reads the files of the documents, in their order and up to the first that is not there.
pub(crate) fn read_firsts<F: Folder>(
    alloc: Global,
    folder: &mut F,
    documents: &[Source],
) -> Result<Firsts, Unanswered>
    ensures looked { IfOk result (λ firsts. (files : Files) → F.files folder.old ≡ Some files
        → AreLookedAt files documents.now firsts) }
    ensures count { IfOk result (HaveLengthOf documents.now) }
    ensures read { result ≡ Err Unanswered.Read → Rose (F.faults folder.old) (F.faults folder.new) }
    ensures files { F.files folder.new ≡ F.files folder.old }
    ensures later { F.faults folder.old ≤ F.faults folder.new }
{
    let mut firsts = Vec::new(alloc);
    for source in documents {
        match read_first(alloc, folder, source) {
            Ok(Looked::There(first)) => firsts.push(first)?,
            Ok(Looked::Missing(line)) => return Ok(Firsts::Missing(line)),
            Err(unanswered) => return Err(unanswered),
        }
    }
    Ok(Firsts::All(firsts))
}

/// Reads the file of a document, if it is from a file.
fn read_first<F: Folder>(
    alloc: Global,
    folder: &mut F,
    source: &Source,
) -> Result<Looked, Unanswered>
    ensures looked { IfOk result (λ looked. (files : Files) → F.files folder.old ≡ Some files
        → IsLookedAt files source.now looked) }
    ensures read { result ≡ Err Unanswered.Read → Rose (F.faults folder.old) (F.faults folder.new) }
    ensures files { F.files folder.new ≡ F.files folder.old }
    ensures later { F.faults folder.old ≤ F.faults folder.new }
{
    match source {
        Source::Inline(_) => Ok(Looked::There(First::InScript)),
        Source::Path(path) => read_path(alloc, folder, path.text()),
    }
}

/// Reads the file at a path.
fn read_path<F: Folder>(alloc: Global, folder: &mut F, path: &str) -> Result<Looked, Unanswered>
    ensures looked { IfOk result (λ looked. (files : Files) → F.files folder.old ≡ Some files
        → IsLookedAt files (source.Path path.now) looked) }
    ensures read { result ≡ Err Unanswered.Read → Rose (F.faults folder.old) (F.faults folder.new) }
    ensures files { F.files folder.new ≡ F.files folder.old }
    ensures later { F.faults folder.old ≤ F.faults folder.new }
{
    match folder.read(alloc, path, MOST_TEXT_BYTES) {
        Ok(Found::Bytes(bytes)) => Ok(Looked::There(First::Bytes(bytes))),
        Ok(Found::Over) => Ok(Looked::There(First::Over)),
        Ok(Found::Absent) => Ok(Looked::Missing(ts_lines::absent(alloc, path)?)),
        Err(fault) => Err(unread(fault)),
    }
}

//! Words that ask to compile or to parse, and the files, in; the answer out.
ghost use Rattle.std.specs.Prelude.{◌≡◌, ◌≤◌, IfOk, IfErr, IfSome, IfNone};
ghost use Rattle.ts_base.specs.Bytes.{Bytes};
ghost use Rattle.ts_io.specs.Outside.{Rose};
ghost use Rattle.ts_io.specs.Read.{KeepsLimit};
ghost use Rattle.ts_top.specs.Answer.{texts, Parses, Compiles, Told};
ghost use Rattle.ts_top.specs.Stops.{IsPlain, Stopped, ReadStopped, IsThere};

use crate::compile::compiled;
use crate::judge::judge;
use crate::stop::Stop;
use std::alloc::Global;
use ts_io::{Folder, Found, ReadFault};
use ts_session::{Answer, MOST_FILE_BYTES};

/// The most bytes that a text has: 1 MiB.
const MOST_TEXT_BYTES: u64 = ts_text::MOST_BYTES as u64;

/// Compiles the file at a path.
pub(crate) fn compile<'a, F: Folder>(
    alloc: Global,
    words: &[String],
    folder: &mut F,
    path: &'a str,
) -> Result<Answer, Stop<'a>>
    requires { Compiles (texts words.now) path.now }
    ensures answers { IfOk result (λ answer.
        IsPlain (F.files folder.old) (texts words.now) answer.status answer.bytes.items) }
    ensures stop { IfErr result (λ stop. Stopped (F.files folder.old) (texts words.now)
        (Rose (F.faults folder.old) (F.faults folder.new)) stop) }
    ensures files { F.files folder.new ≡ F.files folder.old }
    ensures later { F.faults folder.old ≤ F.faults folder.new }
{
    match read(alloc, folder, path, MOST_FILE_BYTES) {
        Ok(found) => compiled(alloc, &found),
        Err(stop) => Err(stop),
    }
}

/// Parses the text at a path by the grammar at another.
pub(crate) fn parse<'a, F: Folder>(
    alloc: Global,
    words: &[String],
    folder: &mut F,
    paths: Paths<'a>,
) -> Result<Answer, Stop<'a>>
    requires { Parses (texts words.now) paths.grammar.now paths.text.now }
    ensures answers { IfOk result (λ answer.
        IsPlain (F.files folder.old) (texts words.now) answer.status answer.bytes.items) }
    ensures stop { IfErr result (λ stop. Stopped (F.files folder.old) (texts words.now)
        (Rose (F.faults folder.old) (F.faults folder.new)) stop) }
    ensures files { F.files folder.new ≡ F.files folder.old }
    ensures later { F.faults folder.old ≤ F.faults folder.new }
{
    let grammar = read(alloc, folder, paths.grammar, MOST_FILE_BYTES)?;
    let text = read(alloc, folder, paths.text, MOST_TEXT_BYTES)?;
    judge(alloc, &grammar, &text, paths.text)
}

/// Reads a file that has to be there.
fn read<'a, F: Folder>(
    alloc: Global,
    folder: &mut F,
    path: &'a str,
    limit: u64,
) -> Result<Found, Stop<'a>>
    ensures same { F.files folder.new ≡ F.files folder.old }
    ensures later { F.faults folder.old ≤ F.faults folder.new }
    ensures within { IfOk result (λ found. KeepsLimit limit found) }
    ensures there { IfOk result
        (λ found. Told (F.files folder.old) (IsThere path.now limit found)) }
    ensures stop { IfErr result (λ stop. ReadStopped (F.files folder.old) path.now
        (Rose (F.faults folder.old) (F.faults folder.new)) stop) }
{
    match folder.read(alloc, path, limit) {
        Ok(Found::Absent) => Err(Stop::Absent(path)),
        Ok(found) => Ok(found),
        Err(ReadFault::Failed) => Err(Stop::Read),
        Err(ReadFault::Memory) => Err(Stop::Memory),
    }
}

/// The paths in `parse GRAMMAR TEXT`.
#[derive(Clone, Copy, Debug)]
pub(crate) struct Paths<'a> {
    grammar: &'a str,
    text: &'a str,
}

/// The path in `compile GRAMMAR`, or none where the words have another form.
pub(crate) fn compile_path(words: &[String]) -> Option<&str>
    ensures none { IfNone result ((path : Bytes) → Compiles (texts words.now) path → ⊥) }
    ensures some { IfSome result (λ path. Compiles (texts words.now) path.now) }
{
    if words.len() == 2 && words[0].as_str() == "compile" {
        Some(words[1].as_str())
    } else {
        None
    }
}

/// The paths that `parse` names, or none where the words have another form.
pub(crate) fn paths_in(words: &[String]) -> Option<Paths<'_>>
    ensures none { IfNone result ((grammar text : Bytes) → Parses (texts words.now) grammar text
        → ⊥) }
    ensures some { IfSome result
        (λ paths. Parses (texts words.now) paths.grammar.now paths.text.now) }
{
    if words.len() == 3 && words[0].as_str() == "parse" {
        Some(Paths {
            grammar: words[1].as_str(),
            text: words[2].as_str(),
        })
    } else {
        None
    }
}

//! The paths of a grammar and a script in; a session, or the refusal of the files, out.
ghost use Rattle.std.specs.Prelude.{◌≡◌, ◌≤◌, ◌^◌, Some, length, IfOk, MatchOption};
ghost use Rattle.ts_base.specs.Bytes.{Bytes};
ghost use Rattle.spec_output.specs.declared.status.Status.{Status as AnyStatus};
ghost use Rattle.ts_io.specs.Outside.{Files, Rose, file_at};
ghost use Rattle.ts_io.specs.Read.{AnswersFor, KeepsLimit};
ghost use Rattle.ts_query_syntax.specs.Refusals.{HasRisen};
ghost use Rattle.ts_session.specs.Firsts.{IsFoundAt};
ghost use Rattle.ts_session.specs.Limits.{most_file_bytes};
ghost use Rattle.ts_session.specs.Opened.{OpensAs, HasReadQueries, HasStatus, IsRefusedSo, IsReadyOrMemory};
ghost use Rattle.ts_session.specs.Refusals.{Refuses};
ghost use Rattle.ts_session.specs.Sessions.{IsClear};

use crate::answer::{Unanswered, absent, unread};
use crate::judging::by_files;
use crate::laws::{clear_is_not_refused, one_refusal};
use crate::opened::Opened;
use std::alloc::Global;
use ts_core::{List, Str};
use ts_io::{Folder, Found};
use ts_predicate::Hosts;
use ts_query_syntax::Patterns;
use ts_script::MOST_SCRIPT_BYTES;

/// The most bytes that are read of a grammar file or a language file: 64 MiB.
pub const MOST_FILE_BYTES: u64 = 67_108_864;

/// The paths of a grammar file, or a language file, and of a script.
#[derive(Clone, Copy, Debug)]
pub struct Paths<'a> {
    pub grammar: &'a str,
    pub script: &'a str,
}

/// Reads the files of a grammar and a script, and judges them.
///
/// The grammar's file is read, and then the script's. The grammar is judged before the script. Then
/// the files of the documents are read in their order; the queries are read in their order, where
/// the predicates of the host may be named, and their expressions are built by `patterns`; and last
/// the files of the documents are judged as texts in their order.
///
/// # Errors
///
/// `Read` where a read failed in this call. `Memory` may come at any time.
pub fn open<F: Folder, H: Hosts, P: Patterns>(
    alloc: Global,
    folder: &mut F,
    paths: Paths<'_>,
    hosts: &H,
    patterns: &mut P,
) -> Result<Opened, Unanswered>
    requires few_hosts { length (H.called hosts.now) ≤ 2 ^ 32 }

    // What the files come to.
    ensures opened { IfOk result (λ opened. (files : Files) → F.files folder.old ≡ Some files
        → OpensAs (H.called hosts.now) files paths.entry.grammar.now paths.entry.script.now
        (HasRisen (P.refusals patterns.old) (P.refusals patterns.new))
        (P.sources patterns.old) (P.sources patterns.new) opened) }
    ensures queries { IfOk result
        (HasReadQueries (H.called hosts.now) (P.sources patterns.old) (P.sources patterns.new)) }
    ensures judged { IfOk result HasStatus }

    // What the files decide is what is answered, but for an expression that is refused.
    ensures exact { (files : Files) (status : AnyStatus) (line : Bytes)
        → F.files folder.old ≡ Some files
        → Refuses (H.called hosts.now) files paths.entry.grammar.now paths.entry.script.now
        status line → IsRefusedSo status line
        (HasRisen (P.refusals patterns.old) (P.refusals patterns.new)) result }
    ensures complete { (files : Files) → F.files folder.old ≡ Some files
        → IsClear (H.called hosts.now) files paths.entry.grammar.now paths.entry.script.now
        → (Rose (F.faults folder.old) (F.faults folder.new) → ⊥)
        → (HasRisen (P.refusals patterns.old) (P.refusals patterns.new) → ⊥)
        → IsReadyOrMemory result }

    // A failed read has its cause outside. The files stay, and no count falls.
    ensures read { result ≡ Err Unanswered.Read → Rose (F.faults folder.old) (F.faults folder.new) }
    ensures files { F.files folder.new ≡ F.files folder.old }
    ensures later { F.faults folder.old ≤ F.faults folder.new }
    ensures refusals { P.refusals patterns.old ≤ P.refusals patterns.new }
{
    one_refusal();
    clear_is_not_refused();
    read(alloc, folder, paths, hosts.names(), patterns)
}

/// The same, without the clauses on what is exact.
fn read<F: Folder, P: Patterns>(
    alloc: Global,
    folder: &mut F,
    paths: Paths<'_>,
    names: &List<Str>,
    patterns: &mut P,
) -> Result<Opened, Unanswered>
    requires few_hosts { length names.now ≤ 2 ^ 32 }
    ensures opened { IfOk result (λ opened. (files : Files) → F.files folder.old ≡ Some files
        → OpensAs names.now files paths.entry.grammar.now paths.entry.script.now
        (HasRisen (P.refusals patterns.old) (P.refusals patterns.new))
        (P.sources patterns.old) (P.sources patterns.new) opened) }
    ensures queries { IfOk result
        (HasReadQueries names.now (P.sources patterns.old) (P.sources patterns.new)) }
    ensures judged { IfOk result HasStatus }
    ensures read { result ≡ Err Unanswered.Read → Rose (F.faults folder.old) (F.faults folder.new) }
    ensures files { F.files folder.new ≡ F.files folder.old }
    ensures later { F.faults folder.old ≤ F.faults folder.new }
    ensures refusals { P.refusals patterns.old ≤ P.refusals patterns.new }
{
    match found_at(alloc, folder, paths.grammar, MOST_FILE_BYTES) {
        Ok(Some(grammar)) => read_script(alloc, folder, &grammar, paths.script, names, patterns),
        Ok(None) => Ok(Opened::Refused(absent(alloc, paths.grammar)?)),
        Err(unanswered) => Err(unanswered),
    }
}

/// What comes of what was read of the grammar's file: the script's is read.
fn read_script<F: Folder, P: Patterns>(
    alloc: Global,
    folder: &mut F,
    grammar: &Found,
    script: &str,
    names: &List<Str>,
    patterns: &mut P,
) -> Result<Opened, Unanswered>
    requires within { KeepsLimit most_file_bytes grammar.now }
    requires few_hosts { length names.now ≤ 2 ^ 32 }
    ensures opened { IfOk result (λ opened. (files : Files) (path g : Bytes)
        → F.files folder.old ≡ Some files → file_at files path ≡ Some g
        → AnswersFor (Some g) most_file_bytes grammar.now
        → OpensAs names.now files path script.now
        (HasRisen (P.refusals patterns.old) (P.refusals patterns.new))
        (P.sources patterns.old) (P.sources patterns.new) opened) }
    ensures queries { IfOk result
        (HasReadQueries names.now (P.sources patterns.old) (P.sources patterns.new)) }
    ensures judged { IfOk result HasStatus }
    ensures read { result ≡ Err Unanswered.Read → Rose (F.faults folder.old) (F.faults folder.new) }
    ensures files { F.files folder.new ≡ F.files folder.old }
    ensures later { F.faults folder.old ≤ F.faults folder.new }
    ensures refusals { P.refusals patterns.old ≤ P.refusals patterns.new }
{
    match found_at(alloc, folder, script, MOST_SCRIPT_BYTES as u64) {
        Ok(Some(script)) => by_files(alloc, folder, grammar, &script, names, patterns),
        Ok(None) => Ok(Opened::Refused(absent(alloc, script)?)),
        Err(unanswered) => Err(unanswered),
    }
}

/// What was read of the file at a path, or none where there is no file.
fn found_at<F: Folder>(
    alloc: Global,
    folder: &mut F,
    path: &str,
    limit: u64,
) -> Result<Option<Found>, Unanswered>
    ensures found { IfOk result (λ found. (files : Files) → F.files folder.old ≡ Some files
        → IsFoundAt files path.now limit found) }
    ensures within { IfOk result (λ found. MatchOption found (Unit {0}) (KeepsLimit limit)) }
    ensures read { result ≡ Err Unanswered.Read → Rose (F.faults folder.old) (F.faults folder.new) }
    ensures files { F.files folder.new ≡ F.files folder.old }
    ensures later { F.faults folder.old ≤ F.faults folder.new }
{
    match folder.read(alloc, path, limit) {
        Ok(Found::Absent) => Ok(None),
        Ok(found) => Ok(Some(found)),
        Err(fault) => Err(unread(fault)),
    }
}

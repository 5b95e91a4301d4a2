//! The top call: words, files, a gate, a host and a builder of expressions in, a status and bytes
//! out.
ghost use Rattle.std.specs.Prelude.{◌≡◌, ◌≤◌, ◌⊎◌, IfOk, IfErr, Err};
ghost use Rattle.ts_base.specs.Bytes.{Bytes};
ghost use Rattle.spec_output.specs.Faults.{absent_line, usage_line};
ghost use Rattle.spec_output.specs.Status.{number_of};
ghost use Rattle.spec_output.specs.declared.status.Status.{Status as AnyStatus};
ghost use Rattle.spec_output.specs.declared.status.Status.TheVariants as ends;
ghost use Rattle.ts_io.specs.Outside.{Files, Rose, Appends, AppendsPrefix};
ghost use Rattle.ts_query_syntax.specs.Refusals.{HasRisen};
ghost use Rattle.ts_top.specs.Answer.{texts, IsUsage, Compiles, Schedule, AsksSession, Answers, ComesTo, IsClean, IsCompilable, CanPlay, Told, Writes, WritesPrefix};
ghost use Rattle.ts_top.specs.Headline.{IsLawfulRun};
ghost use Rattle.ts_top.specs.Status.{IsStatus, IsCutShort, IsUnbuilt};
ghost use Rattle.ts_top.specs.Stops.{IsAnswer, Stopped};

use crate::laws::{answers_once, clean_is_done, done_is_lawful};
use crate::plain::{compile, compile_path, parse, paths_in};
use crate::play::play;
use crate::stop::Stop;
use spec_output::Status;
use std::alloc::{AllocError, Global};
use std::sync::Wait;
use std::thread::Threads;
use thiserror::Error;
use ts_io::{Folder, Gate, Sink, WriteFault, put};
use ts_lines::number;
use ts_predicate::Hosts;
use ts_query_syntax::Patterns;
use ts_session::Answer;

/// Why there is no answer.
#[derive(Clone, Copy, Debug, PartialEq, Eq, Error)]
enum Unanswered {
    #[error("a read failed")]
    Read,
    #[error("out of memory")]
    Memory,
}

impl From<AllocError> for Unanswered {
    ghost use Rattle.ts_top.specs.declared.program.Unanswered.TheVariants.{Memory};

    ghost from_gives = { λ _ made. made ≡ Memory };

    fn from(_error: AllocError) -> Unanswered {
        Unanswered::Memory
    }
}

/// Runs the program on its words: `parse GRAMMAR TEXT` writes the outcome of parsing the text as
/// one line, `compile GRAMMAR` the language file of a grammar, and `replay GRAMMAR SCRIPT ORDER`
/// the versions and replies of a script's clients, whose steps are run in an order on one thread;
/// `run GRAMMAR SCRIPT` runs the clients at once, each on a thread of its own, which passes `gate`
/// before each step, and waits for all.
/// Where a step asks queries, its reply tells what they find in the version that its client holds:
/// all matches of which the predicates hold, those of `hosts` among them. `patterns` builds the
/// regular expressions in the script's queries.
///
/// It answers the number of a `Status`. The words are judged before any file is read, and GRAMMAR
/// is read before TEXT or SCRIPT. At `Usage`, `Grammar`, `Query`, `Script`, `Absent` and `Text` a
/// line that says so is written. Queries are judged once the files of the script's documents are
/// read, and before these are judged as texts.
/// `ReadFault` and `WriteFault` come only where a read or a write failed in this call, and `Query`
/// for an expression that is refused only where `patterns` refused one in this call.
/// `OutOfMemory` may come at any time.
pub fn run<
    R: AllocGlobal + Threads + Wait + Sync,
    F: Folder,
    S: Sink,
    G: Gate + Sync,
    H: Hosts + Sync,
    P: Patterns,
>(
    rt: &R,
    words: &[String],
    folder: &mut F,
    sink: &mut S,
    gate: &G,
    hosts: &H,
    patterns: &mut P,
) -> u8
    ensures statuses { IsStatus result }

    // The headline: after every interleaving of the clients' steps, what is written is the print of
    // a lawful run.
    ensures headline { result ≡ number_of ends.Done
        → (grammar script : Bytes) (schedule : Schedule)
        → AsksSession (texts words.now) grammar script schedule
        → Told (F.files folder.old) (λ files. Writes (IsLawfulRun (H.called hosts.now)
        (H.accepts hosts.now) files grammar script schedule) (S.taken sink.old)
        (S.taken sink.new)) }

    // What was written, at each status.
    ensures done { result ≡ number_of ends.Done → Told (F.files folder.old) (λ files.
        Writes (Answers (H.called hosts.now) (H.accepts hosts.now) files (texts words.now)
        ends.Done) (S.taken sink.old) (S.taken sink.new)) }
    ensures usage { result ≡ number_of ends.Usage → IsUsage (texts words.now)
        × Appends (S.taken sink.old) (S.taken sink.new) usage_line }
    ensures grammar { result ≡ number_of ends.Grammar → Told (F.files folder.old) (λ files.
        Writes (Answers (H.called hosts.now) (H.accepts hosts.now) files (texts words.now)
        ends.Grammar) (S.taken sink.old) (S.taken sink.new)) }
    ensures query { result ≡ number_of ends.Query → Told (F.files folder.old) (λ files.
        Writes (ComesTo (H.called hosts.now) (H.accepts hosts.now) files (texts words.now)
        (HasRisen (P.refusals patterns.old) (P.refusals patterns.new))
        (P.sources patterns.old) (P.sources patterns.new) ends.Query)
        (S.taken sink.old) (S.taken sink.new)) }
    ensures script { result ≡ number_of ends.Script → Told (F.files folder.old) (λ files.
        Writes (Answers (H.called hosts.now) (H.accepts hosts.now) files (texts words.now)
        ends.Script) (S.taken sink.old) (S.taken sink.new)) }
    ensures absent { result ≡ number_of ends.Absent → Told (F.files folder.old) (λ files.
        Writes (Answers (H.called hosts.now) (H.accepts hosts.now) files (texts words.now)
        ends.Absent) (S.taken sink.old) (S.taken sink.new)) }
    ensures text { result ≡ number_of ends.Text → Told (F.files folder.old) (λ files.
        Writes (Answers (H.called hosts.now) (H.accepts hosts.now) files (texts words.now)
        ends.Text) (S.taken sink.old) (S.taken sink.new)) }
    ensures nothing { (result ≡ number_of ends.ReadFault) ⊎ (result ≡ number_of ends.OutOfMemory)
        → S.taken sink.new ≡ S.taken sink.old }
    ensures prefix { result ≡ number_of ends.WriteFault → IsUsage (texts words.now)
        → AppendsPrefix (S.taken sink.old) (S.taken sink.new) usage_line }
    ensures told_prefix { result ≡ number_of ends.WriteFault → Told (F.files folder.old) (λ files.
        WritesPrefix (ComesTo (H.called hosts.now) (H.accepts hosts.now) files (texts words.now)
        (HasRisen (P.refusals patterns.old) (P.refusals patterns.new))
        (P.sources patterns.old) (P.sources patterns.new))
        (S.taken sink.old) (S.taken sink.new)) }

    // A fault of reading or writing has its cause outside.
    ensures read { result ≡ number_of ends.ReadFault
        → Rose (F.faults folder.old) (F.faults folder.new) }
    ensures write { result ≡ number_of ends.WriteFault
        → Rose (S.faults sink.old) (S.faults sink.new) }

    // Each other status comes exactly where it is the answer, unless an expression was refused.
    ensures exact { (files : Files) (status : AnyStatus) (bytes : Bytes)
        → F.files folder.old ≡ Some files
        → Answers (H.called hosts.now) (H.accepts hosts.now) files (texts words.now) status bytes
        → (result ≡ number_of status) ⊎ (IsCutShort result ⊎ IsUnbuilt (texts words.now)
        (HasRisen (P.refusals patterns.old) (P.refusals patterns.new)) result) }
    ensures complete { (files : Files) → F.files folder.old ≡ Some files
        → IsClean files (texts words.now)
        → (Rose (F.faults folder.old) (F.faults folder.new) → ⊥)
        → (Rose (S.faults sink.old) (S.faults sink.new) → ⊥)
        → (result ≡ number_of ends.Done) ⊎ (result ≡ number_of ends.OutOfMemory) }
    ensures playable { (files : Files) → F.files folder.old ≡ Some files
        → CanPlay (H.called hosts.now) files (texts words.now)
        → (Rose (F.faults folder.old) (F.faults folder.new) → ⊥)
        → (Rose (S.faults sink.old) (S.faults sink.new) → ⊥)
        → (HasRisen (P.refusals patterns.old) (P.refusals patterns.new) → ⊥)
        → (result ≡ number_of ends.Done) ⊎ (result ≡ number_of ends.OutOfMemory) }
    ensures compilable { (files : Files) → F.files folder.old ≡ Some files
        → IsCompilable files (texts words.now)
        → (Rose (F.faults folder.old) (F.faults folder.new) → ⊥)
        → (Rose (S.faults sink.old) (S.faults sink.new) → ⊥)
        → (result ≡ number_of ends.Done) ⊎ (result ≡ number_of ends.OutOfMemory) }

    // Words of no form are judged before any read, and only words that ask to run a script have
    // expressions built.
    ensures usage_only { IsUsage (texts words.now) → (result ≡ number_of ends.Usage)
        ⊎ ((result ≡ number_of ends.WriteFault) ⊎ (result ≡ number_of ends.OutOfMemory)) }
    ensures unread { IsUsage (texts words.now) → folder.new ≡ folder.old }
    ensures unasked { ((grammar script : Bytes) (schedule : Schedule)
        → AsksSession (texts words.now) grammar script schedule → ⊥)
        → patterns.new ≡ patterns.old }

    // The files stay, and no count falls.
    ensures files { F.files folder.new ≡ F.files folder.old }
    ensures read_faults { F.faults folder.old ≤ F.faults folder.new }
    ensures write_faults { S.faults sink.old ≤ S.faults sink.new }
    ensures refusals { P.refusals patterns.old ≤ P.refusals patterns.new }
{
    answers_once(hosts);
    clean_is_done(hosts);
    done_is_lawful(hosts);
    match answer_to(rt, rt.alloc(), words, folder, gate, hosts, patterns) {
        Ok(answer) => match put(sink, answer.bytes.as_slice()) {
            Ok(()) => number(answer.status),
            Err(WriteFault::Failed) => number(Status::WriteFault),
        },
        Err(Unanswered::Read) => number(Status::ReadFault),
        Err(Unanswered::Memory) => number(Status::OutOfMemory),
    }
}

/// The answer of the words and the files.
fn answer_to<R: Threads + Wait + Sync, F: Folder, G: Gate + Sync, H: Hosts + Sync, P: Patterns>(
    rt: &R,
    alloc: Global,
    words: &[String],
    folder: &mut F,
    gate: &G,
    hosts: &H,
    patterns: &mut P,
) -> Result<Answer, Unanswered>
    ensures answers { IfOk result (λ answer.
        IsAnswer (H.called hosts.now) (H.accepts hosts.now) (F.files folder.old) (texts words.now)
        (HasRisen (P.refusals patterns.old) (P.refusals patterns.new))
        (P.sources patterns.old) (P.sources patterns.new) answer.status answer.bytes.items) }
    ensures read { result ≡ Err Unanswered.Read → Rose (F.faults folder.old) (F.faults folder.new) }
    ensures asked { result ≡ Err Unanswered.Read → IsUsage (texts words.now) → ⊥ }
    ensures unread { IsUsage (texts words.now) → folder.new ≡ folder.old }
    ensures unasked { ((grammar script : Bytes) (schedule : Schedule)
        → AsksSession (texts words.now) grammar script schedule → ⊥)
        → patterns.new ≡ patterns.old }
    ensures files { F.files folder.new ≡ F.files folder.old }
    ensures later { F.faults folder.old ≤ F.faults folder.new }
    ensures refusals { P.refusals patterns.old ≤ P.refusals patterns.new }
{
    match done(rt, alloc, words, folder, gate, hosts, patterns) {
        Ok(answer) => Ok(answer),
        Err(Stop::Usage) => Ok(usage(alloc)?),
        Err(Stop::Absent(path)) => Ok(absent(alloc, path)?),
        Err(Stop::Read) => Err(Unanswered::Read),
        Err(Stop::Memory) => Err(Unanswered::Memory),
    }
}

/// The answer of words of no form.
fn usage(alloc: Global) -> Result<Answer, AllocError>
    ensures status { IfOk result (λ answer. answer.status ≡ ends.Usage) }
    ensures line { IfOk result (λ answer. answer.bytes.items ≡ usage_line) }
{
    let line = ts_lines::usage(alloc)?;
    Ok(Answer {
        status: Status::Usage,
        bytes: line.into_bytes(),
    })
}

/// The answer of a path at which there is no file.
fn absent(alloc: Global, path: &str) -> Result<Answer, AllocError>
    ensures status { IfOk result (λ answer. answer.status ≡ ends.Absent) }
    ensures line { IfOk result (λ answer. answer.bytes.items ≡ absent_line path.now) }
{
    let line = ts_lines::absent(alloc, path)?;
    Ok(Answer {
        status: Status::Absent,
        bytes: line.into_bytes(),
    })
}

/// What the words ask for, done.
fn done<'a, R: Threads + Wait + Sync, F: Folder, G: Gate + Sync, H: Hosts + Sync, P: Patterns>(
    rt: &R,
    alloc: Global,
    words: &'a [String],
    folder: &mut F,
    gate: &G,
    hosts: &H,
    patterns: &mut P,
) -> Result<Answer, Stop<'a>>
    ensures answers { IfOk result (λ answer.
        IsAnswer (H.called hosts.now) (H.accepts hosts.now) (F.files folder.old) (texts words.now)
        (HasRisen (P.refusals patterns.old) (P.refusals patterns.new))
        (P.sources patterns.old) (P.sources patterns.new) answer.status answer.bytes.items) }
    ensures stop { IfErr result (λ stop. Stopped (F.files folder.old) (texts words.now)
        (Rose (F.faults folder.old) (F.faults folder.new)) stop) }
    ensures unread { IsUsage (texts words.now) → folder.new ≡ folder.old }
    ensures unasked { ((grammar script : Bytes) (schedule : Schedule)
        → AsksSession (texts words.now) grammar script schedule → ⊥)
        → patterns.new ≡ patterns.old }
    ensures files { F.files folder.new ≡ F.files folder.old }
    ensures later { F.faults folder.old ≤ F.faults folder.new }
    ensures refusals { P.refusals patterns.old ≤ P.refusals patterns.new }
{
    match compile_path(words) {
        Some(path) => compile(alloc, words, folder, path),
        None => parse_or_play(rt, alloc, words, folder, gate, hosts, patterns),
    }
}

/// Parses a text or runs a script, where the words ask for it.
fn parse_or_play<
    'a,
    R: Threads + Wait + Sync,
    F: Folder,
    G: Gate + Sync,
    H: Hosts + Sync,
    P: Patterns,
>(
    rt: &R,
    alloc: Global,
    words: &'a [String],
    folder: &mut F,
    gate: &G,
    hosts: &H,
    patterns: &mut P,
) -> Result<Answer, Stop<'a>>
    requires { (path : Bytes) → Compiles (texts words.now) path → ⊥ }
    ensures answers { IfOk result (λ answer.
        IsAnswer (H.called hosts.now) (H.accepts hosts.now) (F.files folder.old) (texts words.now)
        (HasRisen (P.refusals patterns.old) (P.refusals patterns.new))
        (P.sources patterns.old) (P.sources patterns.new) answer.status answer.bytes.items) }
    ensures stop { IfErr result (λ stop. Stopped (F.files folder.old) (texts words.now)
        (Rose (F.faults folder.old) (F.faults folder.new)) stop) }
    ensures unread { IsUsage (texts words.now) → folder.new ≡ folder.old }
    ensures unasked { ((grammar script : Bytes) (schedule : Schedule)
        → AsksSession (texts words.now) grammar script schedule → ⊥)
        → patterns.new ≡ patterns.old }
    ensures files { F.files folder.new ≡ F.files folder.old }
    ensures later { F.faults folder.old ≤ F.faults folder.new }
    ensures refusals { P.refusals patterns.old ≤ P.refusals patterns.new }
{
    match paths_in(words) {
        Some(paths) => parse(alloc, words, folder, paths),
        None => play(rt, alloc, words, folder, gate, hosts, patterns),
    }
}

//! The words that ask for a script's run, the files, a gate, a host and a builder of expressions
//! in; the answer out.
ghost use Rattle.std.specs.Prelude.{◌≡◌, ◌≤◌, ◌^◌, ◌⊎◌, ℕ, List, length, IsTrue, IfOk, IfErr, IfSome, IfNone, MatchOption};
ghost use Rattle.ts_base.specs.Bytes.{Bytes};
ghost use Rattle.spec_output.specs.declared.status.Status.TheVariants.{Done};
ghost use Rattle.ts_io.specs.Outside.{Rose};
ghost use Rattle.ts_query_syntax.specs.Refusals.{HasRisen};
ghost use Rattle.ts_session.specs.Replays.{IsJudged};
ghost use Rattle.ts_top.specs.Answer.{texts, IsUsage, Parses, Compiles, AsksReplay, AsksRun, Schedule as AnySchedule, AsksSession};
ghost use Rattle.ts_top.specs.Stops.{IsAnswer, IsPlayed, Prints, Stopped, schedule_of};

use crate::stop::Stop;
use spec_output::Status;
use std::alloc::{AllocError, Global};
use std::sync::Wait;
use std::thread::Threads;
use ts_io::{Folder, Gate};
use ts_predicate::Hosts;
use ts_query_syntax::Patterns;
use ts_session::{Answer, Opened, Paths, Session, Unanswered, open};
use ts_turns::turns;

/// How many numbers there are for the predicates of a host, from 0.
const MOST_NUMBERS: u64 = 4_294_967_296;

/// How the steps of a script's clients are run.
#[derive(Debug, Drop)]
enum Schedule {
    /// On one thread, in this order of their clients.
    InOrder(Vec<u32>),
    /// All clients at once, each on a thread of its own.
    AtOnce,
}

/// What the words ask to run.
#[derive(Debug, Drop)]
struct Asked<'a> {
    paths: Paths<'a>,
    schedule: Schedule,
}

/// Runs a script, where the words ask for it.
pub(crate) fn play<
    'a,
    R: Threads + Wait + Sync,
    F: Folder,
    G: Gate + Sync,
    H: Hosts + Sync,
    P: Patterns,
>(
    rt: &R,
    alloc: Global,
    words: &'a [String],
    folder: &mut F,
    gate: &G,
    hosts: &H,
    patterns: &mut P,
) -> Result<Answer, Stop<'a>>
    requires no_compile { (path : Bytes) → Compiles (texts words.now) path → ⊥ }
    requires no_parse { (grammar text : Bytes) → Parses (texts words.now) grammar text → ⊥ }
    ensures answers { IfOk result (λ answer.
        IsAnswer (H.called hosts.now) (H.accepts hosts.now) (F.files folder.old) (texts words.now)
        (HasRisen (P.refusals patterns.old) (P.refusals patterns.new))
        (P.sources patterns.old) (P.sources patterns.new) answer.status answer.bytes.items) }
    ensures stop { IfErr result (λ stop. Stopped (F.files folder.old) (texts words.now)
        (Rose (F.faults folder.old) (F.faults folder.new)) stop) }
    ensures unread { IsUsage (texts words.now) → folder.new ≡ folder.old }
    ensures unasked { ((grammar script : Bytes) (schedule : AnySchedule)
        → AsksSession (texts words.now) grammar script schedule → ⊥)
        → patterns.new ≡ patterns.old }
    ensures files { F.files folder.new ≡ F.files folder.old }
    ensures later { F.faults folder.old ≤ F.faults folder.new }
    ensures refusals { P.refusals patterns.old ≤ P.refusals patterns.new }
{
    match request_in(alloc, words) {
        Ok(Some(asked)) => run(rt, alloc, folder, &asked, gate, hosts, patterns),
        Ok(None) => Err(Stop::Usage),
        Err(AllocError) => Err(Stop::Memory),
    }
}

/// What is asked for, done.
fn run<'a, R: Threads + Wait + Sync, F: Folder, G: Gate + Sync, H: Hosts + Sync, P: Patterns>(
    rt: &R,
    alloc: Global,
    folder: &mut F,
    asked: &Asked<'_>,
    gate: &G,
    hosts: &H,
    patterns: &mut P,
) -> Result<Answer, Stop<'a>>
    ensures judged { IfOk result (λ a. IsJudged a.status) }
    ensures answers { IfOk result (λ a.
        IsPlayed (H.called hosts.now) (H.accepts hosts.now) (F.files folder.old)
        asked.entry.now.paths.grammar.now asked.entry.now.paths.script.now
        (schedule_of asked.entry.now.schedule)
        (HasRisen (P.refusals patterns.old) (P.refusals patterns.new))
        (P.sources patterns.old) (P.sources patterns.new) a.status a.bytes.items) }
    ensures stop { IfErr result (λ stop. (stop ≡ Stop.Memory)
        ⊎ ((stop ≡ Stop.Read) × Rose (F.faults folder.old) (F.faults folder.new))) }
    ensures files { F.files folder.new ≡ F.files folder.old }
    ensures later { F.faults folder.old ≤ F.faults folder.new }
    ensures refusals { P.refusals patterns.old ≤ P.refusals patterns.new }
{
    if !are_numbered(hosts) {
        return Err(Stop::Memory);
    }
    match open(alloc, folder, asked.paths, hosts, patterns) {
        Ok(Opened::Ready(session)) => {
            Ok(played(rt, alloc, session, gate, hosts, &asked.schedule)?)
        }
        Ok(Opened::Refused(answer)) => Ok(answer),
        Err(Unanswered::Read) => Err(Stop::Read),
        Err(Unanswered::Memory) => Err(Stop::Memory),
    }
}

/// Whether each predicate of the host has a number.
fn are_numbered<H: Hosts>(hosts: &H) -> bool
    ensures { IsTrue result → length (H.called hosts.now) ≤ 2 ^ 32 }
{
    hosts.names().len() as u64 <= MOST_NUMBERS
}

/// The answer of a session whose steps are run on this schedule.
fn played<R: Threads + Wait + Sync, G: Gate + Sync, H: Hosts + Sync>(
    rt: &R,
    alloc: Global,
    session: Session,
    gate: &G,
    hosts: &H,
    schedule: &Schedule,
) -> Result<Answer, AllocError>
    ensures status { IfOk result (λ a. a.status ≡ Done) }
    ensures bytes { IfOk result (λ a. Prints (H.called hosts.now) (H.accepts hosts.now) session
        (schedule_of schedule.now) a.bytes.items) }
{
    let bytes = match schedule {
        Schedule::InOrder(order) => session.replay(alloc, hosts, order.as_slice())?,
        Schedule::AtOnce => session.run(rt, alloc, gate, hosts)?,
    };
    Ok(Answer {
        status: Status::Done,
        bytes,
    })
}

/// What the words ask to run, or none where they have another form.
fn request_in(alloc: Global, words: &[String]) -> Result<Option<Asked<'_>>, AllocError>
    ensures { IfOk result (λ found. MatchOption found
        ((grammar script : Bytes) (schedule : AnySchedule)
        → AsksSession (texts words.now) grammar script schedule → ⊥)
        (λ asked. AsksSession (texts words.now) asked.paths.grammar.now asked.paths.script.now
        (schedule_of asked.schedule))) }
{
    match run_in(words) {
        Some(paths) => Ok(Some(Asked {
            paths,
            schedule: Schedule::AtOnce,
        })),
        None => replay_in(alloc, words),
    }
}

/// The paths in `run GRAMMAR SCRIPT`, or none where the words have another form.
fn run_in(words: &[String]) -> Option<Paths<'_>>
    ensures none { IfNone result ((grammar script : Bytes)
        → AsksRun (texts words.now) grammar script → ⊥) }
    ensures some { IfSome result
        (λ paths. AsksRun (texts words.now) paths.grammar.now paths.script.now) }
{
    if words.len() == 3 && words[0].as_str() == "run" {
        Some(Paths {
            grammar: words[1].as_str(),
            script: words[2].as_str(),
        })
    } else {
        None
    }
}

/// What `replay GRAMMAR SCRIPT ORDER` asks for, or none where the words have another form.
fn replay_in(alloc: Global, words: &[String]) -> Result<Option<Asked<'_>>, AllocError>
    ensures { IfOk result (λ found. MatchOption found
        ((grammar script : Bytes) (order : List ℕ)
        → AsksReplay (texts words.now) grammar script order → ⊥)
        (λ asked. AsksSession (texts words.now) asked.paths.grammar.now asked.paths.script.now
        (schedule_of asked.schedule))) }
{
    if words.len() == 4 && words[0].as_str() == "replay" {
        match turns(alloc, words[3].as_str())? {
            Some(order) => Ok(Some(Asked {
                paths: Paths {
                    grammar: words[1].as_str(),
                    script: words[2].as_str(),
                },
                schedule: Schedule::InOrder(order),
            })),
            None => Ok(None),
        }
    } else {
        Ok(None)
    }
}

//! Laws of the definitions, for whoever reads a contract of this crate: a host in, facts out.
ghost use Rattle.std.specs.Prelude.{◌≡◌, List};
ghost use Rattle.ts_base.specs.Bytes.{Bytes};
ghost use Rattle.ts_io.specs.Outside.{Files};
ghost use Rattle.spec_output.specs.declared.status.Status.{Status as AnyStatus};
ghost use Rattle.spec_output.specs.declared.status.Status.TheVariants.{Done};
ghost use Rattle.ts_top.specs.Answer.{Answers, AsksSession, Schedule, Compiles, IsClean, IsCompilable, CanPlay};
ghost use Rattle.ts_top.specs.Headline.{IsLawfulRun};

use ts_predicate::Hosts;

/// The same words, files and host come to one status, and to one list of bytes but for the line of
/// a tree and the print of a run: two trees may be equally good, and memory may run out at each
/// step of a run.
pub fn answers_once<H: Hosts>(hosts: &H)
    ensures status { (files : Files) (words : List Bytes) (s t : AnyStatus) (b c : Bytes)
        → Answers (H.called hosts.now) (H.accepts hosts.now) files words s b
        → Answers (H.called hosts.now) (H.accepts hosts.now) files words t c → s ≡ t }
    ensures bytes { (files : Files) (words : List Bytes) (s t : AnyStatus) (b c : Bytes)
        → Answers (H.called hosts.now) (H.accepts hosts.now) files words s b
        → Answers (H.called hosts.now) (H.accepts hosts.now) files words t c
        → (s ≡ Done → ⊥) → b ≡ c }
    ensures compiled { (files : Files) (words : List Bytes) (path : Bytes) (s t : AnyStatus)
        (b c : Bytes) → Compiles words path
        → Answers (H.called hosts.now) (H.accepts hosts.now) files words s b
        → Answers (H.called hosts.now) (H.accepts hosts.now) files words t c → b ≡ c }
{
    ts_text::breaks_once();
    ts_front::one_compilation();
    ts_turns::spelled_once();
    ts_session::replays_once(hosts);
    ts_session::runs_once(hosts);
}

/// Where nothing stands in the way of an outcome, of a language file or of a run, the program is
/// done.
pub fn clean_is_done<H: Hosts>(hosts: &H)
    ensures parsed { (files : Files) (words : List Bytes) (status : AnyStatus) (bytes : Bytes)
        → IsClean files words
        → Answers (H.called hosts.now) (H.accepts hosts.now) files words status bytes
        → status ≡ Done }
    ensures compiled { (files : Files) (words : List Bytes) (status : AnyStatus) (bytes : Bytes)
        → IsCompilable files words
        → Answers (H.called hosts.now) (H.accepts hosts.now) files words status bytes
        → status ≡ Done }
    ensures played { (files : Files) (words : List Bytes) (status : AnyStatus) (bytes : Bytes)
        → CanPlay (H.called hosts.now) files words
        → Answers (H.called hosts.now) (H.accepts hosts.now) files words status bytes
        → status ≡ Done }
{
    ts_text::breaks_once();
    ts_front::one_compilation();
    ts_turns::spelled_once();
    ts_session::replays_once(hosts);
    ts_session::runs_once(hosts);
    ts_session::clear_is_replayed(hosts);
    ts_session::clear_is_run(hosts);
}

/// Where words ask to run a script and the program is done, what it answers is the print of a
/// lawful run.
pub fn done_is_lawful<H: Hosts>(hosts: &H)
    ensures { (files : Files) (words : List Bytes) (grammar script : Bytes) (schedule : Schedule)
        (bytes : Bytes) → AsksSession words grammar script schedule
        → Answers (H.called hosts.now) (H.accepts hosts.now) files words Done bytes
        → IsLawfulRun (H.called hosts.now) (H.accepts hosts.now) files grammar script schedule
        bytes }
{
    ts_turns::spelled_once();
}

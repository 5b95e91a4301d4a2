//! Laws of the definitions, for the proofs of the crates above. Each is a function that does
//! nothing.
ghost use Rattle.std.specs.Prelude.{◌≡◌, ℕ, List};
ghost use Rattle.ts_base.specs.Bytes.{Bytes};
ghost use Rattle.ts_core.specs.declared.flat.FlatGrammar.{FlatGrammar as AnyForm};
ghost use Rattle.ts_io.specs.Outside.{Files};
ghost use Rattle.ts_query_syntax.specs.declared.read_query.ReadQuery.{ReadQuery as AnyQuery};
ghost use Rattle.ts_script.specs.declared.plan.Plan.{Plan as AnyPlan};
ghost use Rattle.spec_output.specs.declared.status.Status.{Status as AnyStatus};
ghost use Rattle.spec_output.specs.declared.status.Status.TheVariants.{Done};
ghost use Rattle.ts_session.specs.Refusals.{Refuses};
ghost use Rattle.ts_session.specs.Replays.{Replays, Runs};
ghost use Rattle.ts_session.specs.Sessions.{IsClear, IsLoaded};

use ts_predicate::Hosts;

/// Files are refused with one status and one line at most, and what is loaded is not refused.
pub fn one_refusal()
    ensures status { (called : List Bytes) (files : Files) (grammar script : Bytes)
        (s t : AnyStatus) (b c : Bytes) → Refuses called files grammar script s b
        → Refuses called files grammar script t c → s ≡ t }
    ensures line { (called : List Bytes) (files : Files) (grammar script : Bytes) (s t : AnyStatus)
        (b c : Bytes) → Refuses called files grammar script s b
        → Refuses called files grammar script t c → b ≡ c }
    ensures loaded { (called : List Bytes) (files : Files) (grammar script : Bytes) (f : AnyForm)
        (plan : AnyPlan) (queries : List AnyQuery) (openings : List Bytes) (s : AnyStatus)
        (b : Bytes) → IsLoaded called files grammar script f plan queries openings
        → Refuses called files grammar script s b → ⊥ }
{
    ts_text::breaks_once();
    ts_front::one_compilation();
    ts_front::one_answer();
    ts_script::one_plan();
    ts_script::one_fault();
    ts_script::refused_is_no_script();
    ts_loading::one_first_fault();
    ts_loading::loaded_have_no_faults();
}

/// Where nothing stands in the way, files are not refused.
pub fn clear_is_not_refused()
    ensures { (called : List Bytes) (files : Files) (grammar script : Bytes) (s : AnyStatus)
        (b : Bytes) → IsClear called files grammar script
        → Refuses called files grammar script s b → ⊥ }
{
    ts_text::breaks_once();
    ts_front::one_compilation();
    ts_front::one_answer();
    ts_script::one_plan();
    ts_script::one_fault();
    ts_script::refused_is_no_script();
    ts_loading::one_first_fault();
}

/// The same files, host and order come to one status, and to one list of bytes but for that of a
/// run: memory may run out at each step of it, and two trees may be equally good.
pub fn replays_once<H: Hosts>(_hosts: &H)
    ensures status { (files : Files) (grammar script : Bytes) (order : List ℕ) (s t : AnyStatus)
        (b c : Bytes)
        → Replays (H.called _hosts.now) (H.accepts _hosts.now) files grammar script order s b
        → Replays (H.called _hosts.now) (H.accepts _hosts.now) files grammar script order t c
        → s ≡ t }
    ensures bytes { (files : Files) (grammar script : Bytes) (order : List ℕ) (s t : AnyStatus)
        (b c : Bytes)
        → Replays (H.called _hosts.now) (H.accepts _hosts.now) files grammar script order s b
        → Replays (H.called _hosts.now) (H.accepts _hosts.now) files grammar script order t c
        → (s ≡ Done → ⊥) → b ≡ c }
{
    one_refusal();
}

/// The same without an order.
pub fn runs_once<H: Hosts>(_hosts: &H)
    ensures status { (files : Files) (grammar script : Bytes) (s t : AnyStatus) (b c : Bytes)
        → Runs (H.called _hosts.now) (H.accepts _hosts.now) files grammar script s b
        → Runs (H.called _hosts.now) (H.accepts _hosts.now) files grammar script t c → s ≡ t }
    ensures bytes { (files : Files) (grammar script : Bytes) (s t : AnyStatus) (b c : Bytes)
        → Runs (H.called _hosts.now) (H.accepts _hosts.now) files grammar script s b
        → Runs (H.called _hosts.now) (H.accepts _hosts.now) files grammar script t c
        → (s ≡ Done → ⊥) → b ≡ c }
{
    one_refusal();
}

/// Where nothing stands in the way of a session, the script is replayed.
pub fn clear_is_replayed<H: Hosts>(_hosts: &H)
    ensures { (files : Files) (grammar script : Bytes) (order : List ℕ) (s : AnyStatus) (b : Bytes)
        → IsClear (H.called _hosts.now) files grammar script
        → Replays (H.called _hosts.now) (H.accepts _hosts.now) files grammar script order s b
        → s ≡ Done }
{
    clear_is_not_refused();
}

/// The same without an order.
pub fn clear_is_run<H: Hosts>(_hosts: &H)
    ensures { (files : Files) (grammar script : Bytes) (s : AnyStatus) (b : Bytes)
        → IsClear (H.called _hosts.now) files grammar script
        → Runs (H.called _hosts.now) (H.accepts _hosts.now) files grammar script s b → s ≡ Done }
{
    clear_is_not_refused();
}

//! A law for callers: which scripts may be replayed. It is a function that does nothing.
ghost use Rattle.ts_base.specs.Bytes.{Bytes};
ghost use Rattle.ts_script.specs.declared.plan.Plan.{Plan as AnyPlan};
ghost use Rattle.ts_script.specs.Script.{IsScript};
ghost use Rattle.ts_replay.specs.Replays.{MayReplay};

/// Scripts may be replayed.
pub fn scripts_may_be_replayed()
    ensures { (bytes : Bytes) (plan : AnyPlan) → IsScript bytes plan → MayReplay plan }
{}

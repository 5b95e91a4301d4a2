//! A script in; whether a step of it asks queries out.
ghost use Rattle.std.specs.Prelude.{◌↔◌, All, IsTrue};
ghost use Rattle.ts_replay.specs.Replays.{AsksNone, AsksNoQueries};

use ts_script::{Plan, ScriptStep};

/// Whether no step of a script asks queries.
pub fn asks_no_queries(plan: &Plan) -> bool
    ensures { IsTrue result ↔ AsksNoQueries plan.now }
{
    plan.clients
        .as_slice()
        .iter()
        .all(|steps| asks_none(steps.as_slice()))
}

/// Whether no step asks queries.
fn asks_none(steps: &[ScriptStep]) -> bool
    ensures { IsTrue result ↔ All AsksNone steps.now }
{
    steps.iter().all(|step| is_no_query(step))
}

/// Whether the step asks no queries.
fn is_no_query(step: &ScriptStep) -> bool
    ensures { IsTrue result ↔ AsksNone step.now }
{
    match step {
        ScriptStep::Query {
            document: _,
            queries: _,
        } => false,
        ScriptStep::Edit {
            document: _,
            edit: _,
        }
        | ScriptStep::Look { document: _ }
        | ScriptStep::Tree { document: _ }
        | ScriptStep::Await {
            document: _,
            version: _,
        } => true,
    }
}

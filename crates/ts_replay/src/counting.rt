//! A script in; on which documents its steps are, and how many edits of a document it has.
ghost use Rattle.std.specs.Prelude.{◌≡◌, ◌≤◌, [], length};
ghost use Rattle.ts_script.specs.Rules.{most_script_steps};
ghost use Rattle.spec_history.specs.Replies as histories;
ghost use Rattle.ts_replay.specs.Replays.{MayReplay};
ghost use Rattle.ts_replay.specs.Runs.{weight_of, weight_left, edits_on};

use ts_script::{Plan, ScriptStep};

/// The document of a step.
pub fn document_of(step: &ScriptStep) -> usize
    ensures { result ≡ histories.document_of step.now }
{
    match step {
        ScriptStep::Edit { document, edit: _ } => *document as usize,
        ScriptStep::Look { document } => *document as usize,
        ScriptStep::Query {
            document,
            queries: _,
        } => *document as usize,
        ScriptStep::Tree { document } => *document as usize,
        ScriptStep::Await {
            document,
            version: _,
        } => *document as usize,
    }
}

/// How many edits of a document the clients make.
pub fn edits_of(plan: &Plan, document: u32) -> u32
    requires { MayReplay plan.now }
    ensures { result ≡ weight_left (edits_on document) plan.now.clients [] }
{
    let mut edits = 0;
    for steps in plan.clients.as_slice() {
        edits += edits_in(steps.as_slice(), document);
    }
    edits
}

/// How many of the steps are edits of a document.
pub fn edits_in(steps: &[ScriptStep], document: u32) -> u32
    requires { length steps.now ≤ most_script_steps }
    ensures { result ≡ weight_of (edits_on document) steps.now }
{
    let mut edits = 0;
    for step in steps {
        edits += edit_of(step, document);
    }
    edits
}

/// One for an edit of a document.
fn edit_of(step: &ScriptStep, document: u32) -> u32
    ensures { result ≡ edits_on document step.now }
{
    match step {
        ScriptStep::Edit {
            document: own,
            edit: _,
        } => u32::from(*own == document),
        ScriptStep::Look { document: _ }
        | ScriptStep::Query {
            document: _,
            queries: _,
        }
        | ScriptStep::Tree { document: _ }
        | ScriptStep::Await {
            document: _,
            version: _,
        } => 0,
    }
}

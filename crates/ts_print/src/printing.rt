//! The outcome of a parse in; its line out.
ghost use Rattle.std.specs.Prelude.{◌≡◌, ◌++◌, ◌∷◌, [], IfOk, string_bytes};
ghost use Rattle.json.specs.Print.{print};
ghost use Rattle.spec_runs.specs.Outcomes.{Fresh};
ghost use Rattle.spec_output.specs.Lines.{newline};
ghost use Rattle.spec_output.specs.Outcomes.{parse_line};
ghost use Rattle.ts_glr.specs.Outcomes.{value_of_outcome};
ghost use Rattle.ts_print.specs.Printed.{TreeLiesIn, shown_outcome, IsOutcomeLine};

use crate::outcome::put_outcome;
use json::Writer;
use spec_output::ShownOutcome;
use std::alloc::{AllocError, Global};
use ts_core::FlatGrammar;
use ts_cursor::shown;
use ts_glr::Outcome;
use ts_text::Text;

/// The line of what a text comes to, in time by the sizes of the text and its tree.
///
/// `fresh_trees_lie_in_the_text` says that what `ts_glr::parse` answers meets the condition.
///
/// # Errors
///
/// `AllocError` where memory runs out.
pub fn outcome_line(
    alloc: Global,
    grammar: &FlatGrammar,
    text: &Text,
    outcome: &Outcome,
) -> Result<String, AllocError>
    requires lies { TreeLiesIn text.now (value_of_outcome outcome.now) }
    ensures line { IfOk result (λ s. string_bytes s
        ≡ parse_line (shown_outcome grammar.now text.now (value_of_outcome outcome.now))) }
    ensures fresh { IfOk result (λ s.
        Fresh grammar.now text.now (value_of_outcome outcome.now)
        → IsOutcomeLine grammar.now text.now (string_bytes s)) }
{
    line(alloc, grammar, text, outcome)
}

/// The same, without the clause on what is fresh.
fn line(
    alloc: Global,
    grammar: &FlatGrammar,
    text: &Text,
    outcome: &Outcome,
) -> Result<String, AllocError>
    requires { TreeLiesIn text.now (value_of_outcome outcome.now) }
    ensures { IfOk result (λ s. string_bytes s
        ≡ parse_line (shown_outcome grammar.now text.now (value_of_outcome outcome.now))) }
{
    let bytes = Vec::new(alloc);
    let mut out = Writer::new(bytes);
    out.begin_object()?;
    put_outcome(alloc, grammar, text, outcome, &mut out)?;
    out.end_object()?;
    ended(out)
}

/// What was written, and a newline.
fn ended(out: Writer) -> Result<String, AllocError>
    requires { out.before ≡ [] }
    ensures { IfOk result (λ s. string_bytes s ≡ print out.tokens ++ newline ∷ []) }
{
    let mut text = written(out);
    text.push_str("\n")?;
    Ok(text)
}

/// What was written, which is UTF-8.
fn written(out: Writer) -> String
    requires { out.before ≡ [] }
    ensures { string_bytes result ≡ print out.tokens }
{
    let Ok(text) = String::from_utf8(out.into_inner()) else {
        unreachable!();
    };
    text
}

/// What a text comes to, as a line tells it, in time by the sizes of the text and its tree.
///
/// # Errors
///
/// `AllocError` where memory runs out.
pub fn outcome_shown(
    alloc: Global,
    grammar: &FlatGrammar,
    text: &Text,
    outcome: &Outcome,
) -> Result<ShownOutcome, AllocError>
    requires lies { TreeLiesIn text.now (value_of_outcome outcome.now) }
    ensures shown { IfOk result (λ shown.
        shown ≡ shown_outcome grammar.now text.now (value_of_outcome outcome.now)) }
{
    match outcome {
        Outcome::Accepted(root) => {
            let nodes = shown(alloc, grammar, text, root)?;
            Ok(ShownOutcome::Tree(nodes))
        }
        Outcome::Stuck(place) => Ok(ShownOutcome::Stuck(*place)),
        Outcome::Deep => Ok(ShownOutcome::Deep),
    }
}

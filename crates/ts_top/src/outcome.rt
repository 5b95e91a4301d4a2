//! A parse table and a text in; the line of what the text comes to out.
ghost use Rattle.std.specs.Prelude.{◌≡◌, ◌≤◌, length, string_bytes, IfOk};
ghost use Rattle.spec_runs.specs.Outcomes.{FreshOutcome, Fresh};
ghost use Rattle.ts_glr.specs.Outcomes.{value_of_outcome};
ghost use Rattle.ts_top.specs.Answer.{outcome_line};
ghost use Rattle.ts_session.specs.Limits.{most_text_bytes};

use std::alloc::{AllocError, Global};
use ts_glr::{Outcome, parse};
use ts_lexer::Lexer;
use ts_print::fresh_trees_lie_in_the_text;
use ts_table::Table;
use ts_text::Text;

/// The outcome of a text, by the tables of a grammar.
fn outcome_of(alloc: Global, table: &Table, text: &Text) -> Result<Outcome, AllocError>
    requires { length text.now ≤ most_text_bytes }
    ensures { IfOk result (λ out. Fresh table.now.grammar text.now (value_of_outcome out)) }
{
    let automaton = ts_automata::build(alloc, table.grammar())?;
    let mut lexer = Lexer::new(alloc, automaton, table)?;
    let outcome = parse(alloc, table, &mut lexer, text)?;
    Ok(outcome)
}

/// The line of what a text comes to.
pub(crate) fn line_of(alloc: Global, table: &Table, text: &Text) -> Result<String, AllocError>
    requires { length text.now ≤ most_text_bytes }
    ensures { IfOk result (λ s. (o : FreshOutcome) × Fresh table.now.grammar text.now o
        × (string_bytes s ≡ outcome_line table.now.grammar text.now o)) }
{
    fresh_trees_lie_in_the_text();
    let outcome = outcome_of(alloc, table, text)?;
    let line = ts_print::outcome_line(alloc, table.grammar(), text, &outcome)?;
    Ok(line)
}

//! A version in; what its text comes to, as lines tell it, out.
ghost use Rattle.std.specs.Prelude.{◌≡◌, IfOk};
ghost use Rattle.spec_history.specs.Legal.{IsShown};

use spec_output::ShownOutcome;
use std::alloc::{AllocError, Global};
use ts_core::FlatGrammar;
use ts_docs::Version;
use ts_print::{fresh_trees_lie_in_the_text, outcome_shown};

/// What a version's text comes to, as its line tells it. The grammar is that of the version's
/// table.
///
/// # Errors
///
/// `AllocError` where memory runs out.
pub(crate) fn shown(
    alloc: Global,
    grammar: &FlatGrammar,
    version: &Version,
) -> Result<ShownOutcome, AllocError>
    requires { grammar.now ≡ version.now.table.grammar }
    ensures { IfOk result (IsShown grammar.now version.now.text) }
{
    fresh_trees_lie_in_the_text();
    version.stands();
    outcome_shown(alloc, grammar, version.text(), version.outcome())
}

//! A law of the definitions: the tree that a text comes to lies in the text.
ghost use Rattle.ts_base.specs.Bytes.{Bytes};
ghost use Rattle.ts_core.specs.declared.flat.FlatGrammar.{FlatGrammar};
ghost use Rattle.spec_runs.specs.Outcomes.{FreshOutcome, Fresh};
ghost use Rattle.ts_print.specs.Printed.{TreeLiesIn};

use spec_lexing::token_within;
use spec_runs::bare_trees;

/// A text's tree takes no more bytes than the text.
pub fn fresh_trees_lie_in_the_text()
    ensures { (g : FlatGrammar) (text : Bytes) (o : FreshOutcome) → Fresh g text o
        → TreeLiesIn text o }
{
    bare_trees();
    token_within();
}

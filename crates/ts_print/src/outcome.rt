//! The outcome of a parse in; the members that tell it put into an object that is being written. Of
//! a tree each node is put as it stands in a cursor, so that no list of printed nodes is made.
ghost use Rattle.std.specs.Prelude.{◌≤◌, OnOk, length, codes};
ghost use Rattle.serde_json.specs.Data.{Members, member, string};
ghost use Rattle.spec_trees.specs.Shown.{Visible};
ghost use Rattle.spec_trees.specs.Trees.{span_of};
ghost use Rattle.spec_output.specs.Outcomes.{outcome_members};
ghost use Rattle.spec_output.specs.declared.outcome.ShownOutcome.TheVariants.{Tree as TreeOutcome, Stuck as StuckOutcome};
ghost use Rattle.ts_glr.specs.Outcomes.{value_of_outcome};
ghost use Rattle.ts_print.specs.Printed.{TreeLiesIn, shown_outcome};
ghost use Rattle.ts_print.specs.Written.{AddsBefore};

use crate::tree::{put_nodes, put_number};
use json::Writer;
use std::alloc::{AllocError, Global};
use ts_core::FlatGrammar;
use ts_cursor::Cursor;
use ts_glr::Outcome;
use ts_node::Node;
use ts_text::Text;

/// Writes the members that tell what a text comes to, in time by the sizes of the text and its
/// tree. Those before them in byte order are written, and the others come after.
///
/// `fresh_trees_lie_in_the_text` says that what `ts_glr::parse` answers meets the condition.
///
/// # Errors
///
/// `AllocError` where memory runs out. A part of the members is written then.
pub fn put_outcome(
    alloc: Global,
    grammar: &FlatGrammar,
    text: &Text,
    outcome: &Outcome,
    out: &mut Writer,
) -> Result<(), AllocError>
    requires lies { TreeLiesIn text.now (value_of_outcome outcome.now) }
    ensures members { OnOk result ((after : Members) → AddsBefore after
        (outcome_members (shown_outcome grammar.now text.now (value_of_outcome outcome.now)) after)
        out.old out.new) }
{
    match outcome {
        Outcome::Accepted(root) => put_tree(alloc, grammar, text, root, out),
        Outcome::Stuck(place) => put_stuck(*place, out),
        Outcome::Deep => put_word("deep", out),
    }
}

/// Writes the members that tell the visible tree of a root, which stands at the text's start.
fn put_tree(
    alloc: Global,
    grammar: &FlatGrammar,
    text: &Text,
    root: &Node,
    out: &mut Writer,
) -> Result<(), AllocError>
    requires { span_of root.now ≤ length text.now }
    ensures { OnOk result ((after : Members) → AddsBefore after
        (outcome_members (TreeOutcome (Visible grammar.now text.now root.now)) after)
        out.old out.new) }
{
    let cursor = Cursor::new(alloc, grammar, root)?;
    out.key("nodes")?;
    put_nodes(grammar, text, &cursor, out)?;
    put_word("tree", out)
}

/// Writes the members that tell the place at which no token was found.
fn put_stuck(place: u32, out: &mut Writer) -> Result<(), AllocError>
    ensures { OnOk result ((after : Members) → AddsBefore after
        (outcome_members (StuckOutcome place) after) out.old out.new) }
{
    put_word("stuck", out)?;
    out.key("place")?;
    put_number(place, out)
}

/// Writes the word of an outcome.
fn put_word(word: &str, out: &mut Writer) -> Result<(), AllocError>
    ensures { OnOk result ((after : Members) → AddsBefore after
        (member (codes "outcome") (string word.now) after) out.old out.new) }
{
    out.key("outcome")?;
    out.string(word)
}

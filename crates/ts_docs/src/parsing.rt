//! What a text comes to: a text goes in, and what is kept of the version before; the outcome, and
//! what is kept now, come out.
ghost use Rattle.std.specs.Prelude.{◌≡◌, ◌≤◌, length, IfOk};
ghost use Rattle.ts_text.specs.Text.{most_bytes};
ghost use Rattle.ts_docs.specs.Reuse.{IsReusableIfAny, IsReparsed, IsParsed};

use crate::reuse::Reuse;
use spec_forced::{
    reductions_append_elements, sound_trees_offer_honestly, sound_trees_offer_stretches,
};
use std::alloc::{AllocError, Global};
use ts_glr::{Outcome, parse_with};
use ts_lexer::Tokens;
use ts_node::{Node, sections_stand};
use ts_offer::{Nothing, Old};
use ts_steps::states_are_named;
use ts_table::Table;

/// What a text comes to, and what is kept for the next one.
#[derive(Drop)]
pub(crate) struct Parsed {
    pub outcome: Outcome,
    pub kept: Reuse,
}

/// What a text comes to. Nodes and elements of the tree that is kept are taken over.
fn reparsed<X: Tokens>(
    alloc: Global,
    table: &Table,
    lexer: &mut X,
    text: &X::Text,
    marked: &Option<Node>,
) -> Result<Outcome, AllocError>
    requires made { X.made_for lexer.old table.now }
    requires within { length (X.Text.bytes text.now) ≤ most_bytes }
    requires kept { IsReusableIfAny table.now (X.Text.bytes text.now) marked.now }
    ensures made { X.made_for lexer.new table.now }
    ensures reparsed { IfOk result (IsReparsed table.now (X.Text.bytes text.now)) }
{
    sound_trees_offer_honestly();
    sound_trees_offer_stretches();
    reductions_append_elements();
    sections_stand();
    states_are_named();
    table.stands();
    match marked {
        Some(tree) => {
            let _ = tree.nodes();
            let mut offers = Old::new(alloc, tree)?;
            let result = parse_with(alloc, table, lexer, text, &mut offers)?;
            Ok(result)
        }
        None => {
            let result = parse_with(alloc, table, lexer, text, &mut Nothing)?;
            Ok(result)
        }
    }
}

/// What a text comes to, and what is kept: its tree, if it has one, and else what was kept before.
pub(crate) fn outcome_of<X: Tokens>(
    alloc: Global,
    table: &Table,
    lexer: &mut X,
    text: &X::Text,
    kept: Reuse,
) -> Result<Parsed, AllocError>
    requires made { X.made_for lexer.old table.now }
    requires within { length (X.Text.bytes text.now) ≤ most_bytes }
    requires kept { IsReusableIfAny table.now (X.Text.bytes text.now) kept.marked }
    ensures made { X.made_for lexer.new table.now }
    ensures parsed { IfOk result (IsParsed table.now (X.Text.bytes text.now)) }
{
    match reparsed(alloc, table, lexer, text, &kept.marked)? {
        Outcome::Accepted(root) => Ok(Parsed {
            outcome: Outcome::Accepted(root.try_clone()?),
            kept: Reuse {
                marked: Some(root),
                lost: 0,
            },
        }),
        Outcome::Stuck(place) => Ok(Parsed {
            outcome: Outcome::Stuck(place),
            kept,
        }),
        Outcome::Deep => Ok(Parsed {
            outcome: Outcome::Deep,
            kept,
        }),
    }
}

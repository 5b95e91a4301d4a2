//! The normal form of a grammar whose trees and patterns are right: the grammar comes in, with what
//! is known of it, and its normal form goes out, or the first limit that it passes.

ghost use Rattle.std.specs.Prelude.{◌≡◌, IfOk, IfErr};
ghost use Rattle.ts_normalise.specs.Refusals.{HasCause, FindsInTrees, FindsMany, Nothing};
ghost use Rattle.ts_numbering.specs.Surveys.{IsSurvey};
ghost use Rattle.ts_pattern.specs.Reads.{Reads};
ghost use Rattle.ts_rules.specs.FileGrammar.{IsFileGrammar};
ghost use Rattle.ts_rules.specs.Normal.{ArePatterns, IsNormal};
ghost use Rattle.ts_rules.specs.Sights as sights;
ghost use Rattle.ts_tokens.specs.Inlining.{AreInlineRanks};
ghost use Rattle.ts_tokens.specs.Patterns.{meaning};

use crate::fault::NFault;
use crate::trees::Trees;
use std::alloc::Global;
use ts_core::{FlatGrammar, Grammar};
use ts_form::normal_form;
use ts_tokens::PatternTable;

/// The normal form of a grammar whose trees and patterns have no fault.
///
/// # Errors
///
/// `Limit` with the first limit that is passed: of symbols, of names, of productions, of steps, of
/// positions. `Memory` may come at any time.
pub(crate) fn form_of<'a>(
    alloc: Global,
    grammar: &'a Grammar,
    trees: Trees<'a>,
    patterns: &PatternTable,
) -> Result<FlatGrammar, NFault>
    requires file { IsFileGrammar grammar.now }
    requires walk { sights.seen_trees trees.walk.items ≡ sights.walk grammar.now }
    requires survey { IsSurvey grammar.now trees.survey }
    requires ranks { AreInlineRanks grammar.now trees.ranks.items }
    requires trees { Nothing (FindsInTrees grammar.now) }
    requires patterns { ArePatterns Reads grammar.now (meaning patterns.now) }
    ensures normal { IfOk result (IsNormal Reads grammar.now) }
    ensures none { IfOk result (λ _. Nothing (FindsMany grammar.now)) }
    ensures refused { IfErr result (HasCause (FindsMany grammar.now)) }
{
    let Trees {
        walk,
        survey,
        ranks,
    } = trees;
    let form = normal_form(
        alloc,
        grammar,
        walk.as_slice(),
        survey,
        ranks.as_slice(),
        patterns,
    )?;
    Ok(form)
}

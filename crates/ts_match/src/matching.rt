//! Matching: a query, a grammar and a root go in, and the matches come out.
ghost use Rattle.std.specs.Prelude.{◌≡◌, ◌<◌, ◌≤◌, ◌^◌, IfOk, IfErr, length};
ghost use Rattle.spec_trees.specs.VisibleNodes.{visible_nodes};
ghost use Rattle.spec_matches.specs.Matches.{AreMatches, AreTooMany, most_matches};

use crate::tree::VisibleTree;
use spec_matches::Match;
use std::alloc::Global;
use ts_base::List;
use ts_core::FlatGrammar;
use ts_node::Node;
use ts_query_syntax::ReadQuery;
use ts_search::{Keep, MatchFault};

/// The matches of a query in the visible tree of a root that are kept, by root, then pattern, then
/// captures. Where several queries are asked of one root, a `VisibleTree` serves them all.
///
/// # Errors
///
/// `Many` exactly where there are more than 100,000, and `Memory` where memory runs out.
pub fn matches<K: Keep>(
    alloc: Global,
    grammar: &FlatGrammar,
    root: &Node,
    query: &ReadQuery,
    keep: &mut K,
) -> Result<List<Match>, MatchFault>
    requires few { length query.now.patterns < 2 ^ 32 }
    ensures matches { IfOk result (AreMatches query.now (visible_nodes grammar.now root.now)
        (K.kept keep.old)) }
    ensures few { IfOk result (λ all. length all ≤ most_matches) }
    ensures many { IfErr result (λ e. e ≡ MatchFault.Many
        → AreTooMany query.now (visible_nodes grammar.now root.now) (K.kept keep.old)) }
    ensures same { keep.new ≡ keep.old }
{
    let tree = VisibleTree::new(alloc, grammar, root)?;
    tree.matches(alloc, query, keep)
}

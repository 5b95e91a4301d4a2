//! A visible tree for queries: a grammar and a root go in once, and the matches of any number of
//! queries come out.
ghost use Rattle.std.specs.Prelude.{◌≡◌, ◌<◌, ◌≤◌, ◌^◌, IfOk, IfErr, length};
ghost use Rattle.spec_trees.specs.VisibleNodes.{visible_nodes};
ghost use Rattle.spec_matches.specs.Matches.{AreMatches, AreTooMany, most_matches};

use spec_matches::Match;
use std::alloc::{AllocError, Global};
use std::marker::Model;
use ts_base::List;
use ts_core::FlatGrammar;
use ts_cursor::{Cursor, nodes_have_parents};
use ts_node::Node;
use ts_query_syntax::ReadQuery;
use ts_search::{Keep, MatchFault, Sight};

/// The visible tree of a root, made once for any number of queries. Contracts see its nodes in
/// preorder. Queries may be asked of it on several threads at once.
#[derive(Drop)]
pub struct VisibleTree<'g> {
    cursor: Cursor<'g>,
}

impl<'g> Model for VisibleTree<'g> {
    ghost use Rattle.std.specs.Prelude.{List};
    ghost use Rattle.spec_trees.specs.declared.visible.VisibleNode.{VisibleNode};
    ghost use Rattle.spec_trees.specs.contracts.visible.VisibleNode as contract;
    ghost use Rattle.std.specs.Coded.{codes};

    ghost Value = { List VisibleNode };

    ghost coded = { Prim.hlevel (codes, contract.the_row.coded) };

    ghost use Rattle.ts_search.specs.Rows.{HaveParents};

    ghost view = { λ a. a.cursor.nodes };

    ghost invariant = { λ a. HaveParents a.cursor.nodes };
}

impl<'g> VisibleTree<'g> {
    /// The visible tree of a root, in time by the size of the tree.
    ///
    /// # Errors
    ///
    /// `AllocError` where memory runs out.
    pub fn new(
        alloc: Global,
        grammar: &'g FlatGrammar,
        root: &Node,
    ) -> Result<VisibleTree<'g>, AllocError>
        ensures { IfOk result (λ tree. tree ≡ visible_nodes grammar.now root.now) }
    {
        nodes_have_parents();
        let cursor = Cursor::new(alloc, grammar, root)?;
        Ok(VisibleTree { cursor })
    }

    /// The matches of a query that are kept, by root, then pattern, then captures.
    ///
    /// # Errors
    ///
    /// `Many` exactly where there are more than 100,000, and `Memory` where memory runs out.
    pub fn matches<K: Keep>(
        &self,
        alloc: Global,
        query: &ReadQuery,
        keep: &mut K,
    ) -> Result<List<Match>, MatchFault>
        requires few { length query.now.patterns < 2 ^ 32 }
        ensures matches { IfOk result (AreMatches query.now self.now (K.kept keep.old)) }
        ensures few { IfOk result (λ all. length all ≤ most_matches) }
        ensures many { IfErr result (λ e. e ≡ MatchFault.Many
            → AreTooMany query.now self.now (K.kept keep.old)) }
        ensures same { keep.new ≡ keep.old }
    {
        let sight = Sight::new(query.kinds.as_slice(), &self.cursor);
        ts_search::matches(alloc, &sight, query.patterns.as_slice(), keep)
    }
}

//! The queries of a script, with what they are asked by.
ghost use Rattle.std.specs.Prelude.{◌<◌, ◌^◌, All, length};
ghost use Rattle.ts_query_syntax.specs.declared.read_query.ReadQuery.{ReadQuery as AnyQuery};

use crate::answering::{answer, answers};
use spec_history::Finder;
use std::alloc::{AllocError, Global};
use ts_base::List;
use ts_core::FlatGrammar;
use ts_match::VisibleTree;
use ts_node::Node;
use ts_predicate::Hosts;
use ts_query_syntax::ReadQuery;
use ts_replies::ShownResult;
use ts_text::Text;

/// Queries that were read for a grammar, by their numbers from 0, and what answers for the
/// predicates of a host in them.
#[derive(Drop)]
pub struct Queries<'a, H: Hosts> {
    pub grammar: &'a FlatGrammar,
    pub queries: &'a [ReadQuery],
    pub hosts: &'a H,
    ghost few: { All (λ (query : AnyQuery). length query.patterns < 2 ^ 32) queries.now },
}

impl<H: Hosts> Finder for Queries<'_, H> {
    ghost use Rattle.std.specs.Prelude.{length};
    ghost use Rattle.ts_predicate.specs.Predicates.{AnswersOf};
    ghost use Rattle.spec_history.specs.Queries.{Finds, IsResultOf};

    ghost form = { λ q. q.grammar.now };

    ghost count = { λ q. length q.queries.now };

    ghost finds = { λ q. Finds q.grammar.now q.queries.now
        (AnswersOf (H.called q.hosts.now) (H.accepts q.hosts.now)) };

    ghost finds_one = { λ q. IsResultOf q.queries.now
        (AnswersOf (H.called q.hosts.now) (H.accepts q.hosts.now)) };

    ghost one_by_one = { λ q text tree numbers results fresh count each. record {
      tree = tree;
      fresh = fresh;
      results_are = record { count = count; each = each };
    } };

    fn grammar(&self) -> &FlatGrammar {
        self.grammar
    }

    fn find(
        &self,
        alloc: Global,
        text: &Text,
        root: &Node,
        numbers: &[u32],
    ) -> Result<List<ShownResult>, AllocError> {
        answers(
            alloc,
            self.grammar,
            text,
            root,
            self.queries,
            numbers,
            self.hosts,
        )
    }

    fn find_one(
        &self,
        alloc: Global,
        text: &Text,
        tree: &VisibleTree,
        number: u32,
    ) -> Result<ShownResult, AllocError> {
        let query = &self.queries[number as usize];
        answer(alloc, text, tree, query, self.hosts)
    }
}

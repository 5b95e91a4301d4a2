//! Queries, a grammar, a text, its tree and a host in; what each query comes to out.
ghost use Rattle.std.specs.Prelude.{ℕ, ◌<◌, ◌^◌, All, length, IfOk};
ghost use Rattle.spec_history.specs.Queries.{IsResult, AreResults};
ghost use Rattle.ts_predicate.specs.Predicates.{AnswersOf, IsKept};
ghost use Rattle.ts_query_syntax.specs.declared.read_query.ReadQuery.{ReadQuery as AnyQuery};

use crate::keeping::PatternPredicates;
use crate::showing::matches_shown;
use std::alloc::{AllocError, Global};
use ts_base::List;
use ts_core::FlatGrammar;
use ts_match::{MatchFault, VisibleTree};
use ts_node::Node;
use ts_predicate::Hosts;
use ts_query_syntax::ReadQuery;
use ts_replies::ShownResult;
use ts_text::Text;

/// What each of the chosen queries comes to in a tree of the text, in the order of their numbers. A
/// number may stand more than once.
///
/// # Errors
///
/// `AllocError` where memory runs out, here and below.
pub fn answers<H: Hosts>(
    alloc: Global,
    grammar: &FlatGrammar,
    text: &Text,
    root: &Node,
    queries: &[ReadQuery],
    numbers: &[u32],
    hosts: &H,
) -> Result<List<ShownResult>, AllocError>
    requires few { All (λ (query : AnyQuery). length query.patterns < 2 ^ 32) queries.now }
    requires there { All (λ (number : ℕ). number < length queries.now) numbers.now }
    ensures { IfOk result (AreResults grammar.now queries.now
        (AnswersOf (H.called hosts.now) (H.accepts hosts.now)) text.now root.now numbers.now) }
{
    let tree = VisibleTree::new(alloc, grammar, root)?;
    let mut results = List::with_capacity(alloc, numbers.len())?;
    for number in numbers {
        let query = &queries[*number as usize];
        results.push(answer(alloc, text, &tree, query, hosts)?)?;
    }
    Ok(results)
}

/// What a query comes to in a visible tree of the text: its matches of which the predicates hold,
/// or `Many` where they are more than 100,000.
pub fn answer<H: Hosts>(
    alloc: Global,
    text: &Text,
    tree: &VisibleTree,
    query: &ReadQuery,
    hosts: &H,
) -> Result<ShownResult, AllocError>
    requires few { length query.now.patterns < 2 ^ 32 }
    ensures { IfOk result (IsResult query.now tree.now
        (IsKept (AnswersOf (H.called hosts.now) (H.accepts hosts.now)) query.now text.now)) }
{
    let mut keep = PatternPredicates::new(alloc, query, text, hosts)?;
    match tree.matches(alloc, query, &mut keep) {
        Ok(found) => {
            let shown = matches_shown(alloc, query, found.as_slice())?;
            Ok(ShownResult::Found(shown))
        }
        Err(MatchFault::Many) => Ok(ShownResult::Many),
        Err(MatchFault::Memory) => Err(AllocError),
    }
}

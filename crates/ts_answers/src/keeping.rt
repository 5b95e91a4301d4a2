//! The predicates of a query, pattern by pattern: a query, a text and what a host answers go in,
//! and which matches are kept comes out.
ghost use Rattle.std.specs.Prelude.{◌≡◌, IfOk};
ghost use Rattle.ts_predicate.specs.Predicates.{AnswersOf, IsKept};

use spec_matches::Match;
use std::alloc::{AllocError, Global};
use std::marker::Model;
use ts_match::Keep;
use ts_predicate::{Hosts, Predicates};
use ts_query_syntax::ReadQuery;
use ts_text::Text;

/// The predicates of a query over a text, once for each of its patterns. So what searches for those
/// of a pattern is made once, in whatever order the matches of the patterns come.
#[derive(Drop)]
pub(crate) struct PatternPredicates<'a, H: Hosts> {
    each: Vec<Predicates<'a, H>>,
    /// Those of a pattern that the query has not.
    none: Predicates<'a, H>,
}

impl<'a, H: Hosts> Model for PatternPredicates<'a, H> {
    ghost use Rattle.ts_predicate.specs.Rules.{Rules, rules_code};

    ghost Value = { Rules H };

    ghost coded = { rules_code H.code };

    ghost use Rattle.std.specs.Prelude.{◌≡◌, All};

    ghost view = { λ a. a.none };

    ghost invariant = { λ a. All (λ rules. rules ≡ a.none) a.each.items };
}

impl<'a, H: Hosts> PatternPredicates<'a, H> {
    /// The predicates of a query that was read with the names of these hosts.
    ///
    /// # Errors
    ///
    /// `AllocError` where memory runs out.
    pub(crate) fn new(
        alloc: Global,
        query: &'a ReadQuery,
        text: &'a Text,
        hosts: &'a H,
    ) -> Result<PatternPredicates<'a, H>, AllocError>
        ensures query { IfOk result (λ rules. rules.query ≡ query.now) }
        ensures text { IfOk result (λ rules. rules.text ≡ text.now) }
        ensures hosts { IfOk result (λ rules. rules.hosts ≡ hosts.now) }
    {
        let none = Predicates::new(query, text, hosts);
        let mut each = Vec::with_capacity(alloc, query.patterns.len())?;
        for _ in 0..query.patterns.len() {
            each.push(Predicates::new(query, text, hosts))?;
        }
        Ok(PatternPredicates { each, none })
    }
}

impl<H: Hosts> Keep for PatternPredicates<'_, H> {
    ghost kept = { λ p found. IsKept (AnswersOf (H.called p.hosts) (H.accepts p.hosts))
        p.query p.text found };

    fn keeps(&mut self, alloc: Global, found: &Match) -> Result<bool, AllocError> {
        let number = found.pattern as usize;
        if number < self.each.len() {
            self.each[number].keeps(alloc, found)
        } else {
            self.none.keeps(alloc, found)
        }
    }
}

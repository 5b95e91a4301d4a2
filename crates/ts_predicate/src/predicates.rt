//! Which matches of a query are kept: those of which the predicates of their pattern hold.
ghost use Rattle.std.specs.Prelude.{◌≡◌, ◌↔◌, Contains, IfOk, IsTrue};
ghost use Rattle.ts_predicate.specs.Predicates.{AnswersOf, IsKept, IsCaptureIn};

use crate::hosts::Hosts;
use crate::judge::{Judges, all_hold, ready};
use spec_matches::{Capture, Match};
use std::alloc::{AllocError, Global};
use std::marker::Model;
use ts_query_syntax::ReadQuery;
use ts_search::Keep;
use ts_text::Text;

/// The predicates of a query over a text, by what a host answers. What searches for the predicates
/// of a pattern is made once for matches that come one after another.
#[derive(Drop)]
pub struct Predicates<'a, H: Hosts> {
    query: &'a ReadQuery,
    text: &'a Text,
    hosts: &'a H,
    judges: Option<Judges<'a>>,
}

impl<'a, H: Hosts> Model for Predicates<'a, H> {
    ghost use Rattle.ts_predicate.specs.Rules.{Rules, rules_code};

    ghost Value = { Rules H };

    ghost coded = { rules_code H.code };

    ghost use Rattle.ts_predicate.specs.Judges.{AreOf};

    ghost view = { λ a. record {
      query = a.query.now;
      text = a.text.now;
      hosts = a.hosts.now;
    } };

    ghost invariant = { λ a. AreOf a.judges a.query.now };
}

impl<'a, H: Hosts> Predicates<'a, H> {
    /// The predicates of a query that was read with the names of these hosts. It takes no memory.
    pub fn new(query: &'a ReadQuery, text: &'a Text, hosts: &'a H) -> Predicates<'a, H>
        ensures query { result.query ≡ query.now }
        ensures text { result.text ≡ text.now }
        ensures hosts { result.hosts ≡ hosts.now }
    {
        Predicates {
            query,
            text,
            hosts,
            judges: None,
        }
    }
}

/// Whether a capture is one of the query's, with a range that lies in the text.
fn is_inside(query: &ReadQuery, text: &Text, capture: &Capture) -> bool
    ensures { IsTrue result ↔ IsCaptureIn query.now text.now capture.now }
{
    (capture.name as usize) < query.captures.len()
        && capture.start <= capture.end
        && text.is_boundary(capture.start)
        && text.is_boundary(capture.end)
}

/// Whether all captures are.
fn are_inside(query: &ReadQuery, text: &Text, captures: &[Capture]) -> bool
    ensures { IsTrue result ↔ ((c : _) → Contains captures.now c
        → IsCaptureIn query.now text.now c) }
{
    captures
        .iter()
        .all(|capture| is_inside(query, text, capture))
}

impl<H: Hosts> Keep for Predicates<'_, H> {
    ghost kept = { λ p found. IsKept (AnswersOf (H.called p.hosts) (H.accepts p.hosts))
        p.query p.text found };

    fn keeps(&mut self, alloc: Global, found: &Match) -> Result<bool, AllocError> {
        let number = found.pattern as usize;
        let captures = found.captures.as_slice();
        if number >= self.query.patterns.len() {
            return Ok(false);
        }
        if !are_inside(self.query, self.text, captures) {
            return Ok(false);
        }
        ready(alloc, &mut self.judges, self.query, number)?;
        all_hold(alloc, self.hosts, self.text, &mut self.judges, captures)
    }
}

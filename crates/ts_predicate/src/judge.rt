//! The predicates of a pattern, each with what searches for it: the captures of matches go in, one
//! match after another, and whether all predicates hold comes out.
ghost use Rattle.std.specs.Prelude.{◌≡◌, ◌<◌, ◌↔◌, length, Contains, IfOk, OnOk, IsTrue};
ghost use Rattle.spec_matches.specs.declared.found.Capture.{Capture as Mark};
ghost use Rattle.ts_query_syntax.specs.declared.read_query.Predicate.{Predicate as Rule};
ghost use Rattle.ts_query_syntax.specs.declared.read_query.ReadQuery.{ReadQuery as Asking};
ghost use Rattle.ts_predicate.specs.Judges.{AreFor, AreOf, predicates_of};
ghost use Rattle.ts_predicate.specs.Predicates.{AnswersOf, Holds, IsCaptureIn};

use crate::asking::matcher_of;
use crate::hosts::Hosts;
use crate::judging::holds;
use regex::Matcher;
use spec_matches::Capture;
use std::alloc::{AllocError, Global};
use std::marker::Model;
use ts_query_syntax::{Predicate, ReadQuery};
use ts_text::Text;

/// A predicate and, where it asks for a search, what searches. Contracts see the predicate.
#[derive(Drop)]
pub(crate) struct Judge<'a> {
    predicate: &'a Predicate,
    matcher: Option<Matcher<'a>>,
}

impl<'a> Model for Judge<'a> {
    ghost use Rattle.ts_query_syntax.specs.declared.read_query.Predicate.{Predicate};
    ghost use Rattle.ts_query_syntax.specs.contracts.read_query.Predicate as contract;
    ghost use Rattle.std.specs.Coded.{codes};

    ghost Value = { Predicate };

    ghost coded = { Prim.hlevel (codes, contract.the_row.coded) };

    ghost use Rattle.ts_predicate.specs.Asking.{HasMatcher};

    ghost view = { λ a. a.predicate.now };

    ghost invariant = { λ a. HasMatcher a.matcher a.predicate.now.asked };
}

impl<'a> Judge<'a> {
    /// What judges by a predicate.
    fn new(alloc: Global, predicate: &'a Predicate) -> Result<Judge<'a>, AllocError>
        ensures { IfOk result (λ judge. judge ≡ predicate.now) }
    {
        let matcher = matcher_of(alloc, &predicate.asked)?;
        Ok(Judge { predicate, matcher })
    }

    /// Whether the predicate holds of the captures of a match.
    fn holds<H: Hosts>(
        &mut self,
        alloc: Global,
        hosts: &H,
        text: &Text,
        captures: &[Capture],
    ) -> Result<bool, AllocError>
        requires within { (query : Asking) × ((c : Mark) → Contains captures.now c
            → IsCaptureIn query text.now c) }
        ensures same { self.new ≡ self.old }
        ensures holds { IfOk result (λ yes. IsTrue yes ↔ Holds (AnswersOf (H.called hosts.now)
            (H.accepts hosts.now)) text.now captures.now self.old) }
    {
        holds(
            alloc,
            hosts,
            text,
            self.predicate,
            &mut self.matcher,
            captures,
        )
    }
}

/// What judges by the predicates of the pattern of a number.
#[derive(Drop)]
pub(crate) struct Judges<'a> {
    number: usize,
    all: Vec<Judge<'a>>,
}

impl<'a> Judges<'a> {
    /// Whether all predicates hold of the captures of a match.
    fn hold<H: Hosts>(
        &mut self,
        alloc: Global,
        hosts: &H,
        text: &Text,
        captures: &[Capture],
    ) -> Result<bool, AllocError>
        requires within { (query : Asking) × ((c : Mark) → Contains captures.now c
            → IsCaptureIn query text.now c) }
        ensures number { self.new.number ≡ self.old.number }
        ensures all { self.new.all.items ≡ self.old.all.items }
        ensures hold { IfOk result (λ yes. IsTrue yes ↔ ((p : Rule) → Contains self.old.all.items p
            → Holds (AnswersOf (H.called hosts.now) (H.accepts hosts.now)) text.now captures.now
            p)) }
    {
        for k in 0..self.all.len() {
            if !self.all[k].holds(alloc, hosts, text, captures)? {
                return Ok(false);
            }
        }
        Ok(true)
    }
}

/// What judges by each of some predicates.
fn judges_of<'a>(alloc: Global, predicates: &'a [Predicate]) -> Result<Vec<Judge<'a>>, AllocError>
    ensures { IfOk result (λ all. all.items ≡ predicates.now) }
{
    let mut all = Vec::with_capacity(alloc, predicates.len())?;
    for predicate in predicates {
        let judge = Judge::new(alloc, predicate)?;
        all.push(judge)?;
    }
    Ok(all)
}

/// Whether they judge for the pattern of a number.
fn are_for(judges: &Option<Judges<'_>>, number: usize) -> bool
    ensures { IsTrue result ↔ AreFor judges.now number }
{
    match judges {
        Some(judges) => judges.number == number,
        None => false,
    }
}

/// Makes those for the pattern of a number, where there are others or none.
pub(crate) fn ready<'a>(
    alloc: Global,
    judges: &mut Option<Judges<'a>>,
    query: &'a ReadQuery,
    number: usize,
) -> Result<(), AllocError>
    requires within { number < length query.now.patterns }
    requires are { AreOf judges.old query.now }
    ensures are { AreOf judges.new query.now }
    ensures ready { OnOk result (AreFor judges.new number) }
{
    if are_for(judges, number) {
        return Ok(());
    }
    let pattern = query.patterns.get(number);
    let all = judges_of(alloc, pattern.predicates.as_slice())?;
    *judges = Some(Judges { number, all });
    Ok(())
}

/// Whether the predicates by which they judge hold of the captures of a match.
pub(crate) fn all_hold<H: Hosts>(
    alloc: Global,
    hosts: &H,
    text: &Text,
    judges: &mut Option<Judges<'_>>,
    captures: &[Capture],
) -> Result<bool, AllocError>
    requires within { (query : Asking) × ((c : Mark) → Contains captures.now c
        → IsCaptureIn query text.now c) }
    ensures are { (query : Asking) → AreOf judges.old query → AreOf judges.new query }
    ensures hold { IfOk result (λ yes. IsTrue yes ↔ ((p : Rule)
        → Contains (predicates_of judges.old) p
        → Holds (AnswersOf (H.called hosts.now) (H.accepts hosts.now)) text.now captures.now p)) }
{
    match judges {
        Some(judges) => judges.hold(alloc, hosts, text, captures),
        None => Ok(true),
    }
}

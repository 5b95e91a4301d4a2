//! One predicate of a match: the texts of the match's captures and what is asked of them go in, and
//! whether the predicate holds comes out.
ghost use Rattle.std.specs.Prelude.{◌≡◌, ◌↔◌, true, false, nat_eq, IfOk, IsTrue};
ghost use Rattle.std.specs.List.{Contains};
ghost use Rattle.spec_matches.specs.declared.found.Capture.{Capture as Mark};
ghost use Rattle.ts_query_syntax.specs.declared.read_query.ReadQuery.{ReadQuery as Asking};
ghost use Rattle.ts_predicate.specs.Predicates.{AnswersOf, IsAs, IsCaptureIn, OfTexts, OfPairs, Holds, capture_text, texts_of};
ghost use Rattle.ts_predicate.specs.Asking.{HasMatcher, IsOfOne, LeavesOpen};

use crate::asking::is_as;
use crate::hosts::Hosts;
use regex::Matcher;
use spec_matches::Capture;
use std::alloc::{AllocError, Global};
use ts_query_syntax::{Asked, Predicate};
use ts_text::{Slice, Text};

/// The texts of the nodes that a capture names, in order.
fn texts<'a>(
    alloc: Global,
    text: &'a Text,
    captures: &[Capture],
    name: u16,
) -> Result<Vec<Slice<'a>>, AllocError>
    requires within { (query : Asking) × ((c : Mark) → Contains captures.now c
        → IsCaptureIn query text.now c) }
    ensures { IfOk result (λ texts. texts.items ≡ texts_of text.now name captures.now) }
{
    let mut texts = Vec::new(alloc);
    for capture in captures {
        if capture.name == name {
            texts.push(text.slice(alloc, capture.start, capture.end)?)?;
        }
    }
    Ok(texts)
}

/// Whether a capture is of this name.
fn is_named(capture: &Capture, name: u16) -> bool
    ensures { result ≡ nat_eq capture.now.name name }
{
    capture.name == name
}

/// Whether the text of a node is as a predicate asks.
fn is_of_node<H: Hosts>(
    alloc: Global,
    hosts: &H,
    text: &Text,
    predicate: &Predicate,
    matcher: &mut Option<Matcher<'_>>,
    capture: &Capture,
) -> Result<bool, AllocError>
    requires node { (query : Asking) × IsCaptureIn query text.now capture.now }
    requires one { IsOfOne predicate.now.asked }
    requires matcher { HasMatcher matcher.old predicate.now.asked }
    ensures matcher { HasMatcher matcher.new predicate.now.asked }
    ensures is { IfOk result (λ is. IsTrue is
        ↔ IsAs (AnswersOf (H.called hosts.now) (H.accepts hosts.now)) predicate.now.asked
        (capture_text text.now capture.now)) }
{
    let one = text.slice(alloc, capture.start, capture.end)?;
    Ok(is_as(hosts, &predicate.asked, matcher, one.text()))
}

/// Whether the texts of the nodes that a predicate's capture names, all or some, are as they are
/// asked to be. No list of them is made.
fn of_texts<H: Hosts>(
    alloc: Global,
    hosts: &H,
    text: &Text,
    predicate: &Predicate,
    matcher: &mut Option<Matcher<'_>>,
    captures: &[Capture],
) -> Result<bool, AllocError>
    requires within { (query : Asking) × ((c : Mark) → Contains captures.now c
        → IsCaptureIn query text.now c) }
    requires one { IsOfOne predicate.now.asked }
    requires matcher { HasMatcher matcher.old predicate.now.asked }
    ensures matcher { HasMatcher matcher.new predicate.now.asked }
    ensures is { IfOk result (λ is. IsTrue is ↔ OfTexts predicate.now.some predicate.now.negated
        (IsAs (AnswersOf (H.called hosts.now) (H.accepts hosts.now)) predicate.now.asked)
        (texts_of text.now predicate.now.capture captures.now)) }
{
    for capture in captures {
        if !is_named(capture, predicate.capture) {
            continue;
        }
        let is = is_of_node(alloc, hosts, text, predicate, matcher, capture)?;
        if decides(predicate, is) {
            return Ok(predicate.some);
        }
    }
    Ok(!predicate.some)
}

/// Whether one text, or one pair, decides: one that is not as asked where all have to be, or one
/// that is where some has to be.
fn decides(predicate: &Predicate, is: bool) -> bool
    ensures yes { result ≡ true → LeavesOpen predicate.now.some predicate.now.negated
        (IsTrue is) → ⊥ }
    ensures no { result ≡ false → LeavesOpen predicate.now.some predicate.now.negated
        (IsTrue is) }
{
    (is != predicate.negated) == predicate.some
}

/// Whether two texts are equal.
fn are_same(text: &Slice<'_>, other: &Slice<'_>) -> bool
    ensures { IsTrue result ↔ (text.now ≡ other.now) }
{
    text.text() == other.text()
}

/// Whether lists of these lengths may be as asked: where they have to be equal, so have the
/// lengths.
fn may_be_equal(predicate: &Predicate, count: usize, other: usize) -> bool
    ensures yes { result ≡ true → predicate.now.some ≡ false → predicate.now.negated ≡ false
        → count ≡ other }
    ensures no { result ≡ false → (predicate.now.some ≡ false) × (predicate.now.negated ≡ false)
        × (count ≡ other → ⊥) }
{
    predicate.some || predicate.negated || count == other
}

/// Whether the lists are equal, or their pairs, or some pair, are equal or differ.
#[tactic(auto, using(crate::proofs::AskLemmas::pairs_more_read, crate::proofs::AskLemmas::pair_decides_read))]
fn of_pairs(predicate: &Predicate, texts: &[Slice<'_>], others: &[Slice<'_>]) -> bool
    ensures { IsTrue result
        ↔ OfPairs predicate.now.some predicate.now.negated texts.now others.now }
{
    if !may_be_equal(predicate, texts.len(), others.len()) {
        return false;
    }
    for k in 0..texts.len().min(others.len()) {
        if decides(predicate, are_same(&texts[k], &others[k])) {
            return predicate.some;
        }
    }
    !predicate.some
}

/// Whether a predicate holds of the captures of a match.
pub(crate) fn holds<H: Hosts>(
    alloc: Global,
    hosts: &H,
    text: &Text,
    predicate: &Predicate,
    matcher: &mut Option<Matcher<'_>>,
    captures: &[Capture],
) -> Result<bool, AllocError>
    requires within { (query : Asking) × ((c : Mark) → Contains captures.now c
        → IsCaptureIn query text.now c) }
    requires matcher { HasMatcher matcher.old predicate.now.asked }
    ensures matcher { HasMatcher matcher.new predicate.now.asked }
    ensures holds { IfOk result (λ yes. IsTrue yes ↔ Holds (AnswersOf (H.called hosts.now)
        (H.accepts hosts.now)) text.now captures.now predicate.now) }
{
    if let Asked::Capture(other) = predicate.asked {
        let own = texts(alloc, text, captures, predicate.capture)?;
        let others = texts(alloc, text, captures, other)?;
        return Ok(of_pairs(predicate, own.as_slice(), others.as_slice()));
    }
    of_texts(alloc, hosts, text, predicate, matcher, captures)
}

//! What one text is asked to be: a text and what is asked go in, and whether it is so comes out.
ghost use Rattle.std.specs.Prelude.{◌≡◌, ◌↔◌, Contains, IfOk, IsTrue};
ghost use Rattle.ts_predicate.specs.Predicates.{IsAs, AnswersOf};
ghost use Rattle.ts_predicate.specs.Asking.{HasMatcher, IsOfOne};

use crate::hosts::Hosts;
use regex::Matcher;
use std::alloc::{AllocError, Global};
use ts_base::Str;
use ts_query_syntax::Asked;

/// What searches, where a search is asked for.
pub(crate) fn matcher_of(alloc: Global, asked: &Asked) -> Result<Option<Matcher<'_>>, AllocError>
    ensures { IfOk result (λ matcher. HasMatcher matcher asked.now) }
{
    match asked {
        Asked::Found(search) => Ok(Some(search.matcher(alloc)?)),
        Asked::Text(_) | Asked::Capture(_) | Asked::OneOf(_) | Asked::Host(_) => Ok(None),
    }
}

/// Whether a text is as it is asked to be.
pub(crate) fn is_as<H: Hosts>(
    hosts: &H,
    asked: &Asked,
    matcher: &mut Option<Matcher<'_>>,
    text: &str,
) -> bool
    requires one { IsOfOne asked.now }
    requires matcher { HasMatcher matcher.old asked.now }
    ensures matcher { HasMatcher matcher.new asked.now }
    ensures is { IsTrue result
        ↔ IsAs (AnswersOf (H.called hosts.now) (H.accepts hosts.now)) asked.now text.now }
{
    match asked {
        Asked::Text(wanted) => wanted.text() == text,
        Asked::OneOf(all) => is_among(all.as_slice(), text),
        Asked::Found(_) => match matcher {
            Some(matcher) => matcher.is_match(text),
            None => unreachable!(),
        },
        Asked::Host(number) => answers(hosts, *number, text),
        Asked::Capture(_) => unreachable!(),
    }
}

/// Whether a text is one of some texts.
fn is_among(all: &[Str], text: &str) -> bool
    ensures { IsTrue result ↔ Contains all.now text.now }
{
    all.iter().any(|one| one.text() == text)
}

/// Whether there is a predicate of this number, and it holds for a text.
fn answers<H: Hosts>(hosts: &H, number: u32, text: &str) -> bool
    ensures { IsTrue result ↔ AnswersOf (H.called hosts.now) (H.accepts hosts.now) number text.now }
{
    (number as usize) < hosts.names().len() && hosts.holds(number, text)
}

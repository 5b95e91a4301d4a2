//! Queries that are judged: parts that are written go in, and the patterns that they are, or the
//! first fault, comes out. Expressions are built on the way.
ghost use Rattle.std.specs.Prelude.{◌≡◌, ◌++◌, ◌∷◌, [], IfOk, OnOk};
ghost use Rattle.std.specs.List.{flat_map};
ghost use Rattle.ts_query_names.specs.Asking.{asking_of, asked_form};
ghost use Rattle.ts_query_names.specs.Checks.{kind_checks, field_checks, form_checks, mention_checks, pattern_checks, checks};
ghost use Rattle.ts_query_names.specs.Given.{names_told};
ghost use Rattle.ts_query_names.specs.Lent.{mention_told, mentions_told};
ghost use Rattle.ts_query_names.specs.LentNames.{told};
ghost use Rattle.ts_query_syntax.specs.Judging.{Runs, kept, fault_in};
ghost use Rattle.ts_query_syntax.specs.Queries.{IsPredicate, ArePredicates, AddsPredicates, IsPattern, ArePatterns};

use crate::asked::{asked, subject};
use crate::fault::QueryFault;
use crate::items::pattern_level;
use crate::patterns::Patterns;
use crate::read_query::{Pattern, Predicate};
use indexmap::IndexSet;
use std::alloc::Global;
use ts_base::{List, Str};
use ts_query_names::{Flaw, Mention, Numbers, Scope, own_captures, pattern_mentions};
use ts_query_tree::{Operand, Part, Written};

/// Judges a predicate, and builds its expression.
fn predicate<P: Patterns>(
    alloc: Global,
    scope: &Scope,
    numbers: &Numbers,
    own: &IndexSet<&Str>,
    patterns: &mut P,
    name: &Written,
    operands: &[Operand],
) -> Result<Predicate, QueryFault>
    ensures runs { Runs (form_checks (told own.now.keys) name.now.at
        (asked_form (asking_of scope.now.hosts.now name.now.text) operands.now))
        (kept (P.sources patterns.old) (P.refusals patterns.old))
        (kept (P.sources patterns.new) (P.refusals patterns.new)) (fault_in result) }
    ensures is { IfOk result
        (IsPredicate scope.now.hosts.now (names_told numbers.now) name.now operands.now) }
{
    let wanted = scope.wanted(own, name, operands)?;
    let asked = asked(alloc, numbers, patterns, &wanted.form)?;
    let capture = numbers.capture(&subject(&wanted.form).text);
    Ok(Predicate {
        capture,
        asked,
        negated: wanted.asking.negated,
        some: wanted.asking.some,
    })
}

/// Judges what a pattern names. A predicate is put at the end.
fn judge<P: Patterns>(
    alloc: Global,
    scope: &Scope,
    numbers: &Numbers,
    own: &IndexSet<&Str>,
    patterns: &mut P,
    mention: &Mention,
    found: &mut List<Predicate>,
) -> Result<(), QueryFault>
    ensures runs { Runs (mention_checks scope.now.flat.now scope.now.hosts.now (told own.now.keys)
        (mention_told mention.now)) (kept (P.sources patterns.old) (P.refusals patterns.old))
        (kept (P.sources patterns.new) (P.refusals patterns.new)) (fault_in result) }
    ensures found { OnOk result (AddsPredicates scope.now.hosts.now (names_told numbers.now)
        (mention_told mention.now) found.old found.new) }
{
    match mention {
        Mention::Kind(name, named) => {
            scope.check_kind(name, *named)?;
            Ok(())
        }
        Mention::Field(name) => {
            scope.check_field(name)?;
            Ok(())
        }
        Mention::Capture(_) => Ok(()),
        Mention::Predicate(name, operands) => {
            let one = predicate(
                alloc,
                scope,
                numbers,
                own,
                patterns,
                name,
                operands.as_slice(),
            )?;
            found.push(one)?;
            Ok(())
        }
        Mention::Nested(at) => Err(QueryFault::NestedQuantifier(*at)),
    }
}

/// Judges all that a pattern names, in order.
fn judge_all<P: Patterns>(
    alloc: Global,
    scope: &Scope,
    numbers: &Numbers,
    own: &IndexSet<&Str>,
    patterns: &mut P,
    mentions: &[Mention],
) -> Result<List<Predicate>, QueryFault>
    ensures runs { Runs (flat_map (mention_checks scope.now.flat.now scope.now.hosts.now
        (told own.now.keys)) (mentions_told mentions.now))
        (kept (P.sources patterns.old) (P.refusals patterns.old))
        (kept (P.sources patterns.new) (P.refusals patterns.new)) (fault_in result) }
    ensures is { IfOk result (ArePredicates scope.now.hosts.now (names_told numbers.now)
        (mentions_told mentions.now)) }
{
    let mut found = List::new(alloc);
    for mention in mentions {
        judge(alloc, scope, numbers, own, patterns, mention, &mut found)?;
    }
    Ok(found)
}

/// The pattern that a part is.
fn pattern<P: Patterns>(
    alloc: Global,
    scope: &Scope,
    numbers: &Numbers,
    patterns: &mut P,
    part: &Part,
) -> Result<Pattern, QueryFault>
    ensures runs { Runs (pattern_checks scope.now.flat.now scope.now.hosts.now part.now)
        (kept (P.sources patterns.old) (P.refusals patterns.old))
        (kept (P.sources patterns.new) (P.refusals patterns.new)) (fault_in result) }
    ensures is { IfOk result
        (IsPattern scope.now.hosts.now (names_told numbers.now) part.now) }
{
    let level = pattern_level(alloc, numbers, part)?;
    let mentions = pattern_mentions(alloc, part)?;
    let own = own_captures(alloc, mentions.as_slice())?;
    let predicates = judge_all(alloc, scope, numbers, &own, patterns, mentions.as_slice())?;
    let closed = level.is_closed();
    Ok(Pattern {
        items: level.items,
        closed,
        predicates,
    })
}

/// The patterns that parts are.
pub(crate) fn patterns_of<P: Patterns>(
    alloc: Global,
    scope: &Scope,
    numbers: &Numbers,
    patterns: &mut P,
    parts: &[Part],
) -> Result<List<Pattern>, QueryFault>
    ensures runs { Runs (checks scope.now.flat.now scope.now.hosts.now parts.now)
        (kept (P.sources patterns.old) (P.refusals patterns.old))
        (kept (P.sources patterns.new) (P.refusals patterns.new)) (fault_in result) }
    ensures is { IfOk result
        (ArePatterns scope.now.hosts.now (names_told numbers.now) parts.now) }
{
    let mut found = List::new(alloc);
    for part in parts {
        let one = pattern(alloc, scope, numbers, patterns, part)?;
        found.push(one)?;
    }
    Ok(found)
}

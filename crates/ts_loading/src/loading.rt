//! The texts of queries in; the queries, or the first fault among them, out.
ghost use Rattle.std.specs.Prelude.{◌≡◌, ℕ, ◌+◌, ◌<◌, ◌≤◌, ◌^◌, [], List as Values, All, length, slice_get, Some, IfOk, IfErr, OnOk};
ghost use Rattle.ts_base.specs.Bytes.{Bytes};
ghost use Rattle.ts_query_syntax.specs.Queries.{most_query_bytes};
ghost use Rattle.ts_query_syntax.specs.Refusals.{HasRisen};
ghost use Rattle.ts_query_syntax.specs.declared.read_query.ReadQuery.{ReadQuery as AnyQuery};
ghost use Rattle.ts_loading.specs.Loads.{AreQueries, GrewByEach, HasLoadCause, load_fault};
ghost use Rattle.ts_loading.specs.Reading.{AreLoadedAs};

use crate::fault::LoadFault;
use std::alloc::Global;
use ts_core::{FlatGrammar, List, Str};
use ts_query_syntax::{Patterns, QueryFault, ReadQuery, query};

/// Reads the queries of these texts in their order, up to the first that is refused. `hosts` are
/// the names of a host's predicates. The expressions in them are built by `patterns`.
///
/// # Errors
///
/// `Query` with the fault that `query` answers, and with the number of the query from 0. `Memory`
/// may come at any time.
pub fn load<P: Patterns>(
    alloc: Global,
    grammar: &FlatGrammar,
    hosts: &List<Str>,
    texts: &[Str],
    patterns: &mut P,
) -> Result<List<ReadQuery>, LoadFault>
    requires short { All (λ (text : Bytes). length text ≤ most_query_bytes) texts.now }
    requires few { length texts.now ≤ 2 ^ 32 }
    requires few_fields { length grammar.now.fields ≤ 2 ^ 16 }
    requires few_hosts { length hosts.now ≤ 2 ^ 32 }
    ensures loaded { IfOk result (AreQueries grammar.now hosts.now texts.now) }
    ensures few { IfOk result (All (λ (q : AnyQuery). length q.patterns < 2 ^ 32)) }
    ensures built { IfOk result (λ _. GrewByEach grammar.now hosts.now texts.now
        (P.sources patterns.old) (P.sources patterns.new)) }
    ensures cause { IfErr result (HasLoadCause grammar.now hosts.now texts.now
        (HasRisen (P.refusals patterns.old) (P.refusals patterns.new))
        (P.sources patterns.old) (P.sources patterns.new)) }
    ensures later { P.refusals patterns.old ≤ P.refusals patterns.new }
{
    let mut queries = List::with_capacity(alloc, texts.len())?;
    match read_all(alloc, grammar, hosts, texts, patterns, &mut queries) {
        Ok(()) => Ok(queries),
        Err(fault) => Err(fault),
    }
}

/// Reads the queries of these texts, and puts them into an empty list.
fn read_all<P: Patterns>(
    alloc: Global,
    grammar: &FlatGrammar,
    hosts: &List<Str>,
    texts: &[Str],
    patterns: &mut P,
    queries: &mut List<ReadQuery>,
) -> Result<(), LoadFault>
    requires short { All (λ (text : Bytes). length text ≤ most_query_bytes) texts.now }
    requires few { length texts.now ≤ 2 ^ 32 }
    requires few_fields { length grammar.now.fields ≤ 2 ^ 16 }
    requires few_hosts { length hosts.now ≤ 2 ^ 32 }
    requires empty { queries.old ≡ [] }
    ensures read { OnOk result (AreLoadedAs grammar.now hosts.now texts.now (length texts.now)
        queries.new (P.sources patterns.old) (P.sources patterns.new)) }
    ensures cause { IfErr result (HasLoadCause grammar.now hosts.now texts.now
        (HasRisen (P.refusals patterns.old) (P.refusals patterns.new))
        (P.sources patterns.old) (P.sources patterns.new)) }
    ensures later { P.refusals patterns.old ≤ P.refusals patterns.new }
{
    for number in 0..texts.len() {
        let text = &texts[number];
        match read_one(
            alloc,
            grammar,
            hosts,
            text,
            number as u32,
            patterns,
            queries,
        ) {
            Ok(()) => {}
            Err(fault) => return Err(fault),
        }
    }
    Ok(())
}

/// Reads the query of the text of this number, and puts it at the end.
fn read_one<P: Patterns>(
    alloc: Global,
    grammar: &FlatGrammar,
    hosts: &List<Str>,
    text: &Str,
    number: u32,
    patterns: &mut P,
    queries: &mut List<ReadQuery>,
) -> Result<(), LoadFault>
    requires short { length text.now ≤ most_query_bytes }
    requires few_fields { length grammar.now.fields ≤ 2 ^ 16 }
    requires few_hosts { length hosts.now ≤ 2 ^ 32 }
    ensures read { OnOk result ((texts before : Values Bytes)
        → slice_get texts number ≡ Some text.now
        → AreLoadedAs grammar.now hosts.now texts number queries.old before (P.sources patterns.old)
        → AreLoadedAs grammar.now hosts.now texts (number + 1) queries.new before
        (P.sources patterns.new)) }
    ensures cause { IfErr result (λ e. (texts before : Values Bytes) (count : ℕ)
        → slice_get texts number ≡ Some text.now
        → AreLoadedAs grammar.now hosts.now texts number queries.old before (P.sources patterns.old)
        → count ≤ P.refusals patterns.old → HasLoadCause grammar.now hosts.now texts
        (HasRisen count (P.refusals patterns.new)) before (P.sources patterns.new) e) }
    ensures later { P.refusals patterns.old ≤ P.refusals patterns.new }
{
    match query(alloc, text.text(), grammar, hosts, patterns) {
        Ok(found) => {
            queries.push(found)?;
            Ok(())
        }
        Err(fault) => Err(refused(number, fault)),
    }
}

/// Why queries are not loaded where the one of this number has this fault.
fn refused(number: u32, fault: QueryFault) -> LoadFault
    ensures { result ≡ load_fault number fault }
{
    match fault {
        QueryFault::Memory => LoadFault::Memory,
        QueryFault::Syntax(_)
        | QueryFault::Deep(_)
        | QueryFault::UnknownNode(_)
        | QueryFault::UnknownField(_)
        | QueryFault::UnknownCapture(_)
        | QueryFault::UnknownPredicate(_)
        | QueryFault::NestedQuantifier(_)
        | QueryFault::Regex(_) => LoadFault::Query { number, fault },
    }
}

//! The reader of queries: a text, a grammar in normal form and the names of a host's predicates go
//! in, and the query or its first fault comes out.
ghost use Rattle.std.specs.Prelude.{◌≡◌, ◌≢◌, ◌⊎◌, ◌^◌, ◌<◌, ◌≤◌, length, map, IfOk, IfErr, IsErrAnd};
ghost use Rattle.ts_query_names.specs.Checks.{checks};
ghost use Rattle.ts_query_names.specs.Given.{names_told};
ghost use Rattle.ts_query_names.specs.LentNames.{told, kinds_told};
ghost use Rattle.ts_query_names.specs.Mentions.{named_in, kinds_named, any_captures};
ghost use Rattle.ts_query_syntax.specs.Judging.{Runs, kept, fault_in};
ghost use Rattle.ts_query_syntax.specs.declared.fault.QueryFault.{QueryFault as AnyFault};
ghost use Rattle.ts_query_syntax.specs.declared.read_query.ReadQuery.{ReadQuery as AnyQuery};
ghost use Rattle.ts_query_syntax.specs.Queries.{most_query_bytes, kind_name, names_of, IsNumbered, IsQuery, IsQueryFault, IsRegex, GrewByAll, GrewWith};
ghost use Rattle.ts_query_syntax.specs.Refusals.{HasRisen};

use crate::fault::QueryFault;
use crate::judge::patterns_of;
use crate::patterns::Patterns;
use crate::read_query::{QueryKind, ReadQuery};
use indexmap::IndexSet;
use std::alloc::{AllocError, Global};
use ts_base::{List, Str};
use ts_core::FlatGrammar;
use ts_query_names::{Numbers, Scope, names_fit, numbers_of, query_mentions};
use ts_query_tree::{Part, one_fault, one_query, read, refused_is_not_read};

/// Reads a query by the rules of Tree-sitter's query files. `hosts` are the names of a host's
/// predicates, each with its `?` or `!`; a name that every query knows stays what it is. The
/// expressions of `#match?` and its kin are built by `patterns`, each once, in the order in which
/// they are written.
///
/// # Errors
///
/// `Syntax` and `Deep` come first, over the whole text, and then the fault that is written first.
/// `Regex` comes only where `patterns` refuses an expression and no other fault stands before it.
/// `Memory` may come at any time.
pub fn query<P: Patterns>(
    alloc: Global,
    source: &str,
    flat: &FlatGrammar,
    hosts: &List<Str>,
    patterns: &mut P,
) -> Result<ReadQuery, QueryFault>
    requires short { length source.now ≤ most_query_bytes }
    requires few_fields { length flat.now.fields ≤ 2 ^ 16 }
    requires few_hosts { length hosts.now ≤ 2 ^ 32 }
    ensures ok { IfOk result (IsQuery flat.now hosts.now source.now) }
    ensures few { IfOk result (λ q. length q.patterns ≤ most_query_bytes) }
    ensures refused { IfErr result (IsQueryFault flat.now hosts.now source.now) }
    ensures complete { IfErr result (λ e. e ≢ QueryFault.Memory → (IsRegex e → ⊥)
        → (q : AnyQuery) → IsQuery flat.now hosts.now source.now q → ⊥) }
    ensures exact { (f : AnyFault) → f ≢ QueryFault.Memory → (IsRegex f → ⊥)
        → IsQueryFault flat.now hosts.now source.now f
        → IsErrAnd result (λ e. (e ≡ f) ⊎ (IsRegex e ⊎ (e ≡ QueryFault.Memory))) }
    ensures built { IfOk result (λ _. GrewByAll flat.now hosts.now source.now
        (P.sources patterns.old) (P.sources patterns.new)) }
    ensures built_before { IfErr result (GrewWith flat.now hosts.now source.now
        (P.sources patterns.old) (P.sources patterns.new)) }
    ensures later { P.refusals patterns.old ≤ P.refusals patterns.new }
    ensures regex { IfErr result (λ e. IsRegex e
        → HasRisen (P.refusals patterns.old) (P.refusals patterns.new)) }
{
    one_query();
    refused_is_not_read();
    one_fault();
    names_fit();
    match read(alloc, source) {
        Ok(parts) => query_of(alloc, flat, hosts, patterns, &parts),
        Err(fault) => Err(QueryFault::from(fault)),
    }
}

/// Copies of names.
fn name_list(alloc: Global, names: &IndexSet<&Str>) -> Result<List<Str>, AllocError>
    ensures { IfOk result (λ found. found ≡ told names.now.keys) }
{
    let mut found = List::new(alloc);
    for name in names.as_slice() {
        let copy = Str::from_text(alloc, name.text())?;
        found.push(copy)?;
    }
    Ok(found)
}

/// Copies of kinds.
fn kind_list(alloc: Global, kinds: &IndexSet<(&Str, bool)>) -> Result<List<QueryKind>, AllocError>
    ensures { IfOk result (λ found. map kind_name found ≡ kinds_told kinds.now.keys) }
{
    let mut found = List::new(alloc);
    for (name, named) in kinds.as_slice() {
        let kind = QueryKind {
            name: Str::from_text(alloc, name.text())?,
            named: *named,
        };
        found.push(kind)?;
    }
    Ok(found)
}

/// The numbers of what parts name.
#[tactic(auto, using(crate::proofs::NumberLemmas::names_made))]
fn numbered<'a>(
    alloc: Global,
    flat: &'a FlatGrammar,
    parts: &'a [Part],
) -> Result<Numbers<'a>, AllocError>
    requires few_fields { length flat.now.fields ≤ 2 ^ 16 }
    requires few_kinds { length (kinds_named (named_in parts.now)) ≤ 2 ^ 32 }
    requires few_captures { length (any_captures (named_in parts.now)) ≤ 2 ^ 16 }
    ensures { IfOk result (λ n. names_told n ≡ names_of flat.now parts.now) }
{
    let mentions = query_mentions(alloc, parts)?;
    let numbers = numbers_of(alloc, flat, mentions.as_slice())?;
    Ok(numbers)
}

/// The query that parts are.
fn query_of<P: Patterns>(
    alloc: Global,
    flat: &FlatGrammar,
    hosts: &List<Str>,
    patterns: &mut P,
    parts: &List<Part>,
) -> Result<ReadQuery, QueryFault>
    requires few_fields { length flat.now.fields ≤ 2 ^ 16 }
    requires few_hosts { length hosts.now ≤ 2 ^ 32 }
    requires few_kinds { length (kinds_named (named_in parts.now)) ≤ 2 ^ 32 }
    requires few_captures { length (any_captures (named_in parts.now)) ≤ 2 ^ 16 }
    ensures runs { Runs (checks flat.now hosts.now parts.now)
        (kept (P.sources patterns.old) (P.refusals patterns.old))
        (kept (P.sources patterns.new) (P.refusals patterns.new)) (fault_in result) }
    ensures is { IfOk result (IsNumbered flat.now hosts.now parts.now) }
{
    let numbers = numbered(alloc, flat, parts.as_slice())?;
    let scope = Scope::of(alloc, flat, hosts.as_slice())?;
    let captures = name_list(alloc, &numbers.captures)?;
    let kinds = kind_list(alloc, &numbers.kinds)?;
    let patterns = patterns_of(alloc, &scope, &numbers, patterns, parts.as_slice())?;
    Ok(ReadQuery {
        patterns,
        captures,
        kinds,
    })
}

//! What was read of the files of a grammar and a script in; a session, or the refusal of the files,
//! out.
ghost use Rattle.std.specs.Prelude.{◌≡◌, ◌<◌, ◌≤◌, ◌^◌, Some, List as Values, All, length, IfOk};
ghost use Rattle.ts_base.specs.Bytes.{Bytes};
ghost use Rattle.ts_core.specs.declared.flat.FlatGrammar.{FlatGrammar as AnyForm};
ghost use Rattle.ts_io.specs.Outside.{Files, Rose, file_at};
ghost use Rattle.ts_io.specs.Read.{AnswersFor, KeepsLimit};
ghost use Rattle.ts_loading.specs.Loads.{HaveNoFaults};
ghost use Rattle.ts_query_syntax.specs.Refusals.{HasRisen};
ghost use Rattle.ts_query_syntax.specs.declared.read_query.ReadQuery.{ReadQuery as AnyQuery};
ghost use Rattle.ts_script.specs.Rules.{most_script_bytes};
ghost use Rattle.ts_script.specs.Script.{IsScript};
ghost use Rattle.ts_session.specs.Firsts.{AreFirsts};
ghost use Rattle.ts_session.specs.Grammars.{Builds};
ghost use Rattle.ts_session.specs.Limits.{most_file_bytes};
ghost use Rattle.ts_session.specs.Opened.{OpensAs, HasReadQueries, HasStatus};
ghost use Rattle.ts_session.specs.Parts.{AsksFor, HasScript, IsParts, AreParts, HasFirstTexts, HasQueries};
ghost use Rattle.ts_session.specs.Sessions.{IsAsked};

use crate::answer::{Answer, Unanswered, no_script, not_loaded, too_large};
use crate::first::{First, Firsts, read_firsts};
use crate::opened::Opened;
use crate::openings::{Openings, openings_of};
use crate::session::Session;
use spec_output::Status;
use std::alloc::{AllocError, Global};
use ts_core::{List, Str};
use ts_front::{Uncompiled, table_in};
use ts_io::{Folder, Found};
use ts_loading::{load, loaded_have_no_faults};
use ts_query_syntax::{Patterns, ReadQuery};
use ts_script::{Plan, SFault, script};
use ts_table::Table;
use ts_text::Text;

/// What a script asks for.
#[derive(Debug, Drop)]
enum Asked {
    Plan(Plan),
    /// It is none; with the status and the line that say so.
    Refused(Answer),
}

/// What a session has beside a parse table and what its script asks for.
#[derive(Drop)]
enum Parts {
    All {
        queries: List<ReadQuery>,
        texts: Vec<Text>,
    },
    /// They are refused; with the status and the line that say so.
    Refused(Answer),
}

/// What comes of the files that were read for a grammar and a script.
pub(crate) fn by_files<F: Folder, P: Patterns>(
    alloc: Global,
    folder: &mut F,
    grammar: &Found,
    script: &Found,
    names: &List<Str>,
    patterns: &mut P,
) -> Result<Opened, Unanswered>
    requires within { KeepsLimit most_file_bytes grammar.now }
    requires few_hosts { length names.now ≤ 2 ^ 32 }
    ensures opened { IfOk result (λ opened. (files : Files) (path other g s : Bytes)
        → F.files folder.old ≡ Some files
        → file_at files path ≡ Some g → file_at files other ≡ Some s
        → AnswersFor (Some g) most_file_bytes grammar.now
        → AnswersFor (Some s) most_script_bytes script.now
        → OpensAs names.now files path other
        (HasRisen (P.refusals patterns.old) (P.refusals patterns.new))
        (P.sources patterns.old) (P.sources patterns.new) opened) }
    ensures queries { IfOk result
        (HasReadQueries names.now (P.sources patterns.old) (P.sources patterns.new)) }
    ensures judged { IfOk result HasStatus }
    ensures read { result ≡ Err Unanswered.Read → Rose (F.faults folder.old) (F.faults folder.new) }
    ensures files { F.files folder.new ≡ F.files folder.old }
    ensures later { F.faults folder.old ≤ F.faults folder.new }
    ensures refusals { P.refusals patterns.old ≤ P.refusals patterns.new }
{
    match grammar {
        Found::Bytes(bytes) => by_grammar(alloc, folder, bytes.as_slice(), script, names, patterns),
        Found::Over => Ok(Opened::Refused(too_large(alloc)?)),
        // Whoever reads the file has answered this before.
        Found::Absent => Ok(Opened::Refused(too_large(alloc)?)),
    }
}

/// What comes of the bytes of a grammar file, and of what was read of the script.
fn by_grammar<F: Folder, P: Patterns>(
    alloc: Global,
    folder: &mut F,
    grammar: &[u8],
    script: &Found,
    names: &List<Str>,
    patterns: &mut P,
) -> Result<Opened, Unanswered>
    requires within { length grammar.now ≤ most_file_bytes }
    requires few_hosts { length names.now ≤ 2 ^ 32 }
    ensures opened { IfOk result (λ opened. (files : Files) (path other s : Bytes)
        → F.files folder.old ≡ Some files → file_at files path ≡ Some grammar.now
        → file_at files other ≡ Some s → AnswersFor (Some s) most_script_bytes script.now
        → OpensAs names.now files path other
        (HasRisen (P.refusals patterns.old) (P.refusals patterns.new))
        (P.sources patterns.old) (P.sources patterns.new) opened) }
    ensures queries { IfOk result
        (HasReadQueries names.now (P.sources patterns.old) (P.sources patterns.new)) }
    ensures judged { IfOk result HasStatus }
    ensures read { result ≡ Err Unanswered.Read → Rose (F.faults folder.old) (F.faults folder.new) }
    ensures files { F.files folder.new ≡ F.files folder.old }
    ensures later { F.faults folder.old ≤ F.faults folder.new }
    ensures refusals { P.refusals patterns.old ≤ P.refusals patterns.new }
{
    match table_in(alloc, grammar) {
        Ok(table) => by_table(alloc, folder, table, script, names, patterns),
        Err(Uncompiled::Refused(line)) => {
            Ok(Opened::Refused(Answer::of_line(Status::Grammar, line)))
        }
        Err(Uncompiled::Memory) => Err(Unanswered::Memory),
    }
}

/// What comes of what was read of the script, by a parse table.
fn by_table<F: Folder, P: Patterns>(
    alloc: Global,
    folder: &mut F,
    table: Table,
    file: &Found,
    names: &List<Str>,
    patterns: &mut P,
) -> Result<Opened, Unanswered>
    requires few_hosts { length names.now ≤ 2 ^ 32 }
    ensures opened { IfOk result (λ opened. (files : Files) (path other g s : Bytes)
        → F.files folder.old ≡ Some files → file_at files path ≡ Some g → Builds g table.grammar
        → file_at files other ≡ Some s → AnswersFor (Some s) most_script_bytes file.now
        → OpensAs names.now files path other
        (HasRisen (P.refusals patterns.old) (P.refusals patterns.new))
        (P.sources patterns.old) (P.sources patterns.new) opened) }
    ensures queries { IfOk result
        (HasReadQueries names.now (P.sources patterns.old) (P.sources patterns.new)) }
    ensures judged { IfOk result HasStatus }
    ensures read { result ≡ Err Unanswered.Read → Rose (F.faults folder.old) (F.faults folder.new) }
    ensures files { F.files folder.new ≡ F.files folder.old }
    ensures later { F.faults folder.old ≤ F.faults folder.new }
    ensures refusals { P.refusals patterns.old ≤ P.refusals patterns.new }
{
    match plan_in(alloc, file) {
        Ok(Asked::Plan(plan)) => by_plan(alloc, folder, table, plan, names, patterns),
        Ok(Asked::Refused(answer)) => Ok(Opened::Refused(answer)),
        Err(AllocError) => Err(Unanswered::Memory),
    }
}

/// What a script asks for, by what was read of its file, or its refusal.
fn plan_in(alloc: Global, file: &Found) -> Result<Asked, AllocError>
    ensures asks { IfOk result (λ asked. (s : Bytes)
        → AnswersFor (Some s) most_script_bytes file.now → AsksFor s asked) }
    ensures has { IfOk result HasScript }
{
    match file {
        Found::Bytes(bytes) => script_in(alloc, bytes.as_slice()),
        Found::Over => Ok(Asked::Refused(no_script(alloc, &SFault::Limit(0))?)),
        // Whoever reads the file has answered this before.
        Found::Absent => Ok(Asked::Refused(no_script(alloc, &SFault::Limit(0))?)),
    }
}

/// What the bytes of a script ask for, or their refusal.
fn script_in(alloc: Global, bytes: &[u8]) -> Result<Asked, AllocError>
    ensures asks { IfOk result (AsksFor bytes.now) }
    ensures has { IfOk result HasScript }
{
    match script(alloc, bytes) {
        Ok(plan) => Ok(Asked::Plan(plan)),
        Err(fault) => Ok(Asked::Refused(no_script(alloc, &fault)?)),
    }
}

/// What comes of what a script asks for, by a parse table.
fn by_plan<F: Folder, P: Patterns>(
    alloc: Global,
    folder: &mut F,
    table: Table,
    plan: Plan,
    names: &List<Str>,
    patterns: &mut P,
) -> Result<Opened, Unanswered>
    requires script { (s : Bytes) × IsScript s plan }
    requires few_hosts { length names.now ≤ 2 ^ 32 }
    ensures opened { IfOk result (λ opened. (files : Files) (path other : Bytes)
        → F.files folder.old ≡ Some files → IsAsked files path other table.grammar plan
        → OpensAs names.now files path other
        (HasRisen (P.refusals patterns.old) (P.refusals patterns.new))
        (P.sources patterns.old) (P.sources patterns.new) opened) }
    ensures queries { IfOk result
        (HasReadQueries names.now (P.sources patterns.old) (P.sources patterns.new)) }
    ensures judged { IfOk result HasStatus }
    ensures read { result ≡ Err Unanswered.Read → Rose (F.faults folder.old) (F.faults folder.new) }
    ensures files { F.files folder.new ≡ F.files folder.old }
    ensures later { F.faults folder.old ≤ F.faults folder.new }
    ensures refusals { P.refusals patterns.old ≤ P.refusals patterns.new }
{
    match parts_of(alloc, folder, &table, &plan, names, patterns) {
        Ok(Parts::All { queries, texts }) => {
            Ok(Opened::Ready(session(table, plan, queries, texts)))
        }
        Ok(Parts::Refused(answer)) => Ok(Opened::Refused(answer)),
        Err(unanswered) => Err(unanswered),
    }
}

/// The session of these parts.
#[tactic(auto, using(crate::proofs::ScriptLemmas::is_some))]
fn session(table: Table, plan: Plan, queries: List<ReadQuery>, texts: Vec<Text>) -> Session
    requires script { (s : Bytes) × IsScript s plan }
    requires few { All (λ (query : AnyQuery). length query.patterns < 2 ^ 32) queries }
    requires count { length queries ≡ length plan.queries }
    requires opened { length texts.items ≡ length plan.documents }
    ensures table { result.table ≡ table }
    ensures plan { result.plan ≡ plan }
    ensures queries { result.queries ≡ queries }
    ensures texts { result.texts ≡ texts }
{
    Session {
        table,
        plan,
        queries,
        texts,
    }
}

/// The queries of a script and the first texts of its documents: the files of the documents are
/// read.
fn parts_of<F: Folder, P: Patterns>(
    alloc: Global,
    folder: &mut F,
    table: &Table,
    plan: &Plan,
    names: &List<Str>,
    patterns: &mut P,
) -> Result<Parts, Unanswered>
    requires script { (s : Bytes) × IsScript s plan.now }
    requires few_hosts { length names.now ≤ 2 ^ 32 }
    ensures parts { IfOk result (λ parts. (files : Files) (path other : Bytes)
        → F.files folder.old ≡ Some files → IsAsked files path other table.now.grammar plan.now
        → IsParts names.now files path other table.now.grammar
        plan.now (HasRisen (P.refusals patterns.old) (P.refusals patterns.new))
        (P.sources patterns.old) (P.sources patterns.new) parts) }
    ensures whole { IfOk result (AreParts names.now table.now.grammar plan.now
        (P.sources patterns.old) (P.sources patterns.new)) }
    ensures read { result ≡ Err Unanswered.Read → Rose (F.faults folder.old) (F.faults folder.new) }
    ensures files { F.files folder.new ≡ F.files folder.old }
    ensures later { F.faults folder.old ≤ F.faults folder.new }
    ensures refusals { P.refusals patterns.old ≤ P.refusals patterns.new }
{
    match read_firsts(alloc, folder, plan.documents.as_slice()) {
        Ok(Firsts::All(firsts)) => loaded(alloc, table, plan, firsts.as_slice(), names, patterns),
        Ok(Firsts::Missing(line)) => Ok(Parts::Refused(Answer::of_line(Status::Absent, line))),
        Err(unanswered) => Err(unanswered),
    }
}

/// The same by what was read of the files of all documents: the queries are read.
fn loaded<P: Patterns>(
    alloc: Global,
    table: &Table,
    plan: &Plan,
    firsts: &[First],
    names: &List<Str>,
    patterns: &mut P,
) -> Result<Parts, Unanswered>
    requires script { (s : Bytes) × IsScript s plan.now }
    requires few_hosts { length names.now ≤ 2 ^ 32 }
    requires count { length firsts.now ≡ length plan.now.documents }
    ensures parts { IfOk result (λ parts. (files : Files) (path other : Bytes)
        → IsAsked files path other table.now.grammar plan.now
        → AreFirsts files plan.now.documents firsts.now
        → IsParts names.now files path other table.now.grammar
        plan.now (HasRisen (P.refusals patterns.old) (P.refusals patterns.new))
        (P.sources patterns.old) (P.sources patterns.new) parts) }
    ensures whole { IfOk result (AreParts names.now table.now.grammar plan.now
        (P.sources patterns.old) (P.sources patterns.new)) }
    ensures read { result ≡ Err Unanswered.Read → ⊥ }
    ensures refusals { P.refusals patterns.old ≤ P.refusals patterns.new }
{
    loaded_have_no_faults();
    table.stands();
    match load(
        alloc,
        table.grammar(),
        names,
        plan.queries.as_slice(),
        patterns,
    ) {
        Ok(queries) => Ok(with_texts(alloc, plan, queries, firsts)?),
        Err(fault) => Ok(Parts::Refused(not_loaded(alloc, &fault)?)),
    }
}

/// The same by the queries that were read: the files of the documents are judged as texts.
fn with_texts(
    alloc: Global,
    plan: &Plan,
    queries: List<ReadQuery>,
    firsts: &[First],
) -> Result<Parts, AllocError>
    requires count { length firsts.now ≡ length plan.now.documents }
    ensures texts { IfOk result (λ parts. (f : AnyForm) (called : Values Bytes) (files : Files)
        → HaveNoFaults f called plan.now.queries → AreFirsts files plan.now.documents firsts.now
        → HasFirstTexts called files f plan.now parts) }
    ensures whole { IfOk result (HasQueries plan.now queries) }
{
    match openings_of(alloc, plan.documents.as_slice(), firsts) {
        Ok(Openings::All(texts)) => Ok(Parts::All { queries, texts }),
        Ok(Openings::Refused(line)) => Ok(Parts::Refused(Answer::of_line(Status::Text, line))),
        Err(AllocError) => Err(AllocError),
    }
}

//! One step of a client at its desk of the step's document: the shelf, the desk and the step go in;
//! the reply comes out, and the desk is changed.
ghost use Rattle.std.specs.Prelude.{◌≡◌, ℕ, ◌+◌, ◌<◌, ◌≤◌, IfSome, IfNone, IsNone};
ghost use Rattle.ts_docs.specs.Versions.{Drafts};
ghost use Rattle.ts_table.specs.declared.view.ParseTable.{ParseTable as AnyTable};
ghost use Rattle.ts_lexer.specs.Lexers.{IsLexerOf};
ghost use Rattle.ts_text.specs.declared.edit.Edit.{Edit as AnyEdit};
ghost use Rattle.ts_script.specs.declared.plan.ScriptStep.TheVariants as script_step;
ghost use Rattle.ts_replies.specs.declared.reply.Reply.TheVariants as reply;
ghost use Rattle.spec_history.specs.Legal.{CanEdit};
ghost use Rattle.ts_replay.specs.Replays.{AsksAmong};
ghost use Rattle.ts_replay.specs.Sights.{StandsFor};
ghost use Rattle.ts_client.specs.Steps.{standing_at, ServesStep, Serves, StopsEarly};
ghost use Rattle.ts_client.specs.Serving.{MayServe, offers_of};
ghost use Rattle.ts_client.specs.Turns.{SamePass};

use crate::asking::found;
use crate::desk::Desk;
use crate::looking::watch;
use spec_history::Finder;
use std::alloc::Global;
use std::sync::Wait;
use std::thread::Threads;
use ts_base::Shared;
use ts_docs::{Book, Draft, Version};
use ts_lexer::Lexer;
use ts_replay::{Asker, Begun, Sighted, begin};
use ts_replies::Reply;
use ts_script::ScriptStep;
use ts_shelf::{Denied, Offered, Shelf};
use ts_table::Table;

/// Does a step, and gives the reply to it. Out of memory is a reply, and then the held version
/// stays. `None` comes where all turns of the document are over.
///
/// Several queries are asked at once where the tree of the held version has 1,000 nodes or more,
/// each on a thread of its own, and one of them on the calling thread: so on 64 threads at most.
/// Else they are asked one after another, on the calling thread.
pub fn serve<R: Threads + Wait + Sync, F: Finder + Sync>(
    rt: &R,
    alloc: Global,
    table: &Table,
    finder: &F,
    lexer: &mut Lexer,
    shelf: &Shelf<Book>,
    desk: &mut Desk,
    asker: Asker,
    step: &ScriptStep,
) -> Option<Reply>
    requires lexer { IsLexerOf lexer.old table.now }
    requires may { MayServe table.now shelf.now desk.old }
    requires offers { offers_of step.now ≤ desk.old.pass.knows.offers }
    requires form { F.form finder.now ≡ table.now.grammar }
    requires asks { AsksAmong (F.count finder.now) step.now }
    ensures lexer { IsLexerOf lexer.new table.now }
    ensures may { MayServe table.now shelf.now desk.new }
    ensures same { SamePass desk.old.pass.knows desk.new.pass.knows }
    ensures offers { desk.old.pass.knows.offers ≤ desk.new.pass.knows.offers + offers_of step.now }
    ensures serves { IfSome result (λ reply. Serves (F.finds finder.now) asker.client asker.number
        (standing_at desk.old) step.now reply (standing_at desk.new)) }
    ensures stops { IfNone result (StopsEarly (standing_at desk.old) (standing_at desk.new)) }
{
    let mut kept = None;
    serve_keeping(
        rt, alloc, table, finder, &mut kept, lexer, shelf, desk, asker, step,
    )
}

/// The same, with the visible tree that is kept: queries are asked in it, if it is of the text of
/// the held version, or in one that is kept then, where the tree is not small.
pub(crate) fn serve_keeping<'g, R: Threads + Wait + Sync, F: Finder + Sync>(
    rt: &R,
    alloc: Global,
    table: &Table,
    finder: &'g F,
    kept: &mut Option<Sighted<'g>>,
    lexer: &mut Lexer,
    shelf: &Shelf<Book>,
    desk: &mut Desk,
    asker: Asker,
    step: &ScriptStep,
) -> Option<Reply>
    requires lexer { IsLexerOf lexer.old table.now }
    requires may { MayServe table.now shelf.now desk.old }
    requires offers { offers_of step.now ≤ desk.old.pass.knows.offers }
    requires form { F.form finder.now ≡ table.now.grammar }
    requires asks { AsksAmong (F.count finder.now) step.now }
    requires kept { StandsFor (F.form finder.now) kept.old }
    ensures lexer { IsLexerOf lexer.new table.now }
    ensures may { MayServe table.now shelf.now desk.new }
    ensures same { SamePass desk.old.pass.knows desk.new.pass.knows }
    ensures offers { desk.old.pass.knows.offers ≤ desk.new.pass.knows.offers + offers_of step.now }
    ensures kept { StandsFor (F.form finder.now) kept.new }
    ensures serves { IfSome result (λ reply. Serves (F.finds finder.now) asker.client asker.number
        (standing_at desk.old) step.now reply (standing_at desk.new)) }
    ensures stops { IfNone result (StopsEarly (standing_at desk.old) (standing_at desk.new)) }
{
    match begin(
        alloc,
        table,
        lexer,
        desk.version.get(),
        desk.number,
        asker,
        step,
    ) {
        Begun::Told(reply) => Some(reply),
        Begun::Offer { draft, made } => offer(rt, shelf, desk, draft, made),
        Begun::Look => look(rt, shelf, desk),
        Begun::Await(wanted) => wait(rt, shelf, desk, wanted),
        Begun::Ask { root, queries } => {
            Some(found(rt, alloc, finder, kept, desk, root, queries))
        }
    }
}

/// Offers a draft of the held version, at one turn. Where it is published, its version is held
/// then.
fn offer<R: Wait>(
    rt: &R,
    shelf: &Shelf<Book>,
    desk: &mut Desk,
    draft: Draft,
    made: Shared<Version>,
) -> Option<Reply>
    requires may { (table : AnyTable) × MayServe table shelf.now desk.old
        × (draft.version.table ≡ table) }
    requires offers { 0 < desk.old.pass.knows.offers }
    requires made { made ≡ draft.version }
    ensures may { (table : AnyTable) → MayServe table shelf.now desk.old
        → draft.version.table ≡ table → MayServe table shelf.now desk.new }
    ensures same { SamePass desk.old.pass.knows desk.new.pass.knows }
    ensures offers { desk.old.pass.knows.offers ≤ desk.new.pass.knows.offers + 1 }
    ensures serves { IfSome result (λ reply. (client number document : ℕ) (edit : AnyEdit)
        → Drafts desk.old.version client number edit draft → CanEdit desk.old.version.text edit
        → ServesStep client number (standing_at desk.old) (script_step.Edit document edit) reply
        (standing_at desk.new)) }
    ensures stops { IfNone result (StopsEarly (standing_at desk.old) (standing_at desk.new)) }
{
    match shelf.offer(rt, &mut desk.pass, desk.number, draft) {
        Ok(Offered::Published { turn, number }) => {
            desk.number = number;
            desk.version = made;
            Some(Reply::Published {
                turn,
                version: number,
            })
        }
        Ok(
            Offered::Newer {
                turn,
                number,
                latest,
            },
        ) => {
            desk.number = number;
            desk.version = latest;
            Some(Reply::Newer {
                turn,
                version: number,
            })
        }
        Err(denied) => refused(denied, desk.number),
    }
}

/// Takes the newest version.
fn look<R: Wait>(rt: &R, shelf: &Shelf<Book>, desk: &mut Desk) -> Option<Reply>
    requires may { (table : AnyTable) × MayServe table shelf.now desk.old }
    ensures may { (table : AnyTable) → MayServe table shelf.now desk.old
        → MayServe table shelf.now desk.new }
    ensures same { SamePass desk.old.pass.knows desk.new.pass.knows }
    ensures offers { desk.new.pass.knows.offers ≡ desk.old.pass.knows.offers }
    ensures serves { IfSome result (λ reply. (client number document : ℕ)
        → ServesStep client number (standing_at desk.old) (script_step.Look document) reply
        (standing_at desk.new)) }
    ensures stops { IfNone result (StopsEarly (standing_at desk.old) (standing_at desk.new)) }
{
    match shelf.look(rt, &mut desk.pass) {
        Ok(seen) => {
            desk.number = seen.number;
            desk.version = seen.latest;
            Some(Reply::Look {
                turn: seen.turn,
                version: seen.number,
            })
        }
        Err(denied) => refused(denied, desk.number),
    }
}

/// Looks until there is a version.
fn wait<R: Wait>(rt: &R, shelf: &Shelf<Book>, desk: &mut Desk, wanted: u32) -> Option<Reply>
    requires may { (table : AnyTable) × MayServe table shelf.now desk.old }
    ensures may { (table : AnyTable) → MayServe table shelf.now desk.old
        → MayServe table shelf.now desk.new }
    ensures same { SamePass desk.old.pass.knows desk.new.pass.knows }
    ensures offers { desk.new.pass.knows.offers ≡ desk.old.pass.knows.offers }
    ensures serves { IfSome result (λ reply. (client number document : ℕ)
        → ServesStep client number (standing_at desk.old) (script_step.Await document wanted) reply
        (standing_at desk.new)) }
    ensures stops { IfNone result (StopsEarly (standing_at desk.old) (standing_at desk.new)) }
{
    match watch(rt, shelf, &mut desk.pass, wanted) {
        Ok(seen) => {
            desk.number = seen.number;
            desk.version = seen.latest;
            Some(told(seen.turn, seen.number, wanted))
        }
        Err(denied) => refused(denied, desk.number),
    }
}

/// The reply to an await whose last look showed a version.
fn told(turn: u64, version: u32, wanted: u32) -> Reply
    ensures came { wanted ≤ version → result ≡ reply.Await turn version }
    ensures late { version < wanted → result ≡ reply.Late turn version }
{
    if wanted <= version {
        Reply::Await { turn, version }
    } else {
        Reply::Late { turn, version }
    }
}

/// The reply where a look or an offer took no turn.
fn refused(denied: Denied, version: u32) -> Option<Reply>
    ensures memory { IfSome result (λ r. r ≡ reply.Memory version) }
    ensures spent { IsNone result → denied ≡ Denied.Spent }
{
    match denied {
        Denied::Spent => None,
        Denied::Memory => Some(Reply::Memory { version }),
    }
}

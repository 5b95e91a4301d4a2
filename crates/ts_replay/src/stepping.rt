//! One step of a client on its document: the document, the version that the client holds and the
//! step go in; the reply comes out, and the document and the held version are changed.
ghost use Rattle.std.specs.Prelude.{◌≡◌, ℕ, ◌<◌, length, IfOk};
ghost use Rattle.ts_shelf.specs.Entries.{RisesWithin};
ghost use Rattle.ts_text.specs.declared.edit.Edit.{Edit as AnyEdit};
ghost use Rattle.ts_docs.specs.Steps.{newest};
ghost use Rattle.ts_docs.specs.Versions.{Drafts, IsOfTable};
ghost use Rattle.ts_lexer.specs.Lexers.{IsLexerOf};
ghost use Rattle.ts_script.specs.declared.plan.ScriptStep.TheVariants as script_step;
ghost use Rattle.spec_history.specs.Legal.{CanEdit};
ghost use Rattle.ts_replay.specs.Replays.{AsksAmong};
ghost use Rattle.ts_replay.specs.Sights.{StandsFor};
ghost use Rattle.ts_replay.specs.Steps.{place, MayStep, NeedsRoom, DoesStep, Does};

use crate::beginning::begin;
use crate::begun::{Asker, Begun};
use crate::document::Document;
use crate::finding::found;
use crate::keeping::keep_for;
use crate::sighted::Sighted;
use spec_history::Finder;
use std::alloc::{AllocError, Global};
use ts_base::Shared;
use ts_docs::{Draft, Event, Told, Version, step};
use ts_lexer::Lexer;
use ts_replies::Reply;
use ts_script::ScriptStep;
use ts_shelf::{Offered, Seen};
use ts_table::Table;

/// How many looks an await makes at most.
const MOST_LOOKS: u64 = 10_000_000;

/// Does a step. Out of memory is its reply, and then nothing is changed. The visible tree of a
/// version is kept from a step that asks queries for the next one that does.
pub(crate) fn answer<'f, F: Finder>(
    alloc: Global,
    table: &Table,
    finder: &'f F,
    kept: &mut Option<Sighted<'f>>,
    lexer: &mut Lexer,
    document: &mut Document,
    held: &mut Shared<Version>,
    asker: Asker,
    step: &ScriptStep,
) -> Reply
    requires lexer { IsLexerOf lexer.old table.now }
    requires table { held.old.table ≡ table.now }
    requires place { MayStep (place document.old.turn document.old.book held.old) }
    requires room { NeedsRoom step.now document.old.book.room }
    requires form { F.form finder.now ≡ table.now.grammar }
    requires asks { AsksAmong (F.count finder.now) step.now }
    requires kept { StandsFor (F.form finder.now) kept.old }
    ensures lexer { IsLexerOf lexer.new table.now }
    ensures kept { StandsFor (F.form finder.now) kept.new }
    ensures does { Does (F.finds finder.now) asker.client asker.number
        (place document.old.turn document.old.book held.old) step.now result
        (place document.new.turn document.new.book held.new) }
{
    keep_for(kept, step);
    let base = held.get();
    match begin(alloc, table, lexer, base, base.number(), asker, step) {
        Begun::Told(reply) => reply,
        Begun::Offer { draft, made } => offer(document, held, draft, made),
        Begun::Look => look(document, held),
        Begun::Await(wanted) => wait(document, held, wanted),
        Begun::Ask { root, queries } => found(alloc, finder, kept, held, root, queries),
    }
}

/// Offers a draft over the held version, at the next turn. Where it is published, its version is
/// held then.
fn offer(
    document: &mut Document,
    held: &mut Shared<Version>,
    draft: Draft,
    made: Shared<Version>,
) -> Reply
    requires place { MayStep (place document.old.turn document.old.book held.old) }
    requires room { 0 < document.old.book.room }
    requires table { IsOfTable document.old.book.opening draft }
    requires made { made ≡ draft.version }
    ensures does { (client number at : ℕ) (edit : AnyEdit)
        → Drafts held.old client number edit draft → CanEdit held.old.text edit
        → DoesStep client number (place document.old.turn document.old.book held.old)
        (script_step.Edit at edit) result
        (place document.new.turn document.new.book held.new) }
{
    let base = held.get().number();
    match step(
        &mut document.book,
        document.turn,
        Event::Offer { base, draft },
    ) {
        Ok(Told::Offered(Offered::Published { turn, number })) => {
            document.turn += 1;
            *held = made;
            Reply::Published {
                turn,
                version: number,
            }
        }
        Ok(
            Told::Offered(
                Offered::Newer {
                    turn,
                    number,
                    latest,
                },
            ),
        ) => {
            document.turn += 1;
            *held = latest;
            Reply::Newer {
                turn,
                version: number,
            }
        }
        Ok(Told::Seen(_)) => unreachable!(),
        Err(_) => Reply::Memory { version: base },
    }
}

/// Takes the newest version.
fn look(document: &mut Document, held: &mut Shared<Version>) -> Reply
    requires place { MayStep (place document.old.turn document.old.book held.old) }
    ensures does { (client number at : ℕ)
        → DoesStep client number (place document.old.turn document.old.book held.old)
        (script_step.Look at) result (place document.new.turn document.new.book held.new) }
{
    match see(document) {
        Ok(seen) => {
            document.turn += 1;
            *held = seen.latest;
            Reply::Look {
                turn: seen.turn,
                version: seen.number,
            }
        }
        Err(_) => Reply::Memory {
            version: held.get().number(),
        },
    }
}

/// Looks until there is a version. Nothing happens between its looks, so each shows what the first
/// one does, and the others are only counted.
fn wait(document: &mut Document, held: &mut Shared<Version>, wanted: u32) -> Reply
    requires place { MayStep (place document.old.turn document.old.book held.old) }
    ensures does { (client number at : ℕ)
        → DoesStep client number (place document.old.turn document.old.book held.old)
        (script_step.Await at wanted) result
        (place document.new.turn document.new.book held.new) }
{
    match see(document) {
        Ok(seen) => {
            let version = seen.number;
            *held = seen.latest;
            if wanted <= version {
                document.turn += 1;
                Reply::Await {
                    turn: seen.turn,
                    version,
                }
            } else {
                document.turn += MOST_LOOKS;
                Reply::Late {
                    turn: document.turn - 1,
                    version,
                }
            }
        }
        Err(_) => Reply::Memory {
            version: held.get().number(),
        },
    }
}

/// A look at the next turn, which is not yet counted.
fn see(document: &mut Document) -> Result<Seen<Shared<Version>>, AllocError>
    requires { RisesWithin 0 document.old.turn document.old.book.entries }
    ensures turn { document.new.turn ≡ document.old.turn }
    ensures book { document.new.book ≡ document.old.book }
    ensures seen { IfOk result (λ s. (s.turn ≡ document.old.turn)
        × (s.number ≡ length document.old.book.entries) × (s.latest ≡ newest document.old.book)) }
{
    match step(&mut document.book, document.turn, Event::Look) {
        Ok(Told::Seen(seen)) => Ok(seen),
        Ok(Told::Offered(_)) => unreachable!(),
        Err(fault) => Err(fault),
    }
}

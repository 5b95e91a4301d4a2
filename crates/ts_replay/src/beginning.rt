//! A step up to its turn: the version that the client holds and the step go in; the reply comes
//! out, or what is left to do.
ghost use Rattle.std.specs.Prelude.{◌≡◌, ℕ, List as AnyList, IfOk, OnOk, IsErrOf};
ghost use Rattle.ts_lexer.specs.Lexers.{IsLexerOf};
ghost use Rattle.ts_text.specs.Edit.{InRange, IsOver};
ghost use Rattle.ts_docs.specs.Versions.{Drafts};
ghost use Rattle.ts_script.specs.declared.plan.ScriptStep.TheVariants as script_step;
ghost use Rattle.spec_history.specs.Legal.{CanEdit, HasTree};
ghost use Rattle.ts_replay.specs.Beginnings.{Begins, TellsHeld};

use crate::begun::{Asker, Begun};
use crate::outcome::shown;
use std::alloc::Global;
use ts_docs::{Draft, Refused, Version, prepare};
use ts_glr::Outcome;
use ts_lexer::Lexer;
use ts_replies::Reply;
use ts_script::ScriptStep;
use ts_table::Table;
use ts_text::Edit;

/// Does all of a step but its turn, at the version that its client holds and that was shown with
/// this number. Out of memory is a reply.
pub fn begin<'v, 's>(
    alloc: Global,
    table: &Table,
    lexer: &mut Lexer,
    held: &'v Version,
    number: u32,
    asker: Asker,
    step: &'s ScriptStep,
) -> Begun<'v, 's>
    requires lexer { IsLexerOf lexer.old table.now }
    requires table { held.now.table ≡ table.now }
    ensures lexer { IsLexerOf lexer.new table.now }
    ensures begins { Begins asker.client asker.number held.now number step.now result }
{
    match step {
        ScriptStep::Edit { document: _, edit } => {
            change(alloc, table, lexer, held, number, asker, edit)
        }
        ScriptStep::Look { document: _ } => Begun::Look,
        ScriptStep::Query {
            document: _,
            queries,
        } => query(alloc, table, held, number, queries.as_slice()),
        ScriptStep::Tree { document: _ } => Begun::Told(tree(alloc, table, held, number)),
        ScriptStep::Await {
            document: _,
            version,
        } => Begun::Await(*version),
    }
}

/// Changes the held version.
fn change<'v, 's>(
    alloc: Global,
    table: &Table,
    lexer: &mut Lexer,
    held: &'v Version,
    number: u32,
    asker: Asker,
    edit: &'s Edit,
) -> Begun<'v, 's>
    requires lexer { IsLexerOf lexer.old table.now }
    requires table { held.now.table ≡ table.now }
    ensures lexer { IsLexerOf lexer.new table.now }
    ensures begins { (document : ℕ) → Begins asker.client asker.number held.now number
        (script_step.Edit document edit.now) result }
{
    match drafted(alloc, table, lexer, held, asker, edit) {
        Ok(draft) => match draft.version().try_clone() {
            Ok(made) => Begun::Offer { draft, made },
            Err(_) => Begun::Told(Reply::Memory { version: number }),
        },
        Err(Refused::Range) => Begun::Told(Reply::Range { version: number }),
        Err(Refused::Size(size)) => Begun::Told(Reply::Size {
            size,
            version: number,
        }),
        Err(Refused::Memory) => Begun::Told(Reply::Memory { version: number }),
    }
}

/// The version after an edit of the held one. That there is no number for one more version is taken
/// as out of memory.
fn drafted(
    alloc: Global,
    table: &Table,
    lexer: &mut Lexer,
    held: &Version,
    asker: Asker,
    edit: &Edit,
) -> Result<Draft, Refused>
    requires lexer { IsLexerOf lexer.old table.now }
    requires table { held.now.table ≡ table.now }
    ensures lexer { IsLexerOf lexer.new table.now }
    ensures drafts { IfOk result (Drafts held.now asker.client asker.number edit.now) }
    ensures can { OnOk result (CanEdit held.now.text edit.now) }
    ensures range { IsErrOf result Refused.Range → ¬ (InRange held.now.text edit.now) }
    ensures size { (bytes : ℕ) → IsErrOf result (Refused.Size bytes)
        → IsOver held.now.text edit.now bytes }
{
    if held.number() == u32::MAX {
        return Err(Refused::Memory);
    }
    prepare(alloc, table, lexer, held, asker.client, asker.number, edit)
}

/// What the held version comes to.
fn tree(alloc: Global, table: &Table, held: &Version, number: u32) -> Reply
    requires { held.now.table ≡ table.now }
    ensures { (document : ℕ) → TellsHeld held.now number (script_step.Tree document) result }
{
    match shown(alloc, table.grammar(), held) {
        Ok(outcome) => Reply::Tree {
            outcome,
            version: number,
        },
        Err(_) => Reply::Memory { version: number },
    }
}

/// Where queries are to be asked, if the held version has a tree.
fn query<'v, 's>(
    alloc: Global,
    table: &Table,
    held: &'v Version,
    number: u32,
    queries: &'s [u32],
) -> Begun<'v, 's>
    requires { held.now.table ≡ table.now }
    ensures { (client asker document : ℕ) → Begins client asker held.now number
        (script_step.Query document queries.now) result }
{
    held.stands();
    match held.outcome() {
        Outcome::Accepted(root) => Begun::Ask { root, queries },
        Outcome::Stuck(_) | Outcome::Deep => Begun::Told(absent(alloc, table, held, number)),
    }
}

/// That the held version has no tree in which queries could be asked, with what it comes to.
fn absent(alloc: Global, table: &Table, held: &Version, number: u32) -> Reply
    requires table { held.now.table ≡ table.now }
    requires none { HasTree held.now.table.grammar held.now.text → ⊥ }
    ensures { (document : ℕ) (queries : AnyList ℕ)
        → TellsHeld held.now number (script_step.Query document queries) result }
{
    match shown(alloc, table.grammar(), held) {
        Ok(outcome) => Reply::Absent {
            outcome,
            version: number,
        },
        Err(_) => Reply::Memory { version: number },
    }
}

//! A script and the texts of its documents in; the shelf of each document, before all steps, and
//! the lexers that the texts were parsed with, out.
ghost use Rattle.std.specs.Prelude.{◌≡◌, ◌<◌, ◌^◌, length, IfOk};
ghost use Rattle.ts_base.specs.Bytes.{Bytes};
ghost use Rattle.ts_docs.specs.Versions.{IsTextOf};
ghost use Rattle.ts_replay.specs.Replays.{MayReplay};
ghost use Rattle.ts_table.specs.declared.view.ParseTable.{ParseTable as AnyTable};
ghost use Rattle.ts_workers.specs.Fronts.{IsFront, IsLent, AreFronts};
ghost use Rattle.ts_workers.specs.Openings.{AreLexersOf};

use crate::front::Front;
use crate::parsed::Parsed;
use crate::parsing::parse_all;
use std::alloc::{AllocError, Global};
use std::thread::Threads;
use ts_docs::{Book, Version};
use ts_lexer::Lexer;
use ts_replay::edits_of;
use ts_script::Plan;
use ts_shelf::Shelf;
use ts_table::Table;
use ts_text::Text;

/// The shelf of each document, what is kept beside it, and the lexers that their texts were parsed
/// with.
#[derive(Drop)]
pub(crate) struct Documents {
    pub(crate) shelves: Vec<Shelf<Book>>,
    pub(crate) fronts: Vec<Front>,
    pub(crate) lexers: Vec<Lexer>,
}

/// The documents of a script, which are opened with these texts, each parsed on a thread of its
/// own. Each journal has room for all edits of its document.
///
/// # Errors
///
/// `AllocError` where memory runs out.
pub(crate) fn opened<R: Threads + Sync>(
    rt: &R,
    alloc: Global,
    table: &Table,
    plan: &Plan,
    openings: Vec<Text>,
) -> Result<Documents, AllocError>
    requires plan { MayReplay plan.now }
    requires few { length openings.items < 2 ^ 32 }
    ensures fronts { IfOk result (λ o.
        AreFronts plan.now table.now openings.items o.shelves.items 0 o.fronts.items) }
    ensures lexers { IfOk result (λ o. AreLexersOf table.now o.lexers.items) }
{
    let all = parse_all(rt, alloc, table, openings)?;
    let mut shelves = Vec::with_capacity(alloc, all.len())?;
    let mut fronts = Vec::with_capacity(alloc, all.len())?;
    let mut lexers = Vec::with_capacity(alloc, all.len())?;
    for parsed in all {
        let Parsed { lexer, version } = parsed?;
        let number = fronts.len() as u32;
        let (shelf, front) = document(alloc, plan, number, version)?;
        shelves.push(shelf)?;
        fronts.push(front)?;
        lexers.push(lexer)?;
    }
    Ok(Documents {
        shelves,
        fronts,
        lexers,
    })
}

/// The document of this number, which is opened with the version.
fn document(
    alloc: Global,
    plan: &Plan,
    number: u32,
    version: Version,
) -> Result<(Shelf<Book>, Front), AllocError>
    requires plan { MayReplay plan.now }
    ensures front { IfOk result (λ r. (table : AnyTable) (text : Bytes)
        → IsTextOf table 0 text version → IsFront table text r.0 r.1) }
    ensures lent { IfOk result (λ r. IsLent plan.now number 0 r.1.pass.knows) }
{
    let room = edits_of(plan, number);
    let book = Book::new(alloc, version, room)?;
    let first = book.opening().try_clone()?;
    let (shelf, pass) = Shelf::new(alloc, book)?;
    Ok((
        shelf,
        Front {
            pass,
            version: first,
        },
    ))
}

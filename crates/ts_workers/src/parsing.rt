//! A table and texts in; the first version of each, parsed on a thread of its own, out.
ghost use Rattle.std.specs.Prelude.{IfOk};
ghost use Rattle.ts_lexer.specs.Lexers.{IsLexerOf};
ghost use Rattle.ts_workers.specs.Openings.{IsParsed, AreParsed};

use crate::parsed::Parsed;
use std::alloc::{AllocError, Global};
use std::thread::{self, Threads};
use ts_docs::opening;
use ts_lexer::Lexer;
use ts_table::Table;
use ts_text::Text;

/// The first version of each text, in their order, each parsed on a thread of its own where one can
/// be started, and else by the thread that would have started it.
///
/// # Errors
///
/// `AllocError` where there is no memory for the list. A text for which memory runs out has it at
/// its place.
pub(crate) fn parse_all<R: Threads + Sync>(
    rt: &R,
    alloc: Global,
    table: &Table,
    texts: Vec<Text>,
) -> Result<Vec<Result<Parsed, AllocError>>, AllocError>
    ensures { IfOk result (λ all. AreParsed table.now texts.items all.items) }
{
    thread::map_vec(
        rt,
        texts,
        &|text: Text| -> Result<Parsed, AllocError>
            ensures { IfOk result (IsParsed table.entry.now text) }
        { parse_one(alloc, table, text) },
    )
}

/// The first version of a text, and the lexer that it was parsed with.
fn parse_one(alloc: Global, table: &Table, text: Text) -> Result<Parsed, AllocError>
    ensures { IfOk result (IsParsed table.now text) }
{
    let _ = text.len();
    let mut lexer = lexer_of(alloc, table)?;
    let version = opening(alloc, table, &mut lexer, text)?;
    Ok(Parsed { lexer, version })
}

/// The lexer of a table.
pub(crate) fn lexer_of(alloc: Global, table: &Table) -> Result<Lexer, AllocError>
    ensures { IfOk result (λ lexer. IsLexerOf lexer table.now) }
{
    let automaton = ts_automata::build(alloc, table.grammar())?;
    let lexer = Lexer::new(alloc, automaton, table)?;
    Ok(lexer)
}

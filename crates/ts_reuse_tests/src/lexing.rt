//! The lexer of a table, as the program makes it.
ghost use Rattle.std.specs.Prelude.{IfOk};
ghost use Rattle.ts_lexer.specs.Lexers.{IsLexerOf};

use std::alloc::Global;
use std::test::Fail;
use ts_lexer::Lexer;
use ts_table::Table;

/// The lexer of a table.
pub(crate) fn lexer_of(alloc: Global, table: &Table) -> Result<Lexer, Fail>
    ensures { IfOk result (λ lexer. IsLexerOf lexer table.now) }
{
    let automaton = ts_automata::build(alloc, table.grammar())?;
    let lexer = Lexer::new(alloc, automaton, table)?;
    Ok(lexer)
}

//! The lexer of a parse table: the automaton of its grammar and the table go in, and then a text, a
//! place and a state; what stands there comes out.
ghost use Rattle.std.specs.Prelude.{◌≡◌, IfOk};
ghost use Rattle.ts_automata.specs.Automata.{IsAutomaton};

use crate::answering::extent;
use crate::engine::{Engine, engine_of};
use crate::lexed::Lexed;
use crate::states::{StateLists, lists_of};
use crate::tokens::Tokens;
use spec_lexing::seen_decides;
use std::alloc::{AllocError, Global};
use ts_automata::Automaton;
use ts_table::Table;
use ts_text::{Edit, EditFault, Text, apply};

/// The lexer of a parse table.
#[derive(Drop)]
pub struct Lexer {
    engine: Engine,
    /// The number of each state's list of valid tokens.
    numbers: Vec<usize>,
    examined: u64,
}

impl Lexer {
    ghost use Rattle.ts_lexer.specs.Lexers.{IsLexerOf, examined_of};

    /// The lexer of a table, which takes all the memory that lexing needs.
    ///
    /// # Errors
    ///
    /// `AllocError` where there is no memory for its tables.
    pub fn new(alloc: Global, automaton: Automaton, table: &Table) -> Result<Lexer, AllocError>
        requires { IsAutomaton table.now.grammar automaton }
        ensures made { IfOk result (λ lexer. IsLexerOf lexer table.now) }
        ensures examined { IfOk result (λ lexer. examined_of lexer ≡ 0) }
    {
        table.stands();
        let StateLists { lists, numbers } = lists_of(alloc, table)?;
        let engine = engine_of(alloc, automaton, table.grammar(), lists)?;
        Ok(Lexer {
            engine,
            numbers,
            examined: 0,
        })
    }

    /// How many bytes it has examined, in all that it has lexed. It stands still at the last value
    /// of `u64`.
    pub fn examined(&self) -> u64
        ensures { result ≡ examined_of self.now }
    {
        self.examined
    }
}

impl Tokens for Lexer {
    ghost use Rattle.ts_lexer.specs.Lexers.{IsLexerOf, examined_of};

    type Text = Text;

    ghost made_for = { IsLexerOf };

    ghost examined = { examined_of };

    fn lex(&mut self, text: &Text, place: u32, state: u16) -> Lexed {
        seen_decides();
        let list = self.numbers[state as usize];
        let lexed = self.engine.lex(text, place, list);
        self.examined = self.examined.saturating_add(u64::from(extent(&lexed)));
        lexed
    }

    fn apply(&self, alloc: Global, text: &Text, edit: &Edit) -> Result<Text, EditFault> {
        apply(alloc, text, edit)
    }
}

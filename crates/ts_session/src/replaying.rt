//! A session, a host and an order in; what is printed of the run out.
ghost use Rattle.std.specs.Prelude.{◌≡◌, length, IfOk};
ghost use Rattle.ts_lexer.specs.Lexers.{IsLexerOf};
ghost use Rattle.ts_predicate.specs.Predicates.{AnswersOf};
ghost use Rattle.ts_replay.specs.Replays.{MayReplay};
ghost use Rattle.ts_session.specs.Replays.{IsReplay};

use crate::session::Session;
use std::alloc::{AllocError, Global};
use ts_answers::Queries;
use ts_lexer::Lexer;
use ts_predicate::Hosts;
use ts_replay::{Replayed, replay};
use ts_script::Plan;
use ts_table::Table;
use ts_text::Text;
use ts_transcript::transcript;

impl Session {
    /// Runs the steps of the script's clients on one thread, in this order of their clients, and
    /// answers what is printed of that run. The host's predicates answer in its queries.
    ///
    /// # Errors
    ///
    /// `AllocError` where there is no memory for the first versions, the journals, the replies and
    /// what is printed. A step that finds no memory is answered so.
    pub fn replay<H: Hosts>(
        self,
        alloc: Global,
        hosts: &H,
        order: &[u32],
    ) -> Result<Vec<u8>, AllocError>
        ensures { IfOk result (λ bytes. IsReplay self.table.grammar self.plan self.queries
            (AnswersOf (H.called hosts.now) (H.accepts hosts.now)) self.texts.items order.now
            bytes.items) }
    {
        self.stands();
        let Session {
            table,
            plan,
            queries,
            texts,
        } = self;
        let queries = Queries {
            grammar: table.grammar(),
            queries: queries.as_slice(),
            hosts,
        };
        played(alloc, &table, &plan, &queries, texts, order)
    }
}

/// Runs a script, and prints the run.
fn played<H: Hosts>(
    alloc: Global,
    table: &Table,
    plan: &Plan,
    queries: &Queries<'_, H>,
    texts: Vec<Text>,
    order: &[u32],
) -> Result<Vec<u8>, AllocError>
    requires may { MayReplay plan.now }
    requires form { queries.now.grammar.now ≡ table.now.grammar }
    requires queries { length queries.now.queries.now ≡ length plan.now.queries }
    requires count { length texts.items ≡ length plan.now.documents }
    ensures { IfOk result (λ bytes. IsReplay queries.entry.now.grammar.now plan.now
        queries.entry.now.queries.now (AnswersOf (H.called queries.entry.now.hosts.now)
        (H.accepts queries.entry.now.hosts.now)) texts.items order.now bytes.items) }
{
    let mut lexer = lexer_of(alloc, table)?;
    let Replayed { books, replies } = replay(
        alloc, table, queries, &mut lexer, plan, texts, order,
    )?;
    transcript(alloc, table.grammar(), books.as_slice(), replies.as_slice())
}

/// The lexer of a table.
fn lexer_of(alloc: Global, table: &Table) -> Result<Lexer, AllocError>
    ensures made { IfOk result (λ lexer. IsLexerOf lexer table.now) }
{
    let automaton = ts_automata::build(alloc, table.grammar())?;
    let lexer = Lexer::new(alloc, automaton, table)?;
    Ok(lexer)
}

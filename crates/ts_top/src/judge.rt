//! What was read of a grammar and a text in; the answer out.
ghost use Rattle.std.specs.Prelude.{◌≡◌, ◌≤◌, Some, length, option_map, string_bytes, IfOk, IfErr};
ghost use Rattle.spec_output.specs.GrammarFaults.{limit_line};
ghost use Rattle.spec_output.specs.declared.status.Status.TheVariants as ends;
ghost use Rattle.ts_base.specs.Bytes.{Bytes};
ghost use Rattle.ts_core.specs.declared.flat.FlatGrammar.{FlatGrammar as AnyForm};
ghost use Rattle.ts_io.specs.Read.{AnswersFor, KeepsLimit};
ghost use Rattle.ts_text.specs.Text.{IsText};
ghost use Rattle.ts_session.specs.Firsts.{IsTextFault};
ghost use Rattle.ts_session.specs.Grammars.{Builds};
ghost use Rattle.ts_session.specs.Limits.{most_file_bytes, most_text_bytes};
ghost use Rattle.ts_session.specs.Replays.{IsJudged};
ghost use Rattle.ts_top.specs.Answer.{Judged};
ghost use Rattle.ts_top.specs.Stops.{AreRead};
ghost use Rattle.ts_top.specs.declared.stop.Stop.TheVariants.{Memory};

use crate::compile::too_large;
use crate::outcome::line_of;
use crate::stop::Stop;
use spec_output::Status;
use std::alloc::{AllocError, Global};
use ts_front::{Uncompiled, table_in};
use ts_io::Found;
use ts_session::Answer;
use ts_table::Table;
use ts_text::{Text, TextFault};

/// The answer of the files that were read for a grammar and a text.
pub(crate) fn judge<'a>(
    alloc: Global,
    grammar: &Found,
    text: &Found,
    path: &str,
) -> Result<Answer, Stop<'a>>
    requires { KeepsLimit most_file_bytes grammar.now }
    ensures judged { IfOk result (λ a. IsJudged a.status) }
    ensures answers { IfOk result (λ a. (g t : Bytes) → AreRead grammar.now text.now g t
        → Judged g t path.now a.status a.bytes.items) }
    ensures stop { IfErr result (λ stop. stop ≡ Memory) }
{
    match grammar {
        Found::Bytes(bytes) => by_grammar(alloc, bytes.as_slice(), text, path),
        Found::Over => Ok(too_large(alloc)?),
        // Whoever reads the file has answered this before.
        Found::Absent => Ok(too_large(alloc)?),
    }
}

/// The answer of the bytes of a grammar file, and of what was read of the text.
fn by_grammar<'a>(
    alloc: Global,
    grammar: &[u8],
    text: &Found,
    path: &str,
) -> Result<Answer, Stop<'a>>
    requires { length grammar.now ≤ most_file_bytes }
    ensures judged { IfOk result (λ a. IsJudged a.status) }
    ensures answers { IfOk result (λ a. (t : Bytes) → AnswersFor (Some t) most_text_bytes text.now
        → Judged grammar.now t path.now a.status a.bytes.items) }
    ensures stop { IfErr result (λ stop. stop ≡ Memory) }
{
    match table_in(alloc, grammar) {
        Ok(table) => by_table(alloc, &table, text, path),
        Err(Uncompiled::Refused(line)) => Ok(Answer {
            status: Status::Grammar,
            bytes: line.into_bytes(),
        }),
        Err(Uncompiled::Memory) => Err(Stop::Memory),
    }
}

/// The answer of what was read of the text, by a parse table.
fn by_table<'a>(alloc: Global, table: &Table, text: &Found, path: &str) -> Result<Answer, Stop<'a>>
    ensures judged { IfOk result (λ a. IsJudged a.status) }
    ensures answers { IfOk result (λ a. (g t : Bytes) → Builds g table.now.grammar
        → AnswersFor (Some t) most_text_bytes text.now
        → Judged g t path.now a.status a.bytes.items) }
    ensures stop { IfErr result (λ stop. stop ≡ Memory) }
{
    match read_text(alloc, text) {
        Ok(text) => Ok(parsed(alloc, table, &text)?),
        Err(fault) => no_text(alloc, path, &fault),
    }
}

/// The answer of a text.
fn parsed(alloc: Global, table: &Table, text: &Text) -> Result<Answer, AllocError>
    requires { length text.now ≤ most_text_bytes }
    ensures status { IfOk result (λ a. a.status ≡ ends.Done) }
    ensures answers { IfOk result (λ a. (g path : Bytes) → Builds g table.now.grammar
        → IsText text.now → Judged g text.now path ends.Done a.bytes.items) }
{
    let line = line_of(alloc, table, text)?;
    Ok(Answer {
        status: Status::Done,
        bytes: line.into_bytes(),
    })
}

/// The answer of bytes that are no text.
fn no_text<'a>(alloc: Global, path: &str, fault: &TextFault) -> Result<Answer, Stop<'a>>
    ensures judged { IfOk result (λ a. IsJudged a.status) }
    ensures answers { IfOk result (λ a. (g t : Bytes) (f : AnyForm) → Builds g f
        → IsTextFault t fault.now → Judged g t path.now a.status a.bytes.items) }
    ensures stop { IfErr result (λ stop. stop ≡ Memory) }
{
    match ts_lines::text_fault(alloc, path, fault)? {
        Some(line) => Ok(Answer {
            status: Status::Text,
            bytes: line.into_bytes(),
        }),
        None => Err(Stop::Memory),
    }
}

/// The text of the file that was read.
fn read_text(alloc: Global, file: &Found) -> Result<Text, TextFault>
    ensures text { IfOk result
        (λ text. (bytes : Bytes) → AnswersFor (Some bytes) most_text_bytes file.now
        → (text ≡ bytes) × IsText bytes) }
    ensures fault { IfErr result
        (λ fault. (bytes : Bytes) → AnswersFor (Some bytes) most_text_bytes file.now
        → IsTextFault bytes fault) }
{
    match file {
        Found::Bytes(bytes) => Text::from_bytes(alloc, bytes.as_slice()),
        Found::Absent | Found::Over => Err(TextFault::Size(u64::from(ts_text::MOST_BYTES) + 1)),
    }
}

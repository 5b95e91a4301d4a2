//! A version in; the bytes of its line out, written member by member.
ghost use Rattle.std.specs.Prelude.{◌≡◌, ◌++◌, ◌∷◌, [], IfOk, OnOk};
ghost use Rattle.json.specs.Print.{print};
ghost use Rattle.serde_json.specs.Data.{Members, no_members};
ghost use Rattle.spec_output.specs.Lines.{newline};
ghost use Rattle.ts_glr.specs.Outcomes.{value_of_outcome};
ghost use Rattle.ts_print.specs.Printed.{TreeLiesIn, shown_outcome};
ghost use Rattle.ts_print.specs.Written.{AddsBefore};
ghost use Rattle.ts_replies.specs.Replies.{with_number, turn_members, head_members, version_line};
ghost use Rattle.ts_transcript.specs.Told.{TellsVersion};

use json::Writer;
use std::alloc::{AllocError, Global};
use ts_core::FlatGrammar;
use ts_docs::Version;
use ts_glr::Outcome;
use ts_print::{fresh_trees_lie_in_the_text, put_outcome};
use ts_replies::Head;
use ts_text::Text;

/// The bytes of the line of a version.
pub(crate) fn version_bytes(
    alloc: Global,
    grammar: &FlatGrammar,
    head: &Head,
    version: &Version,
) -> Result<Vec<u8>, AllocError>
    ensures { IfOk result (λ bytes. TellsVersion grammar.now head.now version.now bytes.items) }
{
    version.stands();
    fresh_trees_lie_in_the_text();
    outcome_bytes(alloc, grammar, *head, version.text(), version.outcome())
}

/// The bytes of the line that says this beside the outcome of a text.
fn outcome_bytes(
    alloc: Global,
    grammar: &FlatGrammar,
    head: Head,
    text: &Text,
    outcome: &Outcome,
) -> Result<Vec<u8>, AllocError>
    requires { TreeLiesIn text.now (value_of_outcome outcome.now) }
    ensures { IfOk result (λ bytes. bytes.items ≡ version_line head
        (shown_outcome grammar.now text.now (value_of_outcome outcome.now))) }
{
    let bytes = Vec::new(alloc);
    let mut out = Writer::new(bytes);
    out.begin_object()?;
    put_members(alloc, grammar, head, text, outcome, &mut out)?;
    out.end_object()?;
    ended(out)
}

/// What was written, and a newline.
fn ended(out: Writer) -> Result<Vec<u8>, AllocError>
    requires { out.before ≡ [] }
    ensures { IfOk result (λ bytes. bytes.items ≡ print out.tokens ++ newline ∷ []) }
{
    let mut bytes = out.into_inner();
    bytes.push(b'\n')?;
    Ok(bytes)
}

/// Writes all members of the line.
fn put_members(
    alloc: Global,
    grammar: &FlatGrammar,
    head: Head,
    text: &Text,
    outcome: &Outcome,
    out: &mut Writer,
) -> Result<(), AllocError>
    requires { TreeLiesIn text.now (value_of_outcome outcome.now) }
    ensures { OnOk result (AddsBefore no_members (head_members head
        (shown_outcome grammar.now text.now (value_of_outcome outcome.now))) out.old out.new) }
{
    match head {
        Head::Opening { document } => {
            put_short("document", document, out)?;
            put_outcome(alloc, grammar, text, outcome, out)?;
            put_short("version", 0, out)?;
            Ok(())
        }
        Head::Accepted {
            client,
            document,
            step,
            turn,
            version,
        } => {
            put_short("client", client, out)?;
            put_short("document", document, out)?;
            put_outcome(alloc, grammar, text, outcome, out)?;
            put_turn(step, turn, version, out)?;
            Ok(())
        }
    }
}

/// Writes the step, the turn and the version, which are the last members.
fn put_turn(step: u32, turn: u64, version: u32, out: &mut Writer) -> Result<(), AllocError>
    ensures { OnOk result (AddsBefore no_members (turn_members step turn version)
        out.old out.new) }
{
    put_short("step", step, out)?;
    put_number("turn", turn, out)?;
    put_short("version", version, out)?;
    Ok(())
}

/// Writes a member that is a number.
fn put_number(name: &str, number: u64, out: &mut Writer) -> Result<(), AllocError>
    ensures { OnOk result ((after : Members) → AddsBefore after
        (with_number name.now number after) out.old out.new) }
{
    out.key(name)?;
    out.u64(number)
}

/// The same for a shorter number.
fn put_short(name: &str, number: u32, out: &mut Writer) -> Result<(), AllocError>
    ensures { OnOk result ((after : Members) → AddsBefore after
        (with_number name.now number after) out.old out.new) }
{
    out.key(name)?;
    out.u64(u64::from(number))
}

//! The words, places and names of a fault of a grammar in; its line out: a compact JSON object and
//! a newline.
ghost use Rattle.std.specs.Prelude.{◌≡◌, false, IfOk, string_bytes, ◌++◌, ◌∷◌, []};
ghost use Rattle.serde_json.specs.View.{view};
ghost use Rattle.serde_json.specs.Written.{compact_text, has_float};
ghost use Rattle.spec_output.specs.Lines.{newline};
ghost use Rattle.spec_output.specs.GrammarFaults.{word_line, place_line, name_line, pattern_line_at};

use serde_json::{Value, json};
use std::alloc::{AllocError, Global};

/// The status with which the program ends where a grammar is refused.
pub(crate) const GRAMMAR: u8 = 5;

/// The line of a fault that says no more than its word.
pub(crate) fn word(alloc: Global, fault: &str) -> Result<String, AllocError>
    ensures { IfOk result (λ s. string_bytes s ≡ word_line fault.now) }
{
    line(alloc, json!(in alloc; {"fault": fault, "status": GRAMMAR})?)
}

/// The line of a fault at a place of the file, or with a number.
pub(crate) fn place(alloc: Global, fault: &str, place: u32) -> Result<String, AllocError>
    ensures { IfOk result (λ s. string_bytes s ≡ place_line fault.now place) }
{
    line(
        alloc,
        json!(in alloc; {"at": place, "fault": fault, "status": GRAMMAR})?,
    )
}

/// The line of a fault at a name, or at a pointer into the file.
pub(crate) fn name(alloc: Global, fault: &str, name: &str) -> Result<String, AllocError>
    ensures { IfOk result (λ s. string_bytes s ≡ name_line fault.now name.now) }
{
    line(
        alloc,
        json!(in alloc; {"at": name, "fault": fault, "status": GRAMMAR})?,
    )
}

/// The line of a fault of the pattern of a rule.
pub(crate) fn pattern(
    alloc: Global,
    fault: &str,
    place: u32,
    rule: &str,
) -> Result<String, AllocError>
    ensures { IfOk result (λ s. string_bytes s ≡ pattern_line_at fault.now place rule.now) }
{
    line(
        alloc,
        json!(in alloc; {"at": place, "fault": fault, "rule": rule, "status": GRAMMAR})?,
    )
}

/// One line: the value and a newline.
pub(crate) fn line(alloc: Global, value: Value) -> Result<String, AllocError>
    requires { has_float (view value) ≡ false }
    ensures { IfOk result (λ s. string_bytes s ≡ compact_text (view value) ++ newline ∷ []) }
{
    let mut text = value.to_string(alloc)?;
    text.push_str("\n")?;
    Ok(text)
}

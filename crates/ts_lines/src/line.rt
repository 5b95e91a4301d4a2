//! A JSON value in; its line out.
ghost use Rattle.std.specs.Prelude.{◌≡◌, false, IfOk, string_bytes, ◌++◌, ◌∷◌, []};
ghost use Rattle.serde_json.specs.View.{view};
ghost use Rattle.serde_json.specs.Written.{compact_text, has_float};
ghost use Rattle.spec_output.specs.Lines.{newline};

use serde_json::Value;
use std::alloc::{AllocError, Global};

/// The text of a value that has no float, and a newline.
pub(crate) fn line(alloc: Global, value: Value) -> Result<String, AllocError>
    requires { has_float (view value) ≡ false }
    ensures { IfOk result (λ s. string_bytes s ≡ compact_text (view value) ++ newline ∷ []) }
{
    let mut text = value.to_string(alloc)?;
    text.push_str("\n")?;
    Ok(text)
}

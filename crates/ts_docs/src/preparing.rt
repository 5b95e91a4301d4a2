//! Making versions: a text, or a version and an edit of it, go in; a version with its outcome comes
//! out.
ghost use Rattle.std.specs.Prelude.{◌≡◌, ◌↔◌, ℕ, ◌+◌, ◌<◌, ◌≤◌, ◌^◌, length, IfOk, IsErrOf, IsOkUnless};
ghost use Rattle.ts_text.specs.Edit.{InRange, IsOver, apply_of, Fits};
ghost use Rattle.ts_text.specs.Text.{most_bytes};
ghost use Rattle.ts_docs.specs.Reuse.{IsReusableIfAny};
ghost use Rattle.ts_docs.specs.Versions.{IsTextOf, Drafts};

use crate::draft::DraftOf;
use crate::parsing::{Parsed, outcome_of};
use crate::reuse::{Reuse, reuse_for};
use crate::version::VersionOf;
use std::alloc::{AllocError, Global};
use std::snapshot::Snapshot;
use thiserror::Error;
use ts_base::Shared;
use ts_lexer::{Content, Tokens};
use ts_table::Table;
use ts_text::{Edit, EditFault};

/// Why no version was made of an edit.
#[derive(Clone, Copy, Debug, PartialEq, Eq, Error)]
pub enum Refused {
    /// The edit's parts do not lie in the text, in order, apart and on characters, or there is
    /// none.
    #[error("the edit's range is not one of the text")]
    Range,
    /// The text would have too many bytes: so many.
    #[error("{0} bytes are too many for a text")]
    Size(u64),
    /// There is no memory for the new version.
    #[error("out of memory")]
    Memory,
}

/// The first version of a document, of a text that is no longer than a text may be.
///
/// # Errors
///
/// `AllocError` where memory runs out.
pub fn opening<X: Tokens>(
    alloc: Global,
    table: &Table,
    lexer: &mut X,
    text: X::Text,
) -> Result<VersionOf<X::Text>, AllocError>
where
    X::Text: Drop,
    requires made { X.made_for lexer.old table.now }
    requires within { length (X.Text.bytes text) ≤ most_bytes }
    ensures made { X.made_for lexer.new table.now }
    ensures opens { IfOk result (IsTextOf table.now 0 (X.Text.bytes text)) }
{
    version(alloc, table, lexer, 0, text, Reuse::nothing())
}

/// The version after an edit of another, for this step of the client.
///
/// # Errors
///
/// `Range` where the edit's parts do not lie in the base's text, in order, apart and on characters,
/// or there is none; else `Size` where the new text would be too long; else `Memory`, where memory
/// runs out.
pub fn prepare<X: Tokens>(
    alloc: Global,
    table: &Table,
    lexer: &mut X,
    base: &VersionOf<X::Text>,
    client: u32,
    step: u32,
    edit: &Edit,
) -> Result<DraftOf<X::Text>, Refused>
where
    X::Text: Drop,
    requires made { X.made_for lexer.old table.now }
    requires table { table.now ≡ base.now.table }
    requires number { base.now.number + 1 < 2 ^ 32 }
    ensures made { X.made_for lexer.new table.now }
    ensures drafts { IfOk result (Drafts base.now client step edit.now) }
    ensures range { IsErrOf result Refused.Range ↔ ¬ (InRange base.now.text edit.now) }
    ensures size { (n : ℕ) →
        IsErrOf result (Refused.Size n) ↔ IsOver base.now.text edit.now n }
    ensures accepts { IsOkUnless result Refused.Memory ↔
        InRange base.now.text edit.now × Fits base.now.text edit.now }
{
    let text = edited(alloc, lexer, base.text(), edit)?;
    match next(alloc, table, lexer, base, edit, text) {
        Ok(version) => Ok(DraftOf {
            client,
            step,
            version,
        }),
        Err(_) => Err(Refused::Memory),
    }
}

/// The text after an edit.
fn edited<X: Tokens>(
    alloc: Global,
    lexer: &X,
    text: &X::Text,
    edit: &Edit,
) -> Result<X::Text, Refused>
    ensures ok { IfOk result (λ after.
        X.Text.bytes after ≡ apply_of (X.Text.bytes text.now) edit.now) }
    ensures within { IfOk result (λ after. length (X.Text.bytes after) ≤ most_bytes) }
    ensures range { IsErrOf result Refused.Range ↔ ¬ (InRange (X.Text.bytes text.now) edit.now) }
    ensures size { (n : ℕ) →
        IsErrOf result (Refused.Size n) ↔ IsOver (X.Text.bytes text.now) edit.now n }
    ensures accepts { IsOkUnless result Refused.Memory ↔
        InRange (X.Text.bytes text.now) edit.now × Fits (X.Text.bytes text.now) edit.now }
{
    match lexer.apply(alloc, text, edit) {
        Ok(after) => Ok(after),
        Err(EditFault::Range) => Err(Refused::Range),
        Err(EditFault::Size(size)) => Err(Refused::Size(size)),
        Err(EditFault::Memory) => Err(Refused::Memory),
    }
}

/// The version of this number with this text, and with what is kept of the version before it.
fn version<X: Tokens>(
    alloc: Global,
    table: &Table,
    lexer: &mut X,
    number: u32,
    text: X::Text,
    kept: Reuse,
) -> Result<VersionOf<X::Text>, AllocError>
where
    X::Text: Drop,
    requires made { X.made_for lexer.old table.now }
    requires within { length (X.Text.bytes text) ≤ most_bytes }
    requires kept { IsReusableIfAny table.now (X.Text.bytes text) kept.marked }
    ensures made { X.made_for lexer.new table.now }
    ensures version { IfOk result (IsTextOf table.now number (X.Text.bytes text)) }
{
    let Parsed { outcome, kept } = outcome_of(alloc, table, lexer, &text, kept)?;
    Ok(VersionOf {
        number,
        text: Shared::new(alloc, text)?,
        outcome,
        kept,
        table: Snapshot::of(table),
    })
}

/// The version after an edit of another, with the text that the edit leaves.
fn next<X: Tokens>(
    alloc: Global,
    table: &Table,
    lexer: &mut X,
    base: &VersionOf<X::Text>,
    edit: &Edit,
    text: X::Text,
) -> Result<Shared<VersionOf<X::Text>>, AllocError>
where
    X::Text: Drop,
    requires made { X.made_for lexer.old table.now }
    requires table { table.now ≡ base.now.table }
    requires number { base.now.number + 1 < 2 ^ 32 }
    requires in_range { InRange base.now.text edit.now }
    requires within { length (X.Text.bytes text) ≤ most_bytes }
    requires text { X.Text.bytes text ≡ apply_of base.now.text edit.now }
    ensures made { X.made_for lexer.new table.now }
    ensures version { IfOk result
        (IsTextOf table.now (base.now.number + 1) (X.Text.bytes text)) }
{
    let kept = reuse_for(alloc, table, base, edit)?;
    let version = version(alloc, table, lexer, base.number() + 1, text, kept)?;
    Shared::new(alloc, version)
}

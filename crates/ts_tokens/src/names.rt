//! Sets of names: lists of names come in, and sets of them go out.

ghost use Rattle.std.specs.Prelude.{IfOk};
ghost use Rattle.ts_rules.specs.Names.{told};
ghost use Rattle.ts_tokens.specs.Names.{HaveSame};

use indexmap::IndexSet;
use std::alloc::{AllocError, Global};
use ts_core::Str;

/// The set of some names.
///
/// # Errors
///
/// `AllocError` where memory runs out.
pub fn name_set<'a>(alloc: Global, names: &'a [Str]) -> Result<IndexSet<&'a Str>, AllocError>
    ensures { IfOk result (λ found. HaveSame (told found.keys) names.now) }
{
    let mut found = IndexSet::new(alloc);
    for name in names {
        found.insert(name)?;
    }
    Ok(found)
}

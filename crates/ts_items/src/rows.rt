//! Lists for each of some symbols: symbols and items go in, and the lists come out.
ghost use Rattle.std.specs.Prelude.{◌≡◌, ℕ, ◌<◌, length, IfOk, OnOk};
ghost use Rattle.ts_items.specs.Rows.{Puts, RowHas};

use std::alloc::{AllocError, Global};

/// So many empty lists.
pub(crate) fn empty_rows<T: Drop>(alloc: Global, count: usize) -> Result<Vec<Vec<T>>, AllocError>
    ensures count { IfOk result (λ v. length v.items ≡ count) }
    ensures empty { IfOk result (λ v. (y : ℕ) (x : T) → RowHas v.items y x → ⊥) }
{
    let mut rows = Vec::new(alloc);
    for _ in 0..count {
        rows.push(Vec::new(alloc))?;
    }
    Ok(rows)
}

/// Puts an item at the end of one list.
pub(crate) fn put<T: Drop>(rows: &mut [Vec<T>], at: usize, item: T) -> Result<(), AllocError>
    requires { at < length rows.old }
    ensures { OnOk result (Puts (λ y x. (y ≡ at) × (x ≡ item)) rows.old rows.new) }
{
    rows[at].push(item)?;
    Ok(())
}

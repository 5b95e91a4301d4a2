//! Sets of items past a symbol: the parts of a set go in, and the parts past each symbol come out.
ghost use Rattle.std.specs.Prelude.{◌≡◌, ◌≤◌, length, IfOk, OnOk};
ghost use Rattle.std.specs.List.{Contains};
ghost use Rattle.ts_items.specs.Rows.{Puts, FromOne};
ghost use Rattle.ts_items.specs.declared.part.Part.{Part as Parts};
ghost use Rattle.ts_items.specs.Numbers.{MovesTo, AreMoved, IsOrdered};

use crate::part::Part;
use crate::rows::{empty_rows, put};
use crate::tables::Tabled;
use std::alloc::{AllocError, Global};

/// Puts a part past the symbol at its dot.
fn move_part(moved: &mut [Vec<Part>], tabled: &Tabled, part: Part) -> Result<(), AllocError>
    requires line { part.line ≤ length tabled.now.tables.productions.items }
    requires count { length moved.old ≡ length tabled.now.tables.firsts.items }
    ensures { OnOk result (Puts (MovesTo tabled.now.grammar part) moved.old moved.new) }
{
    match tabled.symbol_at(part.line, usize::from(part.dot)) {
        Some(symbol) => {
            let past = Part {
                dot: part.dot + 1,
                ..part
            };
            put(moved, usize::from(symbol), past)
        }
        None => Ok(()),
    }
}

/// Puts all parts past the symbols at their dots.
fn move_parts(moved: &mut [Vec<Part>], tabled: &Tabled, parts: &[Part]) -> Result<(), AllocError>
    requires lines { (q : Parts) → Contains parts.now q
        → q.line ≤ length tabled.now.tables.productions.items }
    requires count { length moved.old ≡ length tabled.now.tables.firsts.items }
    ensures count { OnOk result (length moved.new ≡ length moved.old) }
    ensures moved { OnOk result
        (Puts (FromOne (MovesTo tabled.now.grammar) parts.now) moved.old moved.new) }
{
    for part in parts {
        move_part(moved, tabled, *part)?;
    }
    Ok(())
}

/// For each symbol the parts past it.
pub(crate) fn moved(
    alloc: Global,
    tabled: &Tabled,
    parts: &[Part],
) -> Result<Vec<Vec<Part>>, AllocError>
    requires { (q : Parts) → Contains parts.now q
        → q.line ≤ length tabled.now.tables.productions.items }
    ensures count { IfOk result (λ v. length v.items ≡ length tabled.now.tables.firsts.items) }
    ensures moved { IfOk result (λ v. AreMoved tabled.now.grammar parts.now v.items) }
{
    let mut moved = empty_rows(alloc, tabled.count())?;
    move_parts(moved.as_mut_slice(), tabled, parts)?;
    Ok(moved)
}

/// Some parts in order, each once.
pub(crate) fn in_order(alloc: Global, parts: &[Part]) -> Result<Vec<Part>, AllocError>
    ensures { IfOk result (λ v. IsOrdered parts.now v.items) }
{
    let mut ordered = Vec::new(alloc);
    ordered.extend_from_slice(parts)?;
    ordered.sort_unstable();
    ordered.dedup();
    Ok(ordered)
}

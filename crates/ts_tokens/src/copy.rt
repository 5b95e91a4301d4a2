//! Copies of regular expressions: an expression comes in, and one like it goes out.

ghost use Rattle.std.specs.Prelude.{◌≡◌, IfOk};

use std::alloc::{AllocError, Global};
use ts_core::{Boxed, List, Re};

/// A copy of an expression.
#[cycle(copy)]
pub(crate) fn copy_of(alloc: Global, re: &Re) -> Result<Re, AllocError>
    ensures { IfOk result (λ copy. copy ≡ re.now) }
{
    match re {
        Re::Empty => Ok(Re::Empty),
        Re::Set(ranges) => Ok(Re::Set(List::from_vec(Vec::from_slice(alloc, ranges.as_slice())?))),
        Re::Cat(parts) => Ok(Re::Cat(copies_of(alloc, parts.as_slice())?)),
        Re::Alt(parts) => Ok(Re::Alt(copies_of(alloc, parts.as_slice())?)),
        Re::Repeat(inner, least, most) => {
            let inner = copy_of(alloc, inner.get())?;
            Ok(Re::Repeat(Boxed::new(alloc, inner)?, *least, *most))
        },
    }
}

/// Copies of expressions, in their order.
#[cycle(copy)]
fn copies_of(alloc: Global, parts: &[Re]) -> Result<List<Re>, AllocError>
    ensures { IfOk result (λ copies. copies ≡ parts.now) }
{
    let mut copies = List::new(alloc);
    for part in parts {
        copies.push(copy_of(alloc, part)?)?;
    }
    Ok(copies)
}

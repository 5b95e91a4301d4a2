//! Looks at a document: the shelf and a pass go in; the newest version comes out, at once or as
//! soon as it is one that is awaited.
ghost use Rattle.std.specs.Prelude.{◌≡◌, IfOk, IfErr};
ghost use Rattle.ts_shelf.specs.Passes.{IsPass};
ghost use Rattle.ts_docs.specs.Versions.{IsOfTable};
ghost use Rattle.ts_client.specs.Turns.{SamePass};
ghost use Rattle.ts_client.specs.Looks.{Watched, IsRefused};

use std::sync::Wait;
use std::thread;
use ts_base::Shared;
use ts_docs::{Book, Version};
use ts_shelf::{Denied, Pass, Seen, Shelf};

/// How many looks an await makes at most.
const MOST_LOOKS: u64 = 10_000_000;

/// Looks until there is a version, and tells what the last look showed. It gives up after all
/// looks.
///
/// # Errors
///
/// Those of a look. The pass then knows of the looks before it.
pub(crate) fn watch<R: Wait>(
    rt: &R,
    shelf: &Shelf<Book>,
    pass: &mut Pass<Book>,
    wanted: u32,
) -> Result<Seen<Shared<Version>>, Denied>
    requires shelf { pass.old.shelf ≡ shelf.now }
    requires pass { IsPass IsOfTable pass.old.knows }
    ensures shelf { pass.new.shelf ≡ pass.old.shelf }
    ensures pass { IsPass IsOfTable pass.new.knows }
    ensures same { SamePass pass.old.knows pass.new.knows }
    ensures offers { pass.new.knows.offers ≡ pass.old.knows.offers }
    ensures saw { IfOk result (λ seen. Watched pass.old.knows pass.new.knows wanted seen) }
    ensures refused { IfErr result (λ e. IsRefused pass.old.knows pass.new.knows e) }
{
    let mut seen = shelf.look(rt, pass)?;
    for _ in 1..MOST_LOOKS {
        if wanted <= seen.number {
            return Ok(seen);
        }
        thread::yield_now();
        seen = shelf.look(rt, pass)?;
    }
    Ok(seen)
}

//! The reader: from the text of a query to what is written there, or to its first fault.
ghost use Rattle.std.specs.Prelude.{◌≡◌, ◌≢◌, ◌⊎◌, ◌^◌, ◌<◌, length, IfOk, IfErr, IsErrAnd, List as Values};
ghost use Rattle.ts_query_tree.specs.declared.tree.Part.{Part as AnyPart};
ghost use Rattle.ts_query_tree.specs.declared.fault.TreeFault.{TreeFault as AnyFault};
ghost use Rattle.ts_query_tree.specs.Reads.{Reads, IsFault};

use crate::fault::TreeFault;
use crate::state::{Outcome, walk};
use crate::tree::Part;
use std::alloc::Global;
use ts_base::List;

/// Reads a whole text, by the rules of Tree-sitter's query files: blanks (space, tab, line feed,
/// vertical tab, form feed, carriage return) and comments may stand between all signs, also behind
/// `@`, `!` and `#`. A lone `_` is a name behind these and before a colon, else it is any node. The
/// parts of the answer are its patterns, each an item.
///
/// # Errors
///
/// The first fault, as `TreeFault` says. `Memory` may come at any time.
pub fn read(alloc: Global, text: &str) -> Result<List<Part>, TreeFault>
    requires { length text.now < 2 ^ 32 }
    ensures ok { IfOk result (λ parts. Reads text.now parts) }
    ensures refused { IfErr result (λ e. IsFault text.now e) }
    ensures complete { IfErr result
        (λ e. e ≢ TreeFault.Memory → (parts : Values AnyPart) → Reads text.now parts → ⊥) }
    ensures exact { (f : AnyFault) → f ≢ TreeFault.Memory → IsFault text.now f → IsErrAnd result
        (λ e. (e ≡ f) ⊎ (e ≡ TreeFault.Memory)) }
{
    read_text(alloc, text)
}

fn read_text(alloc: Global, text: &str) -> Result<List<Part>, TreeFault>
    requires { length text.now < 2 ^ 32 }
    ensures ok { IfOk result (λ parts. Reads text.now parts) }
    ensures refused { IfErr result (λ e. IsFault text.now e) }
{
    match walk(alloc, text)? {
        Outcome::Whole(parts) => Ok(parts),
        Outcome::Syntax(at) => Err(TreeFault::Syntax(at as u32)),
        Outcome::Deep(at) => Err(TreeFault::Deep(at as u32)),
    }
}

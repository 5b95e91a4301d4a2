//! The whole of a text: from bytes to the value or the fault.

ghost use Rattle.std.specs.Prelude.{◌≡◌, ◌≢◌, ◌⊎◌, ◌^◌, ◌<◌, length, IfOk, IfErr, IsErrAnd};
ghost use Rattle.ts_ojson.specs.declared.value.OJson.{OJson as AnyOJson};
ghost use Rattle.ts_ojson.specs.declared.fault.OFault.{OFault as AnyFault};
ghost use Rattle.ts_ojson.specs.Reads.{Reads, IsFault};
ghost use Rattle.ts_ojson.specs.Places.{Refused};

use crate::byte::blanks_end;
use crate::fault::OFault;
use crate::stop::{Stop, fault_of};
use crate::tree::value;
use crate::value::OJson;
use std::alloc::Global;
use std::str::from_utf8;

/// How many arrays and objects may be open at once.
const MOST_DEEP: usize = 256;

/// Reads a whole text of JSON (RFC 8259) in which an escape of a high surrogate is followed by one
/// of a low surrogate and no low one stands alone, in one pass.
///
/// # Errors
///
/// The first fault, as `OFault` says. That the input is UTF-8 is tested before all else; of the
/// other faults the one of the least place is answered, and `Syntax` where it and `Deep` have one
/// place.
/// `Memory` may come at any time.
pub fn read(alloc: Global, bytes: &[u8]) -> Result<OJson, OFault>
    requires { length bytes.now < 2 ^ 32 }
    ensures ok { IfOk result (λ v. Reads v bytes.now) }
    ensures refused { IfErr result (λ e. IsFault e bytes.now) }
    ensures complete { IfErr result
        (λ e. e ≢ OFault.Memory → (v : AnyOJson) → Reads v bytes.now → ⊥) }
    ensures exact { (f : AnyFault) → f ≢ OFault.Memory → IsFault f bytes.now → IsErrAnd result
        (λ e. (e ≡ f) ⊎ (e ≡ OFault.Memory)) }
{
    match from_utf8(bytes) {
        Ok(text) => read_text(alloc, text),
        Err(fault) => Err(OFault::Utf8(fault.valid_up_to() as u32)),
    }
}

fn read_text(alloc: Global, text: &str) -> Result<OJson, OFault>
    requires { length text.now < 2 ^ 32 }
    ensures ok { IfOk result (λ v. Reads v text.now) }
    ensures refused { IfErr result (λ e. IsFault e text.now) }
{
    match whole(alloc, text) {
        Ok(value) => Ok(value),
        Err(stop) => Err(fault_of(text, stop)),
    }
}

/// The value of a whole text.
fn whole(alloc: Global, text: &str) -> Result<OJson, Stop>
    ensures ok { IfOk result (λ v. Reads v text.now) }
    ensures err { IfErr result (λ e. Refused e text.now) }
{
    let at = blanks_end(text, 0);
    let (value, end) = value(alloc, text, at, MOST_DEEP)?;
    let end = blanks_end(text, end);
    if end < text.len() {
        return Err(Stop::Syntax(end));
    }
    Ok(value)
}

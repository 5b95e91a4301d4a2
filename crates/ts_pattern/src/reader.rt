//! The reader: from the text of a pattern to its regular expression, or to its fault.
ghost use Rattle.std.specs.Prelude.{◌≡◌, ◌≢◌, ◌⊎◌, ◌^◌, ◌<◌, ◌≤◌, length, chars, IfOk, IfErr, IsErrAnd};
ghost use Rattle.ts_core.specs.declared.re.Re.{Re as AnyRe};
ghost use Rattle.ts_pattern.specs.declared.fault.PFault.{PFault as AnyFault};
ghost use Rattle.ts_pattern.specs.Reads.{Reads, IsFault, bytes_before, fault_of};

use crate::fault::PFault;
use crate::outcome::Outcome;
use crate::sight::Flaw;
use crate::state::read;
use std::alloc::{AllocError, Global};
use ts_core::Re;

/// Reads a whole pattern. With `ignore_case` each set also has the characters that share a simple
/// case folding with one of its own (the Unicode standard, section 3.13), before any complement.
///
/// # Errors
///
/// The first fault, as `PFault` says; `Limit` only where there is no other. `Memory` may come at
/// any time.
pub fn pattern(alloc: Global, source: &str, ignore_case: bool) -> Result<Re, PFault>
    requires { length source.now < 2 ^ 32 }
    ensures ok { IfOk result (λ r. Reads source.now ignore_case r) }
    ensures refused { IfErr result (λ e. IsFault source.now ignore_case e) }
    ensures complete { IfErr result
        (λ e. e ≢ PFault.Memory → (r : AnyRe) → Reads source.now ignore_case r → ⊥) }
    ensures exact { (f : AnyFault) → f ≢ PFault.Memory → IsFault source.now ignore_case f
        → IsErrAnd result
        (λ e. (e ≡ f) ⊎ (e ≡ PFault.Memory)) }
{
    read_source(alloc, source, ignore_case)
}

fn read_source(alloc: Global, source: &str, ignore_case: bool) -> Result<Re, PFault>
    requires { length source.now < 2 ^ 32 }
    ensures ok { IfOk result (λ r. Reads source.now ignore_case r) }
    ensures refused { IfErr result (λ e. IsFault source.now ignore_case e) }
{
    let text = characters(alloc, source)?;
    match read(alloc, &text, ignore_case)? {
        Outcome::Whole(re) => Ok(re),
        Outcome::Flawed(flaw, at) => Err(fault(flaw, byte_place(source, at))),
        Outcome::Over(limit) => Err(PFault::Limit(limit)),
    }
}

fn characters(alloc: Global, source: &str) -> Result<Vec<char>, AllocError>
    ensures { IfOk result (λ text. text.items ≡ chars source.now) }
{
    source.chars().collect(alloc)
}

/// Where the character with this index starts, or the end of the text, in bytes.
fn byte_place(source: &str, at: usize) -> usize
    ensures value { result ≡ bytes_before (chars source.now) at }
    ensures within { result ≤ length source.now }
{
    match source.char_indices().nth(at) {
        Some((place, _)) => place,
        None => source.len(),
    }
}

fn fault(flaw: Flaw, place: usize) -> PFault
    requires { place < 2 ^ 32 }
    ensures { result ≡ fault_of flaw place }
{
    let place = place as u32;
    match flaw {
        Flaw::Syntax => PFault::Syntax(place),
        Flaw::Unsupported => PFault::Unsupported(place),
        Flaw::EmptyClass => PFault::EmptyClass(place),
        Flaw::UnknownProperty => PFault::UnknownProperty(place),
    }
}

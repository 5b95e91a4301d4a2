//! The whole of a file: from its bytes to the grammar or the fault.

ghost use Rattle.std.specs.Prelude.{◌≡◌, ◌≢◌, ◌⊎◌, ◌^◌, ◌<◌, length, Ok, Err, IfOk, IfErr};
ghost use Rattle.spec_tables.specs.Fit.{Fit};
ghost use Rattle.ts_core.specs.declared.flat.FlatGrammar.{FlatGrammar as AnyGrammar};
ghost use Rattle.ts_core.specs.declared.limits.Unfit.{Unfit as AnyMisfit};
ghost use Rattle.ts_fit.specs.Misfits.{IsFormedGrammar};
ghost use Rattle.ts_langfile.specs.declared.fault.LangFault.{LangFault as AnyFault};
ghost use Rattle.ts_langfile.specs.Right.{Reads};
ghost use Rattle.ts_langfile.specs.Faults.{IsFault};
ghost use Rattle.ts_langfile.specs.Parts.{number16_at};
ghost use Rattle.ts_langfile.specs.Reading.{judged_at};
ghost use Rattle.ts_langfile.specs.Verdict as spec;

use crate::fault::LangFault;
use crate::flaw::{Flaw, Stop};
use crate::grammar::judged;
use crate::part::number16;
use std::alloc::Global;
use ts_core::FlatGrammar;
use ts_fit::misfit;

/// The version that is written.
const NEW_VERSION: u16 = 2;

/// The version without supertypes.
const OLD_VERSION: u16 = 1;

/// A stop as the fault of the whole file.
fn fault(bytes: &[u8], stop: Stop) -> LangFault
    requires { length bytes.now < 2 ^ 32 }
    ensures { spec.FaultIs result bytes.now stop }
{
    match stop {
        Stop::Flawed(Flaw::Short(left)) => LangFault::Short(
            bytes.len().saturating_sub(left) as u32,
        ),
        Stop::Flawed(Flaw::Field(left)) => LangFault::Field(
            bytes.len().saturating_sub(left) as u32,
        ),
        Stop::Memory => LangFault::Memory,
    }
}

/// The grammar of a version whose fields begin at `start`.
#[tactic(auto, unfolding(crate::specs::Verdict::ended))]
fn of_version(
    alloc: Global,
    bytes: &[u8],
    start: &[u8],
    version: u16,
) -> Result<FlatGrammar, LangFault>
    requires { length bytes.now < 2 ^ 32 }
    ensures { spec.ReturnsVerdict result (spec.ended bytes.now (judged_at version start.now)) }
{
    match judged(alloc, start, version) {
        Ok((grammar, rest)) => {
            if !rest.is_empty() {
                return Err(LangFault::Long(bytes.len().saturating_sub(rest.len()) as u32));
            }
            Ok(grammar)
        }
        Err(stop) => Err(fault(bytes, stop)),
    }
}

/// The grammar of a file whose version begins at `start`.
#[tactic(auto, unfolding(crate::specs::Verdict::of_version))]
fn behind_magic(alloc: Global, bytes: &[u8], start: &[u8]) -> Result<FlatGrammar, LangFault>
    requires { length bytes.now < 2 ^ 32 }
    ensures { spec.ReturnsVerdict result (spec.of_version bytes.now (number16_at start.now)) }
{
    match number16(start) {
        Ok((version, start)) => {
            if version == OLD_VERSION || version == NEW_VERSION {
                return of_version(alloc, bytes, start, version);
            }
            Err(LangFault::Version(version))
        }
        Err(stop) => Err(fault(bytes, stop)),
    }
}

/// The grammar that the bytes spell, or the first fault of its fields.
#[tactic(auto, unfolding(crate::specs::Verdict::verdict))]
fn judged_fields(alloc: Global, bytes: &[u8]) -> Result<FlatGrammar, LangFault>
    requires { length bytes.now < 2 ^ 32 }
    ensures { spec.ReturnsVerdict result (spec.verdict bytes.now) }
{
    if !bytes.starts_with(b"TSLF") {
        return Err(LangFault::Magic);
    }
    let (_, start) = bytes.split_at(4);
    behind_magic(alloc, bytes, start)
}

/// Reads the fields of a whole language file, as `read` does, and does not ask whether the grammar
/// is fit for use.
///
/// # Errors
///
/// The fault of the least place, and `Long` behind all others. `Memory` may come at any time.
pub fn fields(alloc: Global, bytes: &[u8]) -> Result<FlatGrammar, LangFault>
    requires { length bytes.now < 2 ^ 32 }
    ensures exact { spec.ReturnsVerdict result (spec.verdict bytes.now) }
    ensures ok { IfOk result (λ f. Reads f bytes.now) }
    ensures formed { IfOk result (λ f. IsFormedGrammar f) }
    ensures refused { IfErr result (λ e. IsFault e bytes.now) }
    ensures unasked { IfErr result (λ e. (cause : AnyMisfit) → e ≢ LangFault.Misfit cause) }
{
    judged_fields(alloc, bytes)
}

/// The same, of fit grammars alone.
fn fit_grammar(alloc: Global, bytes: &[u8]) -> Result<FlatGrammar, LangFault>
    requires { length bytes.now < 2 ^ 32 }
    ensures ok { IfOk result (λ f. Reads f bytes.now) }
    ensures fit { IfOk result (λ f. Fit f) }
    ensures refused { IfErr result (λ e. IsFault e bytes.now) }
{
    let grammar = fields(alloc, bytes)?;
    match misfit(alloc, &grammar)? {
        Some(cause) => Err(LangFault::Misfit(cause)),
        None => Ok(grammar),
    }
}

/// Reads a whole language file, of version 1 or 2. That of version 1 has no supertypes. A grammar
/// that is read is fit: tables can be made of it.
///
/// # Errors
///
/// The first fault, as `LangFault` says: of the fields that of the least place; where they are
/// right, bytes behind them; last, why the grammar is not fit. `Memory` may come at any time.
pub fn read(alloc: Global, bytes: &[u8]) -> Result<FlatGrammar, LangFault>
    requires { length bytes.now < 2 ^ 32 }
    ensures ok { IfOk result (λ f. Reads f bytes.now) }
    ensures fit { IfOk result (λ f. Fit f) }
    ensures refused { IfErr result (λ e. IsFault e bytes.now) }
    ensures complete { (f : AnyGrammar) → Reads f bytes.now → Fit f
        → (result ≡ Ok f) ⊎ (result ≡ Err LangFault.Memory) }
    ensures exact { (e : AnyFault) → e ≢ LangFault.Memory → IsFault e bytes.now
        → (result ≡ Err e) ⊎ (result ≡ Err LangFault.Memory) }
{
    fit_grammar(alloc, bytes)
}

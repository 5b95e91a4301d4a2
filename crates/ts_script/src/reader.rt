//! The bytes of a script in; what it asks for out, or its first fault.
ghost use Rattle.std.specs.Prelude.{◌≡◌, ◌≢◌, ◌⊎◌, ◌≤◌, ℕ, List, [], length, IfOk, IfErr, IsErrAnd};
ghost use Rattle.ts_script.specs.declared.fault.SFault.{SFault as AnyFault};
ghost use Rattle.ts_script.specs.declared.plan.Plan.{Plan as AnyPlan};
ghost use Rattle.ts_script.specs.Drafts.{Goes};
ghost use Rattle.ts_script.specs.Rules as rules;
ghost use Rattle.ts_script.specs.Script.{IsScript, IsFault};

use crate::cut::first_line;
use crate::draft::Draft;
use crate::fault::SFault;
use crate::laws::{one_fault, refused_is_no_script};
use crate::plan::Plan;
use std::alloc::Global;

/// The most bytes of a script: 16 MiB.
pub const MOST_SCRIPT_BYTES: usize = 16_777_216;

/// What a script asks for.
///
/// It goes over the bytes once, and each text in them is copied once.
///
/// # Errors
///
/// `Limit(0)` above `MOST_SCRIPT_BYTES` bytes; else the fault of the first line that has one,
/// `Line` before `Order` before `Limit`; `Memory` where memory runs out.
pub fn script(alloc: Global, bytes: &[u8]) -> Result<Plan, SFault>
    ensures ok { IfOk result (λ plan. IsScript bytes.now plan) }
    ensures refused { IfErr result (λ e. e ≢ SFault.Memory → IsFault bytes.now e) }
    ensures complete { IfErr result (λ e. e ≢ SFault.Memory
        → (plan : AnyPlan) → IsScript bytes.now plan → ⊥) }
    ensures exact { (f : AnyFault) → IsFault bytes.now f
        → IsErrAnd result (λ e. (e ≡ f) ⊎ (e ≡ SFault.Memory)) }
{
    one_fault();
    refused_is_no_script();
    read(alloc, bytes)
}

/// The same, without the clauses that follow from the laws.
fn read(alloc: Global, bytes: &[u8]) -> Result<Plan, SFault>
    ensures ok { IfOk result (λ plan. IsScript bytes.now plan) }
    ensures refused { IfErr result (λ e. e ≢ SFault.Memory → IsFault bytes.now e) }
{
    if bytes.len() > MOST_SCRIPT_BYTES {
        return Err(SFault::Limit(0));
    }
    let draft = drafted(alloc, bytes)?;
    Ok(draft.into_plan())
}

/// What all lines ask for.
fn drafted(alloc: Global, bytes: &[u8]) -> Result<Draft, SFault>
    requires { length bytes.now ≤ rules.most_script_bytes }
    ensures ok { IfOk result (λ draft. (n : ℕ) × Goes bytes.now [] n draft) }
    ensures refused { IfErr result (λ e. e ≢ SFault.Memory → IsFault bytes.now e) }
{
    let mut draft = Draft::new(alloc);
    let mut rest = bytes;
    let mut number = 1;
    while !rest.is_empty() {
        let (line, after) = first_line(rest);
        draft.read(alloc, line, number)?;
        rest = after;
        number += 1;
    }
    Ok(draft)
}

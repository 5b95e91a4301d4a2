//! Inlining in a grammar: what comes in are its rule trees by numbers, and what goes out are the
//! inlined rules, ready to be put in place of their symbols, and then what alternatives become.

ghost use Rattle.std.specs.Prelude.{◌≡◌, ◌<◌, ◌≤◌, ◌↔◌, ◌⊎◌, IfOk};
ghost use Rattle.std.specs.Result.{IsErrOf, IsOkUnless};
ghost use Rattle.ts_rules.specs.Counts.{many, long};
ghost use Rattle.ts_productions.specs.Limits.{AreMany, AreFewSources, SomeIsLong, AllAreShort, AreInlined, AreInlinedProductions, EachBecomesFew};
ghost use Rattle.ts_productions.specs.Roots.{AreOrderedSources};
ghost use Rattle.ts_productions.specs.Sizes.{JudgesSize};

use crate::expansion::Expansion;
use crate::fault::ProductionFault;
use crate::flat::distinct;
use crate::inlined::inlined_expansions;
use crate::measure::{LONG, MANY};
use crate::sources::Sources;
use crate::spread::{Inlined, expansions_of};
use crate::totals::{inlined_sizes, size_after, size_before};
use std::alloc::{AllocError, Global};
use ts_core::{List, Production};
use ts_rules::{Alternative, Size};

/// The inlined rules of a grammar, ready to be put in place of their symbols.
#[derive(Drop)]
pub struct InlinedRules {
    pub(crate) sizes: Vec<Size>,
    pub(crate) full: Vec<List<Expansion>>,
}

/// What the sizes before and after inlining come to.
#[derive(Clone, Copy)]
enum Verdict {
    Fits,
    Many,
    Long,
}

fn judge(before: Size, after: Size) -> Verdict
    ensures { JudgesSize before after result }
{
    if before.many == MANY || after.many == MANY {
        Verdict::Many
    } else if before.longest == LONG || after.longest == LONG {
        Verdict::Long
    } else {
        Verdict::Fits
    }
}

/// The inlined rules of a grammar, where all its productions are within the limits.
///
/// # Errors
///
/// `Productions` exactly where there are more than 65,535 before inlining, those of the inlined
/// rules among them, or after it; else `Steps` exactly where one has more than 255 steps before or
/// after inlining; both before any is built and before equal ones are dropped. `Memory` where
/// memory runs out.
pub fn inlined_rules(alloc: Global, sources: &Sources) -> Result<InlinedRules, ProductionFault>
    requires { AreOrderedSources sources.now }
    ensures inlined { IfOk result (AreInlined sources.now) }
    ensures many { IsErrOf result ProductionFault.Productions → AreMany sources.now }
    ensures long { IsErrOf result ProductionFault.Steps
        → AreFewSources sources.now × SomeIsLong sources.now }
    ensures fits { IfOk result (λ _. AreFewSources sources.now × AllAreShort sources.now) }
    ensures accepts { AreFewSources sources.now × AllAreShort sources.now
        → IsOkUnless result ProductionFault.Memory }
{
    let sizes = inlined_sizes(alloc, sources)?;
    let before = size_before(sources);
    let after = size_after(sources, sizes.as_slice());
    match judge(before, after) {
        Verdict::Many => Err(ProductionFault::Productions),
        Verdict::Long => Err(ProductionFault::Steps),
        Verdict::Fits => {
            let full = inlined_expansions(alloc, sources, sizes.as_slice())?;
            Ok(InlinedRules { sizes, full })
        },
    }
}

/// The productions that alternatives become by inlining.
pub(crate) fn productions_of(
    alloc: Global,
    sources: &Sources,
    rules: &InlinedRules,
    alternatives: &[Alternative],
) -> Result<List<Production>, AllocError>
    requires ordered { AreOrderedSources sources.now }
    requires inlined { AreInlined sources.now rules.now }
    requires few { EachBecomesFew sources.now alternatives.now }
    ensures { IfOk result (AreInlinedProductions sources.now alternatives.now) }
{
    let inlined = Inlined {
        first: sources.first_inlined,
        sizes: rules.sizes.as_slice(),
        full: rules.full.as_slice(),
    };
    let expansions = expansions_of(alloc, &inlined, alternatives)?;
    let found = distinct(alloc, sources.aliases, expansions.as_slice())?;
    Ok(found)
}

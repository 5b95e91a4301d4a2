//! Captures of ways, each once: ways or lists of captures go in, and each list of captures, or each
//! set of them, comes out once.
ghost use Rattle.std.specs.Prelude.{◌≡◌, ◌↔◌, IfOk, OnOk, map, List as Values};
ghost use Rattle.std.specs.List.{Contains};
ghost use Rattle.std.specs.List.Sorted.{IsStrictlySortedBy};
ghost use Rattle.spec_matches.specs.declared.found.Capture.{Capture as Mark};
ghost use Rattle.spec_matches.specs.declared.placing.Placing.{Placing as Way};
ghost use Rattle.spec_matches.specs.Matches.{capture_cmp};
ghost use Rattle.ts_search.specs.Adding.{Adds, AreLike, OfSome};
ghost use Rattle.ts_search.specs.Memory.{IsBare};
ghost use Rattle.ts_search.specs.Sets.{SameMembers};
ghost use Rattle.ts_search.specs.Steps.{Shown};

use crate::products::joined;
use spec_matches::{Capture, Placing, one_order};
use std::alloc::{AllocError, Global};
use ts_base::List;

/// Each of some lists once.
pub(crate) fn once_each(lists: Vec<List<Capture>>) -> Vec<List<Capture>>
    ensures { (c : Values Mark) → Contains result.items c ↔ Contains lists.items c }
{
    let mut lists = lists;
    lists.sort_unstable();
    lists.dedup();
    lists
}

/// Captures in order, each once. Nothing is copied.
pub(crate) fn in_order(captures: List<Capture>) -> List<Capture>
    ensures members { (c : Mark) → Contains result c ↔ Contains captures c }
    ensures order { IsStrictlySortedBy capture_cmp result }
{
    one_order();
    let mut items = captures.into_vec();
    items.sort_unstable();
    items.dedup();
    List::from_vec(items)
}

/// Each of some lists in order, those with the same members once.
pub(crate) fn sets(
    alloc: Global,
    lists: Vec<List<Capture>>,
) -> Result<Vec<List<Capture>>, AllocError>
    ensures { IfOk result (λ kept. AreLike SameMembers (Contains lists.items) kept.items) }
{
    let mut out = Vec::with_capacity(alloc, lists.len())?;
    for list in lists {
        out.push(in_order(list))?;
    }
    Ok(once_each(out))
}

/// The captures of embeddings.
pub(crate) fn captures_of(
    alloc: Global,
    found: Vec<Placing>,
) -> Result<Vec<List<Capture>>, AllocError>
    ensures { IfOk result (λ all. all.items ≡ map (λ f. f.captures) found.items) }
{
    let mut out = Vec::with_capacity(alloc, found.len())?;
    for one in found {
        let Placing {
            first: _,
            near: _,
            captures,
        } = one;
        out.push(captures)?;
    }
    Ok(out)
}

/// Adds a way with these captures.
fn add_shown(
    alloc: Global,
    out: &mut Vec<Placing>,
    first: Option<usize>,
    near: bool,
    captures: &[Capture],
) -> Result<(), AllocError>
    ensures { OnOk result (Adds (Shown first near captures.now) out.old.items out.new.items) }
{
    let captures = joined(alloc, &[], captures)?;
    out.push(Placing {
        first,
        near,
        captures,
    })?;
    Ok(())
}

/// Adds a way with each of some captures.
pub(crate) fn add_placed(
    alloc: Global,
    out: &mut Vec<Placing>,
    first: Option<usize>,
    near: bool,
    lists: &[List<Capture>],
) -> Result<(), AllocError>
    ensures { OnOk result (Adds (OfSome (Shown first near) lists.now) out.old.items out.new.items) }
{
    for one in lists {
        add_shown(alloc, out, first, near, one.as_slice())?;
    }
    Ok(())
}

/// The captures of ways, each once, as ways without places.
pub(crate) fn bare(alloc: Global, found: Vec<Placing>) -> Result<Vec<Placing>, AllocError>
    ensures { IfOk result (λ v. (f : Way) → Contains v.items f ↔ OfSome IsBare found.items f) }
{
    let lists = captures_of(alloc, found)?;
    let kept = once_each(lists);
    let mut out = Vec::new(alloc);
    add_placed(alloc, &mut out, None, false, kept.as_slice())?;
    Ok(out)
}

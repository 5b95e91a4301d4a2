//! An index of patterns by their roots: patterns go in, and groups come out, each of the patterns
//! of whose roots the same is known.
ghost use Rattle.std.specs.Prelude.{◌≡◌, ◌<◌, ◌^◌, length, slice_get, Some, IfOk, IfSome, IsTrue, OnOk};
ghost use Rattle.ts_query_syntax.specs.declared.read_query.Pattern.{Pattern as Whole};
ghost use Rattle.ts_search.specs.declared.group.Group.{Group as Numbers};
ghost use Rattle.ts_search.specs.Index.{AreRooted, IsIndex, IsRoot, Puts};
ghost use Rattle.ts_search.specs.Single.{IsAlone};

use crate::group::{Group, Root, Rooted};
use crate::single::single;
use std::alloc::{AllocError, Global};
use ts_query_syntax::{Item, Pattern, Test};

/// What is known of the root of a pattern that is this item alone.
fn root_of_item(item: &Item) -> Root
    ensures { (pattern : Whole) → IsAlone item.now pattern → IsRoot result pattern }
{
    match item.test {
        Test::Kind(kind) => Root::Kind(kind),
        Test::Any | Test::Named | Test::Choice | Test::Round => Root::Node,
    }
}

/// What is known of the root of a pattern.
fn root_of(pattern: &Pattern) -> Root
    ensures { IsRoot result pattern.now }
{
    match single(pattern) {
        Some(item) => root_of_item(item),
        None => Root::Siblings,
    }
}

/// Patterns and what is known of their roots.
fn rooted(alloc: Global, patterns: &[Pattern]) -> Result<Vec<Rooted>, AllocError>
    requires few { length patterns.now < 2 ^ 32 }
    ensures { IfOk result (λ all. AreRooted patterns.now (length patterns.now) all.items) }
{
    let mut all = Vec::with_capacity(alloc, patterns.len())?;
    for number in 0..patterns.len() as u32 {
        let root = root_of(&patterns[number as usize]);
        all.push(Rooted { root, number })?;
    }
    Ok(all)
}

/// Patterns and what is known of their roots, those with the same beside one another.
fn by_root(alloc: Global, patterns: &[Pattern]) -> Result<Vec<Rooted>, AllocError>
    requires few { length patterns.now < 2 ^ 32 }
    ensures { IfOk result (λ all. AreRooted patterns.now (length patterns.now) all.items) }
{
    let mut all = rooted(alloc, patterns)?;
    all.sort_unstable();
    Ok(all)
}

/// Whether two roots are the same.
fn is_same(a: Root, b: Root) -> bool
    ensures { IsTrue result → a ≡ b }
{
    match (a, b) {
        (Root::Kind(a), Root::Kind(b)) => a == b,
        (Root::Node, Root::Node) | (Root::Siblings, Root::Siblings) => true,
        (Root::Kind(_), Root::Node | Root::Siblings)
        | (Root::Node, Root::Kind(_) | Root::Siblings)
        | (Root::Siblings, Root::Kind(_) | Root::Node) => false,
    }
}

/// The place of the last group, where that has this root.
fn last_of(groups: &[Group], root: Root) -> Option<usize>
    ensures { IfSome result (λ at. (g : Numbers) × (slice_get groups.now at ≡ Some g)
        × (g.root ≡ root)) }
{
    let count = groups.len();
    if count == 0 {
        return None;
    }
    if !is_same(groups[count - 1].root, root) {
        return None;
    }
    Some(count - 1)
}

/// Adds a pattern to a group.
fn add(groups: &mut Vec<Group>, at: usize, one: &Rooted) -> Result<(), AllocError>
    requires { (g : Numbers) × (slice_get groups.old.items at ≡ Some g) × (g.root ≡ one.now.root) }
    ensures { OnOk result (Puts one.now groups.old.items groups.new.items) }
{
    groups[at].numbers.push(one.number)?;
    Ok(())
}

/// Adds a group of one pattern.
fn begin(alloc: Global, groups: &mut Vec<Group>, one: &Rooted) -> Result<(), AllocError>
    ensures { OnOk result (Puts one.now groups.old.items groups.new.items) }
{
    let mut numbers = Vec::new(alloc);
    numbers.push(one.number)?;
    groups.push(Group {
        root: one.root,
        numbers,
    })?;
    Ok(())
}

/// Adds a pattern to the last group, where that has its root, and else to one of its own.
fn put(alloc: Global, groups: &mut Vec<Group>, one: &Rooted) -> Result<(), AllocError>
    ensures { OnOk result (Puts one.now groups.old.items groups.new.items) }
{
    match last_of(groups.as_slice(), one.root) {
        Some(at) => {
            add(groups, at, one)?;
            Ok(())
        }
        None => {
            begin(alloc, groups, one)?;
            Ok(())
        }
    }
}

/// The patterns by their roots.
pub(crate) fn groups_of(alloc: Global, patterns: &[Pattern]) -> Result<Vec<Group>, AllocError>
    requires few { length patterns.now < 2 ^ 32 }
    ensures { IfOk result (λ groups. IsIndex patterns.now groups.items) }
{
    let all = by_root(alloc, patterns)?;
    let mut groups = Vec::new(alloc);
    for one in all.as_slice() {
        put(alloc, &mut groups, one)?;
    }
    Ok(groups)
}

//! The matches of patterns: patterns and a visible tree go in, and the matches come out in order.
ghost use Rattle.std.specs.Prelude.{◌≡◌, ◌↔◌, ◌∷◌, [], ◌<◌, ◌≤◌, ◌^◌, length, slice_get, Some, IfOk, OnOk, IfErr, IsTrue, true};
ghost use Rattle.ts_query_syntax.specs.declared.read_query.Item.{Item as Part};
ghost use Rattle.spec_matches.specs.Matches.{AreAll, AreMoreThan, OfPatterns, most_matches};
ghost use Rattle.ts_search.specs.Adding.{OfSome};
ghost use Rattle.ts_search.specs.Gathering.{Gathers, GathersSome, Hits, HitsBeside, HitsIn, HitsUnder, IsGathered};
ghost use Rattle.ts_search.specs.Index.{HasRoot, HaveRoot, IsIndex, IsRoot, MayBe};
ghost use Rattle.ts_search.specs.Rows.{seen_row};
ghost use Rattle.ts_search.specs.Single.{IsAlone};
ghost use Rattle.ts_search.specs.Visits.{HitsAtNode, HitsBy, HitsOfGroup, HitsOfNumber};

use crate::first::may_match;
use crate::gathering::{MOST, is_full, listed, put_kept};
use crate::group::{Group, Root};
use crate::index::groups_of;
use crate::keep::Keep;
use crate::limit::Limit;
use crate::once::in_order;
use crate::row::Row;
use crate::sight::Sight;
use crate::single::{add_single, single};
use crate::stand::Wanted;
use crate::taking::{fully, may_take};
use spec_matches::{Match, Placing, one_order};
use std::alloc::{AllocError, Global};
use std::collections::BTreeSet;
use ts_base::List;
use ts_query_syntax::{Item, Pattern};

/// How long a list of ways may grow where a shorter one did not tell enough.
const FAR: usize = 6_400_000;

/// Why there is no list of matches.
#[derive(Debug, PartialEq, Eq, Drop)]
pub enum MatchFault {
    /// There are more than 100,000.
    Many,
    /// Memory runs out.
    Memory,
}

impl From<AllocError> for MatchFault {
    ghost use Rattle.std.specs.Prelude.{◌≡◌};
    ghost use Rattle.ts_search.specs.declared.listing.MatchFault.TheVariants.{Memory};

    ghost from_gives = { λ _ e. e ≡ Memory };

    fn from(_: AllocError) -> MatchFault {
        MatchFault::Memory
    }
}

/// Adds the match that an embedding gives, where it is kept.
fn add_match<K: Keep>(
    alloc: Global,
    out: &mut BTreeSet<Match>,
    keep: &mut K,
    pattern: u32,
    siblings: &[u32],
    found: Placing,
) -> Result<(), AllocError>
    ensures adds { OnOk result (Gathers (Hits (K.kept keep.old) pattern siblings.now found)
        out.old out.new) }
    ensures same { keep.new ≡ keep.old }
{
    one_order();
    let Placing {
        first,
        near: _,
        captures,
    } = found;
    let Some(place) = first else {
        return Ok(());
    };
    if place >= siblings.len() {
        return Ok(());
    }
    let captures = in_order(captures);
    let one = Match {
        root: siblings[place],
        pattern,
        captures,
    };
    put_kept(alloc, out, keep, one)?;
    Ok(())
}

/// Adds the matches that some embeddings give, where they are kept.
fn add_matches<K: Keep>(
    alloc: Global,
    out: &mut BTreeSet<Match>,
    keep: &mut K,
    pattern: u32,
    siblings: &[u32],
    found: Vec<Placing>,
) -> Result<(), AllocError>
    ensures adds { OnOk result (Gathers
        (OfSome (Hits (K.kept keep.old) pattern siblings.now) found.items) out.old out.new) }
    ensures same { keep.new ≡ keep.old }
{
    for one in found {
        add_match(alloc, out, keep, pattern, siblings, one)?;
    }
    Ok(())
}

/// Adds matches that the embeddings of a pattern in some siblings give, where they are kept.
fn add_embedded<K: Keep>(
    alloc: Global,
    limit: &mut Limit,
    out: &mut BTreeSet<Match>,
    keep: &mut K,
    sight: &Sight,
    number: u32,
    pattern: &Pattern,
    siblings: &[u32],
) -> Result<(), AllocError>
    ensures adds { OnOk result (GathersSome
        (HitsIn sight.now (K.kept keep.old) number pattern.now siblings.now)
        limit.old.cut limit.new.cut out.old out.new) }
    ensures same { keep.new ≡ keep.old }
{
    let found = fully(
        alloc,
        limit,
        sight,
        pattern.items.as_slice(),
        pattern.closed,
        siblings,
        Wanted::All,
    )?;
    add_matches(alloc, out, keep, number, siblings, found)?;
    Ok(())
}

/// Adds matches of a pattern in some siblings. Where a list of ways grew too long, some may be
/// left out.
fn add_limited<K: Keep>(
    alloc: Global,
    limit: &mut Limit,
    out: &mut BTreeSet<Match>,
    keep: &mut K,
    sight: &Sight,
    number: u32,
    pattern: &Pattern,
    siblings: &[u32],
) -> Result<(), AllocError>
    ensures adds { OnOk result (GathersSome
        (HitsIn sight.now (K.kept keep.old) number pattern.now siblings.now)
        limit.old.cut limit.new.cut out.old out.new) }
    ensures same { keep.new ≡ keep.old }
{
    if let Some(item) = single(pattern) {
        add_single(alloc, limit, out, keep, sight, number, item, siblings)?;
        return Ok(());
    }
    add_embedded(alloc, limit, out, keep, sight, number, pattern, siblings)?;
    Ok(())
}

/// Adds matches of a pattern in some siblings, and says whether no list of ways grew longer than
/// `most`, so that they are all, or there are too many.
fn add_up_to<K: Keep>(
    alloc: Global,
    most: usize,
    out: &mut BTreeSet<Match>,
    keep: &mut K,
    sight: &Sight,
    number: u32,
    pattern: &Pattern,
    siblings: &[u32],
) -> Result<bool, AllocError>
    ensures some { OnOk result (GathersSome
        (HitsIn sight.now (K.kept keep.old) number pattern.now siblings.now)
        true true out.old out.new) }
    ensures all { IfOk result (λ done. IsTrue done
        → Gathers (HitsIn sight.now (K.kept keep.old) number pattern.now siblings.now)
        out.old out.new) }
    ensures same { keep.new ≡ keep.old }
{
    let mut limit = Limit { most, cut: false };
    add_limited(
        alloc, &mut limit, out, keep, sight, number, pattern, siblings,
    )?;
    if !limit.cut {
        return Ok(true);
    }
    Ok(is_full(out))
}

/// Adds the matches of a pattern in some siblings. So few ways are made that they are enough to
/// tell the matches, or that there are too many.
fn add_siblings<K: Keep>(
    alloc: Global,
    out: &mut BTreeSet<Match>,
    keep: &mut K,
    sight: &Sight,
    number: u32,
    pattern: &Pattern,
    siblings: &[u32],
) -> Result<(), AllocError>
    ensures adds { OnOk result (Gathers
        (HitsIn sight.now (K.kept keep.old) number pattern.now siblings.now)
        out.old out.new) }
    ensures same { keep.new ≡ keep.old }
{
    if is_full(out) {
        return Ok(());
    }
    let near = add_up_to(alloc, MOST, out, keep, sight, number, pattern, siblings)?;
    if near {
        return Ok(());
    }
    let far = add_up_to(alloc, FAR, out, keep, sight, number, pattern, siblings)?;
    if far {
        return Ok(());
    }
    let whole = add_up_to(
        alloc,
        usize::MAX,
        out,
        keep,
        sight,
        number,
        pattern,
        siblings,
    )?;
    if whole {
        return Ok(());
    }
    Err(AllocError)
}

/// Adds the matches of a pattern in the children of a node. Where the pattern's first item can take
/// none of them, it takes no memory.
fn add_children<K: Keep>(
    alloc: Global,
    out: &mut BTreeSet<Match>,
    keep: &mut K,
    sight: &Sight,
    number: u32,
    pattern: &Pattern,
    n: u32,
) -> Result<(), AllocError>
    requires { n < length sight.now.nodes }
    ensures adds { OnOk result (Gathers (HitsUnder sight.now (K.kept keep.old) number pattern.now n)
        out.old out.new) }
    ensures same { keep.new ≡ keep.old }
{
    if !may_match(sight, pattern, n) {
        return Ok(());
    }
    let children = sight.children(alloc, n)?;
    add_siblings(
        alloc,
        out,
        keep,
        sight,
        number,
        pattern,
        children.as_slice(),
    )?;
    Ok(())
}

/// Adds the matches of a pattern in the list of the root alone, when the root is visited.
fn add_root<K: Keep>(
    alloc: Global,
    out: &mut BTreeSet<Match>,
    keep: &mut K,
    sight: &Sight,
    number: u32,
    pattern: &Pattern,
    n: u32,
) -> Result<(), AllocError>
    ensures adds { OnOk result (Gathers (λ m. (n ≡ 0)
        × HitsIn sight.now (K.kept keep.old) number pattern.now (0 ∷ []) m) out.old out.new) }
    ensures same { keep.new ≡ keep.old }
{
    if n > 0 {
        return Ok(());
    }
    add_siblings(alloc, out, keep, sight, number, pattern, &[0])?;
    Ok(())
}

/// Adds the matches of a pattern in the list of the root alone, when the root is visited, and in
/// the children of a node.
fn add_lists<K: Keep>(
    alloc: Global,
    out: &mut BTreeSet<Match>,
    keep: &mut K,
    sight: &Sight,
    number: u32,
    pattern: &Pattern,
    n: u32,
) -> Result<(), AllocError>
    requires { n < length sight.now.nodes }
    ensures adds { OnOk result (Gathers
        (HitsBeside sight.now (K.kept keep.old) number pattern.now n) out.old out.new) }
    ensures same { keep.new ≡ keep.old }
{
    add_root(alloc, out, keep, sight, number, pattern, n)?;
    add_children(alloc, out, keep, sight, number, pattern, n)?;
    Ok(())
}

/// Adds the matches at a node of a pattern of one plain item. A node that fails at its first test
/// takes no memory.
fn add_node<K: Keep>(
    alloc: Global,
    out: &mut BTreeSet<Match>,
    keep: &mut K,
    sight: &Sight,
    number: u32,
    pattern: &Pattern,
    item: &Item,
    n: u32,
) -> Result<(), AllocError>
    requires alone { IsAlone item.now pattern.now }
    ensures adds { OnOk result (Gathers
        (HitsIn sight.now (K.kept keep.old) number pattern.now (n ∷ [])) out.old out.new) }
    ensures same { keep.new ≡ keep.old }
{
    if !may_take(sight, item, n) {
        return Ok(());
    }
    add_siblings(alloc, out, keep, sight, number, pattern, &[n])?;
    Ok(())
}

/// Adds the matches at a node of a pattern of one plain item.
fn add_alone<K: Keep>(
    alloc: Global,
    out: &mut BTreeSet<Match>,
    keep: &mut K,
    sight: &Sight,
    number: u32,
    pattern: &Pattern,
    n: u32,
) -> Result<(), AllocError>
    requires alone { (item : Part) × IsAlone item pattern.now }
    ensures adds { OnOk result (Gathers
        (HitsIn sight.now (K.kept keep.old) number pattern.now (n ∷ [])) out.old out.new) }
    ensures same { keep.new ≡ keep.old }
{
    let item = pattern.items.get(0);
    add_node(alloc, out, keep, sight, number, pattern, item, n)?;
    Ok(())
}

/// Adds the matches of a pattern when a node is visited.
fn add_pattern<K: Keep>(
    alloc: Global,
    out: &mut BTreeSet<Match>,
    keep: &mut K,
    sight: &Sight,
    root: Root,
    number: u32,
    pattern: &Pattern,
    n: u32,
) -> Result<(), AllocError>
    requires root { IsRoot root pattern.now }
    requires inside { n < length sight.now.nodes }
    ensures adds { OnOk result (Gathers
        (HitsBy sight.now (K.kept keep.old) root number pattern.now n) out.old out.new) }
    ensures same { keep.new ≡ keep.old }
{
    match root {
        Root::Kind(_) | Root::Node => {
            add_alone(alloc, out, keep, sight, number, pattern, n)?;
            Ok(())
        }
        Root::Siblings => {
            add_lists(alloc, out, keep, sight, number, pattern, n)?;
            Ok(())
        }
    }
}

/// Adds the matches of the pattern of a number when a node is visited.
fn add_numbered<K: Keep>(
    alloc: Global,
    out: &mut BTreeSet<Match>,
    keep: &mut K,
    sight: &Sight,
    patterns: &[Pattern],
    root: Root,
    number: u32,
    n: u32,
) -> Result<(), AllocError>
    requires root { HasRoot patterns.now root number }
    requires inside { n < length sight.now.nodes }
    ensures adds { OnOk result (Gathers
        (HitsOfNumber sight.now (K.kept keep.old) patterns.now root n number) out.old out.new) }
    ensures same { keep.new ≡ keep.old }
{
    let pattern = &patterns[number as usize];
    add_pattern(alloc, out, keep, sight, root, number, pattern, n)?;
    Ok(())
}

/// Adds the matches of the patterns of a group when a node is visited.
fn add_group<K: Keep>(
    alloc: Global,
    out: &mut BTreeSet<Match>,
    keep: &mut K,
    sight: &Sight,
    patterns: &[Pattern],
    group: &Group,
    n: u32,
) -> Result<(), AllocError>
    requires roots { HaveRoot patterns.now group.now }
    requires inside { n < length sight.now.nodes }
    ensures adds { OnOk result (Gathers
        (HitsOfGroup sight.now (K.kept keep.old) patterns.now n group.now) out.old out.new) }
    ensures same { keep.new ≡ keep.old }
{
    for number in group.numbers.as_slice() {
        add_numbered(alloc, out, keep, sight, patterns, group.root, *number, n)?;
    }
    Ok(())
}

/// Whether a node may be such a root.
fn may_be(sight: &Sight, root: Root, row: Row) -> bool
    ensures { IsTrue result ↔ MayBe sight.now.kinds root (seen_row row.entry) }
{
    match root {
        Root::Kind(kind) => sight.is_of_kind(kind, row),
        Root::Node | Root::Siblings => true,
    }
}

/// Adds the matches of the patterns of a group when a node is visited. Where the node cannot be
/// their root, none of them is looked at.
fn add_likely<K: Keep>(
    alloc: Global,
    out: &mut BTreeSet<Match>,
    keep: &mut K,
    sight: &Sight,
    patterns: &[Pattern],
    group: &Group,
    n: u32,
    row: Row,
) -> Result<(), AllocError>
    requires roots { HaveRoot patterns.now group.now }
    requires node { slice_get sight.now.nodes n ≡ Some (seen_row row) }
    ensures adds { OnOk result (Gathers
        (HitsOfGroup sight.now (K.kept keep.old) patterns.now n group.now) out.old out.new) }
    ensures same { keep.new ≡ keep.old }
{
    if !may_be(sight, group.root, row) {
        return Ok(());
    }
    add_group(alloc, out, keep, sight, patterns, group, n)?;
    Ok(())
}

/// Adds the matches of the patterns of groups when a node is visited.
fn add_groups<K: Keep>(
    alloc: Global,
    out: &mut BTreeSet<Match>,
    keep: &mut K,
    sight: &Sight,
    patterns: &[Pattern],
    groups: &[Group],
    n: u32,
    row: Row,
) -> Result<(), AllocError>
    requires index { IsIndex patterns.now groups.now }
    requires node { slice_get sight.now.nodes n ≡ Some (seen_row row) }
    ensures adds { OnOk result (Gathers
        (HitsAtNode sight.now (K.kept keep.old) patterns.now groups.now n) out.old out.new) }
    ensures same { keep.new ≡ keep.old }
{
    for group in groups {
        add_likely(alloc, out, keep, sight, patterns, group, n, row)?;
    }
    Ok(())
}

/// Adds the matches of the patterns of groups when the node of a number is visited.
fn visit<K: Keep>(
    alloc: Global,
    out: &mut BTreeSet<Match>,
    keep: &mut K,
    sight: &Sight,
    patterns: &[Pattern],
    groups: &[Group],
    n: u32,
) -> Result<(), AllocError>
    requires index { IsIndex patterns.now groups.now }
    requires inside { n < length sight.now.nodes }
    ensures adds { OnOk result (Gathers
        (HitsAtNode sight.now (K.kept keep.old) patterns.now groups.now n) out.old out.new) }
    ensures same { keep.new ≡ keep.old }
{
    let Some(row) = sight.row(n) else {
        unreachable!()
    };
    add_groups(alloc, out, keep, sight, patterns, groups, n, row)?;
    Ok(())
}

/// The matches of patterns that are kept, or more of them than there may be.
fn gathered<K: Keep>(
    alloc: Global,
    keep: &mut K,
    sight: &Sight,
    patterns: &[Pattern],
) -> Result<BTreeSet<Match>, AllocError>
    requires few { length patterns.now < 2 ^ 32 }
    ensures matches { IfOk result (λ out. IsGathered sight.now (K.kept keep.old) patterns.now out) }
    ensures same { keep.new ≡ keep.old }
{
    let groups = groups_of(alloc, patterns)?;
    let mut out = BTreeSet::new(alloc);
    for n in 0..sight.count() {
        visit(alloc, &mut out, keep, sight, patterns, groups.as_slice(), n)?;
    }
    Ok(out)
}

/// The matches of patterns that are kept, by root, then pattern, then captures, each once.
///
/// # Errors
///
/// `Many` where there are more than 100,000, and `Memory` where memory runs out.
pub fn matches<K: Keep>(
    alloc: Global,
    sight: &Sight,
    patterns: &[Pattern],
    keep: &mut K,
) -> Result<List<Match>, MatchFault>
    requires few { length patterns.now < 2 ^ 32 }
    ensures all { IfOk result (AreAll (λ m.
        OfPatterns sight.now patterns.now m × K.kept keep.old m)) }
    ensures few { IfOk result (λ ms. length ms ≤ most_matches) }
    ensures many { IfErr result (λ e. e ≡ MatchFault.Many → AreMoreThan most_matches (λ m.
        OfPatterns sight.now patterns.now m × K.kept keep.old m)) }
    ensures same { keep.new ≡ keep.old }
{
    one_order();
    let found = gathered(alloc, keep, sight, patterns)?;
    if is_full(&found) {
        return Err(MatchFault::Many);
    }
    let found = listed(alloc, found)?;
    Ok(List::from_vec(found))
}

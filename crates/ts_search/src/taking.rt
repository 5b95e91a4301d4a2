//! What items take: an item and nodes go in, and the captures of each way in which it takes them
//! come out.
ghost use Rattle.std.specs.Prelude.{◌≡◌, ◌↔◌, ◌^◌, ℕ, ◌∷◌, [], ◌<◌, ◌≤◌, IsTrue, IfOk, IfSome, OnOk, true, false, map, length, Some, slice_get, List as Values};
ghost use Rattle.std.specs.List.{Contains};
ghost use Rattle.ts_query_syntax.specs.declared.read_query.Test.TheVariants as tests;
ghost use Rattle.ts_query_syntax.specs.declared.read_query.Item.TheViews.{out-Item};
ghost use Rattle.spec_matches.specs.declared.found.Capture.{Capture as Mark};
ghost use Rattle.spec_matches.specs.declared.placing.Placing.{Placing as Way};
ghost use Rattle.spec_matches.specs.Taking.{Embedded, IsField, NoneHas};
ghost use Rattle.spec_matches.specs.Taking as of_spec;
ghost use Rattle.ts_search.specs.Adding.{Adds, AreLike, Yields};
ghost use Rattle.ts_search.specs.Lone.{FirstTakes, IsLone, IsOnce, WholeOf};
ghost use Rattle.ts_search.specs.Memory.{Told, WaysOf};
ghost use Rattle.ts_search.specs.Rows.{seen_row};
ghost use Rattle.ts_search.specs.Sets.{SameMembers, SameWay};
ghost use Rattle.ts_search.specs.Steps.{Before};
ghost use Rattle.ts_search.specs.Looks.{AsksLook, IsShallow, Looks};
ghost use Rattle.ts_search.specs.Ways.{AnyTakes, HasOne, HasRow, HasRows, HasTable, InsideOf, ItemTakes, PassesOf, PlainOf, TakenOf, size_of, slot_of};

use crate::anchors::{closed_start, tied_end};
use crate::limit::{Limit, stops};
use crate::once::{captures_of, in_order, once_each, sets};
use crate::products::led;
use crate::row::Row;
use crate::search::embeddings;
use crate::siblings::siblings_of;
use crate::sight::{Sight, has_field};
use crate::stand::{Siblings, Wanted};
use spec_matches::{Capture, Placing, Slot};
use std::alloc::{AllocError, Global};
use ts_base::List;
use ts_query_syntax::{Item, Quantity, Test};

/// Whether an item may take nothing.
fn is_optional(quantity: Quantity) -> bool
    ensures { result ≡ of_spec.is_optional quantity }
{
    match quantity {
        Quantity::One | Quantity::Several => false,
        Quantity::Optional | Quantity::Many => true,
    }
}

/// Whether an item may take more than one round.
fn is_many(quantity: Quantity) -> bool
    ensures { result ≡ of_spec.is_many quantity }
{
    match quantity {
        Quantity::One | Quantity::Optional => false,
        Quantity::Many | Quantity::Several => true,
    }
}

/// How many siblings a round takes beside the first, where an item has so many parts.
fn more_of(test: Test, parts: usize) -> usize
    ensures { result ≡ of_spec.more_of test parts }
{
    match test {
        Test::Any | Test::Named | Test::Kind(_) | Test::Choice => 0,
        Test::Round => parts.saturating_sub(1),
    }
}

/// What an item asks beside its test.
pub(crate) fn slot(item: &Item) -> Slot
    ensures { result ≡ slot_of item.now }
{
    Slot {
        tied: item.tied,
        optional: is_optional(item.quantity),
        many: is_many(item.quantity),
        more: more_of(item.test, item.parts.len()),
    }
}

/// Whether an item takes one sibling.
pub(crate) fn is_once(item: &Item) -> bool
    ensures { IsTrue result → IsOnce item.now }
{
    let slot = slot(item);
    !slot.optional && !slot.many && slot.more == 0
}

/// Of one item that takes one sibling whether an anchor stands before it.
fn lone(items: &[Item]) -> Option<bool>
    ensures { IfSome result (λ tied. IsLone items.now tied) }
{
    if items.len() != 1 {
        return None;
    }
    let item = &items[0];
    if !is_once(item) {
        return None;
    }
    Some(item.tied)
}

/// Whether there is no item and no anchor.
fn are_free(items: &[Item], closed: bool) -> bool
    ensures { IsTrue result → (items.now ≡ []) × (closed ≡ false) }
{
    !closed && items.is_empty()
}

/// What items ask beside their tests.
fn slots(alloc: Global, items: &[Item]) -> Result<Vec<Slot>, AllocError>
    ensures { IfOk result (λ all. all.items ≡ map slot_of items.now) }
{
    let mut all = Vec::with_capacity(alloc, items.len())?;
    for item in items {
        all.push(slot(item))?;
    }
    Ok(all)
}

/// Whether two lists have a member in common.
fn meet(without: &[u16], fields: &[u16]) -> bool
    ensures { IsTrue result ↔ ((f : ℕ) × Contains without.now f × Contains fields.now f) }
{
    for field in without {
        if is_in(fields, *field) {
            return true;
        }
    }
    false
}

/// Whether a field is one of some.
fn is_in(fields: &[u16], field: u16) -> bool
    ensures { IsTrue result ↔ Contains fields.now field }
{
    fields.contains(&field)
}

/// Whether a node has one of these fields.
fn has_one(sight: &Sight, without: &[u16], n: u32) -> bool
    ensures { IsTrue result ↔ HasOne sight.now.nodes without.now n }
{
    match sight.row(n) {
        Some(row) => meet(without, row.fields),
        None => false,
    }
}

/// Whether none of some nodes has one of these fields.
fn none_has(sight: &Sight, without: &[u16], numbers: &[u32]) -> bool
    ensures { IsTrue result ↔ NoneHas sight.now.nodes without.now numbers.now }
{
    for n in numbers {
        if has_one(sight, without, *n) {
            return false;
        }
    }
    true
}

/// A node under each of these captures, as the query has them.
fn captured(alloc: Global, names: &[u16], n: u32, row: Row) -> Result<Vec<Capture>, AllocError>
    ensures { IfOk result (λ all. all.items ≡ of_spec.captured names.now n (seen_row row.entry)) }
{
    let mut all = Vec::with_capacity(alloc, names.len())?;
    for name in names {
        all.push(Capture {
            node: n,
            name: *name,
            start: row.start,
            end: row.end,
        })?;
    }
    Ok(all)
}

/// A node under each of these captures, in order and each once.
fn own_captures(alloc: Global, names: &[u16], n: u32, row: Row) -> Result<List<Capture>, AllocError>
    ensures { IfOk result (λ own.
        SameMembers own (of_spec.captured names.now n (seen_row row.entry))) }
{
    let all = captured(alloc, names, n, row)?;
    Ok(in_order(List::from_vec(all)))
}

/// The list that has the empty list alone.
fn only_empty(alloc: Global) -> Result<Vec<List<Capture>>, AllocError>
    ensures { IfOk result (λ ways. ways.items ≡ [] ∷ []) }
{
    let mut out = Vec::new(alloc);
    out.push(List::new(alloc))?;
    Ok(out)
}

/// Whether an item's node is not captured.
fn has_no_captures(item: &Item) -> bool
    ensures { IsTrue result → (out-Item item.now).captures ≡ [] }
{
    item.captures.is_empty()
}

/// Whether there is no way.
fn is_none(ways: &[List<Capture>]) -> bool
    ensures { IsTrue result ↔ (ways.now ≡ []) }
{
    ways.is_empty()
}

/// Adds each of some lists. Where there was none, no list is copied.
fn add_all(out: &mut Vec<List<Capture>>, more: Vec<List<Capture>>) -> Result<(), AllocError>
    ensures { OnOk result (Adds (Contains more.items) out.old.items out.new.items) }
{
    if is_none(out.as_slice()) {
        *out = more;
        return Ok(());
    }
    let mut more = more;
    out.append(&mut more)?;
    Ok(())
}

/// Whether an item is a group.
fn is_round(test: Test) -> bool
    ensures { IsTrue result ↔ (test ≡ tests.Round) }
{
    match test {
        Test::Round => true,
        Test::Any | Test::Named | Test::Kind(_) | Test::Choice => false,
    }
}

/// Whether a node looks as a test asks, whatever is inside it.
fn looks(sight: &Sight, test: Test, row: Row) -> bool
    ensures { IsTrue result ↔ Looks sight.now.kinds test (seen_row row.entry) }
{
    match test {
        Test::Any | Test::Choice | Test::Round => true,
        Test::Named => row.named,
        Test::Kind(kind) => sight.is_of_kind(kind, row),
    }
}

/// Whether an item may take a node, by the node's own look alone. It takes no memory.
pub(crate) fn may_take(sight: &Sight, item: &Item, n: u32) -> bool
    ensures { (c : Values Mark) → ItemTakes sight.now item.now 0 n c → IsTrue result }
{
    if is_round(item.test) {
        return true;
    }
    let Some(row) = sight.row(n) else {
        return false;
    };
    if !looks(sight, item.test, row) {
        return false;
    }
    has_field(item.field, row)
}

/// Whether a test asks of a node no more than its look, where its item has no parts.
fn asks_look(test: Test) -> bool
    ensures { IsTrue result ↔ AsksLook test }
{
    match test {
        Test::Any | Test::Named | Test::Kind(_) => true,
        Test::Choice | Test::Round => false,
    }
}

/// Whether an item asks nothing of what is inside a node.
fn is_shallow(item: &Item) -> bool
    ensures { IsTrue result ↔ IsShallow item.now }
{
    asks_look(item.test) && !item.closed && item.parts.is_empty() && item.without.is_empty()
}

/// The list that has this list alone.
fn only(alloc: Global, captures: List<Capture>) -> Result<Vec<List<Capture>>, AllocError>
    ensures { IfOk result (λ ways. ways.items ≡ captures ∷ []) }
{
    let mut ways = Vec::with_capacity(alloc, 1)?;
    ways.push(captures)?;
    Ok(ways)
}

/// The captures of each way in which an item that asks nothing of what is inside a node takes one
/// that has its field: one way, or none.
fn shallow_ways(
    alloc: Global,
    sight: &Sight,
    item: &Item,
    n: u32,
    row: Row,
) -> Result<Vec<List<Capture>>, AllocError>
    requires node { slice_get sight.now.nodes n ≡ Some (seen_row row) }
    requires shallow { IsShallow item.now }
    requires field { IsField (out-Item item.now).field (seen_row row) }
    ensures { IfOk result (λ ways. AreLike SameMembers (PlainOf sight.now item.now n) ways.items) }
{
    if looks(sight, item.test, row) {
        let own = own_captures(alloc, item.captures.as_slice(), n, row)?;
        let ways = only(alloc, own)?;
        return Ok(ways);
    }
    Ok(Vec::new(alloc))
}

/// Whether an item takes what one of its branches takes.
fn is_choice(test: Test) -> bool {
    match test {
        Test::Choice => true,
        Test::Any | Test::Named | Test::Kind(_) | Test::Round => false,
    }
}

/// A node's own captures, and then those inside it in each way. What a branch captures may be of
/// the same node, so its ways are put in order anew.
fn with_own(
    alloc: Global,
    test: Test,
    own: List<Capture>,
    inner: Vec<List<Capture>>,
) -> Result<Vec<List<Capture>>, AllocError>
    ensures { IfOk result (λ ways. AreLike SameMembers (Before inner.items own) ways.items) }
{
    let ways = led(alloc, own, inner)?;
    if is_choice(test) {
        let kept = sets(alloc, ways)?;
        return Ok(kept);
    }
    Ok(ways)
}

/// Whether there is no embedding.
fn are_none(found: &[Placing]) -> bool
    ensures { IsTrue result ↔ (found.now ≡ []) }
{
    found.is_empty()
}

/// The full embeddings of items in siblings, however many there are.
fn all_embeddings(
    alloc: Global,
    siblings: &Siblings,
    slots: &[Slot],
    wanted: Wanted,
) -> Result<Vec<Placing>, AllocError>
    requires few { length slots.now < 2 ^ 64 }
    ensures { IfOk result (λ found. (f : Way)
        → Contains found.items f ↔ Told wanted 0 (WaysOf siblings.now slots.now 0 0 true) f) }
{
    let mut limit = Limit {
        most: usize::MAX,
        cut: false,
    };
    let found = embeddings(alloc, &mut limit, siblings, slots, wanted)?;
    if limit.cut {
        return Err(AllocError);
    }
    Ok(found)
}

/// Full embeddings of items in siblings. Where there are too many, some may be left out.
fn embedded(
    alloc: Global,
    limit: &mut Limit,
    siblings: &Siblings,
    slots: &[Slot],
    wanted: Wanted,
) -> Result<Vec<Placing>, AllocError>
    requires few { length slots.now < 2 ^ 64 }
    ensures { IfOk result (λ found. Yields SameWay
        (Told wanted 0 (WaysOf siblings.now slots.now 0 0 true))
        limit.old.cut limit.new.cut found.items) }
{
    let mut own = Limit {
        most: limit.most,
        cut: false,
    };
    let found = embeddings(alloc, &mut own, siblings, slots, wanted)?;
    if !own.cut {
        return Ok(found);
    }
    if are_none(found.as_slice()) {
        let all = all_embeddings(alloc, siblings, slots, wanted)?;
        return Ok(all);
    }
    limit.cut = true;
    Ok(found)
}

/// The captures of each way in which an item takes a node at a place in its round.
#[cycle(taking)]
pub(crate) fn item_ways(
    alloc: Global,
    limit: &mut Limit,
    sight: &Sight,
    item: &Item,
    at: usize,
    n: u32,
) -> Result<Vec<List<Capture>>, AllocError>
    ensures { IfOk result (λ ways. Yields SameMembers (ItemTakes sight.now item.now at n)
        limit.old.cut limit.new.cut ways.items) }
{
    if is_round(item.test) {
        let ways = part_ways(alloc, limit, sight, item.parts.as_slice(), at, n)?;
        return Ok(ways);
    }
    if at > 0 {
        return Ok(Vec::new(alloc));
    }
    let ways = plain_ways(alloc, limit, sight, item, n)?;
    Ok(ways)
}

/// The captures of each way in which the part of a group at a place takes a node.
#[cycle(taking)]
fn part_ways(
    alloc: Global,
    limit: &mut Limit,
    sight: &Sight,
    parts: &[Item],
    at: usize,
    n: u32,
) -> Result<Vec<List<Capture>>, AllocError>
    ensures { IfOk result (λ ways. Yields SameMembers (TakenOf sight.now parts.now at 0 n)
        limit.old.cut limit.new.cut ways.items) }
{
    if at >= parts.len() {
        return Ok(Vec::new(alloc));
    }
    let ways = item_ways(alloc, limit, sight, &parts[at], 0, n)?;
    Ok(ways)
}

/// The captures of each way in which an item that is no group takes a node.
#[cycle(taking)]
fn plain_ways(
    alloc: Global,
    limit: &mut Limit,
    sight: &Sight,
    item: &Item,
    n: u32,
) -> Result<Vec<List<Capture>>, AllocError>
    ensures { IfOk result (λ ways. Yields SameMembers (PlainOf sight.now item.now n)
        limit.old.cut limit.new.cut ways.items) }
{
    let Some(row) = sight.row(n) else {
        return Ok(Vec::new(alloc));
    };
    if !has_field(item.field, row) {
        return Ok(Vec::new(alloc));
    }
    if is_shallow(item) {
        let taken = shallow_ways(alloc, sight, item, n, row)?;
        return Ok(taken);
    }
    let inner = passing(alloc, limit, sight, item, n, row)?;
    if is_none(inner.as_slice()) {
        return Ok(inner);
    }
    if has_no_captures(item) {
        return Ok(inner);
    }
    let own = own_captures(alloc, item.captures.as_slice(), n, row)?;
    let ways = with_own(alloc, item.test, own, inner)?;
    Ok(ways)
}

/// The captures inside a node in each way in which it is as an item's test asks.
#[cycle(taking)]
fn passing(
    alloc: Global,
    limit: &mut Limit,
    sight: &Sight,
    item: &Item,
    n: u32,
    row: Row,
) -> Result<Vec<List<Capture>>, AllocError>
    requires { slice_get sight.now.nodes n ≡ Some (seen_row row) }
    ensures { IfOk result (λ ways. Yields SameMembers
        (PassesOf sight.now item.now (out-Item item.now).test n (seen_row row.entry))
        limit.old.cut limit.new.cut ways.items) }
{
    match item.test {
        Test::Any => {
            let ways = only_empty(alloc)?;
            Ok(ways)
        }
        Test::Named => {
            if !row.named {
                return Ok(Vec::new(alloc));
            }
            let ways = inside(alloc, limit, sight, item, n)?;
            Ok(ways)
        }
        Test::Kind(kind) => {
            if !sight.is_of_kind(kind, row) {
                return Ok(Vec::new(alloc));
            }
            let ways = inside(alloc, limit, sight, item, n)?;
            Ok(ways)
        }
        Test::Choice => {
            let ways = choices(alloc, limit, sight, item.parts.as_slice(), n)?;
            Ok(ways)
        }
        Test::Round => Ok(Vec::new(alloc)),
    }
}

/// The captures of each way in which an item's parts embed in a node's children.
#[cycle(taking)]
fn inside(
    alloc: Global,
    limit: &mut Limit,
    sight: &Sight,
    item: &Item,
    n: u32,
) -> Result<Vec<List<Capture>>, AllocError>
    requires { n < length sight.now.nodes }
    ensures { IfOk result (λ ways. Yields SameMembers (InsideOf sight.now item.now n)
        limit.old.cut limit.new.cut ways.items) }
{
    let children = sight.children(alloc, n)?;
    if !none_has(sight, item.without.as_slice(), children.as_slice()) {
        return Ok(Vec::new(alloc));
    }
    let ways = whole(
        alloc,
        limit,
        sight,
        item.parts.as_slice(),
        item.closed,
        children.as_slice(),
    )?;
    Ok(once_each(ways))
}

/// The captures of each way in which items fully embed in siblings. No item, and one that takes one
/// sibling, need no table.
#[cycle(taking)]
fn whole(
    alloc: Global,
    limit: &mut Limit,
    sight: &Sight,
    items: &[Item],
    closed: bool,
    siblings: &[u32],
) -> Result<Vec<List<Capture>>, AllocError>
    ensures { IfOk result (λ ways. Yields SameMembers
        (WholeOf sight.now items.now closed siblings.now)
        limit.old.cut limit.new.cut ways.items) }
{
    if are_free(items, closed) {
        let none = only_empty(alloc)?;
        return Ok(none);
    }
    if let Some(tied) = lone(items) {
        let from = closed_start(sight, siblings, closed);
        let to = tied_end(sight, siblings, tied);
        let ways = first_ways(alloc, limit, sight, items, siblings, from, to)?;
        return Ok(ways);
    }
    let found = fully(
        alloc,
        limit,
        sight,
        items,
        closed,
        siblings,
        Wanted::Captures,
    )?;
    let ways = captures_of(alloc, found)?;
    Ok(ways)
}

/// Whether a list of ways grows no more. If so, ways are left out.
fn ends(limit: &mut Limit, ways: &[List<Capture>]) -> bool
    ensures ends { IsTrue result → limit.new.cut ≡ true }
    ensures some { IsTrue result → 0 < length ways.now }
    ensures goes_on { result ≡ false → limit.new.cut ≡ limit.old.cut }
{
    stops(limit, ways.len())
}

/// The captures of each way in which the first of some items takes a sibling from a place up to
/// another. Where there are too many, some may be left out.
#[cycle(taking)]
fn first_ways(
    alloc: Global,
    limit: &mut Limit,
    sight: &Sight,
    items: &[Item],
    siblings: &[u32],
    from: usize,
    to: usize,
) -> Result<Vec<List<Capture>>, AllocError>
    requires { to ≤ length siblings.now }
    ensures { IfOk result (λ ways. Yields SameMembers
        (FirstTakes sight.now items.now siblings.now from to)
        limit.old.cut limit.new.cut ways.items) }
{
    let mut out = Vec::new(alloc);
    for place in from..to {
        if ends(limit, out.as_slice()) {
            return Ok(out);
        }
        let more = part_ways(alloc, limit, sight, items, 0, siblings[place])?;
        add_all(&mut out, more)?;
    }
    Ok(out)
}

/// The captures of each way in which one of some branches takes a node, those of several branches
/// once.
#[cycle(taking)]
fn choices(
    alloc: Global,
    limit: &mut Limit,
    sight: &Sight,
    branches: &[Item],
    n: u32,
) -> Result<Vec<List<Capture>>, AllocError>
    ensures { IfOk result (λ ways. Yields SameMembers (AnyTakes sight.now branches.now n)
        limit.old.cut limit.new.cut ways.items) }
{
    let mut out = Vec::new(alloc);
    for branch in branches {
        let more = item_ways(alloc, limit, sight, branch, 0, n)?;
        add_all(&mut out, more)?;
    }
    Ok(once_each(out))
}

/// The ways of an item, at a place in its round, at each of some siblings.
#[cycle(taking)]
fn row(
    alloc: Global,
    limit: &mut Limit,
    sight: &Sight,
    item: &Item,
    at: usize,
    siblings: &[u32],
) -> Result<List<List<List<Capture>>>, AllocError>
    ensures { IfOk result (λ row. HasRow sight.now item.now at siblings.now
        limit.old.cut limit.new.cut row) }
{
    let mut out = Vec::with_capacity(alloc, siblings.len())?;
    for n in siblings {
        let ways = item_ways(alloc, limit, sight, item, at, *n)?;
        out.push(List::from_vec(ways))?;
    }
    Ok(List::from_vec(out))
}

/// The ways of an item at each place in its round and each of some siblings.
#[cycle(taking)]
fn rows(
    alloc: Global,
    limit: &mut Limit,
    sight: &Sight,
    item: &Item,
    siblings: &[u32],
) -> Result<List<List<List<List<Capture>>>>, AllocError>
    ensures { IfOk result (λ rows. HasRows sight.now siblings.now item.now
        limit.old.cut limit.new.cut rows) }
{
    let mut out = Vec::new(alloc);
    for at in 0..round_size(item) {
        let row = row(alloc, limit, sight, item, at, siblings)?;
        out.push(row)?;
    }
    Ok(List::from_vec(out))
}

/// How many siblings an item takes in a round.
fn round_size(item: &Item) -> usize
    ensures { result ≡ size_of item.now }
{
    if is_round(item.test) {
        item.parts.len()
    } else {
        1
    }
}

/// The ways of each of some items, at each place in its round and each of some siblings.
#[cycle(taking)]
fn table(
    alloc: Global,
    limit: &mut Limit,
    sight: &Sight,
    items: &[Item],
    siblings: &[u32],
) -> Result<List<List<List<List<List<Capture>>>>>, AllocError>
    ensures { IfOk result (λ table. HasTable sight.now siblings.now items.now
        limit.old.cut limit.new.cut table) }
{
    let mut out = Vec::with_capacity(alloc, items.len())?;
    for item in items {
        let rows = rows(alloc, limit, sight, item, siblings)?;
        out.push(rows)?;
    }
    Ok(List::from_vec(out))
}

/// The full embeddings of items in siblings, as they are asked for.
#[cycle(taking)]
pub(crate) fn fully(
    alloc: Global,
    limit: &mut Limit,
    sight: &Sight,
    items: &[Item],
    closed: bool,
    siblings: &[u32],
    wanted: Wanted,
) -> Result<Vec<Placing>, AllocError>
    ensures { IfOk result (λ found. Yields SameWay
        (Told wanted 0 (Embedded sight.now items.now closed siblings.now))
        limit.old.cut limit.new.cut found.items) }
{
    let cut = limit.cut;
    let table = table(alloc, limit, sight, items, siblings)?;
    let named = sight.nameds(alloc, siblings)?;
    let slots = slots(alloc, items)?;
    let all = siblings_of(alloc, table, named, closed)?;
    let found = embedded(alloc, limit, &all, slots.as_slice(), wanted)?;
    if are_none(found.as_slice()) {
        limit.cut = cut;
        return Ok(found);
    }
    Ok(found)
}

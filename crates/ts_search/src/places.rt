//! Where the runs of items may stand: a list of siblings, an item and a run or a place go in, and
//! whether the run may stand there, how far it may reach, or whether it could be a wider one comes
//! out.
ghost use Rattle.std.specs.Prelude.{◌≡◌, ℕ, ◌<◌, ◌≤◌, ◌↔◌, List as Values, Option as Maybe, IsTrue, length, true, slice_get, Some};
ghost use Rattle.std.specs.List.{Contains};
ghost use Rattle.spec_matches.specs.Embedding.{offset, Rounds, Unnamed, Covers, IsItemRun, Placed, Wider, IsQuantified};
ghost use Rattle.ts_search.specs.Table.{Takes};
ghost use Rattle.ts_search.specs.Steps.{Allows, Widens, WidensBy, SomeFrom, GoesOn, Reaches, NoneTaken, IsPlainMany, BeginsLate, GoesPast, GrowsOn, GroupWidens, CanWiden, Suits, TakesAt};
ghost use Rattle.ts_search.specs.declared.stand.Stand.{Stand as At};
ghost use Rattle.spec_matches.specs.declared.placing.Run.{Run as Stretch};
ghost use Rattle.spec_matches.specs.declared.found.Capture.{Capture as Mark};

use crate::siblings::next_taken;
use crate::stand::{Siblings, Stand, Wanted};
use spec_matches::{Capture, Placing, Run, Slot};
use ts_base::List;

/// Whether no named sibling stands from a place up to another.
pub(crate) fn is_unnamed(named: &[bool], from: usize, to: usize) -> bool
    ensures { IsTrue result ↔ Unnamed named.now from to }
{
    for place in from..to {
        if place < named.len() && named[place] {
            return false;
        }
    }
    true
}

/// The place in the round of a run that begins at `first`.
pub(crate) fn place_in_round(slot: Slot, first: usize, place: usize) -> usize
    requires { first ≤ place }
    ensures { result ≡ offset slot first place }
{
    let count = place - first;
    if count <= slot.more {
        return count;
    }
    count % (slot.more + 1)
}

/// Whether so many siblings are whole rounds of the item, and not too many.
pub(crate) fn are_rounds(slot: Slot, count: usize) -> bool
    ensures { IsTrue result ↔ Rounds slot count }
{
    if count <= slot.more {
        return count == 0 && slot.many;
    }
    let size = slot.more + 1;
    count % size == 0 && (slot.many || count == size)
}

/// Whether a row takes the sibling at a place.
fn is_in_row(row: &[List<List<Capture>>], place: usize) -> bool
    ensures { IsTrue result ↔ ((c : Values Mark) × (ways : Values (Values Mark))
        × (slice_get row.now place ≡ Some ways) × Contains ways c) }
{
    if place >= row.len() {
        return false;
    }
    !row[place].is_empty()
}

/// Whether the item at `k` takes the sibling at a place.
pub(crate) fn is_taken(
    table: &[List<List<List<List<Capture>>>>],
    k: usize,
    at: usize,
    place: usize,
) -> bool
    ensures { IsTrue result ↔ ((c : Values Mark) × Takes table.now k at place c) }
{
    if k < table.len() && at < table[k].len() {
        return is_in_row(table[k].get(at).as_slice(), place);
    }
    false
}

/// Whether the item at `k` takes each sibling of a run.
pub(crate) fn is_covered(
    table: &[List<List<List<List<Capture>>>>],
    k: usize,
    slot: Slot,
    run: Run,
) -> bool
    ensures { IsTrue result ↔ Covers (Takes table.now) k slot run }
{
    for place in run.first..run.past {
        if !is_taken(table, k, place_in_round(slot, run.first, place), place) {
            return false;
        }
    }
    true
}

/// Whether these siblings can be the item's run.
pub(crate) fn fits(
    table: &[List<List<List<List<Capture>>>>],
    count: usize,
    slot: Slot,
    k: usize,
    run: Run,
) -> bool
    ensures { IsTrue result ↔ IsItemRun (Takes table.now) count slot k run }
{
    if run.first >= run.past || run.past > count {
        return false;
    }
    if !are_rounds(slot, run.past - run.first) {
        return false;
    }
    is_covered(table, k, slot, run)
}

/// Whether an anchor before the item, where one stands, is kept.
pub(crate) fn is_anchored(named: &[bool], slot: Slot, lo: usize, beside: bool, first: usize) -> bool
    ensures { IsTrue result ↔ (slot.tied ≡ true → beside ≡ true → Unnamed named.now lo first) }
{
    if slot.tied && beside {
        return is_unnamed(named, lo, first);
    }
    true
}

/// Whether a run may stand after `lo`.
pub(crate) fn is_placed(siblings: &Siblings, at: Stand, run: Run) -> bool
    ensures { IsTrue result ↔ Placed (Takes siblings.now.table) siblings.now.named
        at.slot at.number at.lo at.beside run }
{
    if at.lo > run.first {
        return false;
    }
    if !fits(
        siblings.table.as_slice(),
        siblings.named.len(),
        at.slot,
        at.number,
        run,
    ) {
        return false;
    }
    is_anchored(
        siblings.named.as_slice(),
        at.slot,
        at.lo,
        at.beside,
        run.first,
    )
}

/// Whether a run properly contains what an item took.
pub(crate) fn is_wider(taken: Option<Run>, run: Run) -> bool
    ensures { IsTrue result ↔ Wider taken run }
{
    match taken {
        None => true,
        Some(taken) => {
            run.first <= taken.first
                && taken.past <= run.past
                && (run.first < taken.first || taken.past < run.past)
        }
    }
}

/// Whether the items after may follow a run that ends at `past`.
pub(crate) fn allows(
    siblings: &Siblings,
    rest: &[Slot],
    past: usize,
    first: Option<usize>,
    near: bool,
) -> bool
    ensures { IsTrue result
        ↔ Allows siblings.now.named siblings.now.closed rest.now past first near }
{
    if rest.is_empty() {
        return !siblings.closed
            || is_unnamed(siblings.named.as_slice(), past, siblings.named.len());
    }
    match first {
        None => true,
        Some(first) => past <= first
            && is_anchored(siblings.named.as_slice(), rest[0], past, near, first),
    }
}

/// Whether the item could take this run in place of what it took.
fn widens_by(
    siblings: &Siblings,
    rest: &[Slot],
    at: Stand,
    taken: Option<Run>,
    tail: &Placing,
    run: Run,
) -> bool
    ensures { IsTrue result ↔ WidensBy siblings.now rest.now at taken tail.now run }
{
    if !is_wider(taken, run) {
        return false;
    }
    if !is_placed(siblings, at, run) {
        return false;
    }
    allows(siblings, rest, run.past, tail.first, tail.near)
}

/// Whether the item could take a run that begins at `first` in place of what it took.
fn widens_from(
    siblings: &Siblings,
    rest: &[Slot],
    at: Stand,
    taken: Option<Run>,
    tail: &Placing,
    first: usize,
) -> bool
    ensures { IsTrue result ↔ SomeFrom siblings.now rest.now at taken tail.now first }
{
    let end = reach(siblings, at, first);
    for last in first..end {
        if widens_by(
            siblings,
            rest,
            at,
            taken,
            tail,
            Run {
                first,
                past: last + 1,
            },
        ) {
            return true;
        }
    }
    false
}

/// A place before which all runs begin that the items after allow.
fn tail_start(siblings: &Siblings, rest: &[Slot], tail: &Placing) -> usize
    ensures { (at : At) (taken : Maybe Stretch) (run : Stretch)
        → WidensBy siblings.now rest.now at taken tail.now run → run.first < result }
{
    if rest.is_empty() {
        return siblings.named.len();
    }
    match tail.first {
        None => siblings.named.len(),
        Some(first) => first,
    }
}

/// A place before which all runs begin that the item could take in place of what it took.
fn last_start(siblings: &Siblings, rest: &[Slot], taken: Option<Run>, tail: &Placing) -> usize
    ensures { (at : At) (run : Stretch)
        → WidensBy siblings.now rest.now at taken tail.now run → run.first < result }
{
    let end = tail_start(siblings, rest, tail);
    match taken {
        None => end,
        Some(run) => { if run.first < end { run.first + 1 } else { end } }
    }
}

/// Whether the item could take more than it took, where none of its runs begins before `from`.
pub(crate) fn widens(
    siblings: &Siblings,
    rest: &[Slot],
    at: Stand,
    from: usize,
    taken: Option<Run>,
    tail: &Placing,
) -> bool
    requires { NoneTaken siblings.now at from }
    ensures { IsTrue result ↔ Widens siblings.now rest.now at taken tail.now }
{
    if !at.slot.optional && !at.slot.many {
        return false;
    }
    let end = last_start(siblings, rest, taken, tail);
    let mut first = next_taken(siblings, at.number, from);
    while first < end {
        if widens_from(siblings, rest, at, taken, tail, first) {
            return true;
        }
        first = next_taken(siblings, at.number, first + 1);
    }
    false
}

/// Whether a run of the item may begin at a place.
pub(crate) fn begins(siblings: &Siblings, at: Stand, first: usize) -> bool
    ensures { IsTrue result ↔ TakesAt siblings.now at first }
{
    is_taken(siblings.table.as_slice(), at.number, 0, first)
}

/// The first place from `at.lo` on where a run of the item may begin.
pub(crate) fn first_taken(siblings: &Siblings, at: Stand) -> usize
    ensures none { NoneTaken siblings.now at result }
    ensures taken { result < length siblings.now.named
        → (at.lo ≤ result) × TakesAt siblings.now at result }
{
    let count = siblings.named.len();
    let mut place = next_taken(siblings, at.number, at.lo);
    while place < count {
        if begins(siblings, at, place) {
            return place;
        }
        place = next_taken(siblings, at.number, place + 1);
    }
    count
}

/// Whether an item takes any number of siblings, one by one.
fn is_plain_many(slot: Slot) -> bool
    ensures { IsTrue result ↔ IsPlainMany slot }
{
    slot.many && slot.more == 0
}

/// Whether an item that takes any number of siblings takes the one before `first` as well.
pub(crate) fn begins_late(siblings: &Siblings, at: Stand, first: usize) -> bool
    ensures { IsTrue result ↔ BeginsLate siblings.now at first }
{
    if !is_plain_many(at.slot) {
        return false;
    }
    if first <= at.lo {
        return false;
    }
    is_taken(siblings.table.as_slice(), at.number, 0, first - 1)
}

/// Whether an item that takes any number of siblings takes the one at `past` as well.
fn goes_past(siblings: &Siblings, at: Stand, past: usize) -> bool
    ensures { IsTrue result ↔ GoesPast siblings.now at past }
{
    if !is_plain_many(at.slot) {
        return false;
    }
    if past >= siblings.named.len() {
        return false;
    }
    is_taken(siblings.table.as_slice(), at.number, 0, past)
}

/// Whether the item could take the sibling at `past` as well, before a tail.
fn grows_on(siblings: &Siblings, rest: &[Slot], at: Stand, past: usize, tail: &Placing) -> bool
    ensures { IsTrue result ↔ GrowsOn siblings.now rest.now at past tail.now }
{
    if past >= siblings.named.len() {
        return false;
    }
    if !goes_past(siblings, at, past) {
        return false;
    }
    allows(siblings, rest, past + 1, tail.first, tail.near)
}

/// Whether a group that is taken any number of times could take more than a run.
fn group_widens(siblings: &Siblings, rest: &[Slot], at: Stand, run: Run, tail: &Placing) -> bool
    ensures { IsTrue result ↔ GroupWidens siblings.now rest.now at run tail.now }
{
    if !at.slot.many {
        return false;
    }
    if at.slot.more == 0 {
        return false;
    }
    widens(siblings, rest, at, at.lo, Some(run), tail)
}

/// Whether the item could take more than a run.
pub(crate) fn grows(siblings: &Siblings, rest: &[Slot], at: Stand, run: Run, tail: &Placing) -> bool
    ensures { IsTrue result ↔ CanWiden siblings.now rest.now at run tail.now }
{
    if begins_late(siblings, at, run.first) {
        return true;
    }
    if grows_on(siblings, rest, at, run.past, tail) {
        return true;
    }
    group_widens(siblings, rest, at, run, tail)
}

/// Which ways of the items after are asked for behind a run that ends at `past`.
pub(crate) fn wanted_after(siblings: &Siblings, at: Stand, past: usize) -> Wanted
    ensures { Suits siblings.now at past result }
{
    if !at.slot.many {
        return Wanted::Captures;
    }
    if goes_past(siblings, at, past) {
        return Wanted::Here;
    }
    Wanted::All
}

/// Whether the item's run that begins at `first` can go on at `end`.
fn goes_on(siblings: &Siblings, at: Stand, first: usize, end: usize) -> bool
    requires { first ≤ end }
    ensures { IsTrue result ↔ GoesOn siblings.now at first end }
{
    if end >= siblings.named.len() {
        return false;
    }
    if !at.slot.many && end - first > at.slot.more {
        return false;
    }
    is_taken(
        siblings.table.as_slice(),
        at.number,
        place_in_round(at.slot, first, end),
        end,
    )
}

/// The end of the longest run of the item that begins at `first`.
pub(crate) fn reach(siblings: &Siblings, at: Stand, first: usize) -> usize
    ensures { Reaches siblings.now at first result }
{
    let count = siblings.named.len();
    if first >= count {
        return first;
    }
    for end in first..count {
        if !goes_on(siblings, at, first, end) {
            return end;
        }
    }
    count
}

//! The keys of a place: the reductions that stay on what its heads see are listed, and the first key
//! of them comes out, after those that were done. What was found of a reduction is kept for the next
//! key.
ghost use Rattle.std.specs.Prelude.{◌≡◌, ◌<◌, ◌⊎◌, ◌↔◌, false, None, length, List as AnyList, IsTrue, IfOk, OnOk};
ghost use Rattle.std.specs.List.{Contains};
ghost use Rattle.ts_base.specs.Bytes.{Bytes};
ghost use Rattle.ts_graph.specs.declared.view.GraphView.{GraphView};
ghost use Rattle.ts_table.specs.declared.view.ParseTable.{ParseTable};
ghost use Rattle.ts_reductions.specs.declared.top.Top.{Top as AnyTop};
ghost use Rattle.ts_reductions.specs.Sound.{Base as AnyBase};
ghost use Rattle.ts_reductions.specs.Asking.{HasAction, HasReduction};
ghost use Rattle.ts_places.specs.declared.seeking.Seek.{Seek as AnySeek};
ghost use Rattle.ts_places.specs.Turns.{HasTurnFrom};
ghost use Rattle.ts_places.specs.Seeking.{CanSeekAt, CanSeek, IsNext, Seeks, IsEarlierOf, IsKnown, OfAction, OfTop, OfTops, OfKnown, AddsDue, AreDue, WereDue, SeeksDue, sought_with};

use crate::sweep_laws::reduction_laws_hold;
use crate::turns::{latest, may_come_first, sooner, turn};
use std::alloc::{AllocError, Global};
use ts_core::Action;
use ts_graph::Graph;
use ts_reductions::{Batch, Setting, Top};
use ts_table::Table;

/// Where keys are sought: at a place, after all keys from a turn on.
#[derive(Clone, Copy)]
pub(crate) struct Seek {
    pub look: u32,
    pub below: u64,
}

/// What is known of the first key of a reduction, of those that are left.
#[derive(Clone, Copy, Drop)]
pub(crate) enum First {
    /// It is to be sought.
    Unknown,
    /// No key is left.
    Nothing,
    Is(Batch),
}

/// A reduction that stays on the token that a head sees.
#[derive(Clone, Copy, Drop)]
pub(crate) struct Due {
    pub top: Top,
    pub number: u32,
    pub first: First,
}

/// A reduction, and the first of its keys and of the one found so far.
#[derive(Clone, Copy, Drop)]
struct Sought {
    due: Due,
    found: Option<Batch>,
}

/// Adds an action on the token that a head sees, where it is a reduction.
fn add_action(top: Top, action: Action, dues: &mut Vec<Due>) -> Result<(), AllocError>
    ensures { OnOk result ((t : ParseTable) (g : GraphView) (seek : AnySeek)
        → HasAction t g top action
        → AddsDue t g seek (OfAction top action) dues.old.items dues.new.items) }
{
    match action {
        Action::Reduce(number) => {
            dues.push(Due {
                top,
                number,
                first: First::Unknown,
            })?;
            Ok(())
        }
        Action::Shift(_) => Ok(()),
        Action::Accept => Ok(()),
    }
}

/// Adds all reductions on the token that a head sees.
fn add_top(table: &Table, graph: &Graph, top: Top, dues: &mut Vec<Due>) -> Result<(), AllocError>
    requires { top.head < length graph.now.heads }
    ensures { OnOk result ((seek : AnySeek)
        → AddsDue table.now graph.now seek (OfTop top) dues.old.items dues.new.items) }
{
    let head = graph.head(top.head);
    for action in table.actions(head.state, top.token) {
        add_action(top, *action, dues)?;
    }
    Ok(())
}

/// Adds all reductions on the tokens that heads see.
pub(crate) fn add_dues(
    table: &Table,
    graph: &Graph,
    tops: &[Top],
    dues: &mut Vec<Due>,
) -> Result<(), AllocError>
    requires { (top : AnyTop) → Contains tops.now top → top.head < length graph.now.heads }
    ensures { OnOk result ((seek : AnySeek)
        → AddsDue table.now graph.now seek (OfTops tops.now) dues.old.items dues.new.items) }
{
    for top in tops {
        add_top(table, graph, *top, dues)?;
    }
    Ok(())
}

/// Whether a key is no longer left, or nothing of the keys is known any more.
fn is_stale(seek: Seek, stay: bool, first: First) -> bool
    ensures { IsTrue result ↔ ((stay ≡ false) ⊎ HasTurnFrom seek.below first) }
{
    if !stay {
        return true;
    }
    match first {
        First::Is(key) => turn(key) >= seek.below,
        First::Nothing => false,
        First::Unknown => false,
    }
}

/// Forgets the first keys that are no longer left: or all of them, where the ways down from the
/// heads did not stay.
pub(crate) fn forget(seek: Seek, stay: bool, dues: &mut Vec<Due>)
    ensures { (t : ParseTable) (old new : GraphView) (before : AnySeek) (tops : AnyList AnyTop)
        → WereDue t old new before seek tops stay dues.old.items
        → AreDue t new seek tops dues.new.items }
{
    for k in 0..dues.len() {
        let Due { top, number, first } = dues[k];
        if !is_stale(seek, stay, first) {
            continue;
        }
        dues[k] = Due {
            top,
            number,
            first: First::Unknown,
        };
    }
}

/// The earlier of a key that was found and the first one of a reduction, if that is known.
fn earlier_of(seek: Seek, found: Option<Batch>, first: First) -> Option<Batch>
    ensures { IsEarlierOf seek.below found first result }
{
    match first {
        First::Is(key) => sooner(seek.below, found, key),
        First::Nothing => found,
        First::Unknown => found,
    }
}

/// The first of the keys that are known, and none where none is.
fn first_known(seek: Seek, dues: &[Due]) -> Option<Batch>
    ensures { (t : ParseTable) (g : GraphView) (tops : AnyList AnyTop)
        → AreDue t g seek tops dues.now
        → Seeks t g seek (OfKnown dues.now) None result }
{
    let mut found = None;
    for due in dues {
        found = earlier_of(seek, found, due.first);
    }
    found
}

/// A reduction with what is known of its first key, and the first key found so far.
fn with_first(due: Due, first: First, found: Option<Batch>) -> Sought
    ensures { result ≡ sought_with due first found }
{
    let Due {
        top,
        number,
        first: _,
    } = due;
    Sought {
        due: Due { top, number, first },
        found,
    }
}

/// The first of the keys of a reduction, which are not known, and of the one found so far: that of
/// the latest end of its ways. It is not sought where it comes after the one found so far.
fn seek_due(
    alloc: Global,
    table: &Table,
    setting: &Setting,
    graph: &Graph,
    seek: Seek,
    due: Due,
    before: Option<Batch>,
) -> Result<Sought, AllocError>
    requires { (text : Bytes) × CanSeekAt table.now text setting.now graph.now seek due.top
        × HasReduction table.now graph.now due.top due.number }
    ensures { IfOk result (λ sought. (text : Bytes)
        → CanSeekAt table.now text setting.now graph.now seek due.top
        → HasReduction table.now graph.now due.top due.number
        → SeeksDue table.now graph.now seek due before sought) }
{
    reduction_laws_hold();
    table.stands();
    let Due {
        top,
        number,
        first: _,
    } = due;
    let wanted = setting.wanted(number);
    let Some(most) = latest(seek.below, wanted.rank) else {
        return Ok(with_first(due, First::Nothing, before));
    };
    if !may_come_first(before, most, wanted.rank) {
        return Ok(with_first(due, First::Unknown, before));
    }
    match graph.latest_end(alloc, top.head, wanted.steps, most)? {
        Some(begins) => {
            let key = Batch {
                look: seek.look,
                begins,
                rank: wanted.rank,
            };
            let found = sooner(seek.below, before, key);
            Ok(with_first(due, First::Is(key), found))
        }
        None => Ok(with_first(due, First::Nothing, before)),
    }
}

/// Whether it is known what the first key is.
fn is_known(first: First) -> bool
    ensures { IsTrue result ↔ IsKnown first }
{
    match first {
        First::Unknown => false,
        First::Nothing => true,
        First::Is(_) => true,
    }
}

/// The first key of the place, after all keys from the turn on, at which a reduction is asked for,
/// and none where there is no such key. The heads that came last are asked first, since the next key
/// is often theirs, and others are then not asked for keys after it.
pub(crate) fn next_key(
    alloc: Global,
    table: &Table,
    setting: &Setting,
    graph: &Graph,
    seek: Seek,
    dues: &mut Vec<Due>,
) -> Result<Option<Batch>, AllocError>
    requires { (text : Bytes) × (base : AnyBase) × (tops : AnyList AnyTop)
        × CanSeek table.now text base setting.now graph.now seek tops
        × AreDue table.now graph.now seek tops dues.old.items }
    ensures next { IfOk result (λ next. (text : Bytes) (base : AnyBase) (tops : AnyList AnyTop)
        → CanSeek table.now text base setting.now graph.now seek tops
        → AreDue table.now graph.now seek tops dues.old.items
        → IsNext table.now graph.now seek tops next) }
    ensures dues { OnOk result ((text : Bytes) (base : AnyBase) (tops : AnyList AnyTop)
        → CanSeek table.now text base setting.now graph.now seek tops
        → AreDue table.now graph.now seek tops dues.old.items
        → AreDue table.now graph.now seek tops dues.new.items) }
{
    let mut found = first_known(seek, dues.as_slice());
    let mut left = dues.len();
    while left > 0 {
        left -= 1;
        let due = dues[left];
        if is_known(due.first) {
            continue;
        }
        let sought = seek_due(alloc, table, setting, graph, seek, due, found)?;
        dues[left] = sought.due;
        found = sought.found;
    }
    Ok(found)
}

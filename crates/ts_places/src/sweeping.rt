//! All reductions of a place: a graph and what is seen at its heads there go in, and both come out
//! with all reductions done, key by key, or that a node would be too deep.
ghost use Rattle.std.specs.Prelude.{◌≡◌, ◌++◌, ℕ, ◌<◌, List as AnyList, length, IfOk, OnOk};
ghost use Rattle.spec_graph.specs.States.{AreRanks};
ghost use Rattle.ts_graph.specs.declared.view.GraphView.{GraphView};
ghost use Rattle.ts_graph.specs.Down.{KeepNumbers};
ghost use Rattle.ts_table.specs.Ranks.{unit_rank};
ghost use Rattle.ts_reductions.specs.declared.top.Top.{Top as AnyTop};
ghost use Rattle.ts_reductions.specs.Again.{AreLed};
ghost use Rattle.ts_reductions.specs.Sound.{Base as AnyBase, IsSoundBy, IsSoundOver};
ghost use Rattle.ts_places.specs.Passing.{first_key};
ghost use Rattle.ts_places.specs.Turns.{turn_of};
ghost use Rattle.ts_places.specs.Seeking.{seek_at, AreDue};
ghost use Rattle.ts_places.specs.Shifting.{AreAllSights};
ghost use Rattle.ts_places.specs.Sweeping.{CanSweep, IsWholeBy, IsSweptTo, SweepsOne, GoesOn, StayDue, Sweeps};

use crate::kept::Kept;
use crate::looking::{heads_at, look_all};
use crate::seeking::{Seek, add_dues, forget, next_key};
use crate::sights::Sights;
use crate::sweep_laws::{graph_laws_hold, key_laws_hold, reduction_laws_hold};
use crate::turns::turn;
use std::alloc::{AllocError, Global};
use ts_graph::Graph;
use ts_lexer::Tokens;
use ts_reductions::{Batch, Reduced, Setting, reduce_all};
use ts_table::Table;

/// What the next key of a place came to.
#[derive(Clone, Copy)]
pub(crate) enum Swept {
    /// No key was left.
    Over,
    /// Its reductions were done. Later keys have turns below this one.
    Through(u64),
    /// A node would have been too deep.
    Deep,
}

/// Looks at the heads of a place that came since the graph had so many, by the reductions of which
/// the room tells.
fn look_new<L: Tokens>(
    table: &Table,
    lexer: &mut L,
    text: &L::Text,
    graph: &Graph,
    from: usize,
    place: u32,
    kept: &mut Kept,
    sights: &mut Sights,
) -> Result<(), AllocError>
    requires made { L.made_for lexer.old table.now }
    requires sound { IsSoundOver table.now (L.Text.bytes text.now) graph.now }
    requires count { length sights.old.tops.items ≡ length sights.old.spans.items }
    ensures made { L.made_for lexer.new table.now }
    ensures sights { OnOk result ((base : AnyBase) (old : GraphView) → from ≡ length old.heads
        → KeepNumbers old.heads graph.now.heads
        → IsSoundBy table.now (L.Text.bytes text.now) base graph.now
        → AreAllSights table.now (L.Text.bytes text.now) base old place sights.old
        → AreLed table.now (L.Text.bytes text.now) old sights.old.tops.items kept.old.room
        → AreAllSights table.now (L.Text.bytes text.now) base graph.now place sights.new) }
    ensures more { OnOk result ((more : AnyList AnyTop)
        × (sights.new.tops.items ≡ sights.old.tops.items ++ more)) }
    ensures dues { kept.new.dues ≡ kept.old.dues }
{
    graph_laws_hold();
    heads_at(graph, from, place, &mut kept.heads)?;
    let heads = kept.heads.as_slice();
    look_all(table, lexer, text, graph, heads, &kept.room, sights)?;
    Ok(())
}

/// Where keys are sought after one of them.
fn after(seek: Seek, key: Batch) -> Seek
    ensures { result ≡ seek_at seek.look (turn_of key.begins key.rank) }
{
    Seek {
        look: seek.look,
        below: turn(key),
    }
}

/// Does the reductions of the next key of a place, after all keys from a turn on.
fn sweep_one<L: Tokens>(
    alloc: Global,
    table: &Table,
    setting: &Setting,
    lexer: &mut L,
    text: &L::Text,
    graph: &mut Graph,
    seek: Seek,
    sights: &mut Sights,
    kept: &mut Kept,
) -> Result<Swept, AllocError>
    requires made { L.made_for lexer.old table.now }
    requires ready { (base : AnyBase) × CanSweep table.now (L.Text.bytes text.now) base
        setting.now graph.old seek.look sights.old }
    requires due { AreDue table.now graph.old seek sights.old.tops.items kept.old.dues.items }
    ensures made { L.made_for lexer.new table.now }
    ensures swept { IfOk result (λ swept. (base : AnyBase) (most : ℕ) (start : GraphView)
        → CanSweep table.now (L.Text.bytes text.now) base setting.now graph.old seek.look
        sights.old
        → AreRanks table.now.grammar (unit_rank table.now.grammar) most
        → IsSweptTo table.now (L.Text.bytes text.now) base most start graph.old seek.look
        seek.below
        → SweepsOne table.now (L.Text.bytes text.now) base setting.now most start graph.new
        seek.look seek.below sights.new swept) }
    ensures on { IfOk result (λ swept. (base : AnyBase)
        → CanSweep table.now (L.Text.bytes text.now) base setting.now graph.old seek.look
        sights.old
        → GoesOn table.now (L.Text.bytes text.now) base setting.now graph.new seek.look
        seek.below sights.new swept) }
    ensures due { IfOk result (λ swept. (base : AnyBase)
        → CanSweep table.now (L.Text.bytes text.now) base setting.now graph.old seek.look
        sights.old
        → StayDue table.now graph.new seek.look sights.new.tops.items kept.new.dues.items
        swept) }
{
    graph_laws_hold();
    reduction_laws_hold();
    key_laws_hold();
    table.stands();
    let next = next_key(alloc, table, setting, graph, seek, &mut kept.dues)?;
    match next {
        None => Ok(Swept::Over),
        Some(key) => {
            let heads = graph.count();
            let links = graph.link_count();
            let seen = sights.tops.len();
            let tops = sights.tops.as_slice();
            match reduce_all(alloc, table, setting, graph, key, tops, &mut kept.room)? {
                Reduced::TooDeep => Ok(Swept::Deep),
                Reduced::Done => {
                    look_new(table, lexer, text, graph, heads, seek.look, kept, sights)?;
                    let next = after(seek, key);
                    let stay = graph.lead_from(links, heads);
                    forget(next, stay, &mut kept.dues);
                    let (_, new) = sights.tops.as_slice().split_at(seen);
                    add_dues(table, graph, new, &mut kept.dues)?;
                    Ok(Swept::Through(next.below))
                }
            }
        }
    }
}

/// Does all reductions at a place, in the order of their keys, and looks at each new head there.
///
/// # Errors
///
/// `AllocError` where memory runs out. Some of the reductions may be done then.
pub(crate) fn sweep<L: Tokens>(
    alloc: Global,
    table: &Table,
    setting: &Setting,
    lexer: &mut L,
    text: &L::Text,
    graph: &mut Graph,
    place: u32,
    sights: &mut Sights,
    kept: &mut Kept,
) -> Result<Reduced, AllocError>
    requires made { L.made_for lexer.old table.now }
    requires ready { (base : AnyBase) × CanSweep table.now (L.Text.bytes text.now) base
        setting.now graph.old place sights.old }
    ensures made { L.made_for lexer.new table.now }
    ensures swept { IfOk result (λ reduced. (base : AnyBase) (most : ℕ)
        → CanSweep table.now (L.Text.bytes text.now) base setting.now graph.old place sights.old
        → AreRanks table.now.grammar (unit_rank table.now.grammar) most
        → IsWholeBy table.now (L.Text.bytes text.now) base graph.old (first_key most place)
        → Sweeps table.now (L.Text.bytes text.now) base graph.old graph.new place sights.new
        reduced) }
{
    graph_laws_hold();
    key_laws_hold();
    let mut below = u64::MAX;
    kept.dues.clear();
    add_dues(table, graph, sights.tops.as_slice(), &mut kept.dues)?;
    loop {
        let seek = Seek { look: place, below };
        match sweep_one(
            alloc, table, setting, lexer, text, graph, seek, sights, kept,
        )? {
            Swept::Over => return Ok(Reduced::Done),
            Swept::Through(next) => below = next,
            Swept::Deep => return Ok(Reduced::TooDeep),
        }
    }
}

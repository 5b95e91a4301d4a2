//! The reductions of one key: a graph, what is seen at its heads and the key go in, and the graph
//! with all of them done comes out, or that a node would be too deep.
ghost use Rattle.std.specs.Prelude.{IfOk};
ghost use Rattle.ts_base.specs.Bytes.{Bytes};
ghost use Rattle.ts_reductions.specs.Sound.{Base as AnyBase};
ghost use Rattle.ts_reductions.specs.Asking.{IsReady, key_of};
ghost use Rattle.ts_reductions.specs.Reducing.{Reduces};
ghost use Rattle.ts_reductions.specs.Again.{Leads};

use crate::asking::make_all;
use crate::batch::Batch;
use crate::laws::{laws_hold, node_laws_hold, own_laws_hold};
use crate::laying::lay_all;
use crate::room::Room;
use crate::setting::Setting;
use crate::top::Top;
use std::alloc::{AllocError, Global};
use ts_graph::Graph;
use ts_table::Table;

/// What the reductions of a key came to.
#[derive(Clone, Copy, Debug, PartialEq, Eq)]
pub enum Reduced {
    /// All of them were done.
    Done,
    /// A node would have been too deep. Nothing was done.
    TooDeep,
}

/// Does all reductions of a key that a graph asks for. Each node is made before the first is laid,
/// so that no node of the key stands on a way to another.
///
/// # Errors
///
/// `AllocError` where memory runs out. Some of the nodes may be laid then.
pub fn reduce_all(
    alloc: Global,
    table: &Table,
    setting: &Setting,
    graph: &mut Graph,
    batch: Batch,
    tops: &[Top],
    room: &mut Room,
) -> Result<Reduced, AllocError>
    requires { (text : Bytes) × (base : AnyBase)
        × IsReady table.now text base setting.now graph.old batch tops.now }
    ensures reduces { IfOk result (λ reduced. (text : Bytes) (base : AnyBase)
        → IsReady table.now text base setting.now graph.old batch tops.now
        → Reduces table.now text base graph.old graph.new (key_of batch) reduced) }
    ensures led { IfOk result (λ reduced. (text : Bytes) (base : AnyBase)
        → IsReady table.now text base setting.now graph.old batch tops.now
        → Leads table.now text graph.old tops.now room.new reduced) }
{
    laws_hold();
    node_laws_hold();
    own_laws_hold();
    table.stands();
    let lists = &mut room.lists;
    let mades = &mut room.mades;
    if !make_all(alloc, table, setting, graph, batch, tops, lists, mades)? {
        return Ok(Reduced::TooDeep);
    }
    lay_all(graph, mades.as_slice())?;
    Ok(Reduced::Done)
}

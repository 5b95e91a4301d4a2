//! What the reductions of one key make: a graph and what is seen at its heads go in, and a node for
//! each reduction that is asked for comes out, or that one of them would be too deep.
ghost use Rattle.std.specs.Prelude.{◌≡◌, ℕ, List as AnyList, [], length, Some, MatchOption, IfOk};
ghost use Rattle.ts_base.specs.Bytes.{Bytes};
ghost use Rattle.spec_graph.specs.declared.graph.Link.{Link as AnyLink};
ghost use Rattle.spec_runs.specs.Moves.{StandsBefore};
ghost use Rattle.ts_graph.specs.Ways.{AreAt};
ghost use Rattle.ts_table.specs.Tables.{IsStateOf, goto_of};
ghost use Rattle.ts_reductions.specs.Sound.{Base as AnyBase};
ghost use Rattle.ts_reductions.specs.Asking.{HasAction, HasReduction, IsAsked, IsReadyAt, IsReady, IsMadeFor, IsAskedDeep, HasWays, HasOneWay, Adds, OnWay, ByNumber, ByAction, ByTop, ByTops};

use crate::batch::Batch;
use crate::gathering::{depth_over, heads_up, lifted, trees_up};
use crate::laws::{laws_hold, node_laws_hold};
use crate::made::{Made, Piece};
use crate::making::{extent_over, node_of};
use crate::room::{Lists, Trees};
use crate::setting::Setting;
use crate::top::Top;
use std::alloc::{AllocError, Global};
use ts_core::{Action, List, Symbol};
use ts_graph::{Graph, Way};
use ts_node::Node;
use ts_table::Table;

/// The greatest depth of a node.
const MOST_DEPTH: u32 = 1000;

/// A reduction by the production of a number, for a key, on the token that a head sees.
#[derive(Clone, Copy)]
pub(crate) struct Asked {
    pub batch: Batch,
    pub top: Top,
    pub number: u32,
}

/// An action on the token that a head sees, for a key.
#[derive(Clone, Copy)]
pub(crate) struct Acting {
    pub batch: Batch,
    pub top: Top,
    pub action: Action,
}

/// The state after a symbol.
fn next_state(table: &Table, state: u16, symbol: Symbol) -> u16
    requires { (read : AnyList ℕ) × IsStateOf table.now read state
        × StandsBefore table.now.grammar read symbol.0 }
    ensures { goto_of table.now state symbol.0 ≡ Some result }
{
    match table.goto(state, symbol) {
        Some(next) => next,
        None => unreachable!(),
    }
}

/// What a reduction makes on a way. None where the node would be too deep.
fn make(
    alloc: Global,
    table: &Table,
    setting: &Setting,
    graph: &Graph,
    asked: Asked,
    links: &[usize],
    below: usize,
    trees: &mut Trees,
) -> Result<Option<Made>, AllocError>
    requires { (text : Bytes) × (way : AnyList AnyLink)
        × IsReadyAt table.now text setting.now graph.now asked.batch asked.top
        × AreAt graph.now.links links.now way
        × IsAsked table.now graph.now asked.batch asked.top asked.number way below }
    ensures { IfOk result (λ o. (text : Bytes) (way : AnyList AnyLink)
        → IsReadyAt table.now text setting.now graph.now asked.batch asked.top
        → AreAt graph.now.links links.now way
        → IsAsked table.now graph.now asked.batch asked.top asked.number way below
        → MatchOption o
        (IsAskedDeep table.now graph.now asked.batch asked.top asked.number way below)
        (IsMadeFor table.now (length text) graph.now asked.batch asked.top asked.number way
        below)) }
{
    laws_hold();
    node_laws_hold();
    table.stands();
    setting.productions.values_are_small();
    let line = *setting.lines.get(asked.number as usize);
    let (outer, inner) = links.split_at(lifted(graph, links));
    let depth = depth_over(graph, inner, line.lengthens);
    if depth > MOST_DEPTH {
        return Ok(None);
    }
    trees_up(graph, outer, &mut trees.extras)?;
    trees_up(graph, inner, &mut trees.children)?;
    let children = trees.children.as_slice();
    let extent = extent_over(children, trees.extras.as_slice(), asked.top.ahead);
    let node = node_of(alloc, setting, asked.number, &mut trees.children, extent)?;
    let state = next_state(table, graph.head(below).state, line.left);
    Ok(Some(Made {
        below,
        piece: Piece { node, depth, state },
        extras: list_of(alloc, &mut trees.extras)?,
        top: asked.top,
        under: heads_up(alloc, graph, outer)?,
    }))
}

/// The nodes of a list, which are taken out of it.
fn list_of(alloc: Global, nodes: &mut Vec<Node>) -> Result<List<Node>, AllocError>
    ensures { IfOk result (λ list. list ≡ nodes.old.items) }
{
    if nodes.is_empty() {
        return Ok(List::new(alloc));
    }
    let mut list = Vec::new(alloc);
    list.append(nodes)?;
    Ok(List::from_vec(list))
}

/// Adds what the reduction makes on a way. False where the node would be too deep.
fn add_way(
    alloc: Global,
    table: &Table,
    setting: &Setting,
    graph: &Graph,
    asked: Asked,
    links: &[usize],
    below: usize,
    trees: &mut Trees,
    mades: &mut Vec<Made>,
) -> Result<bool, AllocError>
    requires { (text : Bytes) × (way : AnyList AnyLink)
        × IsReadyAt table.now text setting.now graph.now asked.batch asked.top
        × AreAt graph.now.links links.now way
        × IsAsked table.now graph.now asked.batch asked.top asked.number way below }
    ensures { IfOk result (λ b. (text : Bytes) (way : AnyList AnyLink)
        → IsReadyAt table.now text setting.now graph.now asked.batch asked.top
        → AreAt graph.now.links links.now way
        → IsAsked table.now graph.now asked.batch asked.top asked.number way below
        → Adds table.now (length text) graph.now asked.batch
        (OnWay asked.top asked.number way below) mades.old.items mades.new.items b) }
{
    match make(alloc, table, setting, graph, asked, links, below, trees)? {
        Some(made) => {
            mades.push(made)?;
            Ok(true)
        }
        None => Ok(false),
    }
}

/// Adds what the reduction makes on the only way, where it ends at the key's place. False where the
/// node would be too deep.
fn add_only(
    alloc: Global,
    table: &Table,
    setting: &Setting,
    graph: &Graph,
    asked: Asked,
    links: &[usize],
    below: usize,
    trees: &mut Trees,
    mades: &mut Vec<Made>,
) -> Result<bool, AllocError>
    requires { (text : Bytes)
        × IsReadyAt table.now text setting.now graph.now asked.batch asked.top
        × HasOneWay table.now graph.now asked.batch asked.top asked.number links.now below }
    ensures { IfOk result (λ b. (text : Bytes)
        → IsReadyAt table.now text setting.now graph.now asked.batch asked.top
        → HasOneWay table.now graph.now asked.batch asked.top asked.number links.now below
        → Adds table.now (length text) graph.now asked.batch (ByNumber asked.top asked.number)
        mades.old.items mades.new.items b) }
{
    if graph.head(below).place != asked.batch.begins {
        return Ok(true);
    }
    let more = add_way(
        alloc, table, setting, graph, asked, links, below, trees, mades,
    )?;
    Ok(more)
}

/// Adds what the reduction makes on all of these ways. False where a node would be too deep.
fn add_all(
    alloc: Global,
    table: &Table,
    setting: &Setting,
    graph: &Graph,
    asked: Asked,
    ways: &[Way],
    trees: &mut Trees,
    mades: &mut Vec<Made>,
) -> Result<bool, AllocError>
    requires { (text : Bytes)
        × IsReadyAt table.now text setting.now graph.now asked.batch asked.top
        × HasWays table.now graph.now asked.batch asked.top asked.number ways.now }
    ensures { IfOk result (λ b. (text : Bytes)
        → IsReadyAt table.now text setting.now graph.now asked.batch asked.top
        → HasWays table.now graph.now asked.batch asked.top asked.number ways.now
        → Adds table.now (length text) graph.now asked.batch (ByNumber asked.top asked.number)
        mades.old.items mades.new.items b) }
{
    for way in ways {
        let links = way.links.as_slice();
        let below = way.below;
        if !add_way(
            alloc, table, setting, graph, asked, links, below, trees, mades,
        )? {
            return Ok(false);
        }
    }
    Ok(true)
}

/// Adds what the reduction makes on all ways down to the key's place, where its production has the
/// key's rank. False where a node would be too deep.
fn add_ways(
    alloc: Global,
    table: &Table,
    setting: &Setting,
    graph: &Graph,
    asked: Asked,
    lists: &mut Lists,
    mades: &mut Vec<Made>,
) -> Result<bool, AllocError>
    requires { (text : Bytes) × IsReadyAt table.now text setting.now graph.now asked.batch asked.top
        × HasReduction table.now graph.now asked.top asked.number }
    ensures { IfOk result (λ b. (text : Bytes)
        → IsReadyAt table.now text setting.now graph.now asked.batch asked.top
        → HasReduction table.now graph.now asked.top asked.number
        → Adds table.now (length text) graph.now asked.batch (ByNumber asked.top asked.number)
        mades.old.items mades.new.items b) }
{
    table.stands();
    laws_hold();
    let line = *setting.lines.get(asked.number as usize);
    if *setting.ranks.get(usize::from(line.left.0)) != asked.batch.rank {
        return Ok(true);
    }
    let head = asked.top.head;
    let begins = asked.batch.begins;
    match graph.only_way(head, line.steps, &mut lists.numbers)? {
        Some(below) => {
            let links = lists.numbers.as_slice();
            let trees = &mut lists.trees;
            let more = add_only(
                alloc, table, setting, graph, asked, links, below, trees, mades,
            )?;
            Ok(more)
        }
        None => {
            let ways = graph.ways_to(alloc, head, line.steps, begins)?;
            let all = ways.as_slice();
            let trees = &mut lists.trees;
            let more = add_all(alloc, table, setting, graph, asked, all, trees, mades)?;
            Ok(more)
        }
    }
}

/// Adds what an action on the token that a head sees makes, where it is a reduction. False where a
/// node would be too deep.
fn add_action(
    alloc: Global,
    table: &Table,
    setting: &Setting,
    graph: &Graph,
    acting: Acting,
    lists: &mut Lists,
    mades: &mut Vec<Made>,
) -> Result<bool, AllocError>
    requires { (text : Bytes)
        × IsReadyAt table.now text setting.now graph.now acting.batch acting.top
        × HasAction table.now graph.now acting.top acting.action }
    ensures { IfOk result (λ b. (text : Bytes)
        → IsReadyAt table.now text setting.now graph.now acting.batch acting.top
        → HasAction table.now graph.now acting.top acting.action
        → Adds table.now (length text) graph.now acting.batch
        (ByAction acting.top acting.action) mades.old.items mades.new.items b) }
{
    match acting.action {
        Action::Reduce(number) => {
            let asked = Asked {
                batch: acting.batch,
                top: acting.top,
                number,
            };
            let more = add_ways(alloc, table, setting, graph, asked, lists, mades)?;
            Ok(more)
        }
        Action::Shift(_) => Ok(true),
        Action::Accept => Ok(true),
    }
}

/// Adds what all reductions on the token that a head sees make. False where a node would be too
/// deep.
fn add_top(
    alloc: Global,
    table: &Table,
    setting: &Setting,
    graph: &Graph,
    batch: Batch,
    top: Top,
    lists: &mut Lists,
    mades: &mut Vec<Made>,
) -> Result<bool, AllocError>
    requires { (text : Bytes) × IsReadyAt table.now text setting.now graph.now batch top }
    ensures { IfOk result (λ b. (text : Bytes)
        → IsReadyAt table.now text setting.now graph.now batch top
        → Adds table.now (length text) graph.now batch (ByTop top) mades.old.items
        mades.new.items b) }
{
    let head = graph.head(top.head);
    for action in table.actions(head.state, top.token) {
        let acting = Acting {
            batch,
            top,
            action: *action,
        };
        if !add_action(alloc, table, setting, graph, acting, lists, mades)? {
            return Ok(false);
        }
    }
    Ok(true)
}

/// What all reductions of the key make, in the place of what was made before. False where a node
/// would be too deep.
pub(crate) fn make_all(
    alloc: Global,
    table: &Table,
    setting: &Setting,
    graph: &Graph,
    batch: Batch,
    tops: &[Top],
    lists: &mut Lists,
    mades: &mut Vec<Made>,
) -> Result<bool, AllocError>
    requires { (text : Bytes) × (base : AnyBase)
        × IsReady table.now text base setting.now graph.now batch tops.now }
    ensures { IfOk result (λ b. (text : Bytes) (base : AnyBase)
        → IsReady table.now text base setting.now graph.now batch tops.now
        → Adds table.now (length text) graph.now batch (ByTops tops.now) [] mades.new.items b) }
{
    mades.clear();
    for top in tops {
        if !add_top(alloc, table, setting, graph, batch, *top, lists, mades)? {
            return Ok(false);
        }
    }
    Ok(true)
}

//! What stays on one token in one set of items: the candidates go in, and the actions come out.
ghost use Rattle.std.specs.Prelude.{◌≡◌, ◌<◌, ◌++◌, length, Some, IfOk, OnOk, ◌↔◌};
ghost use Rattle.std.specs.List.{Contains};
ghost use Rattle.ts_core.specs.declared.action.Action.{Action as AnyAction};
ghost use Rattle.ts_table.specs.Tables.{EachOnce};
ghost use Rattle.ts_table.specs.Deciding.{StaysOf};
ghost use Rattle.ts_table.specs.Cells.{IsCellOf, number_in, shift_in, reductions_in, accept_in, actions_in};

use crate::candidates::Candidate;
use crate::deciding::{Verdict, judge, keep};
use std::alloc::{AllocError, Global};
use ts_core::{Action, FlatGrammar};

/// What stays on a token.
#[derive(Debug, Drop)]
pub(crate) struct Cell {
    /// The state to which the shift leads, where it stays.
    pub shift: Option<u16>,
    /// The reductions that stay.
    pub reductions: Vec<Candidate>,
    /// The shift items, where the shift stays beside reductions.
    pub shifts: Vec<Candidate>,
}

/// What stays of a shift to a state and of some reductions.
fn contest(
    alloc: Global,
    grammar: &FlatGrammar,
    next: u16,
    kept: Vec<Candidate>,
    shifts: Vec<Candidate>,
) -> Cell
    requires { 0 < length kept.items }
    ensures { IsCellOf grammar.now (Some next) (Contains shifts.items) (Contains kept.items)
        result }
{
    match judge(grammar, shifts.as_slice(), kept.as_slice()) {
        Verdict::Shift => Cell {
            shift: Some(next),
            reductions: Vec::new(alloc),
            shifts,
        },
        Verdict::Reduce => Cell {
            shift: None,
            reductions: kept,
            shifts: Vec::new(alloc),
        },
        Verdict::Both => Cell {
            shift: Some(next),
            reductions: kept,
            shifts,
        },
    }
}

/// What stays of a shift to a state and of the reductions that are kept.
fn with_shift(
    alloc: Global,
    grammar: &FlatGrammar,
    next: u16,
    kept: Vec<Candidate>,
    shifts: Vec<Candidate>,
) -> Cell
    ensures { IsCellOf grammar.now (Some next) (Contains shifts.items) (Contains kept.items)
        result }
{
    if kept.is_empty() {
        return Cell {
            shift: Some(next),
            reductions: kept,
            shifts,
        };
    }
    contest(alloc, grammar, next, kept, shifts)
}

/// What stays of a shift, if there is one, and of the reductions on a token. The shift items count
/// only where there are both.
pub(crate) fn resolve_cell(
    alloc: Global,
    grammar: &FlatGrammar,
    target: Option<u16>,
    reductions: &[Candidate],
    shifts: Vec<Candidate>,
) -> Result<Cell, AllocError>
    ensures { IfOk result (IsCellOf grammar.now target (Contains shifts.items)
        (StaysOf grammar.now reductions.now)) }
{
    let kept = keep(alloc, grammar, reductions)?;
    match target {
        None => Ok(Cell {
            shift: None,
            reductions: kept,
            shifts: Vec::new(alloc),
        }),
        Some(next) => Ok(with_shift(alloc, grammar, next, kept, shifts)),
    }
}

/// The number of the production of a line.
fn number_of(line: u16) -> u32
    ensures { result ≡ number_in line }
{
    u32::from(line.saturating_sub(1))
}

/// Adds the reductions.
fn add_reductions(actions: &mut Vec<Action>, reductions: &[Candidate]) -> Result<(), AllocError>
    ensures { OnOk result
        (actions.new.items ≡ actions.old.items ++ reductions_in reductions.now) }
{
    for candidate in reductions {
        actions.push(Action::Reduce(number_of(candidate.line)))?;
    }
    Ok(())
}

/// Adds the shift, where there is one.
fn add_shift(actions: &mut Vec<Action>, shift: Option<u16>) -> Result<(), AllocError>
    ensures { OnOk result (actions.new.items ≡ actions.old.items ++ shift_in shift) }
{
    match shift {
        Some(next) => {
            actions.push(Action::Shift(next))?;
            Ok(())
        }
        None => Ok(()),
    }
}

/// Adds that the text is accepted, where it is.
fn add_accept(actions: &mut Vec<Action>, accepts: bool) -> Result<(), AllocError>
    ensures { OnOk result (actions.new.items ≡ actions.old.items ++ accept_in accepts) }
{
    if accepts {
        actions.push(Action::Accept)?;
    }
    Ok(())
}

/// Some actions in order, each once.
fn in_order(mut actions: Vec<Action>) -> Vec<Action>
    ensures members { (a : AnyAction) → Contains result.items a ↔ Contains actions.items a }
    ensures once { EachOnce result.items }
{
    actions.sort_unstable();
    actions.dedup();
    actions
}

/// The actions of what stays on a token, each once.
pub(crate) fn actions_of(
    alloc: Global,
    cell: &Cell,
    accepts: bool,
) -> Result<Vec<Action>, AllocError>
    ensures members { IfOk result (λ v. (a : AnyAction)
        → Contains v.items a ↔ Contains (actions_in cell.now accepts) a) }
    ensures once { IfOk result (λ v. EachOnce v.items) }
{
    let mut actions = Vec::new(alloc);
    add_shift(&mut actions, cell.shift)?;
    add_reductions(&mut actions, cell.reductions.as_slice())?;
    add_accept(&mut actions, accepts)?;
    Ok(in_order(actions))
}

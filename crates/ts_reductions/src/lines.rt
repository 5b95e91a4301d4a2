//! The productions of a grammar by their numbers: the grammar goes in, and for each production its
//! rule, its number of steps, and whether it lengthens a repetition come out.
ghost use Rattle.std.specs.Prelude.{◌≡◌, ◌+◌, ◌<◌, ◌≤◌, ◌^◌, suc, length, take, slice_get, Some, IfOk, OnOk, if◌then◌else◌};
ghost use Rattle.spec_grammar.specs.Symbols.{all_productions, symbol_count, count_productions};
ghost use Rattle.spec_trees.specs.Made.{repetition_form, of_rule};
ghost use Rattle.ts_reductions.specs.Lines.{lengthens_by, IsLine, HasAllLines, AreLinesUpTo};

use std::alloc::{AllocError, Global};
use ts_core::{FlatGrammar, FlatRule, List, Symbol};

/// What a reduction has to know of a production.
#[derive(Clone, Copy)]
pub(crate) struct Line {
    pub left: Symbol,
    pub steps: usize,
    /// Whether its first step is the repetition that it lengthens.
    pub lengthens: bool,
}

/// A line for each production, in their order.
#[tactic(auto, using(crate::proofs::LineLemmas::count_all))]
pub(crate) fn lines_of(alloc: Global, flat: &FlatGrammar) -> Result<List<Line>, AllocError>
    requires symbols { symbol_count flat.now ≤ 2 ^ 16 }
    requires productions { length (all_productions flat.now) < 2 ^ 32 }
    ensures { IfOk result (λ lines. HasAllLines flat.now lines) }
{
    let mut lines = List::new(alloc);
    for r in 0..flat.rules.len() {
        add_rule(flat, r, &mut lines)?;
    }
    Ok(lines)
}

/// Puts the lines of the productions of rule `r` at the end.
#[tactic(auto, using(crate::proofs::LineLemmas::count_step, crate::proofs::LineLemmas::count_within))]
fn add_rule(flat: &FlatGrammar, r: usize, lines: &mut List<Line>) -> Result<(), AllocError>
    requires rule { r < length flat.now.rules }
    requires symbols { symbol_count flat.now ≤ 2 ^ 16 }
    requires productions { length (all_productions flat.now) < 2 ^ 32 }
    requires before { AreLinesUpTo flat.now (count_productions (take r flat.now.rules)) lines.old }
    ensures { OnOk result
        (AreLinesUpTo flat.now (count_productions (take (suc r) flat.now.rules)) lines.new) }
{
    let rule = flat.rules.get(r);
    for i in 0..rule.productions.len() {
        lines.push(line_at(flat, r, rule, i))?;
    }
    Ok(())
}

/// The line of production `i` of rule `r`.
fn line_at(flat: &FlatGrammar, r: usize, rule: &FlatRule, i: usize) -> Line
    requires rule { slice_get flat.now.rules r ≡ Some rule.now }
    requires production { i < length rule.now.productions }
    requires symbols { symbol_count flat.now ≤ 2 ^ 16 }
    ensures { IsLine flat.now (count_productions (take r flat.now.rules) + i) result }
{
    let left = Symbol((flat.tokens.len() + 1 + r) as u16);
    let count = rule.productions.len();
    let production = rule.productions.get(i);
    Line {
        left,
        steps: production.steps.len(),
        lengthens: lengthens(rule.owner.0 != left.0, count / 2, i),
    }
}

/// Whether the production at a place among those of its rule lengthens a repetition.
fn lengthens(repetition: bool, count: usize, place: usize) -> bool
    ensures { lengthens_by (if repetition then repetition_form count place else of_rule) ≡ result }
{
    if !repetition {
        false
    } else if place < count {
        false
    } else {
        true
    }
}

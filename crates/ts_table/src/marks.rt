//! What each production says of precedences: a grammar goes in, and the weight of an item comes
//! out, found at once.
ghost use Rattle.std.specs.Prelude.{◌≡◌, ◌+◌, ◌<◌, ◌≤◌, ◌^◌, ◌++◌, length, IfOk, OnOk, slice_get};
ghost use Rattle.ts_core.specs.declared.flat.FlatGrammar.{FlatGrammar as Flat};
ghost use Rattle.spec_grammar.specs.Symbols.{symbol_count, start_symbol, all_productions};
ghost use Rattle.ts_items.specs.Productions.{right_of};
ghost use Rattle.ts_items.specs.Parts.{line_of};
ghost use Rattle.ts_table.specs.Marks.{marks_in, seen_marked, marked_rule, marked_rules, mark_before, symbol_of_mark, weight_by, weight_of, AreMarksOf};

use std::alloc::{AllocError, Global};
use ts_core::{Assoc, FlatGrammar, FlatRule, Prec, Step};

/// A symbol on the right side of a production, with what it says of precedences.
#[derive(Debug, Clone, Copy, PartialEq, Eq)]
pub(crate) struct Mark {
    pub symbol: u16,
    pub prec: Prec,
    pub assoc: Assoc,
}

/// A production, by the marks of its steps.
#[derive(Debug, Drop)]
pub(crate) struct Marked {
    pub left: u16,
    pub steps: Vec<Mark>,
}

/// The productions of a grammar, by their numbers.
#[derive(Debug, Drop)]
pub(crate) struct Marks {
    pub start: u16,
    pub productions: Vec<Marked>,
}

/// What is compared of an item: the precedence and the associativity of the step before its dot,
/// and the rule of its production.
#[derive(Debug, Clone, Copy, PartialEq, Eq)]
pub(crate) struct Weight {
    pub prec: Prec,
    pub assoc: Assoc,
    pub rule: u16,
}

/// The marks of some steps.
fn marks_of(alloc: Global, steps: &[Step]) -> Result<Vec<Mark>, AllocError>
    ensures { IfOk result (λ v. v.items ≡ marks_in steps.now) }
{
    let mut marks = Vec::new(alloc);
    for step in steps {
        marks.push(Mark {
            symbol: step.symbol.0,
            prec: step.prec,
            assoc: step.assoc,
        })?;
    }
    Ok(marks)
}

/// Adds the productions of one rule.
fn add_rule(
    alloc: Global,
    productions: &mut Vec<Marked>,
    left: u16,
    rule: &FlatRule,
) -> Result<(), AllocError>
    ensures { OnOk result (seen_marked productions.new.items
        ≡ seen_marked productions.old.items ++ marked_rule left rule.now.productions) }
{
    for production in rule.productions.as_slice() {
        let steps = marks_of(alloc, production.steps.as_slice())?;
        productions.push(Marked { left, steps })?;
    }
    Ok(())
}

/// Adds the productions of all rules.
fn add_rules(
    alloc: Global,
    productions: &mut Vec<Marked>,
    first: u16,
    rules: &[FlatRule],
) -> Result<(), AllocError>
    requires { first + length rules.now < 2 ^ 16 }
    ensures { OnOk result (seen_marked productions.new.items
        ≡ seen_marked productions.old.items ++ marked_rules first rules.now) }
{
    let mut left = first;
    for rule in rules {
        add_rule(alloc, productions, left, rule)?;
        left += 1;
    }
    Ok(())
}

/// The mark of the step before a dot, if there is one.
fn before(steps: &[Mark], dot: u16) -> Option<Mark>
    ensures { result ≡ mark_before steps.now dot }
{
    let dot = usize::from(dot);
    if dot == 0 || dot > steps.len() {
        return None;
    }
    Some(steps[dot - 1])
}

/// What the step before a dot says, in a production of a rule.
fn weight_by(before: Option<Mark>, rule: u16) -> Weight
    ensures { result ≡ weight_by before rule }
{
    match before {
        Some(mark) => Weight {
            prec: mark.prec,
            assoc: mark.assoc,
            rule,
        },
        None => Weight {
            prec: Prec::Absent,
            assoc: Assoc::Absent,
            rule,
        },
    }
}

impl Marks {
    /// The productions of a grammar.
    pub(crate) fn of(alloc: Global, grammar: &FlatGrammar) -> Result<Marks, AllocError>
        requires { symbol_count grammar.now < 2 ^ 16 }
        ensures { IfOk result (AreMarksOf grammar.now) }
    {
        let mut productions = Vec::new(alloc);
        let start = grammar.tokens.len() as u16 + 1;
        add_rules(alloc, &mut productions, start, grammar.rules.as_slice())?;
        Ok(Marks { start, productions })
    }

    /// The weight of an item by its line and its dot.
    pub(crate) fn weight(&self, line: u16, dot: u16) -> Weight
        requires { line ≤ length self.now.productions.items }
        ensures { (g : Flat) → AreMarksOf g self.now → result ≡ weight_of g (line_of line) dot }
    {
        if line == 0 {
            return weight_by(None, self.start);
        }
        let production = &self.productions[usize::from(line) - 1];
        weight_by(before(production.steps.as_slice(), dot), production.left)
    }

    /// The symbol at the dot of a line past the first step, if there is one.
    pub(crate) fn symbol_at(&self, line: u16, dot: u16) -> Option<u16>
        requires { (line ≤ length self.now.productions.items) × (0 < dot) }
        ensures { (g : Flat) → AreMarksOf g self.now
            → result ≡ slice_get (right_of g (line_of line)) dot }
    {
        if line == 0 {
            return None;
        }
        symbol_in(
            self.productions[usize::from(line) - 1].steps.as_slice(),
            usize::from(dot),
        )
    }

    /// How many steps the production of a line has, which is none of the start item.
    pub(crate) fn size(&self, line: u16) -> usize
        requires { (0 < line) × (line ≤ length self.now.productions.items) }
        ensures { (g : Flat) → AreMarksOf g self.now → result ≡ length (right_of g (line_of line)) }
    {
        self.productions[usize::from(line) - 1].steps.len()
    }
}

/// The symbol at a place.
fn symbol_in(steps: &[Mark], at: usize) -> Option<u16>
    ensures { result ≡ symbol_of_mark steps.now at }
{
    if at < steps.len() {
        Some(steps[at].symbol)
    } else {
        None
    }
}

//! The productions of a grammar by their numbers: a grammar goes in, and then a number; what a
//! reduction has to know of that production comes out, found at once.
ghost use Rattle.std.specs.Prelude.{◌≡◌, ℕ, ◌+◌, ◌<◌, ◌≤◌, ◌^◌, suc, length, take, slice_get, Some, IfOk, OnOk, if◌then◌else◌};
ghost use Rattle.spec_grammar.specs.Symbols.{all_productions, symbol_count, count_productions};
ghost use Rattle.spec_trees.specs.Made.{repetition_form, of_rule};
ghost use Rattle.spec_trees.specs.Reducible.{HasSmallValue};
ghost use Rattle.ts_node.specs.Entries.{IsEntry, HasAllEntries, AreUpTo, form_is};

use std::alloc::{AllocError, Global};
use std::marker::Model;
use std::snapshot::Snapshot;
use ts_core::{FlatGrammar, FlatRule, List, Symbol};

/// What a production makes of its children.
#[derive(Clone, Copy)]
pub(crate) enum Form {
    /// A node of a rule.
    Rule,
    /// A repetition of one element, of this alternative.
    First(u32),
    /// A repetition and one more element, of this alternative.
    Next(u32),
}

/// What a reduction has to know of a production.
#[derive(Clone, Copy)]
pub(crate) struct Entry {
    pub symbol: Symbol,
    pub form: Form,
    pub dynamic: i32,
}

/// The productions of a grammar, which contracts see as that grammar.
#[derive(Drop)]
pub struct Productions {
    entries: List<Entry>,
    flat: Snapshot<FlatGrammar>,
}

impl Model for Productions {
    ghost use Rattle.ts_core.specs.declared.flat.FlatGrammar.{FlatGrammar};
    ghost use Rattle.ts_core.specs.contracts.flat.FlatGrammar as grammar;
    ghost use Rattle.std.specs.Coded.{codes};

    ghost Value = { FlatGrammar };

    ghost coded = { Prim.hlevel (codes, grammar.the_row.coded) };

    ghost use Rattle.ts_node.specs.Entries.{HasAllEntries};

    ghost view = { λ a. a.flat.value };

    ghost invariant = { λ a. HasAllEntries a.flat.value a.entries };
}

impl Productions {
    /// The productions of a grammar, in time by their number.
    ///
    /// # Errors
    ///
    /// `AllocError` where memory runs out.
    pub fn new(alloc: Global, flat: &FlatGrammar) -> Result<Productions, AllocError>
        requires symbols { symbol_count flat.now ≤ 2 ^ 16 }
        requires productions { length (all_productions flat.now) < 2 ^ 32 }
        ensures { IfOk result (λ productions. productions ≡ flat.now) }
    {
        let entries = entries(alloc, flat)?;
        Ok(Productions {
            entries,
            flat: Snapshot::of(flat),
        })
    }

    /// The dynamic values of the productions have 32 bits, as the laws of reduced nodes ask. No
    /// value goes in or out.
    pub fn values_are_small(&self)
        ensures { (number : ℕ) → HasSmallValue self.now number }
    {
        let _ = self.entries.len();
    }

    /// What a reduction has to know of the production of this number.
    pub(crate) fn entry(&self, number: u32) -> Entry
        requires { number < length (all_productions self.now) }
        ensures { IsEntry self.now number result }
    {
        *self.entries.get(number as usize)
    }
}

/// An entry for each production, in their order.
#[tactic(auto, using(crate::proofs::ProductionLemmas::count_all))]
fn entries(alloc: Global, flat: &FlatGrammar) -> Result<List<Entry>, AllocError>
    requires symbols { symbol_count flat.now ≤ 2 ^ 16 }
    requires productions { length (all_productions flat.now) < 2 ^ 32 }
    ensures { IfOk result (λ entries. HasAllEntries flat.now entries) }
{
    let mut entries = List::new(alloc);
    for r in 0..flat.rules.len() {
        add_rule(flat, r, &mut entries)?;
    }
    Ok(entries)
}

/// Puts the entries of the productions of rule `r` at the end.
#[tactic(auto, using(crate::proofs::ProductionLemmas::count_step, crate::proofs::ProductionLemmas::count_within))]
fn add_rule(flat: &FlatGrammar, r: usize, entries: &mut List<Entry>) -> Result<(), AllocError>
    requires rule { r < length flat.now.rules }
    requires symbols { symbol_count flat.now ≤ 2 ^ 16 }
    requires productions { length (all_productions flat.now) < 2 ^ 32 }
    requires before { AreUpTo flat.now (count_productions (take r flat.now.rules)) entries.old }
    ensures { OnOk result
        (AreUpTo flat.now (count_productions (take (suc r) flat.now.rules)) entries.new) }
{
    let rule = flat.rules.get(r);
    for i in 0..rule.productions.len() {
        entries.push(entry_at(flat, r, rule, i))?;
    }
    Ok(())
}

/// The entry of production `i` of rule `r`.
fn entry_at(flat: &FlatGrammar, r: usize, rule: &FlatRule, i: usize) -> Entry
    requires rule { slice_get flat.now.rules r ≡ Some rule.now }
    requires production { i < length rule.now.productions }
    requires symbols { symbol_count flat.now ≤ 2 ^ 16 }
    requires productions { length (all_productions flat.now) < 2 ^ 32 }
    ensures { IsEntry flat.now (count_productions (take r flat.now.rules) + i) result }
{
    let symbol = Symbol((flat.tokens.len() + 1 + r) as u16);
    let count = rule.productions.len();
    Entry {
        symbol,
        form: form_at(rule.owner.0 != symbol.0, (count / 2) as u32, i as u32),
        dynamic: rule.productions.get(i).dynamic,
    }
}

/// The form of the production at a place among those of its rule.
fn form_at(repetition: bool, count: u32, place: u32) -> Form
    ensures { form_is result ≡ if repetition then repetition_form count place else of_rule }
{
    if !repetition {
        Form::Rule
    } else if place < count {
        Form::First(place)
    } else {
        Form::Next(place - count)
    }
}

//! The steps of productions by their numbers: a grammar goes in, and the steps of each production
//! are found at once.
ghost use Rattle.std.specs.Prelude.{◌≡◌, ◌+◌, [], map, get_or, IfOk};
ghost use Rattle.spec_grammar.specs.Symbols.{first_production};
ghost use Rattle.spec_trees.specs.VisibleNodes.{steps_at};

use std::alloc::{AllocError, Global};
use std::marker::Model;
use ts_core::{FlatGrammar, Step, Symbol};

/// A grammar with the steps of its productions, which contracts see as the grammar.
#[derive(Drop)]
pub(crate) struct Steps<'g> {
    grammar: &'g FlatGrammar,
    /// The number of the first production of each rule.
    firsts: Vec<usize>,
    steps: Vec<&'g [Step]>,
}

impl<'g> Model for Steps<'g> {
    ghost use Rattle.ts_core.specs.declared.flat.FlatGrammar.{FlatGrammar};
    ghost use Rattle.ts_core.specs.contracts.flat.FlatGrammar as flat;
    ghost use Rattle.std.specs.Coded.{codes};

    ghost Value = { FlatGrammar };

    ghost coded = { Prim.hlevel (codes, flat.the_row.coded) };

    ghost use Rattle.ts_cursor.specs.Numbered.{AreNumbered};
    ghost use Rattle.std.specs.Prelude.{map};

    ghost view = { λ a. a.grammar.now };

    ghost invariant = { λ a.
        AreNumbered a.grammar.now a.firsts.items (map (λ s. s.now) a.steps.items) };
}

impl<'g> Steps<'g> {
    /// The steps of a grammar's productions, in time by their number.
    ///
    /// # Errors
    ///
    /// `AllocError` where memory runs out.
    pub(crate) fn new(alloc: Global, grammar: &'g FlatGrammar) -> Result<Steps<'g>, AllocError>
        ensures { IfOk result (λ steps. steps ≡ grammar.now) }
    {
        let mut firsts = Vec::new(alloc);
        let mut steps = Vec::new(alloc);
        for rule in grammar.rules.as_slice() {
            firsts.push(steps.as_slice().len())?;
            for production in rule.productions.as_slice() {
                steps.push(production.steps.as_slice())?;
            }
        }
        Ok(Steps {
            grammar,
            firsts,
            steps,
        })
    }

    /// The grammar itself.
    pub(crate) fn grammar(&self) -> &'g FlatGrammar
        ensures { result.now ≡ self.now }
    {
        self.grammar
    }

    /// The steps of the production of a number, and none where there is no such production.
    pub(crate) fn of(&self, number: usize) -> &'g [Step]
        ensures { result.now ≡ steps_at self.now number }
    {
        steps_of(self.steps.as_slice(), number)
    }

    /// The steps of an alternative of a repetition, the number of whose first production is given.
    pub(crate) fn alternative(&self, first: usize, alternative: u32) -> &'g [Step]
        ensures { result.now ≡ steps_at self.now (first + alternative) }
    {
        steps_past(self.steps.as_slice(), first, alternative as usize)
    }

    /// The number of the first production of a symbol.
    pub(crate) fn first(&self, symbol: Symbol) -> usize
        ensures { result ≡ first_production self.now symbol.0 }
    {
        let rule = (symbol.0 as usize)
            .saturating_sub(self.grammar.tokens.len())
            .saturating_sub(1);
        first_of(self.firsts.as_slice(), rule, self.steps.as_slice().len())
    }
}

/// The steps at a number, and none past the last.
fn steps_of<'g>(steps: &[&'g [Step]], number: usize) -> &'g [Step]
    ensures { result.now ≡ get_or (map (λ s. s.now) steps.now) number [] }
{
    if number < steps.len() {
        steps[number]
    } else {
        &[]
    }
}

/// The steps at so many numbers past another, and none past the last.
fn steps_past<'g>(steps: &[&'g [Step]], first: usize, past: usize) -> &'g [Step]
    ensures { result.now ≡ get_or (map (λ s. s.now) steps.now) (first + past) [] }
{
    if past < steps.len().saturating_sub(first) {
        steps[first + past]
    } else {
        &[]
    }
}

/// The number at a rule's place, and the number of all productions past the last rule.
fn first_of(firsts: &[usize], rule: usize, all: usize) -> usize
    ensures { result ≡ get_or firsts.now rule all }
{
    if rule < firsts.len() {
        firsts[rule]
    } else {
        all
    }
}

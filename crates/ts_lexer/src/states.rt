//! The valid tokens of the states of a table: the table goes in, and for each state the number of
//! its list of tokens comes out.
ghost use Rattle.std.specs.Prelude.{◌↔◌, ◌+◌, length, IfOk, OnOk, IsTrue};
ghost use Rattle.ts_lexer.specs.Ahead.{contents_of, IsNumbered};
ghost use Rattle.ts_lexer.specs.States.{AreActing, AreValid, GainsActing, HasAction, HaveLists};

use indexmap::IndexSet;
use std::alloc::{AllocError, Global};
use ts_core::Symbol;
use ts_table::Table;

/// The lists of valid tokens of all states, each once, and the number of each state's list.
#[derive(Drop)]
pub(crate) struct StateLists {
    pub lists: IndexSet<Vec<Symbol>>,
    pub numbers: Vec<usize>,
}

/// Whether a state does something on a token.
fn acts(table: &Table, state: u16, token: Symbol) -> bool
    ensures { IsTrue result ↔ HasAction table.now state token.0 }
{
    !table.actions(state, token).is_empty()
}

/// Adds a token on which a state does something.
fn push_acting(
    valid: &mut Vec<Symbol>,
    table: &Table,
    state: u16,
    token: Symbol,
) -> Result<(), AllocError>
    ensures { OnOk result (GainsActing table.now state token valid.old.items valid.new.items) }
{
    if !acts(table, state, token) {
        return Ok(());
    }
    valid.push(token)?;
    Ok(())
}

/// The tokens, and the end, on which a state does something.
fn acting(alloc: Global, table: &Table, state: u16) -> Result<Vec<Symbol>, AllocError>
    ensures { IfOk result
        (λ valid. AreActing table.now state valid.items (length table.now.grammar.tokens + 1)) }
{
    table.stands();
    let mut valid: Vec<Symbol> = Vec::new(alloc);
    let grammar = table.grammar();
    let tokens = grammar.tokens.len().min(65_534);
    let count = tokens as u16 + 1;
    for number in 0..count {
        push_acting(&mut valid, table, state, Symbol(number))?;
    }
    Ok(valid)
}

/// The valid tokens of a state: those on which it acts, the end among them, and all extras.
fn valid_tokens(alloc: Global, table: &Table, state: u16) -> Result<Vec<Symbol>, AllocError>
    ensures { IfOk result (λ valid. AreValid table.now state valid.items) }
{
    let mut valid = acting(alloc, table, state)?;
    let grammar = table.grammar();
    let extras = grammar.extras.as_slice();
    for extra in extras {
        valid.push(*extra)?;
    }
    Ok(valid)
}

/// The number of a list, which is added at the end where it is new.
fn number_of(lists: &mut IndexSet<Vec<Symbol>>, list: Vec<Symbol>) -> Result<usize, AllocError>
    ensures { IfOk result
        (λ n. IsNumbered (contents_of lists.old.keys) (contents_of lists.new.keys) list.items n) }
{
    let (number, _) = lists.insert_full(list)?;
    Ok(number)
}

/// The lists of valid tokens of all states.
pub(crate) fn lists_of(alloc: Global, table: &Table) -> Result<StateLists, AllocError>
    ensures { IfOk result
        (λ s. HaveLists table.now (contents_of s.lists.keys) s.numbers.items) }
{
    table.stands();
    let mut lists = IndexSet::new(alloc);
    let mut numbers: Vec<usize> = Vec::new(alloc);
    for state in 0..table.states() {
        let valid = valid_tokens(alloc, table, state as u16)?;
        let number = number_of(&mut lists, valid)?;
        numbers.push(number)?;
    }
    Ok(StateLists { lists, numbers })
}

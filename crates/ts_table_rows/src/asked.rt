//! A table and a question in; the actions that the table has there out.
use crate::fault::RowFault;
use crate::row::push_actions;
use std::alloc::{AllocError, Global};
use ts_core::{Action, Symbol};
use ts_table::Table;

/// Puts the actions behind an answer. A question is `7 1 7 on 1`: the symbols that were read from
/// the beginning, and the token that comes next.
pub(crate) fn push_asked(
    answer: &mut String,
    alloc: Global,
    table: &Table,
    question: &str,
) -> Result<(), RowFault> {
    let Some((symbols, token)) = question.split_once("on ") else {
        return Err(RowFault::Question);
    };
    let token = symbol(token)?;
    let actions = match state_after(table, symbols)? {
        Some(state) => actions(alloc, table.actions(state, token))?,
        None => String::from_str(alloc, "no state")?,
    };
    push_actions(answer, question, actions.as_str())?;
    Ok(())
}

fn symbol(word: &str) -> Result<Symbol, RowFault> {
    match word.parse() {
        Ok(number) => Ok(Symbol(number)),
        Err(_) => Err(RowFault::Question),
    }
}

/// The state after these symbols, if the table leads to one.
fn state_after(table: &Table, symbols: &str) -> Result<Option<u16>, RowFault> {
    let mut state = 0;
    for word in symbols.split_whitespace() {
        match table.goto(state, symbol(word)?) {
            Some(next) => state = next,
            None => return Ok(None),
        }
    }
    Ok(Some(state))
}

/// The actions in one line. What a shift leads to is not told, since any numbering will do.
fn actions(alloc: Global, actions: &[Action]) -> Result<String, AllocError> {
    let mut line = String::new(alloc);
    for action in actions {
        if !line.is_empty() {
            line.push_str(" or ")?;
        }
        match action {
            Action::Shift(_) => line.push_str("shift")?,
            Action::Reduce(number) => {
                let reduction = format!(in alloc; "reduce {number}")?;
                line.push_str(reduction.as_str())?;
            }
            Action::Accept => line.push_str("accept")?,
        }
    }
    if line.is_empty() {
        line.push_str("nothing")?;
    }
    Ok(line)
}

//! The bytes of a language file in; out comes, in one line, why there is no table of it, or how
//! many states the table has and its actions that a row asks for.
ghost use Rattle.spec_tables.specs.Fit.{Fit};
ghost use Rattle.ts_items.specs.Collection.{StandsFor};

use crate::asked::push_asked;
use crate::fault::RowFault;
use crate::row::Row;
use std::alloc::{AllocError, Global};
use ts_core::{FlatGrammar, List, Symbol};
use ts_items::{ItemFault, Items, collection};
use ts_langfile::{LangFault, fields, read, write};
use ts_table::{Table, TableFault, resolve};

/// The most bytes that a language file of a row has: 64 MiB.
const MOST_BYTES: usize = 67_108_864;

/// The answer to a file.
pub(crate) fn answer_of(alloc: Global, bytes: &[u8], row: &Row) -> Result<String, RowFault> {
    if bytes.len() > MOST_BYTES {
        return Err(RowFault::Large);
    }
    match read(alloc, bytes) {
        Ok(grammar) => grammar_answer(alloc, bytes, grammar, row),
        Err(fault) => file_fault(alloc, fault),
    }
}

/// The answer to a file that has no grammar.
fn file_fault(alloc: Global, fault: LangFault) -> Result<String, RowFault> {
    if fault == LangFault::Memory {
        return Err(RowFault::Memory);
    }
    Ok(format!(in alloc; "{fault:?}")?)
}

/// The answer to a file with its grammar.
fn grammar_answer(
    alloc: Global,
    bytes: &[u8],
    grammar: FlatGrammar,
    row: &Row,
) -> Result<String, RowFault>
    requires { Fit grammar }
{
    if !is_kept(alloc, bytes, &grammar)? {
        return Err(RowFault::Written);
    }
    match collection(alloc, &grammar) {
        Ok(items) => items_answer(alloc, grammar, &items, row),
        Err(fault) => items_fault(alloc, fault),
    }
}

/// The answer to a grammar that has no sets of items.
fn items_fault(alloc: Global, fault: ItemFault) -> Result<String, RowFault> {
    if fault == ItemFault::Memory {
        return Err(RowFault::Memory);
    }
    Ok(format!(in alloc; "{fault:?}")?)
}

/// The answer to a grammar with its sets of items.
fn items_answer(
    alloc: Global,
    grammar: FlatGrammar,
    items: &Items,
    row: &Row,
) -> Result<String, RowFault>
    requires fit { Fit grammar }
    requires items { StandsFor grammar items.now }
{
    match resolve(alloc, grammar, items) {
        Ok(table) => table_answer(alloc, &table, row),
        Err(fault) => table_fault(alloc, &fault),
    }
}

/// The answer to a grammar that has no table.
fn table_fault(alloc: Global, fault: &TableFault) -> Result<String, RowFault> {
    match fault {
        TableFault::Memory => Err(RowFault::Memory),
        TableFault::Conflict {
            grammar,
            token,
            rules,
        } => { Ok(conflict(alloc, grammar, *token, rules)?) }
    }
}

/// Whether what is written of a file's grammar is written again as it is, and is the file itself
/// where that is of the version that is written.
fn is_kept(alloc: Global, bytes: &[u8], grammar: &FlatGrammar) -> Result<bool, RowFault> {
    let written = write(alloc, grammar)?;
    if bytes.starts_with(b"TSLF\0\x02") && written.as_slice() != bytes {
        return Ok(false);
    }
    is_read_again(alloc, written.as_slice())
}

/// Whether a file is read, and is what is written of its grammar.
fn is_read_again(alloc: Global, file: &[u8]) -> Result<bool, RowFault> {
    if file.len() > MOST_BYTES {
        return Err(RowFault::Large);
    }
    match fields(alloc, file) {
        Ok(grammar) => {
            let written = write(alloc, &grammar)?;
            Ok(written.as_slice() == file)
        }
        Err(LangFault::Memory) => Err(RowFault::Memory),
        Err(_) => Ok(false),
    }
}

fn table_answer(alloc: Global, table: &Table, row: &Row) -> Result<String, RowFault> {
    let mut answer = format!(in alloc; "{} states", table.states())?;
    for question in row.actions.keys() {
        push_asked(&mut answer, alloc, table, question.as_str())?;
    }
    Ok(answer)
}

/// A conflict with the names of its token and its rules.
fn conflict(
    alloc: Global,
    grammar: &FlatGrammar,
    token: Symbol,
    rules: &List<Symbol>,
) -> Result<String, AllocError> {
    let mut answer = String::from_str(alloc, "conflict on ")?;
    answer.push_str(name(grammar, token))?;
    answer.push_str(" of")?;
    for rule in rules.as_slice() {
        answer.push_str(" ")?;
        answer.push_str(name(grammar, *rule))?;
    }
    Ok(answer)
}

/// The name of a symbol.
fn name(grammar: &FlatGrammar, symbol: Symbol) -> &str {
    let tokens = grammar.tokens.as_slice();
    let number = usize::from(symbol.0);
    if number == 0 {
        return "end";
    }
    if number <= tokens.len() {
        return tokens[number - 1].name.text();
    }
    match grammar.rules.as_slice().get(number - 1 - tokens.len()) {
        Some(rule) => rule.name.text(),
        None => "?",
    }
}

//! The front of the program: what comes in are the bytes of a grammar file or of a language file,
//! and what goes out is the grammar in normal form that they stand for, and its parse table, or the
//! first fault.
#![tactic(auto)]

mod compile;
mod fault;
mod fault_lines;
mod grammar;
mod laws;
mod lines;
mod symbols;
mod table_fault;
mod tables;

pub use compile::{Uncompiled, language_file, table_in};
pub use fault::GrammarFault;
pub use grammar::{MOST_GRAMMAR_BYTES, read_grammar};
pub use laws::{
    compiled_again, forms_are_fit, one_answer, one_compilation, one_table_fault,
    read_grammars_are_file_grammars, written_forms_are_read,
};
pub use table_fault::NoTable;
pub use tables::table_of;

//! The bytes of a grammar file or of a language file in; its parse table, or the bytes of its
//! language file, out, or the line that says why there is none.
ghost use Rattle.std.specs.Prelude.{◌≡◌, ◌<◌, ◌^◌, Option, length, option_map, string_bytes, IfOk, IfErr};
ghost use Rattle.spec_tables.specs.Fit.{Fit};
ghost use Rattle.ts_base.specs.Bytes.{Bytes};
ghost use Rattle.ts_front.specs.Compiled.{IsCompiled, IsUncompiled, LineOf};
ghost use Rattle.ts_core.specs.declared.flat.FlatGrammar.{FlatGrammar as AnyForm};
ghost use Rattle.ts_front.specs.Grammars.{IsFormOf};
ghost use Rattle.ts_front.specs.Nesting.{AreShallow};
ghost use Rattle.ts_front.specs.Tables.{HasTable};

use crate::grammar::read_grammar;
use crate::laws::compiled_again;
use crate::tables::table_of;
use std::alloc::{AllocError, Global};
use thiserror::Error;
use ts_core::FlatGrammar;
use ts_table::Table;

/// Why a file is not compiled.
#[derive(Debug, Error, Drop)]
pub enum Uncompiled {
    /// It stands for no grammar, or its grammar has no parse table; with the line that says so.
    #[error("the grammar is refused")]
    Refused(String),
    /// Memory ran out.
    #[error("out of memory")]
    Memory,
}

impl From<AllocError> for Uncompiled {
    ghost use Rattle.std.specs.Prelude.{◌≡◌};
    ghost use Rattle.ts_front.specs.declared.compile.Uncompiled.TheVariants.{Memory};

    ghost from_gives = { λ _ e. e ≡ Memory };

    fn from(_: AllocError) -> Uncompiled {
        Uncompiled::Memory
    }
}

/// The refusal with a line, where there is one.
fn refusal(line: Option<String>) -> Uncompiled
    ensures { (w : Bytes) → LineOf w (option_map string_bytes line) → IsUncompiled w result }
{
    match line {
        Some(line) => Uncompiled::Refused(line),
        None => Uncompiled::Memory,
    }
}

/// The parse table of a grammar for which a file stands.
fn table_by(alloc: Global, bytes: &[u8], grammar: FlatGrammar) -> Result<Table, Uncompiled>
    requires fit { Fit grammar }
    requires form { IsFormOf bytes.now grammar }
    ensures form { IfOk result (λ table. IsFormOf bytes.now table.grammar) }
    ensures has { IfOk result (λ table. HasTable table.grammar) }
    ensures refused { IfErr result (IsUncompiled bytes.now) }
{
    match table_of(alloc, grammar) {
        Ok(table) => Ok(table),
        Err(fault) => Err(refusal(fault.line(alloc)?)),
    }
}

/// The parse table of GRAMMAR, which is a grammar file or a language file.
///
/// # Errors
///
/// `Refused` where the file stands for no grammar, with the line of its first fault, or where its
/// grammar has no parse table. `Memory` may come at any time.
pub fn table_in(alloc: Global, bytes: &[u8]) -> Result<Table, Uncompiled>
    requires { length bytes.now < 2 ^ 32 }
    ensures form { IfOk result (λ table. IsFormOf bytes.now table.grammar) }
    ensures has { IfOk result (λ table. HasTable table.grammar) }
    ensures refused { IfErr result (IsUncompiled bytes.now) }
{
    match read_grammar(alloc, bytes) {
        Ok(grammar) => table_by(alloc, bytes, grammar),
        Err(fault) => Err(refusal(fault.line(alloc)?)),
    }
}

/// Compiles GRAMMAR: its tables are made and dropped, and its language file is written, which is
/// compiled to itself, unless an expression nests deeper than those of a language file.
///
/// # Errors
///
/// Those of `table_in`.
pub fn language_file(alloc: Global, bytes: &[u8]) -> Result<Vec<u8>, Uncompiled>
    requires { length bytes.now < 2 ^ 32 }
    ensures compiled { IfOk result (λ v. IsCompiled bytes.now v.items) }
    ensures again { IfOk result (λ v. (f : AnyForm) → IsFormOf bytes.now f → AreShallow f
        → IsCompiled v.items v.items) }
    ensures refused { IfErr result (IsUncompiled bytes.now) }
{
    compiled_again();
    let table = table_in(alloc, bytes)?;
    let file = ts_langfile::write(alloc, table.grammar())?;
    Ok(file)
}

//! The bytes of a grammar file or of a language file in; the grammar in normal form that they stand
//! for out, or the first fault.
ghost use Rattle.std.specs.Prelude.{◌≡◌, ◌≢◌, ◌<◌, ◌^◌, ◌⊎◌, length, nat_eq, true, false, Ok, Err, IfOk, IfErr};
ghost use Rattle.std.specs.List.{starts_with};
ghost use Rattle.spec_tables.specs.Fit.{Fit};
ghost use Rattle.ts_core.specs.declared.flat.FlatGrammar.{FlatGrammar as AnyForm};
ghost use Rattle.ts_front.specs.Grammars.{IsFormOf, IsGrammarFile, IsLanguageFile, IsRefusedFile, IsSmallFile};
ghost use Rattle.ts_front.specs.declared.fault.GrammarFault.{GrammarFault as AnyFault};
ghost use Rattle.ts_front.specs.declared.fault.GrammarFault.TheVariants.{Memory};
ghost use Rattle.ts_langfile.specs.Spelling.{magic};

use crate::fault::GrammarFault;
use crate::laws::{one_answer, read_grammars_are_file_grammars};
use std::alloc::Global;
use ts_core::{FlatGrammar, Grammar};

/// The most bytes that a grammar file has: 4 MiB.
pub const MOST_GRAMMAR_BYTES: usize = 4_194_304;

/// Reads GRAMMAR: a language file where the bytes begin with `TSLF`, and a grammar file as
/// Tree-sitter's `grammar.json` else.
///
/// # Errors
///
/// The first fault, as `GrammarFault` says: of a grammar file its size, then its JSON, its form and
/// its normal form; of a language file its fields, then its fitness. `Memory` may come at any time.
pub fn read_grammar(alloc: Global, bytes: &[u8]) -> Result<FlatGrammar, GrammarFault>
    requires { length bytes.now < 2 ^ 32 }
    ensures ok { IfOk result (IsFormOf bytes.now) }
    ensures fit { IfOk result Fit }
    ensures refused { IfErr result (λ e. (e ≡ Memory) ⊎ IsRefusedFile bytes.now e) }
    ensures complete { (f : AnyForm) → IsFormOf bytes.now f
        → (result ≡ Ok f) ⊎ (result ≡ Err Memory) }
    ensures exact { (e : AnyFault) → IsRefusedFile bytes.now e
        → (result ≡ Err e) ⊎ (result ≡ Err Memory) }
{
    one_answer();
    form_of(alloc, bytes)
}

/// The same, by the kind of the file.
fn form_of(alloc: Global, bytes: &[u8]) -> Result<FlatGrammar, GrammarFault>
    requires { length bytes.now < 2 ^ 32 }
    ensures ok { IfOk result (IsFormOf bytes.now) }
    ensures fit { IfOk result Fit }
    ensures refused { IfErr result (λ e. (e ≡ Memory) ⊎ IsRefusedFile bytes.now e) }
{
    if bytes.starts_with(b"TSLF") {
        return language_form(alloc, bytes);
    }
    let grammar = file_grammar(alloc, bytes)?;
    normal_form(alloc, bytes, &grammar)
}

/// The grammar of a grammar file, not yet in normal form.
fn file_grammar(alloc: Global, bytes: &[u8]) -> Result<Grammar, GrammarFault>
    requires { starts_with nat_eq bytes.now magic ≡ false }
    ensures ok { IfOk result (IsGrammarFile bytes.now) }
    ensures refused { IfErr result (λ e. (e ≡ Memory) ⊎ IsRefusedFile bytes.now e) }
{
    if bytes.len() > MOST_GRAMMAR_BYTES {
        return Err(GrammarFault::Large);
    }
    let value = ts_ojson::read(alloc, bytes)?;
    Ok(ts_grammar_json::grammar(alloc, &value)?)
}

/// The normal form of the grammar of a grammar file.
fn normal_form(alloc: Global, bytes: &[u8], grammar: &Grammar) -> Result<FlatGrammar, GrammarFault>
    requires short { length bytes.now < 2 ^ 32 }
    requires file { IsGrammarFile bytes.now grammar.now }
    ensures ok { IfOk result (IsFormOf bytes.now) }
    ensures fit { IfOk result Fit }
    ensures refused { IfErr result (λ e. (e ≡ Memory) ⊎ IsRefusedFile bytes.now e) }
{
    read_grammars_are_file_grammars();
    Ok(ts_normalise::flatten(alloc, grammar)?)
}

/// The grammar of a language file.
fn language_form(alloc: Global, bytes: &[u8]) -> Result<FlatGrammar, GrammarFault>
    requires short { length bytes.now < 2 ^ 32 }
    requires begins { IsLanguageFile bytes.now }
    ensures ok { IfOk result (IsFormOf bytes.now) }
    ensures fit { IfOk result Fit }
    ensures refused { IfErr result (λ e. (e ≡ Memory) ⊎ IsRefusedFile bytes.now e) }
{
    let grammar = ts_langfile::fields(alloc, bytes)?;
    match ts_fit::misfit(alloc, &grammar)? {
        Some(cause) => Err(GrammarFault::Misfit { grammar, cause }),
        None => Ok(grammar),
    }
}

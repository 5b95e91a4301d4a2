//! Faults of a grammar in; the lines that the program prints of them out.
ghost use Rattle.std.specs.Prelude.{◌≡◌, IfOk, Some, None, option_map, Option, string_bytes, map, codes};
ghost use Rattle.serde_json.specs.Data.{object, member, no_members, string};
ghost use Rattle.serde_json.specs.View.{view, items_view, items_of};
ghost use Rattle.spec_grammar.specs.Symbols.{node_name};
ghost use Rattle.spec_output.specs.Faults.{with_fault, with_status};
ghost use Rattle.spec_output.specs.declared.status.Status.TheVariants.{Grammar};
ghost use Rattle.ts_core.specs.declared.symbol.Symbol.{Symbol as AnySymbol};
ghost use Rattle.spec_output.specs.GrammarFaults.{limit_line, json_line, form_line, normal_line, pattern_line, language_line, misfit_line, conflict_line};
ghost use Rattle.spec_output.specs.Limits.{limit_name};
ghost use Rattle.spec_output.specs.Lines.{text_list};
ghost use Rattle.ts_front.specs.FaultLines.{grammar_fault_line, no_table_line};

use crate::fault::GrammarFault;
use crate::lines::{GRAMMAR, line, name, pattern, place, word};
use crate::symbols::{owner, symbol_name};
use crate::table_fault::NoTable;
use serde_json::{Value, json};
use std::alloc::{AllocError, Global};
use ts_core::{FlatGrammar, Limited, Symbol, Unfit};
use ts_grammar_json::GFault;
use ts_langfile::LangFault;
use ts_normalise::NFault;
use ts_ojson::OFault;
use ts_pattern::PFault;

/// The name under which a limit is told.
fn limit_text(limited: Limited) -> &'static str
    ensures { result.now ≡ limit_name limited }
{
    match limited {
        Limited::File => "file",
        Limited::Rules => "rules",
        Limited::Symbols => "symbols",
        Limited::Productions => "productions",
        Limited::Steps => "steps",
        Limited::Positions => "positions",
        Limited::Fields => "fields",
    }
}

fn limit(alloc: Global, limited: Limited) -> Result<String, AllocError>
    ensures { IfOk result (λ s. string_bytes s ≡ limit_line limited) }
{
    name(alloc, "limit", limit_text(limited))
}

/// The line of a fault of JSON. Running out of memory has none, here and below.
fn json_fault(alloc: Global, fault: &OFault) -> Result<Option<String>, AllocError>
    ensures { IfOk result (λ s. option_map string_bytes s ≡ json_line fault.now) }
{
    match fault {
        OFault::Syntax(at) => Ok(Some(place(alloc, "syntax", *at)?)),
        OFault::Utf8(at) => Ok(Some(place(alloc, "utf8", *at)?)),
        OFault::Deep(at) => Ok(Some(place(alloc, "deep", *at)?)),
        OFault::Duplicate(at) => Ok(Some(place(alloc, "duplicate", *at)?)),
        OFault::Memory => Ok(None),
    }
}

/// The line of a JSON value that is no grammar.
fn form(alloc: Global, fault: &GFault) -> Result<Option<String>, AllocError>
    ensures { IfOk result (λ s. option_map string_bytes s ≡ form_line fault.now) }
{
    match fault {
        GFault::Missing(pointer) => Ok(Some(name(alloc, "missing", pointer.text())?)),
        GFault::Wrong(pointer) => Ok(Some(name(alloc, "wrong", pointer.text())?)),
        GFault::UnknownType(pointer) => Ok(Some(name(alloc, "unknown type", pointer.text())?)),
        GFault::External => Ok(Some(word(alloc, "external")?)),
        GFault::Reserved => Ok(Some(word(alloc, "reserved")?)),
        GFault::Limit(limited) => Ok(Some(limit(alloc, *limited)?)),
        GFault::Memory => Ok(None),
    }
}

/// The line of a pattern that is not read.
fn unread_pattern(alloc: Global, rule: &str, fault: &PFault) -> Result<Option<String>, AllocError>
    ensures { IfOk result (λ s. option_map string_bytes s ≡ pattern_line rule.now fault.now) }
{
    match fault {
        PFault::Syntax(at) => Ok(Some(pattern(alloc, "pattern syntax", *at, rule)?)),
        PFault::Unsupported(at) => Ok(Some(pattern(alloc, "pattern unsupported", *at, rule)?)),
        PFault::EmptyClass(at) => Ok(Some(pattern(alloc, "pattern empty class", *at, rule)?)),
        PFault::UnknownProperty(at) => Ok(Some(pattern(alloc, "pattern property", *at, rule)?)),
        PFault::Limit(most) => Ok(Some(pattern(alloc, "pattern limit", *most, rule)?)),
        PFault::Memory => Ok(None),
    }
}

/// The line of a grammar that has no normal form.
fn normal(alloc: Global, fault: &NFault) -> Result<Option<String>, AllocError>
    ensures { IfOk result (λ s. option_map string_bytes s ≡ normal_line fault.now) }
{
    match fault {
        NFault::Undefined(at) => Ok(Some(name(alloc, "undefined", at.text())?)),
        NFault::EmptyRule(at) => Ok(Some(name(alloc, "empty rule", at.text())?)),
        NFault::EmptyToken(at) => Ok(Some(name(alloc, "empty token", at.text())?)),
        NFault::BadInline(at) => Ok(Some(name(alloc, "bad inline", at.text())?)),
        NFault::SymbolInToken(at) => Ok(Some(name(alloc, "symbol in token", at.text())?)),
        NFault::Cyclic(at) => Ok(Some(name(alloc, "cyclic", at.text())?)),
        NFault::NonTerminalExtra(at) => Ok(Some(name(alloc, "extra", at.text())?)),
        NFault::Limit(limited) => Ok(Some(limit(alloc, *limited)?)),
        NFault::BadWord(at) => Ok(Some(name(alloc, "bad word", at.text())?)),
        NFault::Pattern(rule, cause) => unread_pattern(alloc, rule.text(), cause),
        NFault::Memory => Ok(None),
    }
}

/// The line of a language file that is not read. One that is no language file has none.
fn language(alloc: Global, fault: &LangFault) -> Result<Option<String>, AllocError>
    ensures { IfOk result (λ s. option_map string_bytes s ≡ language_line fault.now) }
{
    match fault {
        LangFault::Version(version) => Ok(Some(place(alloc, "version", u32::from(*version))?)),
        LangFault::Short(at) => Ok(Some(place(alloc, "short", *at)?)),
        LangFault::Long(at) => Ok(Some(place(alloc, "long", *at)?)),
        LangFault::Field(at) => Ok(Some(place(alloc, "field", *at)?)),
        LangFault::Magic | LangFault::Misfit(_) | LangFault::Memory => Ok(None),
    }
}

/// The line of a grammar that is not fit, as if it were that of a grammar file.
fn misfit(alloc: Global, grammar: &FlatGrammar, cause: Unfit) -> Result<String, AllocError>
    ensures { IfOk result (λ s. string_bytes s ≡ misfit_line grammar.now cause) }
{
    match cause {
        Unfit::Repetition(at) => name(alloc, "bad repetition", symbol_name(grammar, at)),
        Unfit::EmptyRule(at) => name(alloc, "empty rule", symbol_name(grammar, at)),
        Unfit::EmptyToken(at) => name(alloc, "empty token", symbol_name(grammar, at)),
        Unfit::Cyclic(at) => name(alloc, "cyclic", symbol_name(grammar, owner(grammar, at))),
        Unfit::Positions => limit(alloc, Limited::Positions),
    }
}

/// The line of a conflict that is not declared, with the names of its rules and of its token.
fn conflict(
    alloc: Global,
    grammar: &FlatGrammar,
    token: Symbol,
    rules: &[Symbol],
) -> Result<String, AllocError>
    ensures { IfOk result (λ s. string_bytes s ≡ conflict_line grammar.now token rules.now) }
{
    let names = name_list(alloc, grammar, rules)?;
    let token = symbol_name(grammar, token);
    line(alloc, conflict_value(alloc, names, token)?)
}

/// The array of the names of rules.
fn name_list(alloc: Global, grammar: &FlatGrammar, rules: &[Symbol]) -> Result<Value, AllocError>
    ensures { IfOk result (λ v. view v ≡ text_list
        (map (λ (rule : AnySymbol). node_name grammar.now rule.0) rules.now)) }
{
    Ok(Value::Array(name_values(alloc, grammar, rules)?))
}

/// The object of a conflict, by the array of its rules' names.
fn conflict_value(alloc: Global, names: Value, token: &str) -> Result<Value, AllocError>
    ensures { IfOk result (λ v. view v ≡ object (with_fault (codes "conflict")
        (member (codes "rules") (view names)
        (with_status Grammar (member (codes "token") (string token.now) no_members))))) }
{
    json!(in alloc; {"fault": "conflict", "rules": names, "status": GRAMMAR, "token": token})
}

fn name_values(
    alloc: Global,
    grammar: &FlatGrammar,
    rules: &[Symbol],
) -> Result<Vec<Value>, AllocError>
    ensures { IfOk result (λ v. items_view v.items ≡ items_of (map string
        (map (λ (rule : AnySymbol). node_name grammar.now rule.0) rules.now))) }
{
    let mut values = Vec::new(alloc);
    for rule in rules {
        values.push(Value::try_from_str(alloc, symbol_name(grammar, *rule))?)?;
    }
    Ok(values)
}

impl GrammarFault {
    /// The line that the program prints, and none for running out of memory.
    pub fn line(&self, alloc: Global) -> Result<Option<String>, AllocError>
        ensures { IfOk result (λ s. option_map string_bytes s ≡ grammar_fault_line self.now) }
    {
        match self {
            GrammarFault::Large => Ok(Some(limit(alloc, Limited::File)?)),
            GrammarFault::Json(cause) => json_fault(alloc, cause),
            GrammarFault::Form(cause) => form(alloc, cause),
            GrammarFault::Normal(cause) => normal(alloc, cause),
            GrammarFault::Language(cause) => language(alloc, cause),
            GrammarFault::Misfit { grammar, cause } => Ok(Some(misfit(alloc, grammar, *cause)?)),
            GrammarFault::Memory => Ok(None),
        }
    }
}

impl NoTable {
    /// The line that the program prints, and none for running out of memory.
    pub fn line(&self, alloc: Global) -> Result<Option<String>, AllocError>
        ensures { IfOk result (λ s. option_map string_bytes s ≡ no_table_line self.now) }
    {
        match self {
            NoTable::TooManyStates(states) => Ok(Some(place(alloc, "states", *states)?)),
            NoTable::Conflict {
                grammar,
                token,
                rules,
            } => Ok(Some(conflict(alloc, grammar, *token, rules.as_slice())?)),
            NoTable::Memory => Ok(None),
        }
    }
}

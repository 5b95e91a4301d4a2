//! Writing: from a grammar in normal form to the bytes of its file.

ghost use Rattle.std.specs.Prelude.{◌≡◌, ◌++◌, OnOk, IfOk};
ghost use Rattle.std.specs.List.{flat_map};
ghost use Rattle.ts_langfile.specs.Spelling as spelled;

use std::alloc::{AllocError, Global};
use ts_core::{
    Alias, Assoc, Entry, FlatGrammar, FlatRule, Kind, List, Prec, Production, Re, Step, Str,
    Symbol, TokenDef,
};

/// A length as four bytes.
fn put_length(out: &mut Vec<u8>, length: usize) -> Result<(), AllocError>
    ensures { OnOk result (out.new.items ≡ out.old.items ++ spelled.number32 length) }
{
    let [_, _, _, _, first, second, third, fourth] = length.to_be_bytes();
    out.extend_from_slice(&[first, second, third, fourth])?;
    Ok(())
}

fn put_flag(out: &mut Vec<u8>, flag: bool) -> Result<(), AllocError>
    ensures { OnOk result (out.new.items ≡ out.old.items ++ spelled.flag flag) }
{
    match flag {
        false => out.push(0)?,
        true => out.push(1)?,
    }
    Ok(())
}

fn put_text(out: &mut Vec<u8>, text: &Str) -> Result<(), AllocError>
    ensures { OnOk result (out.new.items ≡ out.old.items ++ spelled.text text.now) }
{
    put_length(out, text.len())?;
    out.extend_from_slice(text.text().as_bytes())?;
    Ok(())
}

fn put_texts(out: &mut Vec<u8>, texts: &List<Str>) -> Result<(), AllocError>
    ensures { OnOk result (out.new.items ≡ out.old.items ++ spelled.listed spelled.text texts.now) }
{
    put_length(out, texts.len())?;
    for text in texts.as_slice() {
        put_text(out, text)?;
    }
    Ok(())
}

fn put_symbol(out: &mut Vec<u8>, symbol: Symbol) -> Result<(), AllocError>
    ensures { OnOk result (out.new.items ≡ out.old.items ++ spelled.symbol symbol) }
{
    out.extend_from_slice(&symbol.0.to_be_bytes())?;
    Ok(())
}

fn put_symbols(out: &mut Vec<u8>, symbols: &List<Symbol>) -> Result<(), AllocError>
    ensures { OnOk result (out.new.items
        ≡ out.old.items ++ spelled.listed spelled.symbol symbols.now) }
{
    put_length(out, symbols.len())?;
    for symbol in symbols.as_slice() {
        put_symbol(out, *symbol)?;
    }
    Ok(())
}

fn put_sets(out: &mut Vec<u8>, sets: &List<List<Symbol>>) -> Result<(), AllocError>
    ensures { OnOk result (out.new.items
        ≡ out.old.items ++ spelled.listed (spelled.listed spelled.symbol) sets.now) }
{
    put_length(out, sets.len())?;
    for set in sets.as_slice() {
        put_symbols(out, set)?;
    }
    Ok(())
}

fn put_entry(out: &mut Vec<u8>, entry: &Entry) -> Result<(), AllocError>
    ensures { OnOk result (out.new.items ≡ out.old.items ++ spelled.entry entry.now) }
{
    match entry {
        Entry::Name(name) => {
            out.push(0)?;
            out.extend_from_slice(&name.to_be_bytes())?;
        }
        Entry::Rule(symbol) => {
            out.push(1)?;
            put_symbol(out, *symbol)?;
        }
    }
    Ok(())
}

fn put_ordering(out: &mut Vec<u8>, entries: &List<Entry>) -> Result<(), AllocError>
    ensures { OnOk result (out.new.items
        ≡ out.old.items ++ spelled.listed spelled.entry entries.now) }
{
    put_length(out, entries.len())?;
    for entry in entries.as_slice() {
        put_entry(out, entry)?;
    }
    Ok(())
}

fn put_orderings(out: &mut Vec<u8>, orderings: &List<List<Entry>>) -> Result<(), AllocError>
    ensures { OnOk result (out.new.items
        ≡ out.old.items ++ spelled.listed (spelled.listed spelled.entry) orderings.now) }
{
    put_length(out, orderings.len())?;
    for entries in orderings.as_slice() {
        put_ordering(out, entries)?;
    }
    Ok(())
}

fn put_kind(out: &mut Vec<u8>, kind: Kind) -> Result<(), AllocError>
    ensures { OnOk result (out.new.items ≡ out.old.items ++ spelled.kind kind) }
{
    match kind {
        Kind::Named => out.push(0)?,
        Kind::Anonymous => out.push(1)?,
        Kind::Hidden => out.push(2)?,
    }
    Ok(())
}

fn put_ranges(out: &mut Vec<u8>, ranges: &List<(u32, u32)>) -> Result<(), AllocError>
    ensures { OnOk result (out.new.items
        ≡ out.old.items ++ spelled.listed spelled.range ranges.now) }
{
    put_length(out, ranges.len())?;
    for (low, high) in ranges.as_slice() {
        out.extend_from_slice(&low.to_be_bytes())?;
        out.extend_from_slice(&high.to_be_bytes())?;
    }
    Ok(())
}

fn put_most(out: &mut Vec<u8>, most: Option<u32>) -> Result<(), AllocError>
    ensures { OnOk result (out.new.items
        ≡ out.old.items ++ spelled.optional spelled.number32 most) }
{
    match most {
        None => out.push(0)?,
        Some(most) => {
            out.push(1)?;
            out.extend_from_slice(&most.to_be_bytes())?;
        }
    }
    Ok(())
}

#[cycle(put_re)]
#[tactic(auto, using(crate::proofs::ReLemmas::spelled_empty, crate::proofs::ReLemmas::spelled_set))]
fn put_re(out: &mut Vec<u8>, re: &Re) -> Result<(), AllocError>
    ensures { OnOk result (out.new.items ≡ out.old.items ++ spelled.re re.now) }
{
    match re {
        Re::Empty => out.push(0)?,
        Re::Set(ranges) => {
            out.push(1)?;
            put_ranges(out, ranges)?;
        }
        Re::Cat(parts) => {
            out.push(2)?;
            put_parts(out, parts.as_slice())?;
        }
        Re::Alt(parts) => {
            out.push(3)?;
            put_parts(out, parts.as_slice())?;
        }
        Re::Repeat(inner, least, most) => {
            out.push(4)?;
            put_re(out, inner.get())?;
            out.extend_from_slice(&least.to_be_bytes())?;
            put_most(out, *most)?;
        }
    }
    Ok(())
}

#[cycle(put_re)]
fn put_parts(out: &mut Vec<u8>, parts: &[Re]) -> Result<(), AllocError>
    ensures { OnOk result (out.new.items
        ≡ out.old.items ++ spelled.listed spelled.re parts.now) }
{
    put_length(out, parts.len())?;
    for part in parts {
        put_re(out, part)?;
    }
    Ok(())
}

/// What stands behind a token's expression.
fn put_marks(out: &mut Vec<u8>, token: &TokenDef) -> Result<(), AllocError>
    ensures { OnOk result (out.new.items ≡ out.old.items ++ spelled.marks token.now) }
{
    out.extend_from_slice(&token.prec.to_be_bytes())?;
    put_flag(out, token.literal)?;
    put_flag(out, token.immediate)?;
    put_flag(out, token.keyword)
}

fn put_token(out: &mut Vec<u8>, token: &TokenDef) -> Result<(), AllocError>
    ensures { OnOk result (out.new.items ≡ out.old.items ++ spelled.token token.now) }
{
    put_text(out, &token.name)?;
    put_kind(out, token.kind)?;
    put_re(out, &token.re)?;
    put_marks(out, token)
}

fn put_tokens(out: &mut Vec<u8>, tokens: &List<TokenDef>) -> Result<(), AllocError>
    ensures { OnOk result (out.new.items
        ≡ out.old.items ++ spelled.listed spelled.token tokens.now) }
{
    put_length(out, tokens.len())?;
    for token in tokens.as_slice() {
        put_token(out, token)?;
    }
    Ok(())
}

fn put_prec(out: &mut Vec<u8>, prec: Prec) -> Result<(), AllocError>
    ensures { OnOk result (out.new.items ≡ out.old.items ++ spelled.prec prec) }
{
    match prec {
        Prec::Absent => out.push(0)?,
        Prec::Number(value) => {
            out.push(1)?;
            out.extend_from_slice(&value.to_be_bytes())?;
        }
        Prec::Name(name) => {
            out.push(2)?;
            out.extend_from_slice(&name.to_be_bytes())?;
        }
    }
    Ok(())
}

fn put_assoc(out: &mut Vec<u8>, assoc: Assoc) -> Result<(), AllocError>
    ensures { OnOk result (out.new.items ≡ out.old.items ++ spelled.assoc assoc) }
{
    match assoc {
        Assoc::Absent => out.push(0)?,
        Assoc::Left => out.push(1)?,
        Assoc::Right => out.push(2)?,
    }
    Ok(())
}

fn put_alias(out: &mut Vec<u8>, alias: &Option<Alias>) -> Result<(), AllocError>
    ensures { OnOk result (out.new.items
        ≡ out.old.items ++ spelled.optional spelled.alias alias.now) }
{
    match alias {
        None => out.push(0)?,
        Some(alias) => {
            out.push(1)?;
            put_text(out, &alias.name)?;
            put_flag(out, alias.named)?;
        }
    }
    Ok(())
}

fn put_field(out: &mut Vec<u8>, field: Option<u16>) -> Result<(), AllocError>
    ensures { OnOk result (out.new.items
        ≡ out.old.items ++ spelled.optional spelled.number16 field) }
{
    match field {
        None => out.push(0)?,
        Some(field) => {
            out.push(1)?;
            out.extend_from_slice(&field.to_be_bytes())?;
        }
    }
    Ok(())
}

fn put_step(out: &mut Vec<u8>, step: &Step) -> Result<(), AllocError>
    ensures { OnOk result (out.new.items ≡ out.old.items ++ spelled.step step.now) }
{
    put_symbol(out, step.symbol)?;
    put_prec(out, step.prec)?;
    put_assoc(out, step.assoc)?;
    put_alias(out, &step.alias)?;
    put_field(out, step.field)
}

fn put_steps(out: &mut Vec<u8>, steps: &List<Step>) -> Result<(), AllocError>
    ensures { OnOk result (out.new.items
        ≡ out.old.items ++ spelled.listed spelled.step steps.now) }
{
    put_length(out, steps.len())?;
    for step in steps.as_slice() {
        put_step(out, step)?;
    }
    Ok(())
}

fn put_production(out: &mut Vec<u8>, production: &Production) -> Result<(), AllocError>
    ensures { OnOk result (out.new.items ≡ out.old.items ++ spelled.production production.now) }
{
    out.extend_from_slice(&production.dynamic.to_be_bytes())?;
    put_steps(out, &production.steps)
}

fn put_productions(out: &mut Vec<u8>, productions: &List<Production>) -> Result<(), AllocError>
    ensures { OnOk result (out.new.items
        ≡ out.old.items ++ spelled.listed spelled.production productions.now) }
{
    put_length(out, productions.len())?;
    for production in productions.as_slice() {
        put_production(out, production)?;
    }
    Ok(())
}

fn put_rule(out: &mut Vec<u8>, rule: &FlatRule) -> Result<(), AllocError>
    ensures { OnOk result (out.new.items ≡ out.old.items ++ spelled.rule rule.now) }
{
    put_text(out, &rule.name)?;
    put_kind(out, rule.kind)?;
    put_symbol(out, rule.owner)?;
    put_productions(out, &rule.productions)
}

fn put_rules(out: &mut Vec<u8>, rules: &List<FlatRule>) -> Result<(), AllocError>
    ensures { OnOk result (out.new.items
        ≡ out.old.items ++ spelled.listed spelled.rule rules.now) }
{
    put_length(out, rules.len())?;
    for rule in rules.as_slice() {
        put_rule(out, rule)?;
    }
    Ok(())
}

fn put_word(out: &mut Vec<u8>, word: Option<Symbol>) -> Result<(), AllocError>
    ensures { OnOk result (out.new.items
        ≡ out.old.items ++ spelled.optional spelled.symbol word) }
{
    match word {
        None => out.push(0)?,
        Some(word) => {
            out.push(1)?;
            put_symbol(out, word)?;
        }
    }
    Ok(())
}

/// The fields up to the word.
fn put_front(out: &mut Vec<u8>, grammar: &FlatGrammar) -> Result<(), AllocError>
    ensures { OnOk result (out.new.items ≡ out.old.items ++ spelled.front grammar.now) }
{
    put_text(out, &grammar.name)?;
    put_tokens(out, &grammar.tokens)?;
    put_rules(out, &grammar.rules)?;
    put_parts(out, grammar.separators.as_slice())?;
    put_symbols(out, &grammar.extras)?;
    put_word(out, grammar.word)
}

/// The fields behind the word.
fn put_back(out: &mut Vec<u8>, grammar: &FlatGrammar) -> Result<(), AllocError>
    ensures { OnOk result (out.new.items
        ≡ out.old.items ++ spelled.back spelled.new_version grammar.now) }
{
    put_texts(out, &grammar.fields)?;
    put_texts(out, &grammar.precs)?;
    put_sets(out, &grammar.conflicts)?;
    put_orderings(out, &grammar.precedences)?;
    put_symbols(out, &grammar.supertypes)
}

/// The language file of a grammar, in version 2. A length is written in 32 bits, which those of a
/// fit grammar need no more than.
///
/// # Errors
///
/// `AllocError` where memory runs out.
pub fn write(alloc: Global, grammar: &FlatGrammar) -> Result<Vec<u8>, AllocError>
    ensures { IfOk result (λ file. file.items ≡ spelled.spelling grammar.now) }
{
    let mut out = Vec::new(alloc);
    out.extend_from_slice(b"TSLF\0\x02")?;
    put_front(&mut out, grammar)?;
    put_back(&mut out, grammar)?;
    Ok(out)
}

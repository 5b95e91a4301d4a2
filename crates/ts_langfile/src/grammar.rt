//! The fields of a grammar, in the order of the file: from its bytes to the grammar and the bytes
//! behind it.

ghost use Rattle.std.specs.Prelude.{◌≡◌, ◌+◌, ◌<◌, ◌≤◌, suc, length, IfOk};
ghost use Rattle.ts_langfile.specs.Reader.{Gives};
ghost use Rattle.ts_langfile.specs.Parts.{optional_by, symbol_at};
ghost use Rattle.ts_langfile.specs.Reading as spec;
ghost use Rattle.ts_langfile.specs.Reading.{head_at, to_fields_at, to_precs_at, fields_at, supertypes_at};
ghost use Rattle.spec_tables.specs.Fit.{most_symbols};

use crate::flaw::{Stop, wrong};
use crate::known::Known;
use crate::part::{count, flag, number32, text, texts};
use crate::re::{MOST_LEVELS, parts};
use crate::rule::rules;
use crate::symbols::{orderings, sets, supertypes, symbol, symbols};
use crate::token::tokens;
use std::alloc::{AllocError, Global};
use ts_core::{FlatGrammar, FlatRule, List, Re, Str, Symbol, TokenDef};

/// How many symbols there may be, the end among them.
const MOST_SYMBOLS: u32 = 16_384;

/// How many field names there may be, and how many precedence names.
const MOST_NAMES: u32 = 16_384;

/// How many productions there may be in all.
const MOST_PRODUCTIONS: u32 = 65_535;

/// The version without supertypes.
const OLD_VERSION: u16 = 1;

/// Where no byte further on is known.
const NOTHING_KNOWN: Known = Known {
    word: None,
    fields: None,
    precs: None,
};

/// What stands before the word, and whether there is one.
#[derive(Drop)]
pub(crate) struct Head {
    pub(crate) name: Str,
    pub(crate) tokens: List<TokenDef>,
    pub(crate) rules: List<FlatRule>,
    pub(crate) separators: List<Re>,
    pub(crate) extras: List<Symbol>,
    pub(crate) has_word: bool,
}

/// What stands before the field names, and how many there are.
#[derive(Drop)]
pub(crate) struct ToFields {
    pub(crate) head: Head,
    pub(crate) word: Option<Symbol>,
    pub(crate) field_count: u32,
}

/// What stands before the precedence names, and how many there are.
#[derive(Drop)]
pub(crate) struct ToPrecs {
    pub(crate) before: ToFields,
    pub(crate) fields: List<Str>,
    pub(crate) prec_count: u32,
}

/// The count of the rules, of which there is at least one.
#[tactic(auto, unfolding(crate::specs::Reading::rule_count_at))]
fn rule_count(bytes: &[u8], tokens: u32) -> Result<(u32, &[u8]), Stop>
    requires { tokens < most_symbols }
    ensures read { Gives (λ x. (x.0, x.1.now)) result (spec.rule_count_at tokens bytes.now) }
    ensures few { IfOk result (λ x. suc (tokens + x.0) ≤ most_symbols) }
{
    let (count, rest) = number32(bytes)?;
    if count == 0 || count >= MOST_SYMBOLS - tokens {
        return Err(wrong(bytes));
    }
    Ok((count, rest))
}

/// From the name on, up to the byte that says whether there is a word.
#[tactic(auto, unfolding(crate::specs::Reading::head_at))]
fn read_head<'a>(alloc: Global, bytes: &'a [u8], known: &Known) -> Result<(Head, &'a [u8]), Stop>
    ensures read { Gives (λ x. (x.0, x.1.now)) result (head_at known.now bytes.now) }
    ensures few { IfOk result (λ x. spec.symbol_sum x.0 ≤ most_symbols) }
{
    let (name, rest) = text(alloc, bytes)?;
    let (token_count, rest) = count(rest, MOST_SYMBOLS - 1)?;
    let (tokens, rest) = tokens(alloc, rest, token_count, known)?;
    let (rule_count, rest) = rule_count(rest, token_count)?;
    let symbols_there = token_count + rule_count + 1;
    let (rules, rest) = rules(
        alloc,
        rest,
        rule_count,
        symbols_there,
        known,
        MOST_PRODUCTIONS,
    )?;
    let (separators, rest) = parts(alloc, rest, MOST_LEVELS)?;
    let (extras, rest) = symbols(alloc, rest, 1, token_count + 1)?;
    let (has_word, rest) = flag(rest)?;
    let head = Head {
        name,
        tokens,
        rules,
        separators,
        extras,
        has_word,
    };
    Ok((head, rest))
}

/// The word, where there is one.
fn word(bytes: &[u8], has_word: bool, tokens: u32) -> Result<(Option<Symbol>, &[u8]), Stop>
    requires { tokens < most_symbols }
    ensures { Gives (λ x. (x.0, x.1.now)) result
        (optional_by (symbol_at 1 (suc tokens)) has_word bytes.now) }
{
    if !has_word {
        return Ok((None, bytes));
    }
    let (word, rest) = symbol(bytes, 1, tokens + 1)?;
    Ok((Some(word), rest))
}

/// From the name on, up to the count of field names.
#[tactic(auto, unfolding(crate::specs::Reading::to_fields_at))]
fn read_to_fields<'a>(
    alloc: Global,
    bytes: &'a [u8],
    known: &Known,
) -> Result<(ToFields, &'a [u8]), Stop>
    ensures read { Gives (λ x. (x.0, x.1.now)) result (to_fields_at known.now bytes.now) }
    ensures few { IfOk result (λ x. spec.symbol_sum x.0.head ≤ most_symbols) }
{
    let (head, rest) = read_head(alloc, bytes, known)?;
    let (word, rest) = word(rest, head.has_word, head.tokens.len() as u32)?;
    let (field_count, rest) = count(rest, MOST_NAMES)?;
    let to = ToFields {
        head,
        word,
        field_count,
    };
    Ok((to, rest))
}

/// From the name on, up to the count of precedence names.
#[tactic(auto, unfolding(crate::specs::Reading::to_precs_at))]
fn read_to_precs<'a>(
    alloc: Global,
    bytes: &'a [u8],
    known: &Known,
) -> Result<(ToPrecs, &'a [u8]), Stop>
    ensures read { Gives (λ x. (x.0, x.1.now)) result (to_precs_at known.now bytes.now) }
    ensures few { IfOk result (λ x. spec.symbol_sum x.0.before.head ≤ most_symbols) }
{
    let (before, rest) = read_to_fields(alloc, bytes, known)?;
    let (fields, rest) = texts(alloc, rest, before.field_count)?;
    let (prec_count, rest) = count(rest, MOST_NAMES)?;
    let to = ToPrecs {
        before,
        fields,
        prec_count,
    };
    Ok((to, rest))
}

/// The supertypes, which the old version has not.
#[tactic(auto, unfolding(crate::specs::Reading::supertypes_at))]
fn read_supertypes<'a>(
    alloc: Global,
    bytes: &'a [u8],
    version: u16,
    head: &Head,
) -> Result<(List<Symbol>, &'a [u8]), Stop>
    ensures { Gives (λ x. (x.0, x.1.now)) result (supertypes_at version head.now bytes.now) }
{
    if version == OLD_VERSION {
        return Ok((List::new(alloc), bytes));
    }
    let (count, rest) = number32(bytes)?;
    supertypes(alloc, rest, count, &head.tokens, &head.rules)
}

/// All fields, each point judged by what is known of the bytes further on.
#[tactic(auto, unfolding(crate::specs::Reading::fields_at))]
fn read_fields<'a>(
    alloc: Global,
    bytes: &'a [u8],
    version: u16,
    known: &Known,
) -> Result<(FlatGrammar, &'a [u8]), Stop>
    ensures { Gives (λ x. (x.0, x.1.now)) result (fields_at version known.now bytes.now) }
{
    let (to, rest) = read_to_precs(alloc, bytes, known)?;
    let ToPrecs {
        before,
        fields,
        prec_count,
    } = to;
    let ToFields {
        head,
        word,
        field_count: _,
    } = before;
    let bound = (head.tokens.len() + head.rules.len()) as u32 + 1;
    let (precs, rest) = texts(alloc, rest, prec_count)?;
    let (conflicts, rest) = sets(alloc, rest, bound)?;
    let (precedences, rest) = orderings(alloc, rest, bound, prec_count)?;
    let (supertypes, rest) = read_supertypes(alloc, rest, version, &head)?;
    let Head {
        name,
        tokens,
        rules,
        separators,
        extras,
        has_word: _,
    } = head;
    let grammar = FlatGrammar {
        name,
        tokens,
        rules,
        separators,
        extras,
        word,
        fields,
        precs,
        conflicts,
        precedences,
        supertypes,
    };
    Ok((grammar, rest))
}

/// Whether there is a word, as far as no flaw stands before.
#[tactic(auto, unfolding(crate::specs::Reading::known_in))]
fn known_word(alloc: Global, bytes: &[u8]) -> Result<Option<bool>, AllocError>
    ensures { IfOk result (λ known. known ≡ (spec.known_in bytes.now).word) }
{
    match read_head(alloc, bytes, &NOTHING_KNOWN) {
        Ok((head, _)) => Ok(Some(head.has_word)),
        Err(Stop::Flawed(_)) => Ok(None),
        Err(Stop::Memory) => Err(AllocError),
    }
}

/// How many field names there are, as far as no flaw stands before.
#[tactic(auto, unfolding(crate::specs::Reading::known_in))]
fn known_fields(alloc: Global, bytes: &[u8]) -> Result<Option<u32>, AllocError>
    ensures { IfOk result (λ known. known ≡ (spec.known_in bytes.now).fields) }
{
    match read_to_fields(alloc, bytes, &NOTHING_KNOWN) {
        Ok((to, _)) => Ok(Some(to.field_count)),
        Err(Stop::Flawed(_)) => Ok(None),
        Err(Stop::Memory) => Err(AllocError),
    }
}

/// What is known where a flaw stands before the count of precedence names, or at it.
fn known_before_precs(alloc: Global, bytes: &[u8]) -> Result<Known, AllocError>
    ensures { IfOk result (λ known. known ≡ spec.without_precs (spec.known_in bytes.now)) }
{
    let word = known_word(alloc, bytes)?;
    let fields = known_fields(alloc, bytes)?;
    Ok(Known {
        word,
        fields,
        precs: None,
    })
}

/// What is known of the bytes further on.
#[tactic(auto, using(crate::proofs::KnownLemmas::known_from, crate::proofs::KnownLemmas::known_without))]
fn known_in(alloc: Global, bytes: &[u8]) -> Result<Known, AllocError>
    ensures { IfOk result (λ known. known ≡ spec.known_in bytes.now) }
{
    match read_to_precs(alloc, bytes, &NOTHING_KNOWN) {
        Ok((to, _)) => Ok(Known {
            word: Some(to.before.head.has_word),
            fields: Some(to.before.field_count),
            precs: Some(to.prec_count),
        }),
        Err(Stop::Flawed(_)) => known_before_precs(alloc, bytes),
        Err(Stop::Memory) => Err(AllocError),
    }
}

/// All fields, each point judged by all that the bytes tell.
pub(crate) fn judged(
    alloc: Global,
    bytes: &[u8],
    version: u16,
) -> Result<(FlatGrammar, &[u8]), Stop>
    ensures { Gives (λ x. (x.0, x.1.now)) result (spec.judged_at version bytes.now) }
{
    let known = known_in(alloc, bytes)?;
    read_fields(alloc, bytes, version, &known)
}

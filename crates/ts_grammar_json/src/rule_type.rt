//! A word in; the type of rules that it names out, and the other way round.
ghost use Rattle.std.specs.Prelude.{◌≡◌, ◌≢◌, IfOk, IfErr};
ghost use Rattle.ts_grammar_json.specs.Rules.{type_named, known_type, type_of};
ghost use Rattle.ts_grammar_json.specs.Found.{json_at};

use crate::fault::GFault;
use crate::pointer::{unknown_member, wrong_member};
use crate::{kinds, member};
use std::alloc::Global;
use ts_ojson::OJson;

/// A type of rules, in the order of the format.
#[derive(Clone, Copy, Debug, PartialEq, Eq)]
pub(crate) enum RuleType {
    Blank,
    Literal,
    Pattern,
    Symbol,
    Seq,
    Choice,
    Repeat,
    Repeat1,
    Token,
    ImmediateToken,
    Field,
    Alias,
    Prec,
    PrecLeft,
    PrecRight,
    PrecDynamic,
}

impl RuleType {
    /// The type of this word.
    pub(crate) fn named(word: &str) -> Option<RuleType>
        ensures { result ≡ type_named word.now }
    {
        match word {
            "BLANK" => Some(RuleType::Blank),
            "STRING" => Some(RuleType::Literal),
            "PATTERN" => Some(RuleType::Pattern),
            "SYMBOL" => Some(RuleType::Symbol),
            "SEQ" => Some(RuleType::Seq),
            "CHOICE" => Some(RuleType::Choice),
            "REPEAT" => Some(RuleType::Repeat),
            "REPEAT1" => Some(RuleType::Repeat1),
            "TOKEN" => Some(RuleType::Token),
            "IMMEDIATE_TOKEN" => Some(RuleType::ImmediateToken),
            "FIELD" => Some(RuleType::Field),
            "ALIAS" => Some(RuleType::Alias),
            "PREC" => Some(RuleType::Prec),
            "PREC_LEFT" => Some(RuleType::PrecLeft),
            "PREC_RIGHT" => Some(RuleType::PrecRight),
            "PREC_DYNAMIC" => Some(RuleType::PrecDynamic),
            _ => None,
        }
    }
}

/// The type of a rule, from the value at its member `type`.
pub(crate) fn rule_type(alloc: Global, value: Option<&OJson>) -> Result<RuleType, GFault>
    ensures ok { IfOk result (λ t. type_of (json_at value.entry) ≡ Ok t) }
    ensures fault { IfErr result (λ e. e ≢ GFault.Memory → type_of (json_at value.entry) ≡ Err e) }
{
    let value = member::there(alloc, "type", value)?;
    match kinds::text(value) {
        Some("RESERVED") => Err(GFault::Reserved),
        Some(word) => known(alloc, word),
        None => Err(wrong_member(alloc, "type")),
    }
}

fn known(alloc: Global, word: &str) -> Result<RuleType, GFault>
    ensures ok { IfOk result (λ t. known_type (type_named word.now) ≡ Ok t) }
    ensures fault { IfErr result
        (λ e. e ≢ GFault.Memory → known_type (type_named word.now) ≡ Err e) }
{
    match RuleType::named(word) {
        Some(kind) => Ok(kind),
        None => Err(unknown_member(alloc, "type")),
    }
}

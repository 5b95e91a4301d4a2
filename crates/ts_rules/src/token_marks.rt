//! What a token's tree says besides its text: what comes in is the tree, and what goes out are its
//! precedence, its text or source, and whether it is immediate.

ghost use Rattle.std.specs.Prelude.{◌≡◌};
ghost use Rattle.ts_rules.specs.Tokens as tokens;

use ts_core::{PrecValue, Rule};

/// The number of a precedence. A named one counts as 0.
fn number_of(value: &PrecValue) -> i32
    ensures { result ≡ tokens.number_of value.now }
{
    match value {
        PrecValue::Number(value) => *value,
        PrecValue::Name(_) => 0,
    }
}

/// The value of a PREC, PREC_LEFT or PREC_RIGHT that stands here or under TOKENs alone.
fn under(tree: &Rule) -> i32
    ensures { result ≡ tokens.under tree.now }
{
    match tree {
        Rule::Token(content) => under(content.get()),
        Rule::ImmediateToken(content) => under(content.get()),
        Rule::Prec { value, content: _ } => number_of(value),
        Rule::PrecLeft { value, content: _ } => number_of(value),
        Rule::PrecRight { value, content: _ } => number_of(value),
        Rule::Blank => 0,
        Rule::Literal(_) => 0,
        Rule::Pattern {
            value: _,
            ignore_case: _,
        } => 0,
        Rule::Symbol(_) => 0,
        Rule::Seq(_) => 0,
        Rule::Choice(_) => 0,
        Rule::Repeat(_) => 0,
        Rule::Repeat1(_) => 0,
        Rule::Field {
            name: _,
            content: _,
        } => 0,
        Rule::Alias {
            content: _,
            named: _,
            value: _,
        } => 0,
        Rule::PrecDynamic {
            value: _,
            content: _,
        } => 0,
    }
}

/// The lexical precedence of a token.
pub fn lexical_precedence(tree: &Rule) -> i32
    ensures { result ≡ tokens.lexical_precedence tree.now }
{
    match tree {
        Rule::Token(content) => under(content.get()),
        Rule::ImmediateToken(content) => under(content.get()),
        Rule::Prec {
            value: _,
            content: _,
        } => 0,
        Rule::PrecLeft {
            value: _,
            content: _,
        } => 0,
        Rule::PrecRight {
            value: _,
            content: _,
        } => 0,
        Rule::Blank => 0,
        Rule::Literal(_) => 0,
        Rule::Pattern {
            value: _,
            ignore_case: _,
        } => 0,
        Rule::Symbol(_) => 0,
        Rule::Seq(_) => 0,
        Rule::Choice(_) => 0,
        Rule::Repeat(_) => 0,
        Rule::Repeat1(_) => 0,
        Rule::Field {
            name: _,
            content: _,
        } => 0,
        Rule::Alias {
            content: _,
            named: _,
            value: _,
        } => 0,
        Rule::PrecDynamic {
            value: _,
            content: _,
        } => 0,
    }
}

/// Whether a token stands only directly after the one before it.
pub fn is_immediate(tree: &Rule) -> bool
    ensures { result ≡ tokens.is_immediate tree.now }
{
    match tree {
        Rule::ImmediateToken(_) => true,
        Rule::Token(_) => false,
        Rule::Prec {
            value: _,
            content: _,
        } => false,
        Rule::PrecLeft {
            value: _,
            content: _,
        } => false,
        Rule::PrecRight {
            value: _,
            content: _,
        } => false,
        Rule::Blank => false,
        Rule::Literal(_) => false,
        Rule::Pattern {
            value: _,
            ignore_case: _,
        } => false,
        Rule::Symbol(_) => false,
        Rule::Seq(_) => false,
        Rule::Choice(_) => false,
        Rule::Repeat(_) => false,
        Rule::Repeat1(_) => false,
        Rule::Field {
            name: _,
            content: _,
        } => false,
        Rule::Alias {
            content: _,
            named: _,
            value: _,
        } => false,
        Rule::PrecDynamic {
            value: _,
            content: _,
        } => false,
    }
}

/// What is left of a token without TOKEN, IMMEDIATE_TOKEN and the types of PREC.
#[derive(Clone, Copy)]
pub enum CoreTree<'a> {
    Text(&'a str),
    Source(&'a str),
    Other,
}

/// What is left of a token's tree.
pub fn core_of(tree: &Rule) -> CoreTree<'_>
    ensures { tokens.core_seen result ≡ tokens.core tree.now }
{
    match tree {
        Rule::Literal(text) => CoreTree::Text(text.text()),
        Rule::Pattern {
            value,
            ignore_case: _,
        } => CoreTree::Source(value.text()),
        Rule::Token(content) => core_of(content.get()),
        Rule::ImmediateToken(content) => core_of(content.get()),
        Rule::Prec { value: _, content } => core_of(content.get()),
        Rule::PrecLeft { value: _, content } => core_of(content.get()),
        Rule::PrecRight { value: _, content } => core_of(content.get()),
        Rule::PrecDynamic { value: _, content } => core_of(content.get()),
        Rule::Blank => CoreTree::Other,
        Rule::Symbol(_) => CoreTree::Other,
        Rule::Seq(_) => CoreTree::Other,
        Rule::Choice(_) => CoreTree::Other,
        Rule::Repeat(_) => CoreTree::Other,
        Rule::Repeat1(_) => CoreTree::Other,
        Rule::Field {
            name: _,
            content: _,
        } => CoreTree::Other,
        Rule::Alias {
            content: _,
            named: _,
            value: _,
        } => CoreTree::Other,
    }
}

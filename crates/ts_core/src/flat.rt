//! A grammar in normal form: a grammar file or a language file comes to it, and tables and automata
//! are made of it.

use crate::re::Re;
use crate::symbol::{Kind, Symbol};
use ts_base::{List, Str};

/// A token of a grammar.
#[derive(Debug, PartialEq, Eq, Drop)]
pub struct TokenDef {
    pub name: Str,
    pub kind: Kind,
    pub re: Re,
    /// The lexical precedence. The higher token is taken before the longer one.
    pub prec: i32,
    /// Whether the token is a plain text.
    pub literal: bool,
    /// Whether the token stands only directly after the one before it.
    pub immediate: bool,
    /// Whether the word token takes this token's place where it is longer.
    pub keyword: bool,
}

/// The precedence of a step.
#[derive(Clone, Copy, Debug, PartialEq, Eq, PartialOrd, Ord, Hash)]
pub enum Prec {
    Absent,
    Number(i32),
    /// By its place in the list of precedence names.
    Name(u16),
}

/// The associativity of a step.
#[derive(Clone, Copy, Debug, PartialEq, Eq, PartialOrd, Ord, Hash)]
pub enum Assoc {
    Absent,
    Left,
    Right,
}

/// The name under which a step's node shows.
#[derive(Debug, PartialEq, Eq, PartialOrd, Ord, Hash, Drop)]
pub struct Alias {
    pub name: Str,
    pub named: bool,
}

/// One symbol on the right side of a production, with its marks.
#[derive(Debug, PartialEq, Eq, PartialOrd, Ord, Hash, Drop)]
pub struct Step {
    pub symbol: Symbol,
    pub prec: Prec,
    pub assoc: Assoc,
    pub alias: Option<Alias>,
    /// By its place in the list of field names.
    pub field: Option<u16>,
}

/// One right side of a rule.
#[derive(Debug, PartialEq, Eq, PartialOrd, Ord, Hash, Drop)]
pub struct Production {
    /// What the production adds to the dynamic precedence of a tree.
    pub dynamic: i32,
    pub steps: List<Step>,
}

/// A rule of the normal form, or a repetition, whose owner is another rule.
#[derive(Debug, PartialEq, Eq, Drop)]
pub struct FlatRule {
    pub name: Str,
    pub kind: Kind,
    pub owner: Symbol,
    pub productions: List<Production>,
}

/// One entry of an ordering of precedences.
#[derive(Clone, Copy, Debug, PartialEq, Eq, PartialOrd, Ord, Hash)]
pub enum Entry {
    /// By its place in the list of precedence names.
    Name(u16),
    Rule(Symbol),
}

/// A grammar in normal form. Symbol 0 is the end, then come the tokens and then the rules, the
/// start rule first.
#[derive(Debug, PartialEq, Eq, Drop)]
pub struct FlatGrammar {
    pub name: Str,
    pub tokens: List<TokenDef>,
    pub rules: List<FlatRule>,
    /// What may stand before a token and gives no node.
    pub separators: List<Re>,
    /// The tokens that may stand anywhere.
    pub extras: List<Symbol>,
    pub word: Option<Symbol>,
    pub fields: List<Str>,
    pub precs: List<Str>,
    /// The sets of rules whose conflicts are kept.
    pub conflicts: List<List<Symbol>>,
    /// Orderings of precedences, the higher first.
    pub precedences: List<List<Entry>>,
    /// The rules that are supertypes, rising and each once.
    pub supertypes: List<Symbol>,
}

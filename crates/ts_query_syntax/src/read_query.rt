//! What a query is once it is read: patterns with the items that embed in lists of siblings.
use regex::Regex;
use ts_base::{List, Str};

/// Which nodes a unit can stand for.
#[derive(Debug, Clone, Copy, PartialEq, Eq)]
pub enum Test {
    /// Any node, named or not.
    Any,
    /// Any named node.
    Named,
    /// A node of this kind, by its place in the query's kinds.
    Kind(u32),
    /// What one of the parts stands for, each a plain item.
    Choice,
    /// So many siblings as there are parts, each a plain item.
    Round,
}

/// How many rounds an item takes. A plain item takes one sibling a round, a quantified group as
/// many as it has parts.
#[derive(Debug, Clone, Copy, PartialEq, Eq)]
pub enum Quantity {
    One,
    /// `?`
    Optional,
    /// `*`
    Many,
    /// `+`
    Several,
}

/// What takes siblings: a node pattern, an alternation or a quantified group.
#[derive(Debug, Drop)]
pub struct Item {
    /// Whether an anchor stands before it, at its own level.
    pub tied: bool,
    pub quantity: Quantity,
    /// A field, by its place among the fields of the grammar.
    pub field: Option<u16>,
    /// By their places among the query's captures.
    pub captures: List<u16>,
    pub test: Test,
    /// The fields that no child may have.
    pub without: List<u16>,
    /// Whether an anchor stands after the last part.
    pub closed: bool,
    /// Of a node what embeds in its children, else the branches or the items of a round.
    pub parts: List<Item>,
}

/// A kind of nodes.
#[derive(Debug, PartialEq, Eq, Drop)]
pub struct QueryKind {
    pub name: Str,
    pub named: bool,
}

/// What the texts of a capture's nodes are asked to be.
#[derive(Debug, Drop)]
pub enum Asked {
    /// This text.
    Text(Str),
    /// The texts of another capture's nodes, in pairs.
    Capture(u16),
    OneOf(List<Str>),
    /// One in which a search finds something. The expression has its source.
    Found(Regex),
    /// One for which a host's relation holds, by its place in the list of hosts.
    Host(u32),
}

/// A condition on the nodes of a capture.
#[derive(Debug, Drop)]
pub struct Predicate {
    pub capture: u16,
    pub asked: Asked,
    pub negated: bool,
    /// Whether one text, or one pair, is enough.
    pub some: bool,
}

/// A pattern: items that embed in a list of siblings.
#[derive(Debug, Drop)]
pub struct Pattern {
    pub items: List<Item>,
    /// Whether an anchor stands after the last item.
    pub closed: bool,
    pub predicates: List<Predicate>,
}

/// A query: its patterns, and the names of its captures and kinds, each once, in the order of
/// their first sight.
#[derive(Debug, Drop)]
pub struct ReadQuery {
    pub patterns: List<Pattern>,
    pub captures: List<Str>,
    pub kinds: List<QueryKind>,
}

impl ReadQuery {
    ghost use Rattle.std.specs.Prelude.{◌≡◌, ◌<◌, length, slice_get, Some};

    /// The name of a capture, without its `@`.
    pub fn capture(&self, name: u16) -> &str
        requires { name < length self.now.captures }
        ensures { slice_get self.now.captures name ≡ Some result.now }
    {
        self.captures.get(name as usize).text()
    }
}

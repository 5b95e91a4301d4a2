//! What the parts of a query name: parts go in, and a list of what they name comes out, in the
//! order in which it is written.
ghost use Rattle.std.specs.Prelude.{◌≡◌, ◌++◌, ◌∷◌, [], map, IfOk, OnOk};
ghost use Rattle.ts_query_tree.specs.Words.{is_wild};
ghost use Rattle.ts_query_names.specs.Lent.{mention_told, mentions_told};
ghost use Rattle.ts_query_names.specs.Mentions.{is_round, field_mentions, node_mentions, head_mentions, nested_if, mark_mentions, mentions, mentions_in, mentioned_by, named_in, capture};

use std::alloc::{AllocError, Global};
use ts_base::{List, Str};
use ts_query_tree::{Head, Mark, Operand, Part, Written};

/// What a query names, or a quantifier that has no place there.
#[derive(Clone, Copy)]
pub enum Mention<'a> {
    /// A kind of nodes, and whether it is named.
    Kind(&'a Written, bool),
    Field(&'a Written),
    /// A capture of an item.
    Capture(&'a Written),
    Predicate(&'a Written, &'a List<Operand>),
    /// The place of a quantifier on one of the own parts of a quantified group.
    Nested(u32),
}

/// Whether a name is the `_` of any node.
pub fn is_wild(name: &Str) -> bool
    ensures { result ≡ is_wild name.now }
{
    let text = name.text().as_bytes();
    text.len() == 1 && text[0] == b'_'
}

fn add<'a>(found: &mut Vec<Mention<'a>>, one: Mention<'a>) -> Result<(), AllocError>
    ensures { OnOk result (mentions_told found.new.items
        ≡ mentions_told found.old.items ++ mention_told one.entry ∷ []) }
{
    found.push(one)?;
    Ok(())
}

fn add_field<'a>(found: &mut Vec<Mention<'a>>, field: &'a Option<Written>) -> Result<(), AllocError>
    ensures { OnOk result (mentions_told found.new.items
        ≡ mentions_told found.old.items ++ field_mentions field.now) }
{
    match field {
        Some(name) => add(found, Mention::Field(name)),
        None => Ok(()),
    }
}

fn add_node<'a>(found: &mut Vec<Mention<'a>>, name: &'a Written) -> Result<(), AllocError>
    ensures { OnOk result (mentions_told found.new.items
        ≡ mentions_told found.old.items ++ node_mentions name.now) }
{
    if is_wild(&name.text) {
        return Ok(());
    }
    add(found, Mention::Kind(name, true))
}

fn add_head<'a>(found: &mut Vec<Mention<'a>>, head: &'a Head) -> Result<(), AllocError>
    ensures { OnOk result (mentions_told found.new.items
        ≡ mentions_told found.old.items ++ head_mentions head.now) }
{
    match head {
        Head::Text(text) => add(found, Mention::Kind(text, false)),
        Head::Node(name) => add_node(found, name),
        Head::Any(_) => Ok(()),
        Head::Group => Ok(()),
        Head::Choice => Ok(()),
    }
}

fn add_mark<'a>(
    found: &mut Vec<Mention<'a>>,
    mark: &Option<Mark>,
    in_round: bool,
) -> Result<(), AllocError>
    ensures { OnOk result (mentions_told found.new.items
        ≡ mentions_told found.old.items ++ mark_mentions in_round mark.now) }
{
    match mark {
        Some(mark) => add_nested(found, mark.at, in_round),
        None => Ok(()),
    }
}

fn add_nested<'a>(found: &mut Vec<Mention<'a>>, at: u32, in_round: bool) -> Result<(), AllocError>
    ensures { OnOk result (mentions_told found.new.items
        ≡ mentions_told found.old.items ++ nested_if in_round at) }
{
    if in_round {
        return add(found, Mention::Nested(at));
    }
    Ok(())
}

fn add_captures<'a>(found: &mut Vec<Mention<'a>>, captures: &'a [Written]) -> Result<(), AllocError>
    ensures { OnOk result (mentions_told found.new.items
        ≡ mentions_told found.old.items ++ map capture captures.now) }
{
    for name in captures {
        add(found, Mention::Capture(name))?;
    }
    Ok(())
}

/// Whether an item is a group with a quantifier.
pub fn is_round(head: &Head, mark: &Option<Mark>) -> bool
    ensures { result ≡ is_round head.now mark.now }
{
    match head {
        Head::Group => mark.is_some(),
        Head::Any(_) => false,
        Head::Text(_) => false,
        Head::Node(_) => false,
        Head::Choice => false,
    }
}

#[cycle(add_part)]
#[tactic(auto, using(crate::proofs::MentionLemmas::mention_laws))]
fn add_part<'a>(
    found: &mut Vec<Mention<'a>>,
    part: &'a Part,
    in_round: bool,
) -> Result<(), AllocError>
    ensures { OnOk result (mentions_told found.new.items
        ≡ mentions_told found.old.items ++ mentions part.now in_round) }
{
    match part {
        Part::Item {
            field,
            head,
            parts,
            mark,
            captures,
        } => {
            add_field(found, field)?;
            add_head(found, head)?;
            add_parts(found, parts.as_slice(), is_round(head, mark))?;
            add_mark(found, mark, in_round)?;
            add_captures(found, captures.as_slice())?;
            Ok(())
        }
        Part::Anchor => Ok(()),
        Part::Without(name) => add(found, Mention::Field(name)),
        Part::Predicate(name, operands) => add(found, Mention::Predicate(name, operands)),
    }
}

#[cycle(add_part)]
fn add_parts<'a>(
    found: &mut Vec<Mention<'a>>,
    parts: &'a [Part],
    in_round: bool,
) -> Result<(), AllocError>
    ensures { OnOk result (mentions_told found.new.items
        ≡ mentions_told found.old.items ++ mentions_in parts.now in_round) }
{
    for part in parts {
        add_part(found, part, in_round)?;
    }
    Ok(())
}

/// What a pattern names, in the order in which it is written.
///
/// # Errors
///
/// `AllocError` where memory runs out.
pub fn pattern_mentions<'a>(
    alloc: Global,
    pattern: &'a Part,
) -> Result<Vec<Mention<'a>>, AllocError>
    ensures { IfOk result (λ found. mentions_told found.items ≡ mentioned_by pattern.now) }
{
    let mut found = Vec::new(alloc);
    add_part(&mut found, pattern, false)?;
    Ok(found)
}

/// What a query names, in the order in which it is written.
///
/// # Errors
///
/// `AllocError` where memory runs out.
pub fn query_mentions<'a>(
    alloc: Global,
    patterns: &'a [Part],
) -> Result<Vec<Mention<'a>>, AllocError>
    ensures { IfOk result (λ found. mentions_told found.items ≡ named_in patterns.now) }
{
    let mut found = Vec::new(alloc);
    add_parts(&mut found, patterns, false)?;
    Ok(found)
}

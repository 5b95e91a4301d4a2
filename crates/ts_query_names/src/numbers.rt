//! Numbers of kinds, captures and fields: what a query names and a grammar in normal form go in,
//! and sets in which each name's place is its number come out.
ghost use Rattle.std.specs.Prelude.{◌≡◌, ◌≤◌, ◌<◌, ◌^◌, length, position, IfOk, OnOk, IfSome};
ghost use Rattle.std.specs.List.{flat_map, list_any};
ghost use Rattle.std.specs.Str.{bytes_eq};
ghost use Rattle.indexmap.specs.IndexSet.{insert_key};
ghost use Rattle.ts_query_names.specs.Kinds.{kind_eq, with_new, first_sights};
ghost use Rattle.ts_query_names.specs.Lent.{mention_told, mentions_told};
ghost use Rattle.ts_query_names.specs.LentNames.{told, kinds_told};
ghost use Rattle.ts_query_names.specs.Mentions.{kind_named, kinds_named, operand_capture, any_capture, any_captures, item_capture, item_captures};

use crate::kinds::add_kind;
use crate::mention::Mention;
use indexmap::IndexSet;
use std::alloc::{AllocError, Global};
use ts_core::{FlatGrammar, Str};
use ts_query_tree::Operand;

/// The kinds and captures of a query by first sight, and the fields of its grammar. A name's place
/// is its number.
#[derive(Drop)]
pub struct Numbers<'a> {
    pub kinds: IndexSet<(&'a Str, bool)>,
    pub captures: IndexSet<&'a Str>,
    pub fields: &'a [Str],
    ghost few_kinds: { length kinds.keys ≤ 2 ^ 32 },
    ghost few_captures: { length captures.keys ≤ 2 ^ 16 },
    ghost few_fields: { length fields.now ≤ 2 ^ 16 },
}

fn add_mention_kind<'a>(
    found: &mut IndexSet<(&'a Str, bool)>,
    mention: &Mention<'a>,
) -> Result<(), AllocError>
    ensures { OnOk result (kinds_told found.new.keys
        ≡ with_new kind_eq (kinds_told found.old.keys) (kind_named (mention_told mention.now))) }
{
    match mention {
        Mention::Kind(name, named) => add_kind(found, &name.text, *named),
        Mention::Field(_) => Ok(()),
        Mention::Capture(_) => Ok(()),
        Mention::Predicate(_, _) => Ok(()),
        Mention::Nested(_) => Ok(()),
    }
}

pub(crate) fn kinds_in<'a>(
    alloc: Global,
    mentions: &[Mention<'a>],
) -> Result<IndexSet<(&'a Str, bool)>, AllocError>
    ensures { IfOk result (λ found.
        kinds_told found.keys ≡ first_sights kind_eq (kinds_named (mentions_told mentions.now))) }
{
    let mut found = IndexSet::new(alloc);
    for mention in mentions {
        add_mention_kind(&mut found, mention)?;
    }
    Ok(found)
}

fn add_name<'a>(found: &mut IndexSet<&'a Str>, name: &'a Str) -> Result<(), AllocError>
    ensures { OnOk result (told found.new.keys
        ≡ insert_key bytes_eq (told found.old.keys) name.now) }
{
    found.insert(name)?;
    Ok(())
}

fn add_operand<'a>(found: &mut IndexSet<&'a Str>, operand: &'a Operand) -> Result<(), AllocError>
    ensures { OnOk result (told found.new.keys
        ≡ with_new bytes_eq (told found.old.keys) (operand_capture operand.now)) }
{
    match operand {
        Operand::Capture(name) => add_name(found, &name.text),
        Operand::Text(_) => Ok(()),
        Operand::Name(_) => Ok(()),
    }
}

fn add_operands<'a>(
    found: &mut IndexSet<&'a Str>,
    operands: &'a [Operand],
) -> Result<(), AllocError>
    ensures { OnOk result (told found.new.keys
        ≡ with_new bytes_eq (told found.old.keys) (flat_map operand_capture operands.now)) }
{
    for operand in operands {
        add_operand(found, operand)?;
    }
    Ok(())
}

fn add_any_capture<'a>(
    found: &mut IndexSet<&'a Str>,
    mention: &Mention<'a>,
) -> Result<(), AllocError>
    ensures { OnOk result (told found.new.keys
        ≡ with_new bytes_eq (told found.old.keys) (any_capture (mention_told mention.now))) }
{
    match mention {
        Mention::Capture(name) => add_name(found, &name.text),
        Mention::Predicate(_, operands) => add_operands(found, operands.as_slice()),
        Mention::Kind(_, _) => Ok(()),
        Mention::Field(_) => Ok(()),
        Mention::Nested(_) => Ok(()),
    }
}

/// The captures of items and in predicates.
pub(crate) fn captures_in<'a>(
    alloc: Global,
    mentions: &[Mention<'a>],
) -> Result<IndexSet<&'a Str>, AllocError>
    ensures { IfOk result (λ found.
        told found.keys ≡ first_sights bytes_eq (any_captures (mentions_told mentions.now))) }
{
    let mut found = IndexSet::new(alloc);
    for mention in mentions {
        add_any_capture(&mut found, mention)?;
    }
    Ok(found)
}

fn add_item_capture<'a>(
    found: &mut IndexSet<&'a Str>,
    mention: &Mention<'a>,
) -> Result<(), AllocError>
    ensures { OnOk result (told found.new.keys
        ≡ with_new bytes_eq (told found.old.keys) (item_capture (mention_told mention.now))) }
{
    match mention {
        Mention::Capture(name) => add_name(found, &name.text),
        Mention::Predicate(_, _) => Ok(()),
        Mention::Kind(_, _) => Ok(()),
        Mention::Field(_) => Ok(()),
        Mention::Nested(_) => Ok(()),
    }
}

/// The captures of a pattern's items.
pub fn own_captures<'a>(
    alloc: Global,
    mentions: &[Mention<'a>],
) -> Result<IndexSet<&'a Str>, AllocError>
    ensures { IfOk result (λ found.
        told found.keys ≡ first_sights bytes_eq (item_captures (mentions_told mentions.now))) }
{
    let mut found = IndexSet::new(alloc);
    for mention in mentions {
        add_item_capture(&mut found, mention)?;
    }
    Ok(found)
}

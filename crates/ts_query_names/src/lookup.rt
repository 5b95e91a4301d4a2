//! Numbers that are looked up: a name goes in, and its number comes out.
ghost use Rattle.std.specs.Prelude.{◌≡◌, ◌≤◌, ◌<◌, ◌^◌, length, position, IfOk, IfSome};
ghost use Rattle.std.specs.Str.{bytes_eq};
ghost use Rattle.ts_query_names.specs.Given.{names_told};
ghost use Rattle.ts_query_names.specs.Kinds.{kind_eq, first_sights};
ghost use Rattle.ts_query_names.specs.Lent.{mentions_told};
ghost use Rattle.ts_query_names.specs.LentNames.{told, kinds_told};
ghost use Rattle.ts_query_names.specs.Mentions.{kinds_named, any_captures};
ghost use Rattle.ts_query_names.specs.Numbers.{kind_number, capture_number, field_number};

use crate::asking::place_of;
use crate::mention::Mention;
use crate::numbers::{Numbers, captures_in, kinds_in};
use indexmap::IndexSet;
use std::alloc::{AllocError, Global};
use ts_core::{FlatGrammar, Str};

fn kind_place(kinds: &IndexSet<(&Str, bool)>, name: &Str, named: bool) -> Option<usize>
    ensures place { result ≡ position (kind_eq (name.now, named)) (kinds_told kinds.now.keys) }
    ensures within { IfSome result (λ place. place < length kinds.now.keys) }
{
    kinds.get_index_of(&(name, named))
}

fn capture_place(captures: &IndexSet<&Str>, name: &Str) -> Option<usize>
    ensures place { result ≡ position (bytes_eq name.now) (told captures.now.keys) }
    ensures within { IfSome result (λ place. place < length captures.now.keys) }
{
    captures.get_index_of(&name)
}

impl<'a> Numbers<'a> {
    /// The number of a kind that the query names.
    pub fn kind(&self, name: &Str, named: bool) -> u32
        ensures { result ≡ kind_number (names_told self.now) name.now named }
    {
        match kind_place(&self.kinds, name, named) {
            Some(place) => place as u32,
            None => 0,
        }
    }

    /// The number of a capture of the query.
    pub fn capture(&self, name: &Str) -> u16
        ensures { result ≡ capture_number (names_told self.now) name.now }
    {
        match capture_place(&self.captures, name) {
            Some(place) => place as u16,
            None => 0,
        }
    }

    /// The number of a field of the grammar. It goes over the grammar's fields.
    pub fn field(&self, name: &Str) -> u16
        ensures { result ≡ field_number (names_told self.now) name.now }
    {
        match place_of(self.fields, name.text()) {
            Some(place) => place as u16,
            None => 0,
        }
    }
}

/// The numbers of what a query names.
///
/// # Errors
///
/// `AllocError` where memory runs out.
pub fn numbers_of<'a>(
    alloc: Global,
    flat: &'a FlatGrammar,
    mentions: &[Mention<'a>],
) -> Result<Numbers<'a>, AllocError>
    requires few_fields { length flat.now.fields ≤ 2 ^ 16 }
    requires few_kinds { length (kinds_named (mentions_told mentions.now)) ≤ 2 ^ 32 }
    requires few_captures { length (any_captures (mentions_told mentions.now)) ≤ 2 ^ 16 }
    ensures kinds { IfOk result (λ n. (names_told n).kinds
        ≡ first_sights kind_eq (kinds_named (mentions_told mentions.now))) }
    ensures captures { IfOk result (λ n. (names_told n).captures
        ≡ first_sights bytes_eq (any_captures (mentions_told mentions.now))) }
    ensures fields { IfOk result (λ n. (names_told n).fields ≡ flat.now.fields) }
{
    let kinds = kinds_in(alloc, mentions)?;
    let captures = captures_in(alloc, mentions)?;
    Ok(Numbers {
        kinds,
        captures,
        fields: flat.fields.as_slice(),
    })
}

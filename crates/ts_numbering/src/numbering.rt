//! What the numbers of a grammar rest on: lists in which a place is a number.

ghost use Rattle.std.specs.Prelude.{◌<◌, ◌+◌, length};
ghost use Rattle.ts_numbering.specs.Limits.{most_numbers};

use crate::survey::Survey;
use indexmap::IndexSet;
use ts_core::Str;

/// The numbers of a grammar, as places in lists.
#[derive(Drop)]
pub struct Numbering<'a> {
    pub survey: Survey<'a>,
    /// The field names by first sight.
    pub fields: IndexSet<&'a Str>,
    /// The precedence names by first sight.
    pub precs: IndexSet<&'a Str>,
    /// The aliases by first sight, each by its name and whether it is named.
    pub aliases: IndexSet<(&'a Str, bool)>,
    ghost few_symbols: { 1 + length survey.tokens.keys + length survey.rules.entries
        + length survey.contents.keys + length survey.inlined.entries < most_numbers },
    ghost few_fields: { length fields.keys < most_numbers },
    ghost few_precs: { length precs.keys < most_numbers },
}

//! What a query is judged by: a grammar in normal form and the names of a host's predicates.
ghost use Rattle.std.specs.Prelude.{◌≡◌, ◌≤◌, ◌^◌, length, IfOk};
ghost use Rattle.ts_query_names.specs.Kinds.{kind_eq, first_sights, grammar_kinds};
ghost use Rattle.ts_query_names.specs.LentNames.{kinds_told};

use crate::kinds::kinds_of;
use indexmap::IndexSet;
use std::alloc::{AllocError, Global};
use ts_core::{FlatGrammar, Str};

/// What a query is judged by: a grammar, with the kinds of its nodes, and the names of a host's
/// predicates.
#[derive(Drop)]
pub struct Scope<'a> {
    pub(crate) flat: &'a FlatGrammar,
    pub(crate) hosts: &'a [Str],
    pub(crate) kinds: IndexSet<(&'a Str, bool)>,
    ghost known: { kinds_told kinds.keys ≡ first_sights kind_eq (grammar_kinds flat.now) },
    ghost few: { length hosts.now ≤ 2 ^ 32 },
}

impl<'a> Scope<'a> {
    /// The scope of a grammar and a host. It goes over the whole grammar.
    ///
    /// # Errors
    ///
    /// `AllocError` where memory runs out.
    pub fn of(
        alloc: Global,
        flat: &'a FlatGrammar,
        hosts: &'a [Str],
    ) -> Result<Scope<'a>, AllocError>
        requires few { length hosts.now ≤ 2 ^ 32 }
        ensures flat { IfOk result (λ scope. scope.flat.now ≡ flat.now) }
        ensures hosts { IfOk result (λ scope. scope.hosts.now ≡ hosts.now) }
    {
        let kinds = kinds_of(alloc, flat)?;
        Ok(Scope { flat, hosts, kinds })
    }
}

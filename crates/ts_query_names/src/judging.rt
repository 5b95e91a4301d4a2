//! Names that are judged: a kind or a field goes in, and its fault comes out where the grammar has
//! none of that name.
ghost use Rattle.std.specs.Prelude.{◌≡◌, is_some, position};
ghost use Rattle.std.specs.List.{list_any};
ghost use Rattle.std.specs.Str.{bytes_eq};
ghost use Rattle.ts_query_names.specs.Checks.{kind_checks, field_checks, capture_checks, wrong_unless};
ghost use Rattle.ts_query_names.specs.Given.{Gives};
ghost use Rattle.ts_query_names.specs.Kinds.{kind_eq, grammar_kinds};
ghost use Rattle.ts_query_names.specs.LentNames.{told};

use crate::asking::place_of;
use crate::flaw::Flaw;
use crate::kinds::has_kind;
use crate::scope::Scope;
use indexmap::IndexSet;
use ts_core::Str;
use ts_query_tree::Written;

/// A fault, unless it is known that there is none.
fn unless(known: bool, flaw: Flaw) -> Result<(), Flaw>
    ensures { Gives (wrong_unless known flaw) result }
{
    if known {
        return Ok(());
    }
    Err(flaw)
}

impl<'a> Scope<'a> {
    /// Whether nodes of the grammar can have the kind.
    #[tactic(auto, using(crate::proofs::ScopeLemmas::known_kind))]
    fn knows_kind(&self, name: &Str, named: bool) -> bool
        ensures { result
            ≡ list_any (kind_eq (name.now, named)) (grammar_kinds self.now.flat.now) }
    {
        has_kind(&self.kinds, name, named)
    }

    fn knows_field(&self, name: &Str) -> bool
        ensures { result ≡ is_some (position (bytes_eq name.now) self.now.flat.now.fields) }
    {
        place_of(self.flat.fields.as_slice(), name.text()).is_some()
    }

    /// Judges a kind of nodes.
    ///
    /// # Errors
    ///
    /// `Flaw::UnknownNode` where no node of the grammar can have it.
    pub fn check_kind(&self, name: &Written, named: bool) -> Result<(), Flaw>
        ensures { Gives (kind_checks self.now.flat.now name.now named) result }
    {
        unless(
            self.knows_kind(&name.text, named),
            Flaw::UnknownNode(name.at),
        )
    }

    /// Judges a field. It goes over the fields of the grammar.
    ///
    /// # Errors
    ///
    /// `Flaw::UnknownField` where the grammar has none of that name.
    pub fn check_field(&self, name: &Written) -> Result<(), Flaw>
        ensures { Gives (field_checks self.now.flat.now name.now) result }
    {
        unless(self.knows_field(&name.text), Flaw::UnknownField(name.at))
    }
}

fn is_own(own: &IndexSet<&Str>, name: &Str) -> bool
    ensures { result ≡ list_any (bytes_eq name.now) (told own.now.keys) }
{
    own.contains(&name)
}

/// Judges a capture of a predicate by those of its pattern's items.
pub(crate) fn check_capture(own: &IndexSet<&Str>, name: &Written) -> Result<(), Flaw>
    ensures { Gives (capture_checks (told own.now.keys) name.now) result }
{
    unless(is_own(own, &name.text), Flaw::UnknownCapture(name.at))
}

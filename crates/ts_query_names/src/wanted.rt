//! Predicates that are judged: a predicate that is written goes in, and what it asks, or its first
//! fault, comes out.
ghost use Rattle.std.specs.Prelude.{◌≡◌, ◌≤◌, ◌^◌, [], ◌∷◌, length, Some, None, IfOk, IfErr, IfSome, IfNone};
ghost use Rattle.std.specs.List.{flat_map};
ghost use Rattle.ts_query_names.specs.Asking.{asking_of, asked_form, form_of_operands, form_captures};
ghost use Rattle.ts_query_names.specs.Checks.{capture_checks, form_checks};
ghost use Rattle.ts_query_names.specs.Given.{Gives, BeginWith, IsWanted};
ghost use Rattle.ts_query_names.specs.LentForms.{form_told};
ghost use Rattle.ts_query_names.specs.LentNames.{told};

use crate::asking::{Asking, asking_of};
use crate::flaw::Flaw;
use crate::form::{Form, form_of};
use crate::judging::check_capture;
use crate::scope::Scope;
use indexmap::IndexSet;
use ts_core::Str;
use ts_query_tree::{Operand, Written};

/// What a predicate asks, by its name and its operands.
#[derive(Clone, Copy)]
pub struct Wanted<'a> {
    pub asking: Asking,
    pub form: Form<'a>,
}

#[tactic(auto, using(crate::proofs::ScopeLemmas::gives_laws))]
fn check_pair(own: &IndexSet<&Str>, first: &Written, other: &Written) -> Result<(), Flaw>
    ensures { Gives (flat_map (capture_checks (told own.now.keys)) (first.now ∷ other.now ∷ []))
        result }
{
    check_capture(own, first)?;
    check_capture(own, other)
}

fn check_one(own: &IndexSet<&Str>, first: &Written) -> Result<(), Flaw>
    ensures { Gives (flat_map (capture_checks (told own.now.keys)) (first.now ∷ [])) result }
{
    check_capture(own, first)
}

fn check_form(own: &IndexSet<&Str>, form: &Form) -> Result<(), Flaw>
    ensures { Gives (flat_map (capture_checks (told own.now.keys))
        (form_captures (form_told form.now))) result }
{
    match form {
        Form::Text(first, _) => check_one(own, first),
        Form::Pair(first, other) => check_pair(own, first, other),
        Form::OneOf(first, _) => check_one(own, first),
        Form::Found(first, _) => check_one(own, first),
        Form::Host(first, _) => check_one(own, first),
    }
}

/// What a predicate asks, where its name is known and its operands are as it asks.
fn meant<'a>(hosts: &[Str], name: &Str, operands: &'a [Operand]) -> Option<Wanted<'a>>
    requires few { length hosts.now ≤ 2 ^ 32 }
    ensures some { IfSome result (λ w. (asking_of hosts.now name.now ≡ Some w.asking)
        × (form_of_operands w.asking.relation operands.now ≡ Some (form_told w.form))) }
    ensures none { IfNone result
        (asked_form (asking_of hosts.now name.now) operands.now ≡ None) }
{
    match asking_of(hosts, name.text()) {
        Some(asking) => meant_by(asking, operands),
        None => None,
    }
}

fn meant_by<'a>(asking: Asking, operands: &'a [Operand]) -> Option<Wanted<'a>>
    ensures some { IfSome result (λ w. (w.asking ≡ asking)
        × (form_of_operands asking.relation operands.now ≡ Some (form_told w.form))) }
    ensures none { IfNone result (form_of_operands asking.relation operands.now ≡ None) }
{
    match form_of(asking.relation, operands) {
        Some(form) => Some(Wanted { asking, form }),
        None => None,
    }
}

impl<'a> Scope<'a> {
    /// Judges a predicate by the captures of its pattern's items.
    ///
    /// # Errors
    ///
    /// `Flaw::UnknownPredicate` where its name is not known or its operands are not as it asks, and
    /// else `Flaw::UnknownCapture` at its first capture that is on no item.
    pub fn wanted<'b>(
        &self,
        own: &IndexSet<&Str>,
        name: &Written,
        operands: &'b [Operand],
    ) -> Result<Wanted<'b>, Flaw>
        ensures ok { IfOk result
            (IsWanted self.now.hosts.now (told own.now.keys) name.now operands.now) }
        ensures refused { IfErr result (BeginWith (form_checks (told own.now.keys) name.now.at
            (asked_form (asking_of self.now.hosts.now name.now.text) operands.now))) }
    {
        let Some(wanted) = meant(self.hosts, &name.text, operands) else {
            return Err(Flaw::UnknownPredicate(name.at));
        };
        check_form(own, &wanted.form)?;
        Ok(wanted)
    }
}

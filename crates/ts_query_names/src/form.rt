//! The operands of predicates: operands go in, and what they ask comes out, where they are of the
//! form that a predicate takes.
ghost use Rattle.std.specs.Prelude.{◌≡◌};
ghost use Rattle.std.specs.List.{list_all};
ghost use Rattle.ts_query_tree.specs.Trees.{is_nil};
ghost use Rattle.ts_query_names.specs.Asking.{equal_to, found_by, alone, is_text, are_texts, one_of_texts, with_host, form_behind, form_from, form_of_operands};
ghost use Rattle.ts_query_names.specs.LentForms.{forms_told};

use crate::asking::Relation;
use ts_query_tree::{Operand, Written};

/// What a predicate's operands ask of the texts of the first capture's nodes.
#[derive(Clone, Copy)]
pub enum Form<'a> {
    /// To be a text.
    Text(&'a Written, &'a Written),
    /// To be the texts of another capture's nodes.
    Pair(&'a Written, &'a Written),
    /// To be one of the texts, of which there is at least one.
    OneOf(&'a Written, &'a [Operand]),
    /// That an expression finds something.
    Found(&'a Written, &'a Written),
    /// What a host knows, by its place in the list of hosts.
    Host(&'a Written, u32),
}

fn equal_to<'a>(first: &'a Written, other: &'a Operand) -> Option<Form<'a>>
    ensures { forms_told result ≡ equal_to first.now other.now }
{
    match other {
        Operand::Capture(name) => Some(Form::Pair(first, name)),
        Operand::Text(text) => Some(Form::Text(first, text)),
        Operand::Name(_) => None,
    }
}

fn found_by<'a>(first: &'a Written, other: &'a Operand) -> Option<Form<'a>>
    ensures { forms_told result ≡ found_by first.now other.now }
{
    match other {
        Operand::Capture(_) => None,
        Operand::Text(text) => Some(Form::Found(first, text)),
        Operand::Name(_) => None,
    }
}

#[tactic(auto, using(crate::proofs::FormLemmas::alone_laws))]
fn equal_form<'a>(first: &'a Written, rest: &'a [Operand]) -> Option<Form<'a>>
    ensures { forms_told result ≡ alone (equal_to first.now) rest.now }
{
    if rest.len() == 1 {
        return equal_to(first, &rest[0]);
    }
    None
}

#[tactic(auto, using(crate::proofs::FormLemmas::alone_laws))]
fn found_form<'a>(first: &'a Written, rest: &'a [Operand]) -> Option<Form<'a>>
    ensures { forms_told result ≡ alone (found_by first.now) rest.now }
{
    if rest.len() == 1 {
        return found_by(first, &rest[0]);
    }
    None
}

fn is_text(operand: &Operand) -> bool
    ensures { result ≡ is_text operand.now }
{
    match operand {
        Operand::Capture(_) => false,
        Operand::Text(_) => true,
        Operand::Name(_) => false,
    }
}

fn is_nil(operands: &[Operand]) -> bool
    ensures { result ≡ is_nil operands.now }
{
    operands.is_empty()
}

fn all_texts(operands: &[Operand]) -> bool
    ensures { result ≡ list_all is_text operands.now }
{
    operands.iter().all(|operand| is_text(operand))
}

fn one_of_form<'a>(first: &'a Written, rest: &'a [Operand]) -> Option<Form<'a>>
    ensures { forms_told result ≡ one_of_texts first.now rest.now }
{
    if is_nil(rest) {
        return None;
    }
    if all_texts(rest) {
        return Some(Form::OneOf(first, rest));
    }
    None
}

fn host_form<'a>(first: &'a Written, place: u32, rest: &[Operand]) -> Option<Form<'a>>
    ensures { forms_told result ≡ with_host first.now place rest.now }
{
    if is_nil(rest) {
        return Some(Form::Host(first, place));
    }
    None
}

fn form_behind<'a>(relation: Relation, first: &'a Written, rest: &'a [Operand]) -> Option<Form<'a>>
    ensures { forms_told result ≡ form_behind relation first.now rest.now }
{
    match relation {
        Relation::Equal => equal_form(first, rest),
        Relation::Found => found_form(first, rest),
        Relation::OneOf => one_of_form(first, rest),
        Relation::Host(place) => host_form(first, place, rest),
    }
}

fn form_from<'a>(relation: Relation, first: &'a Operand, rest: &'a [Operand]) -> Option<Form<'a>>
    ensures { forms_told result ≡ form_from relation first.now rest.now }
{
    match first {
        Operand::Capture(name) => form_behind(relation, name, rest),
        Operand::Text(_) => None,
        Operand::Name(_) => None,
    }
}

/// The form of a predicate's operands, where they are as its name asks.
#[tactic(auto, using(crate::proofs::FormLemmas::form_split))]
pub fn form_of<'a>(relation: Relation, operands: &'a [Operand]) -> Option<Form<'a>>
    ensures { forms_told result ≡ form_of_operands relation operands.now }
{
    if is_nil(operands) {
        return None;
    }
    let (_, rest) = operands.split_at(1);
    form_from(relation, &operands[0], rest)
}

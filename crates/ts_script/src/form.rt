//! A line in; what it says out.
ghost use Rattle.std.specs.Prelude.{◌≡◌, ◌↔◌, ℕ, List, [], map, All, Some, None, MatchOption, IfOk, IsTrue, string_bytes};
ghost use Rattle.serde_json.specs.Data.{Data, Items, Members as AnyMembers, no_members, member, string, array, object};
ghost use Rattle.serde_json.specs.View.{view, members_view, items_view, items_of};
ghost use Rattle.ts_base.specs.Bytes.{Bytes};
ghost use Rattle.ts_script.specs.Said as spec;
ghost use Rattle.ts_script.specs.Said.{Says, IsNumber, HasPlaces, whole, piece_data, said_members, with_op, action_members};
ghost use Rattle.ts_script.specs.Forms as forms;
ghost use Rattle.ts_script.specs.Forms.{FindsOne, IsWritten, FindsForm, FindsAction, AreAll};
ghost use Rattle.ts_script.specs.declared.said.Action.{Action as AnyAction};
ghost use Rattle.ts_script.specs.declared.said.Said.{Said as AnySaid};
ghost use Rattle.ts_script.specs.declared.said.Said.TheVariants as said;
ghost use Rattle.ts_script.specs.declared.said.Piece.{Piece as AnyPiece};

use crate::members::{self, Members};
use crate::said::{Action, ActionForm, Form, Piece, Said};
use serde_json::{Map, Value};
use std::alloc::{AllocError, Global};
use ts_core::{List, Str};

/// What a line says, and none where it has no form of a line.
///
/// # Errors
///
/// `AllocError` where memory runs out.
pub(crate) fn said(alloc: Global, line: &[u8]) -> Result<Option<Said>, AllocError>
    ensures { IfOk result (FindsOne (Says line.now)) }
{
    match Value::from_slice(alloc, line) {
        Ok(value) => in_value(alloc, value),
        Err(fault) => {
            if fault.is_memory() {
                Err(AllocError)
            } else {
                Ok(None)
            }
        }
    }
}

/// What a value says.
fn in_value(alloc: Global, value: Value) -> Result<Option<Said>, AllocError>
    ensures { IfOk result
        (FindsOne (λ said. spec.IsSaid said × (view value ≡ object (said_members said)))) }
{
    match form_of(&value) {
        Some(form) => of_form(alloc, value, form),
        None => Ok(None),
    }
}

/// What a value of this form says.
fn of_form(alloc: Global, value: Value, form: Form) -> Result<Option<Said>, AllocError>
    ensures { IfOk result (λ found. MatchOption found
        ((said : AnySaid) → forms.line_form said ≡ form → spec.IsSaid said
        → view value ≡ object (said_members said) → ⊥)
        (λ said. spec.IsSaid said × (view value ≡ object (said_members said)))) }
{
    match value {
        Value::Object(map) => in_form(alloc, map.into_iter(), form),
        _ => Ok(None),
    }
}

/// The form that a value may have, by its member `op`.
fn form_of(value: &Value) -> Option<Form>
    ensures { (said : AnySaid) → view value.now ≡ object (said_members said)
        → result ≡ Some (forms.line_form said) }
{
    let has_path = value.get("path").is_some();
    let has_parts = value.get("parts").is_some();
    form_named(value.get("op")?.as_str()?, has_path, has_parts)
}

/// The form that the word of `op` stands for.
fn form_named(word: &str, has_path: bool, has_parts: bool) -> Option<Form>
    ensures { result ≡ forms.form_named word.now has_path has_parts }
{
    if word == "open" {
        Some(if has_path { Form::Path } else { Form::Text })
    } else if word == "load" {
        Some(Form::Load)
    } else {
        Some(Form::Step(action_named(word, has_parts)?))
    }
}

fn action_named(word: &str, has_parts: bool) -> Option<ActionForm>
    ensures { result ≡ forms.action_named word.now has_parts }
{
    if word == "edit" {
        Some(if has_parts {
            ActionForm::Changes
        } else {
            ActionForm::Change
        })
    } else if word == "look" {
        Some(ActionForm::Look)
    } else if word == "query" {
        Some(ActionForm::Query)
    } else if word == "tree" {
        Some(ActionForm::Tree)
    } else if word == "await" {
        Some(ActionForm::Await)
    } else {
        None
    }
}

fn in_form(alloc: Global, mut members: Members, form: Form) -> Result<Option<Said>, AllocError>
    ensures { IfOk result (FindsForm form (members_view members)) }
{
    match form {
        Form::Text => Ok(opening(&mut members)),
        Form::Path => Ok(opening_at(&mut members)),
        Form::Load => Ok(load(&mut members)),
        Form::Step(form) => step(alloc, &mut members, form),
    }
}

fn opening(members: &mut Members) -> Option<Said>
    ensures { MatchOption result
        ((text : Bytes) → members_view members.old ≡ said_members (said.Text text) → ⊥)
        (IsWritten (members_view members.old)) }
{
    let text = only_text(members, "open", "text")?;
    Some(Said::Text(text))
}

fn opening_at(members: &mut Members) -> Option<Said>
    ensures { MatchOption result
        ((path : Bytes) → members_view members.old ≡ said_members (said.Path path) → ⊥)
        (IsWritten (members_view members.old)) }
{
    let path = only_text(members, "open", "path")?;
    Some(Said::Path(path))
}

fn load(members: &mut Members) -> Option<Said>
    ensures { MatchOption result
        ((source : Bytes) → members_view members.old ≡ said_members (said.Load source) → ⊥)
        (IsWritten (members_view members.old)) }
{
    let source = only_text(members, "load", "source")?;
    Some(Said::Load(source))
}

/// The text under this name, where the word of `op` is the one other member.
fn only_text(members: &mut Members, word: &str, name: &str) -> Option<Str>
    ensures { FindsOne (λ (text : Bytes). members_view members.old
        ≡ with_op word.now (member name.now (string text) no_members)) result }
{
    if !members::has_op(members, word) {
        return None;
    }
    let text = members::text(members, name)?;
    if members::is_end(members) {
        Some(text)
    } else {
        None
    }
}

fn step(alloc: Global, members: &mut Members, form: ActionForm) -> Result<Option<Said>, AllocError>
    ensures { IfOk result (λ found. MatchOption found
        ((client document : ℕ) (act : AnyAction) → forms.action_form act ≡ form
        → IsWritten (members_view members.old) (said.Step client document act) → ⊥)
        (IsWritten (members_view members.old))) }
{
    let Some((client, document)) = place(members) else {
        return Ok(None);
    };
    match action(alloc, members, form)? {
        Some(action) => Ok(Some(Said::Step {
            client,
            document,
            action,
        })),
        None => Ok(None),
    }
}

/// The client and the document of a step.
fn place(members: &mut Members) -> Option<(u32, u32)>
    ensures { MatchOption result
        ((client document : ℕ) (rest : AnyMembers) → IsNumber client → IsNumber document
        → members_view members.old ≡ forms.with_place client document rest → ⊥)
        (λ p. IsNumber p.0 × IsNumber p.1
        × (members_view members.old ≡ forms.with_place p.0 p.1 (members_view members.new))) }
{
    let client = members::number(members, "client")?;
    let document = members::number(members, "document")?;
    Some((client, document))
}

fn action(
    alloc: Global,
    members: &mut Members,
    form: ActionForm,
) -> Result<Option<Action>, AllocError>
    ensures { IfOk result (FindsAction form (members_view members.old)) }
{
    match form {
        ActionForm::Change => Ok(change(members)),
        ActionForm::Changes => changes(alloc, members),
        ActionForm::Look => Ok(look(members)),
        ActionForm::Query => query(alloc, members),
        ActionForm::Tree => Ok(tree(members)),
        ActionForm::Await => Ok(awaited(members)),
    }
}

fn look(members: &mut Members) -> Option<Action>
    ensures { FindsAction ActionForm.Look (members_view members.old) result }
{
    if is_plain(members, "look") {
        Some(Action::Look)
    } else {
        None
    }
}

fn tree(members: &mut Members) -> Option<Action>
    ensures { FindsAction ActionForm.Tree (members_view members.old) result }
{
    if is_plain(members, "tree") {
        Some(Action::Tree)
    } else {
        None
    }
}

/// Whether the word of `op` is all that is left.
fn is_plain(members: &mut Members, word: &str) -> bool
    ensures { IsTrue result ↔ (members_view members.old ≡ with_op word.now no_members) }
{
    members::has_op(members, word) && members::is_end(members)
}

fn awaited(members: &mut Members) -> Option<Action>
    ensures { FindsAction ActionForm.Await (members_view members.old) result }
{
    if !members::has_op(members, "await") {
        return None;
    }
    let version = members::number(members, "version")?;
    if members::is_end(members) {
        Some(Action::Await(version))
    } else {
        None
    }
}

fn change(members: &mut Members) -> Option<Action>
    ensures { FindsAction ActionForm.Change (members_view members.old) result }
{
    let end = members::number(members, "end")?;
    let new = members::text(members, "new")?;
    if !members::has_op(members, "edit") {
        return None;
    }
    let start = members::number(members, "start")?;
    if members::is_end(members) {
        Some(Action::Change(Piece { start, end, new }))
    } else {
        None
    }
}

fn changes(alloc: Global, members: &mut Members) -> Result<Option<Action>, AllocError>
    ensures { IfOk result (FindsAction ActionForm.Changes (members_view members.old)) }
{
    match listed(members, "edit", "parts") {
        Some(values) => match pieces(alloc, values)? {
            Some(pieces) => Ok(Some(Action::Changes(pieces))),
            None => Ok(None),
        },
        None => Ok(None),
    }
}

fn query(alloc: Global, members: &mut Members) -> Result<Option<Action>, AllocError>
    ensures { IfOk result (FindsAction ActionForm.Query (members_view members.old)) }
{
    match listed(members, "query", "queries") {
        Some(values) => match numbers(alloc, values)? {
            Some(numbers) => Ok(Some(Action::Query(numbers))),
            None => Ok(None),
        },
        None => Ok(None),
    }
}

/// The values of a list that is not empty, where the word of `op` is the one other member.
fn listed(members: &mut Members, word: &str, name: &str) -> Option<Vec<Value>>
    ensures { MatchOption result
        ((list : List Data) → (list ≡ [] → ⊥)
        → members_view members.old ≡ forms.with_list word.now name.now (items_of list) → ⊥)
        (λ found. (map view found.items ≡ [] → ⊥)
        × (members_view members.old
        ≡ forms.with_list word.now name.now (items_view found.items))) }
{
    let values = only_items(members, word, name)?;
    if is_empty(&values) {
        None
    } else {
        Some(values)
    }
}

fn is_empty(values: &Vec<Value>) -> bool
    ensures { IsTrue result ↔ (values.now.items ≡ []) }
{
    values.is_empty()
}

/// The list under this name, where the word of `op` is the one other member.
fn only_items(members: &mut Members, word: &str, name: &str) -> Option<Vec<Value>>
    ensures { MatchOption result
        ((items : Items) → members_view members.old
        ≡ forms.with_list word.now name.now items → ⊥)
        (λ found. members_view members.old
        ≡ forms.with_list word.now name.now (items_view found.items)) }
{
    if !members::has_op(members, word) {
        return None;
    }
    let values = members::items(members, name)?;
    if members::is_end(members) {
        Some(values)
    } else {
        None
    }
}

/// What each of several values has as a range and what comes in its place.
fn pieces(alloc: Global, values: Vec<Value>) -> Result<Option<List<Piece>>, AllocError>
    ensures { IfOk result (FindsOne (AreAll HasPlaces piece_data (map view values.items))) }
{
    let mut found = List::new(alloc);
    for value in values {
        match piece(value) {
            Some(piece) => found.push(piece)?,
            None => return Ok(None),
        }
    }
    Ok(Some(found))
}

fn piece(value: Value) -> Option<Piece>
    ensures { FindsOne (λ (p : AnyPiece). HasPlaces p × (view value ≡ piece_data p)) result }
{
    match value {
        Value::Object(map) => piece_in(map),
        _ => None,
    }
}

fn piece_in(map: Map<String, Value>) -> Option<Piece>
    ensures { FindsOne (λ (p : AnyPiece). HasPlaces p
        × (object (members_view map.entries) ≡ piece_data p)) result }
{
    let mut members = map.into_iter();
    let end = members::number(&mut members, "end")?;
    let new = members::text(&mut members, "new")?;
    let start = members::number(&mut members, "start")?;
    if members::is_end(&mut members) {
        Some(Piece { start, end, new })
    } else {
        None
    }
}

/// The number that each of several values is.
fn numbers(alloc: Global, values: Vec<Value>) -> Result<Option<List<u32>>, AllocError>
    ensures { IfOk result (FindsOne (AreAll IsNumber whole (map view values.items))) }
{
    let mut found = List::new(alloc);
    for value in values {
        match members::small(&value) {
            Some(number) => found.push(number)?,
            None => return Ok(None),
        }
    }
    Ok(Some(found))
}

//! What predicates ask: a form that is written goes in, and what it asks, with its expression
//! built, comes out.
ghost use Rattle.std.specs.Prelude.{◌≡◌, ◌∷◌, ◌++◌, [], map, IfOk, OnOk};
ghost use Rattle.ts_query_names.specs.Asking.{form_pattern, text_in, texts_in};
ghost use Rattle.ts_query_names.specs.Checks.{pattern};
ghost use Rattle.ts_query_names.specs.Given.{names_told};
ghost use Rattle.ts_query_names.specs.LentForms.{form_told};
ghost use Rattle.ts_query_syntax.specs.Judging.{Runs, kept, fault_in};
ghost use Rattle.ts_query_syntax.specs.Queries.{AsksFor, subject, written_texts};
ghost use Rattle.ts_query_syntax.specs.Refusals.{IsBuiltFrom};

use crate::fault::QueryFault;
use crate::patterns::{BuildFault, Patterns};
use crate::read_query::Asked;
use regex::Regex;
use std::alloc::{AllocError, Global};
use ts_base::{List, Str};
use ts_query_names::{Form, Numbers};
use ts_query_tree::{Operand, Written};

/// Builds an expression.
fn built<P: Patterns>(alloc: Global, patterns: &mut P, text: &Written) -> Result<Regex, QueryFault>
    ensures runs { Runs (pattern text.now ∷ [])
        (kept (P.sources patterns.old) (P.refusals patterns.old))
        (kept (P.sources patterns.new) (P.refusals patterns.new)) (fault_in result) }
    ensures is { IfOk result (IsBuiltFrom text.now.text) }
{
    match patterns.build(alloc, text.text.text()) {
        Ok(search) => Ok(search),
        Err(BuildFault::Refused) => Err(QueryFault::Regex(text.at)),
        Err(BuildFault::Memory) => Err(QueryFault::Memory),
    }
}

/// Puts a text at the end, where the operand is one.
fn add_text(alloc: Global, found: &mut List<Str>, operand: &Operand) -> Result<(), AllocError>
    ensures { OnOk result (found.new ≡ found.old ++ written_texts (text_in operand.now)) }
{
    match operand {
        Operand::Text(text) => {
            found.push(Str::from_text(alloc, text.text.text())?)?;
            Ok(())
        }
        Operand::Capture(_) => Ok(()),
        Operand::Name(_) => Ok(()),
    }
}

/// The texts among operands.
fn texts(alloc: Global, operands: &[Operand]) -> Result<List<Str>, AllocError>
    ensures { IfOk result (λ found. found ≡ written_texts (texts_in operands.now)) }
{
    let mut found = List::new(alloc);
    for operand in operands {
        add_text(alloc, &mut found, operand)?;
    }
    Ok(found)
}

fn asked_text(alloc: Global, text: &Written) -> Result<Asked, AllocError>
    ensures { IfOk result (λ asked. asked ≡ Asked.Text text.now.text) }
{
    let text = Str::from_text(alloc, text.text.text())?;
    Ok(Asked::Text(text))
}

fn asked_texts(alloc: Global, operands: &[Operand]) -> Result<Asked, AllocError>
    ensures { IfOk result (λ asked. asked ≡ Asked.OneOf (written_texts (texts_in operands.now))) }
{
    let texts = texts(alloc, operands)?;
    Ok(Asked::OneOf(texts))
}

/// What a form asks. An expression is built.
pub(crate) fn asked<P: Patterns>(
    alloc: Global,
    numbers: &Numbers,
    patterns: &mut P,
    form: &Form,
) -> Result<Asked, QueryFault>
    ensures runs { Runs (map pattern (form_pattern (form_told form.now)))
        (kept (P.sources patterns.old) (P.refusals patterns.old))
        (kept (P.sources patterns.new) (P.refusals patterns.new)) (fault_in result) }
    ensures is { IfOk result (AsksFor (names_told numbers.now) (form_told form.now)) }
{
    match form {
        Form::Text(_, text) => {
            let asked = asked_text(alloc, text)?;
            Ok(asked)
        }
        Form::Pair(_, other) => Ok(Asked::Capture(numbers.capture(&other.text))),
        Form::OneOf(_, operands) => {
            let asked = asked_texts(alloc, operands)?;
            Ok(asked)
        }
        Form::Found(_, text) => {
            let search = built(alloc, patterns, text)?;
            Ok(Asked::Found(search))
        }
        Form::Host(_, place) => Ok(Asked::Host(*place)),
    }
}

/// The capture whose texts a form asks for.
pub(crate) fn subject<'a>(form: &Form<'a>) -> &'a Written
    ensures { result.now ≡ subject (form_told form.now) }
{
    match form {
        Form::Text(first, _) => first,
        Form::Pair(first, _) => first,
        Form::OneOf(first, _) => first,
        Form::Found(first, _) => first,
        Form::Host(first, _) => first,
    }
}

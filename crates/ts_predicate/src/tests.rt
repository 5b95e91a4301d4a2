//! A host made of a closure, and what it answers.
ghost use Rattle.std.specs.Prelude.{◌≡◌, length, IsTrue, ◌↔◌, IfOk};
ghost use Rattle.ts_predicate.specs.HostAnswers.{AnswersRule};

use crate::closure::{HostCall, HostClosure, HostRule};
use crate::hosts::Hosts;
use std::alloc::{AllocError, Global};
use ts_base::{List, Str};

/// The predicate of a number holds of the texts with so many bytes.
struct OfLength;

impl HostRule for OfLength {
    ghost accepts = { λ number text. length text ≡ number };
}

/// Its predicates.
fn names_of(alloc: Global) -> Result<List<Str>, AllocError>
    ensures { IfOk result (λ names. length names ≡ 2) }
{
    let mut names = List::new(alloc);
    names.push(Str::from_text(alloc, "empty?")?)?;
    names.push(Str::from_text(alloc, "byte?")?)?;
    Ok(names)
}

/// What a host with a predicate for each number below 2 answers, one answer for each text.
fn answers<C: HostCall + Drop>(
    alloc: Global,
    call: C,
    number: u32,
    text: &str,
) -> Result<Option<bool>, AllocError>
    requires { AnswersRule (C.may call) (C.gives call) (λ number text. length text ≡ number) 2 }
{
    let host: HostClosure<C, OfLength> = HostClosure::new(names_of(alloc)?, call);
    if number as usize >= host.names().len() {
        return Ok(None);
    }
    Ok(Some(host.holds(number, text)))
}

#[test]
fn a_closure_answers(rt: HostRuntime) -> Result<(), AllocError> {
    for (number, text, wanted) in [
        (0, "", Some(true)),
        (0, "a", Some(false)),
        (1, "", Some(false)),
        (1, "a", Some(true)),
        (1, "é", Some(false)),
        (2, "ab", None),
    ] {
        let call = |number: u32, text: &str| text.len() == number as usize;
        assert_eq!(rt;
            answers(rt.alloc(), call, number, text)?,
            wanted,
            "{number} {text}"
        );
    }
    Ok(())
}

//! A host made of a closure: names and a call go in, and what answers for the predicates of these
//! names comes out.
ghost use Rattle.std.specs.Prelude.{◌≡◌, ℕ, ◌<◌, ◌↔◌, Bool, List, IsTrue, length};
ghost use Rattle.std.specs.Borrow.{Bor};
ghost use Rattle.ts_base.specs.Bytes.{Bytes};
ghost use Rattle.ts_predicate.specs.HostAnswers.{AnswersRule};

use crate::hosts::Hosts;
use std::marker::{Model, PhantomData};
use ts_base::{List, Str};

/// What the predicates of a host mean.
pub trait HostRule {
    /// The texts for which the predicate of a number holds.
    ghost accepts: { ℕ → Bytes → Type 0 };
}

/// What may be asked by the number of a predicate and a text, as each closure of these.
pub trait HostCall {
    /// It may be asked by a number and a text.
    ghost may: { Self → ℕ → Bytes → Type 0 };

    /// It may answer so.
    ghost gives: { Self → ℕ → Bytes → Bool → Type 0 };

    /// What it answers.
    fn ask(&self, number: u32, text: &str) -> bool
        requires { may self.now number text.now }
        ensures { gives self.now number text.now result };
}

impl<F: Fn(u32, &str) -> bool> HostCall for F {
    ghost may = { λ f number text. (lent : Bor Bytes) → lent.now ≡ text → F.pre f number lent };

    ghost gives = { λ f number text answer. (lent : Bor Bytes) × (lent.now ≡ text)
        × F.post f number lent answer };

    fn ask(&self, number: u32, text: &str) -> bool {
        self(number, text)
    }
}

/// A host made of a list of names and a closure that answers for them. It keeps the fact that the
/// closure may be called for each name and each text, and then answers by the rule.
///
/// A function that makes such a host is generic over the closure, and is called with it: where the
/// closure's own type is known, the host has no proof yet.
///
/// ```text
/// struct Ascii;
///
/// impl HostRule for Ascii {
///     ghost accepts = { λ _ text. IsAscii text };
/// }
///
/// fn keeps<C: HostCall + Drop>(names: List<Str>, call: C, ..) -> ..
///     requires { AnswersRule (C.may call) (C.gives call) (λ _ text. IsAscii text) (length names) }
/// {
///     let hosts: HostClosure<C, Ascii> = HostClosure::new(names, call);
///     let mut predicates = Predicates::new(query, text, &hosts);
///     ..
/// }
///
/// keeps(names, |_number: u32, text: &str| text.is_ascii(), ..)
/// ```
#[derive(Drop)]
pub struct HostClosure<C: HostCall, M: HostRule> {
    names: List<Str>,
    call: C,
    rule: PhantomData<M>,
}

impl<C: HostCall, M: HostRule> Model for HostClosure<C, M> {
    ghost use Rattle.std.specs.Prelude.{List, length};
    ghost use Rattle.ts_base.specs.Bytes.{Bytes};
    ghost use Rattle.ts_predicate.specs.HostAnswers.{AnswersRule};

    ghost Value = { List Bytes };

    ghost view = { λ host. host.names };

    ghost invariant = { λ host. AnswersRule (C.may host.call) (C.gives host.call) M.accepts
        (length host.names) };
}

impl<C: HostCall, M: HostRule> HostClosure<C, M> {
    /// The host with predicates of these names, each without its `#`, for which the closure
    /// answers.
    pub fn new(names: List<Str>, call: C) -> HostClosure<C, M>
        requires { AnswersRule (C.may call) (C.gives call) M.accepts (length names) }
        ensures { result ≡ names }
    {
        HostClosure {
            names,
            call,
            rule: PhantomData,
        }
    }
}

impl<C: HostCall, M: HostRule> Hosts for HostClosure<C, M> {
    ghost called = { λ names. names };

    ghost accepts = { λ _. M.accepts };

    fn names(&self) -> &List<Str> {
        &self.names
    }

    fn holds(&self, number: u32, text: &str) -> bool {
        self.call.ask(number, text)
    }
}

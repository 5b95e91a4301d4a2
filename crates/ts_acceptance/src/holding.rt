//! A gate and a host for runs of scripts: which client is held before which of its steps, and for
//! whom, goes in; whether all came in time comes out.
ghost use Rattle.std.specs.Prelude.{◌≡◌, ◌∷◌, [], codes};

use serde::Deserialize;
use std::alloc::{AllocError, Global};
use std::sync::atomic::{AtomicBool, AtomicU32, Ordering};
use std::thread;
use ts_base::{List, Str};
use ts_io::Gate;
use ts_predicate::Hosts;

/// How often a held client looks whether the other has come.
const MOST_LOOKS: u32 = 10_000_000;

/// How many clients a script has at most.
const MOST_CLIENTS: usize = 16;

/// A step of a client, both counted from 0.
#[derive(Clone, Copy, Debug, Deserialize)]
#[serde(deny_unknown_fields)]
pub(crate) struct Stand {
    pub client: u32,
    pub step: u32,
}

/// A client is held before a step until another has come to one of its own, or to a later one.
#[derive(Clone, Copy, Debug, Deserialize)]
#[serde(deny_unknown_fields)]
pub(crate) struct Hold {
    pub at: Stand,
    pub until: Stand,
}

/// A client is held before a step until the predicate `hold?` is asked, and this predicate then
/// waits until a client has come to a step.
#[derive(Clone, Copy, Debug, Deserialize)]
#[serde(deny_unknown_fields)]
pub(crate) struct Meeting {
    pub held: Stand,
    pub until: Stand,
}

/// What a client or a host waits for.
#[derive(Clone, Copy)]
enum Wanted {
    /// That a client has come to a step.
    Step(Stand),
    /// That the host was asked.
    Asked,
}

/// The gate that holds the clients of a row.
#[derive(Drop)]
pub(crate) struct Holding {
    holds: Vec<Hold>,
    meeting: Option<Meeting>,
    /// Whether the host was asked.
    asked: AtomicBool,
    /// To how many of its steps each client has come.
    come: Vec<AtomicU32>,
    /// Whether someone waited in vain.
    overran: AtomicBool,
}

impl Holding {
    /// The gate before all steps.
    pub(crate) fn new(
        alloc: Global,
        holds: &[Hold],
        meeting: Option<Meeting>,
    ) -> Result<Holding, AllocError> {
        let mut come = Vec::with_capacity(alloc, MOST_CLIENTS)?;
        for _ in 0..MOST_CLIENTS {
            come.push(AtomicU32::new(0))?;
        }
        Ok(Holding {
            holds: Vec::from_slice(alloc, holds)?,
            meeting,
            asked: AtomicBool::new(false),
            come,
            overran: AtomicBool::new(false),
        })
    }

    /// Whether someone was let go before that for which it waited had come.
    pub(crate) fn overran(&self) -> bool {
        self.overran.load(Ordering::SeqCst)
    }

    /// Whether the client has come to the step.
    fn has_come(&self, to: Stand) -> bool {
        match self.come.as_slice().get(to.client as usize) {
            Some(steps) => to.step < steps.load(Ordering::SeqCst),
            None => false,
        }
    }

    /// Whether what is waited for is there.
    fn is_there(&self, wanted: Wanted) -> bool {
        match wanted {
            Wanted::Step(stand) => self.has_come(stand),
            Wanted::Asked => self.asked.load(Ordering::SeqCst),
        }
    }

    /// Waits until it is there.
    fn wait(&self, wanted: Wanted) {
        for _ in 0..MOST_LOOKS {
            if self.is_there(wanted) {
                return;
            }
            thread::yield_now();
        }
        self.overran.store(true, Ordering::SeqCst);
    }
}

impl Gate for Holding {
    fn pass(&self, client: u32, step: u32) {
        if let Some(steps) = self.come.as_slice().get(client as usize) {
            steps.store(step.saturating_add(1), Ordering::SeqCst);
        }
        for hold in &self.holds {
            if hold.at.client == client && hold.at.step == step {
                self.wait(Wanted::Step(hold.until));
            }
        }
        if let Some(Meeting { held, until: _ }) = self.meeting {
            if held.client == client && held.step == step {
                self.wait(Wanted::Asked);
            }
        }
    }
}

/// A host with one predicate, `hold?`, that holds of each text, once a client has come to a step.
#[derive(Drop)]
pub(crate) struct WaitingHost<'a> {
    names: List<Str>,
    gate: &'a Holding,
    until: Stand,
    ghost named: { names ≡ codes "hold?" ∷ [] },
}

impl<'a> WaitingHost<'a> {
    /// The host, which asks the gate who has come.
    pub(crate) fn new(
        alloc: Global,
        gate: &'a Holding,
        until: Stand,
    ) -> Result<WaitingHost<'a>, AllocError> {
        let mut names = List::new(alloc);
        names.push(Str::from_text(alloc, "hold?")?)?;
        Ok(WaitingHost { names, gate, until })
    }
}

impl Hosts for WaitingHost<'_> {
    ghost use Rattle.std.specs.Prelude.{◌∷◌, [], codes};

    ghost called = { λ _. codes "hold?" ∷ [] };

    ghost accepts = { λ _ _ _. Unit };

    fn names(&self) -> &List<Str> {
        &self.names
    }

    fn holds(&self, _number: u32, _text: &str) -> bool {
        self.gate.asked.store(true, Ordering::SeqCst);
        self.gate.wait(Wanted::Step(self.until));
        true
    }
}

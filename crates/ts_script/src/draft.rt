//! Lines of a script in, one by one; what they ask for out.
ghost use Rattle.std.specs.Prelude.{◌≡◌, ◌≢◌, ◌↔◌, ◌<◌, ◌≤◌, ◌+◌, ℕ, List as AnyList, [], ◌∷◌, ◌++◌, length, map, max, suc, All, IfOk, IfErr, OnOk, None, MatchOption, IsTrue};
ghost use Rattle.ts_text.specs.Text.{most_bytes};
ghost use Rattle.ts_script.specs.declared.said.Said.{Said as AnySaid};
ghost use Rattle.ts_script.specs.declared.plan.ScriptStep.{ScriptStep as AnyStep};
ghost use Rattle.ts_script.specs.declared.said.Action.{Action as AnyAction};
ghost use Rattle.ts_script.specs.declared.said.Said.TheVariants as spec;
ghost use Rattle.ts_script.specs.Drafts.{IsDraft, IsSmall, IsAccepted, IsRefused, HaveSteps, Extends, with_step};
ghost use Rattle.ts_script.specs.Rules as rules;
ghost use Rattle.ts_script.specs.Rules.{StandsRight, WithinLimits, AsksBelow, IsSmallAction, IsSmallPiece, Asks};
ghost use Rattle.ts_script.specs.Script.{Follows, FailsAt};

use crate::cut::is_blank;
use crate::fault::SFault;
use crate::form::said;
use crate::plan::{Plan, ScriptStep, Source};
use crate::said::{Action, Piece, Said};
use std::alloc::{AllocError, Global};
use ts_core::{List, Str};
use ts_text::{Edit, MOST_BYTES, Part, Text, TextFault};

/// The most clients, numbered from 0.
const MOST_CLIENTS: u32 = 16;

const MOST_DOCUMENTS: usize = 16;

const MOST_QUERIES: usize = 64;

/// The most bytes of a query.
const MOST_QUERY_BYTES: usize = 65_536;

/// The most queries that one step asks.
const MOST_ASKED: usize = 64;

/// The most ranges that one edit replaces.
const MOST_PARTS: usize = 1_000;

/// The most steps of all clients together.
const MOST_STEPS: u32 = 100_000;

/// What the lines ask for so far.
#[derive(Drop)]
pub(crate) struct Draft {
    documents: List<Source>,
    queries: List<Str>,
    clients: Vec<List<ScriptStep>>,
    /// How many steps the clients have together.
    steps: u32,
}

impl Draft {
    /// What no line asks for.
    pub(crate) fn new(alloc: Global) -> Draft
        ensures { IsDraft [] result }
    {
        Draft {
            documents: List::new(alloc),
            queries: List::new(alloc),
            clients: Vec::new(alloc),
            steps: 0,
        }
    }

    pub(crate) fn into_plan(self) -> Plan
        ensures { (said : AnyList AnySaid) → IsDraft said self → Asks said result }
    {
        let Draft {
            documents,
            queries,
            clients,
            steps: _,
        } = self;
        Plan {
            documents,
            queries,
            clients: List::from_vec(clients),
        }
    }

    /// Takes the line of this number.
    pub(crate) fn read(&mut self, alloc: Global, line: &[u8], number: u32) -> Result<(), SFault>
        ensures ok { OnOk result ((before : AnyList AnySaid) → IsDraft before self.old
            → (after : AnyList AnySaid) × Follows before line.now after × IsDraft after self.new) }
        ensures refused { IfErr result (λ e. e ≢ SFault.Memory → (before : AnyList AnySaid)
            → IsDraft before self.old → FailsAt before line.now number e) }
    {
        if is_blank(line) {
            return Ok(());
        }
        match said(alloc, line)? {
            Some(said) => {
                self.judge(alloc, said, number)?;
                Ok(())
            }
            None => Err(SFault::Line(number)),
        }
    }

    /// Takes what the line of this number says.
    fn judge(&mut self, alloc: Global, said: Said, number: u32) -> Result<(), SFault>
        ensures ok { OnOk result ((before : AnyList AnySaid) → IsDraft before self.old
            → IsAccepted before said × IsDraft (before ++ said ∷ []) self.new) }
        ensures refused { IfErr result (λ e. e ≢ SFault.Memory → (before : AnyList AnySaid)
            → IsDraft before self.old → IsRefused before said number e) }
    {
        match self.verdict(&said, number) {
            Some(fault) => Err(fault),
            None => {
                self.take(alloc, said)?;
                Ok(())
            }
        }
    }

    /// The fault of what the line of this number says, if it has one.
    fn verdict(&self, said: &Said, number: u32) -> Option<SFault>
        ensures judged { MatchOption result
            ((before : AnyList AnySaid) → IsDraft before self.now → IsAccepted before said.now)
            (λ e. (before : AnyList AnySaid) → IsDraft before self.now
            → IsRefused before said.now number e) }
        ensures small { result ≡ None → IsSmall self.now.steps said.now }
    {
        if !self.is_in_order(said) {
            Some(SFault::Order(number))
        } else if !self.is_within_limits(said) {
            Some(SFault::Limit(number))
        } else {
            None
        }
    }

    fn is_in_order(&self, said: &Said) -> bool
        ensures { (before : AnyList AnySaid) → IsDraft before self.now
            → (IsTrue result ↔ StandsRight before said.now) }
    {
        match said {
            Said::Text(_) | Said::Path(_) | Said::Load(_) => self.steps == 0,
            Said::Step {
                client: _,
                document,
                action,
            } => {
                (*document as usize) < self.documents.len()
                    && asks_below(self.queries.len(), action)
            }
        }
    }

    fn is_within_limits(&self, said: &Said) -> bool
        ensures limits { (before : AnyList AnySaid) → IsDraft before self.now
            → (IsTrue result ↔ WithinLimits before said.now) }
        ensures small { IsTrue result → IsSmall self.now.steps said.now }
    {
        match said {
            Said::Text(text) => self.has_room() && text.len() <= MOST_BYTES as usize,
            Said::Path(_) => self.has_room(),
            Said::Load(source) => {
                self.queries.len() < MOST_QUERIES && source.len() <= MOST_QUERY_BYTES
            }
            Said::Step {
                client,
                document: _,
                action,
            } => { *client < MOST_CLIENTS && self.steps < MOST_STEPS && is_small(action) }
        }
    }

    /// Whether there may be another document.
    fn has_room(&self) -> bool
        ensures { IsTrue result ↔ (length self.now.documents < rules.most_documents) }
    {
        self.documents.len() < MOST_DOCUMENTS
    }

    fn take(&mut self, alloc: Global, said: Said) -> Result<(), AllocError>
        requires { IsSmall self.old.steps said }
        ensures { OnOk result ((before : AnyList AnySaid) → IsDraft before self.old
            → IsDraft (before ++ said ∷ []) self.new) }
    {
        match said {
            Said::Text(text) => {
                let text = text_of(alloc, &text)?;
                self.open(Source::Inline(text))?;
                Ok(())
            }
            Said::Path(path) => {
                self.open(Source::Path(path))?;
                Ok(())
            }
            Said::Load(source) => {
                self.load(source)?;
                Ok(())
            }
            Said::Step {
                client,
                document,
                action,
            } => {
                let step = step_of(alloc, document, action)?;
                self.add(alloc, client as usize, step)?;
                Ok(())
            }
        }
    }

    /// Adds a document.
    fn open(&mut self, source: Source) -> Result<(), AllocError>
        ensures { OnOk result ((before : AnyList AnySaid) (said : AnySaid)
            → IsDraft before self.old → rules.source_in said ≡ source ∷ []
            → IsDraft (before ++ said ∷ []) self.new) }
    {
        self.documents.push(source)?;
        Ok(())
    }

    /// Adds a query.
    fn load(&mut self, source: Str) -> Result<(), AllocError>
        ensures { OnOk result ((before : AnyList AnySaid) → IsDraft before self.old
            → IsDraft (before ++ spec.Load source ∷ []) self.new) }
    {
        self.queries.push(source)?;
        Ok(())
    }

    /// Adds a step of a client.
    fn add(&mut self, alloc: Global, client: usize, step: ScriptStep) -> Result<(), AllocError>
        requires client { client < rules.most_clients }
        requires steps { self.old.steps < rules.most_script_steps }
        ensures { OnOk result ((before : AnyList AnySaid) (document : ℕ) (act : AnyAction)
            → IsDraft before self.old → step ≡ rules.step_of document act
            → IsDraft (before ++ spec.Step client document act ∷ []) self.new) }
    {
        extend(alloc, &mut self.clients, client)?;
        put(&mut self.clients, client, step)?;
        self.steps += 1;
        Ok(())
    }
}

/// Adds clients without steps, so that there is this one.
fn extend(
    alloc: Global,
    clients: &mut Vec<List<ScriptStep>>,
    client: usize,
) -> Result<(), AllocError>
    requires { client < rules.most_clients }
    ensures count { OnOk result
        (length clients.new.items ≡ max (suc client) (length clients.old.items)) }
    ensures steps { OnOk result (Extends clients.old.items clients.new.items) }
{
    while clients.len() <= client {
        push_empty(alloc, clients)?;
    }
    Ok(())
}

/// Adds a client without steps.
fn push_empty(alloc: Global, clients: &mut Vec<List<ScriptStep>>) -> Result<(), AllocError>
    ensures count { OnOk result
        (length clients.new.items ≡ length clients.old.items + 1) }
    ensures steps { OnOk result ((old : AnyList (AnyList AnyStep))
        → length old ≤ length clients.old.items → Extends old clients.old.items
        → Extends old clients.new.items) }
{
    clients.push(List::new(alloc))?;
    Ok(())
}

/// Puts a step behind those of a client.
fn put(
    clients: &mut Vec<List<ScriptStep>>,
    client: usize,
    step: ScriptStep,
) -> Result<(), AllocError>
    requires { client < length clients.old.items }
    ensures count { OnOk result (length clients.new.items ≡ length clients.old.items) }
    ensures steps { OnOk result ((steps_by : ℕ → AnyList AnyStep)
        → HaveSteps steps_by clients.old.items
        → HaveSteps (with_step client step steps_by) clients.new.items) }
{
    clients[client].push(step)?;
    Ok(())
}

/// Whether the step asks queries of the first so many.
fn asks_below(loaded: usize, action: &Action) -> bool
    ensures { IsTrue result ↔ AsksBelow loaded action.now }
{
    match action {
        Action::Query(numbers) => {
            numbers
                .as_slice()
                .iter()
                .all(|number| (*number as usize) < loaded)
        }
        Action::Change(_) | Action::Changes(_) | Action::Look | Action::Tree | Action::Await(_) =>
            true,
    }
}

fn is_small(action: &Action) -> bool
    ensures { IsTrue result ↔ IsSmallAction action.now }
{
    match action {
        Action::Change(piece) => is_small_piece(piece),
        Action::Changes(pieces) => {
            pieces.len() <= MOST_PARTS
                && pieces.as_slice().iter().all(|piece| is_small_piece(piece))
        }
        Action::Query(numbers) => numbers.len() <= MOST_ASKED,
        Action::Look | Action::Tree | Action::Await(_) => true,
    }
}

fn is_small_piece(piece: &Piece) -> bool
    ensures { IsTrue result ↔ IsSmallPiece piece.now }
{
    piece.new.len() <= MOST_BYTES as usize
}

fn step_of(alloc: Global, document: u32, action: Action) -> Result<ScriptStep, AllocError>
    requires { IsSmallAction action }
    ensures { IfOk result (λ step. step ≡ rules.step_of document action) }
{
    match action {
        Action::Change(piece) => {
            let mut parts = List::new(alloc);
            parts.push(part_of(alloc, &piece)?)?;
            Ok(ScriptStep::Edit {
                document,
                edit: Edit { parts },
            })
        }
        Action::Changes(pieces) => {
            let parts = parts_of(alloc, pieces.as_slice())?;
            Ok(ScriptStep::Edit {
                document,
                edit: Edit { parts },
            })
        }
        Action::Look => Ok(ScriptStep::Look { document }),
        Action::Query(queries) => Ok(ScriptStep::Query { document, queries }),
        Action::Tree => Ok(ScriptStep::Tree { document }),
        Action::Await(version) => Ok(ScriptStep::Await { document, version }),
    }
}

fn parts_of(alloc: Global, pieces: &[Piece]) -> Result<List<Part>, AllocError>
    requires { All IsSmallPiece pieces.now }
    ensures { IfOk result (λ parts. parts ≡ map rules.part_of pieces.now) }
{
    let mut parts = List::with_capacity(alloc, pieces.len())?;
    for piece in pieces {
        parts.push(part_of(alloc, piece)?)?;
    }
    Ok(parts)
}

fn part_of(alloc: Global, piece: &Piece) -> Result<Part, AllocError>
    requires { IsSmallPiece piece.now }
    ensures { IfOk result (λ part. part ≡ rules.part_of piece.now) }
{
    let new = text_of(alloc, &piece.new)?;
    Ok(Part {
        start: piece.start,
        end: piece.end,
        new,
    })
}

/// The bytes of a string as a text.
fn text_of(alloc: Global, text: &Str) -> Result<Text, AllocError>
    requires { length text.now ≤ most_bytes }
    ensures { IfOk result (λ copy. copy ≡ text.now) }
{
    match Text::from_bytes(alloc, text.text().as_bytes()) {
        Ok(text) => Ok(text),
        Err(TextFault::Utf8(_) | TextFault::Size(_)) => unreachable!(),
        Err(TextFault::Memory) => Err(AllocError),
    }
}

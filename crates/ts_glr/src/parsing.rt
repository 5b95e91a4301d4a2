//! Parsing a text from its start, with what is offered of an old tree, or without: the table, the
//! lexer, the text and the offers go in; what the text comes to, over all ways to read it, comes
//! out.
ghost use Rattle.std.specs.Prelude.{◌≡◌, ℕ, ◌≤◌, ◌⊎◌, Some, length, IfOk};
ghost use Rattle.spec_trees.specs.declared.tree.Tree.{Tree};
ghost use Rattle.spec_trees.specs.declared.tree.Stretch.{Stretch};
ghost use Rattle.spec_trees.specs.Made.{most_span};
ghost use Rattle.spec_runs.specs.Outcomes.{Fresh};
ghost use Rattle.spec_forced.specs.Sound.{States};
ghost use Rattle.spec_crossing.specs.Resting.{IsPastStuck};
ghost use Rattle.ts_steps.specs.Heads.{AreStatesOf};
ghost use Rattle.ts_steps.specs.Reparsing.{AreHonest, AreHonestlyLent, IsLent, IsOffered};
ghost use Rattle.ts_glr.specs.Outcomes.{value_of_outcome, IsTreeOf, IsOwnOutcome, IsSoundOutcome};

use crate::crossing::Crossed;
use crate::laws::{laws_hold, packing_laws_hold};
use crate::outcome::Outcome;
use crate::spread::Spread;
use crate::turning::follow_fork;
use std::alloc::{AllocError, Global};
use ts_gss::Graph as Stacks;
use ts_lexer::{Content, Tokens};
use ts_offer::{Nothing, Offers};
use ts_steps::{Reparsed, StackHead, parse_setting, reparse, states_are_named};
use ts_table::Table;

/// The greater of a place and the greatest stuck place so far.
fn furthest(stuck: Option<u32>, place: u32) -> u32
    ensures mine { place ≤ result }
    ensures others { (q : ℕ) → IsPastStuck stuck q → q ≤ result }
    ensures from { (result ≡ place) ⊎ (stuck ≡ Some result) }
{
    match stuck {
        None => place,
        Some(old) => old.max(place),
    }
}

/// What a text comes to, over all ways to read it. Nodes and elements that are offered are taken
/// over where one stack is live. If what is offered is honest, this is the fresh outcome, and its
/// tree is sound. Where several moves stay on a token all ways are followed, until one stack is
/// left.
///
/// # Errors
///
/// `AllocError` where memory runs out.
pub fn parse_with<'t, L: Tokens, O: Offers<'t>>(
    alloc: Global,
    table: &Table,
    lexer: &mut L,
    text: &L::Text,
    offers: &mut O,
) -> Result<Outcome, AllocError>
    requires made { L.made_for lexer.old table.now }
    requires short { length (L.Text.bytes text.now) ≤ most_span }
    requires asked { O.least offers.old ≡ 0 }
    requires own { (place state : ℕ) (t : Tree) → O.gives offers.old place state t
        → IsOffered table.now.grammar t }
    requires lent { (place state symbol : ℕ) (s : Stretch)
        → O.lends offers.old place state symbol s → IsLent table.now.grammar s }
    ensures made { L.made_for lexer.new table.now }
    ensures form { IfOk result (IsTreeOf table.now.grammar) }
    ensures own { IfOk result (IsOwnOutcome table.now) }
    ensures fresh { IfOk result (λ out. (states : States) → AreStatesOf table.now states
        → AreHonest table.now.grammar states (L.Text.bytes text.now) (O.gives offers.old)
        → AreHonestlyLent table.now.grammar states (L.Text.bytes text.now) (O.lends offers.old)
        → Fresh table.now.grammar (L.Text.bytes text.now) (value_of_outcome out)
        × IsSoundOutcome table.now states (L.Text.bytes text.now) out) }
{
    laws_hold();
    packing_laws_hold();
    table.stands();
    let setting = parse_setting(alloc, table, text.len())?;
    let mut stacks = Stacks::new(alloc);
    let mut head = StackHead { top: 0, place: 0 };
    let mut stuck = None;
    let mut kept = None;
    let mut spread = Spread::new(alloc);
    loop {
        let own = &mut stacks;
        match reparse(alloc, table, &setting, lexer, text, offers, own, head, None)? {
            Reparsed::Accepted(root) => return Ok(Outcome::Accepted(root)),
            Reparsed::Stuck(place) => return Ok(Outcome::Stuck(furthest(stuck, place))),
            Reparsed::Deep => return Ok(Outcome::Deep),
            Reparsed::Forks(fork) => {
                match follow_fork(
                    alloc,
                    table,
                    &setting,
                    lexer,
                    text,
                    &mut stacks,
                    fork.head,
                    stuck,
                    &mut kept,
                    &mut spread,
                )? {
                    Crossed::One(left, place) => {
                        stacks = left.stacks;
                        head = left.head;
                        stuck = place;
                    }
                    Crossed::Told(outcome) => return Ok(outcome),
                }
            }
        }
    }
}

/// The fresh outcome of a text, over all ways to read it.
///
/// # Errors
///
/// `AllocError` where memory runs out.
pub fn parse<L: Tokens>(
    alloc: Global,
    table: &Table,
    lexer: &mut L,
    text: &L::Text,
) -> Result<Outcome, AllocError>
    requires made { L.made_for lexer.old table.now }
    requires short { length (L.Text.bytes text.now) ≤ most_span }
    ensures made { L.made_for lexer.new table.now }
    ensures fresh { IfOk result (λ out. Fresh table.now.grammar (L.Text.bytes text.now)
        (value_of_outcome out)) }
    ensures form { IfOk result (IsTreeOf table.now.grammar) }
{
    table.stands();
    states_are_named();
    let outcome = parse_with(alloc, table, lexer, text, &mut Nothing)?;
    Ok(outcome)
}

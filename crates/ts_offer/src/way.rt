//! The way down a tree: a place goes in, and the next node that reaches past it comes out, where
//! places do not fall; or the node in which the way stands.
ghost use Rattle.std.specs.Prelude.{◌≡◌, ◌+◌, ◌-◌, ◌<◌, ◌≤◌, ℕ, true, length, take, slice_get, vec_capacity, IfOk, IfSome};
ghost use Rattle.spec_trees.specs.Trees.{all_spans, children_of, elements_of};
ghost use Rattle.spec_trees.specs.Made.{most_span};
ghost use Rattle.ts_offer.specs.Ways.{IsBegun, IsLater, IsWay, LeadsTo, IsLeft, IsReachedLast, StandsIn, TurnsTo, rest_of};

use crate::topmost::{lead, span};
use std::alloc::{AllocError, Global};
use ts_node::Node;

/// A node whose children from one number on are still ahead.
#[derive(Clone, Copy)]
pub(crate) struct Turn<'t> {
    pub node: &'t Node,
    /// Where the node begins, if it is not the root.
    pub begins: Option<u32>,
    pub next: u32,
    /// Where the child of that number begins.
    pub place: u32,
}

/// A node that is still ahead, and where it begins.
#[derive(Clone, Copy)]
pub(crate) struct Ahead<'t> {
    pub node: &'t Node,
    pub place: u32,
}

/// What the next child of a turn is, seen from a place.
enum Step<'t> {
    /// There is no child left.
    Over,
    /// It ends behind the place, and does not begin before it.
    Next(Ahead<'t>),
    /// It ends at the place or before it: the turn after it, or after more such children.
    Past(Turn<'t>),
    /// It begins before the place and ends behind it: the turn after it, and the one at its first
    /// child.
    Into(Turn<'t>, Turn<'t>),
}

/// The nodes of a tree that are still ahead: those in the children left of each turn, the innermost
/// last. It has room for one turn a level.
#[derive(Drop)]
pub(crate) struct Way<'t> {
    pub root: &'t Node,
    pub turns: Vec<Turn<'t>>,
}

impl<'t> Way<'t> {
    /// The way from the start of a tree. Its root itself is not ahead.
    pub(crate) fn new(alloc: Global, root: &'t Node) -> Result<Way<'t>, AllocError>
        ensures way { IfOk result (λ way. IsWay way 0) }
        ensures root { IfOk result (λ way. way.root.now ≡ root.now) }
    {
        let _ = root.nodes();
        let mut turns = Vec::with_capacity(alloc, root.depth() as usize + 1)?;
        let first = Turn {
            node: root,
            begins: None,
            next: 0,
            place: lead(root),
        };
        turns.push(first)?;
        Ok(Way { root, turns })
    }

    /// Puts a turn on top. There is room for it.
    fn put(&mut self, turn: Turn<'t>)
        requires { length self.old.turns.items < vec_capacity self.old.turns }
        ensures { IsLeft self.old turn.entry self.new }
    {
        match self.turns.push(turn) {
            Ok(()) => {}
            Err(_) => unreachable!(),
        }
    }

    /// The turn in the node that begins last among those in which the way stands.
    pub(crate) fn innermost(&self) -> Option<Turn<'t>>
        requires { (place : ℕ) × IsWay self.now place }
        ensures stands { IfSome result (StandsIn self.now.root.now) }
        ensures last { result ≡ slice_get self.now.turns.items (length self.now.turns.items - 1) }
    {
        match self.turns.as_slice().last() {
            Some(turn) => Some(*turn),
            None => None,
        }
    }

    /// Passes all nodes that end at a place or before it, and goes into those that begin before it
    /// and end behind it. The answer is the next node ahead.
    pub(crate) fn go_to(&mut self, place: u32) -> Option<Ahead<'t>>
        requires { IsWay self.old place }
        ensures way { IsWay self.new place }
        ensures root { self.new.root.now ≡ self.old.root.now }
        ensures next { LeadsTo self.old.root.now place result }
        ensures last { IfSome result (IsReachedLast self.new.turns.items place) }
    {
        while let Some(turn) = self.turns.pop() {
            match toward(turn, place) {
                Step::Over => {}
                Step::Next(ahead) => {
                    self.put(turn);
                    return Some(ahead);
                }
                Step::Past(after) => self.put(after),
                Step::Into(after, inner) => {
                    self.put(after);
                    self.put(inner);
                }
            }
        }
        None
    }
}

/// What the next child of a turn is, seen from a place.
fn toward<'t>(turn: Turn<'t>, place: u32) -> Step<'t>
    requires within { turn.place + all_spans (rest_of turn) ≤ most_span }
    requires begun { IsBegun turn }
    ensures { TurnsTo turn.entry place result }
{
    if turn.next >= turn.node.children() {
        return Step::Over;
    }
    let child = turn.node.child(turn.next);
    let end = turn.place + span(child);
    if end > place && turn.place >= place {
        return Step::Next(Ahead {
            node: child,
            place: turn.place,
        });
    }
    let after = Turn {
        node: turn.node,
        begins: turn.begins,
        next: turn.next + 1,
        place: end,
    };
    if end <= place {
        return Step::Past(leapt(after, place));
    }
    let inner = Turn {
        node: child,
        begins: Some(turn.place),
        next: 0,
        place: turn.place,
    };
    Step::Into(after, inner)
}

/// A turn whose node's children before it end at the place or before it, or a later one of which
/// that is so. In a repetition the next child is told by bytes, where it is not that of the turn.
#[tactic(auto, using(crate::proofs::LeapLemmas::same_turn))]
fn leapt<'t>(turn: Turn<'t>, place: u32) -> Turn<'t>
    requires within { turn.place + all_spans (rest_of turn) ≤ most_span }
    requires begun { IsBegun turn }
    requires next { turn.next ≤ length (children_of turn.node.now) }
    requires ends { turn.place ≤ place }
    ensures { IsLater turn.entry place result }
{
    match turn.begins {
        Some(at) => {
            if passes_next(turn, place) {
                leapt_in(turn, at, place)
            } else {
                turn
            }
        }
        None => turn,
    }
}

/// Whether the next child of a turn in a repetition ends at the place or before it too.
fn passes_next<'t>(turn: Turn<'t>, place: u32) -> bool
    requires { turn.place + all_spans (rest_of turn) ≤ most_span }
    ensures { result ≡ true → 0 < length (elements_of turn.entry.node.now) }
{
    if turn.node.elements() == 0 {
        return false;
    }
    if turn.next >= turn.node.children() {
        return false;
    }
    let end = turn.place + span(turn.node.child(turn.next));
    end <= place
}

/// The turn in a repetition that begins at `at`, or that at the last element of it that begins at
/// the place or before it, where that is a later one.
#[tactic(auto, using(crate::proofs::LeapLemmas::same_turn))]
fn leapt_in<'t>(turn: Turn<'t>, at: u32, place: u32) -> Turn<'t>
    requires repetition { 0 < length (elements_of turn.node.now) }
    requires begun { turn.place ≡ at + all_spans (take turn.next (children_of turn.node.now)) }
    requires next { turn.next ≤ length (children_of turn.node.now) }
    requires ends { turn.place ≤ place }
    ensures { IsLater turn.entry place result }
{
    let _ = turn.node.nodes();
    let passed = place - at;
    let k = turn.node.last_by(passed);
    let next = turn.node.children_before(k);
    if next <= turn.next {
        return turn;
    }
    let start = at + turn.node.offset(k);
    Turn {
        node: turn.node,
        begins: turn.begins,
        next,
        place: start,
    }
}

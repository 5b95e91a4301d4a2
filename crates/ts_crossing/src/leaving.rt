//! From a graph of stacks back to a plain stack: a head goes in, and the stack that is the only one
//! below it, if there is one, comes out.
ghost use Rattle.std.specs.Prelude.{◌≡◌, ◌<◌, ◌++◌, ℕ, true, false, List, length, map, slice_get, Some, IfOk, MatchOption};
ghost use Rattle.spec_graph.specs.declared.graph.Link.{Link};
ghost use Rattle.spec_graph.specs.Laying.{Parsing};
ghost use Rattle.ts_gss.specs.Stacks.{stack_at, IsOneStack};
ghost use Rattle.ts_graph.specs.Ways.{AreAt};
ghost use Rattle.ts_graph.specs.Under.{layers_of, layer_of_link};
ghost use Rattle.ts_reductions.specs.SoundLinks.{IsSoundFor};
ghost use Rattle.ts_crossing.specs.Leaving.{IsStack, HasNoStack, layer_with_piece, IsLeft, IsAlone, IsOnlyDown, IsTokenTree, IsLastToken};

use crate::laws::leave_laws_hold;
use std::alloc::{AllocError, Global};
use ts_graph::Graph;
use ts_gss::Graph as Stacks;
use ts_node::{Node, NodeKind};
use ts_reductions::Piece;
use ts_steps::StackHead;

/// A stack that was made of a way down in a graph.
#[derive(Drop)]
pub struct Left {
    pub stacks: Stacks,
    pub head: StackHead,
}

/// Whether no earlier link leads down from the same head as this one.
fn is_alone(graph: &Graph, link: usize) -> bool
    requires { link < length graph.now.links }
    ensures yes { result ≡ true → IsAlone graph.now.links link }
    ensures no { result ≡ false → IsAlone graph.now.links link → ⊥ }
{
    match graph.next_down(link) {
        Some(_) => false,
        None => true,
    }
}

/// The only link that leads down from a head.
fn only_down(graph: &Graph, head: usize) -> Option<usize>
    requires { head < length graph.now.heads }
    ensures { MatchOption result ((k : ℕ) → IsOnlyDown graph.now.links head k → ⊥)
        (λ link. IsOnlyDown graph.now.links head link) }
{
    match graph.first_down(head) {
        None => None,
        Some(link) => {
            if is_alone(graph, link) {
                Some(link)
            } else {
                None
            }
        }
    }
}

/// Whether a node is a token that was shifted.
fn is_token(node: &Node) -> bool
    ensures yes { result ≡ true → IsTokenTree node.now }
    ensures no { result ≡ false → IsTokenTree node.now → ⊥ }
{
    match node.kind() {
        NodeKind::Leaf => !node.extra(),
        NodeKind::Rule(_) => false,
        NodeKind::Repetition => false,
    }
}

/// The same link, if its tree is a token that was shifted.
fn last_token(graph: &Graph, head: usize) -> Option<usize>
    requires { head < length graph.now.heads }
    ensures { MatchOption result ((k : ℕ) → IsLastToken graph.now.links head k → ⊥)
        (λ link. IsLastToken graph.now.links head link) }
{
    match only_down(graph, head) {
        None => None,
        Some(link) => {
            if is_token(graph.node(link)) {
                Some(link)
            } else {
                None
            }
        }
    }
}

/// The links down from a head of which this is the first, up to a head of the stack over which the
/// graph lies, if each is the only one from its head. The answer is that head.
fn links_down(
    graph: &Graph,
    head: usize,
    last: usize,
    numbers: &mut Vec<usize>,
) -> Result<Option<usize>, AllocError>
    requires last { IsLastToken graph.now.links head last }
    requires sound { (P : Parsing) × IsSoundFor P graph.now }
    ensures { IfOk result (λ found. MatchOption found (HasNoStack graph.now head)
        (λ foot. IsStack graph.now head numbers.new.items foot)) }
{
    leave_laws_hold();
    let _ = graph.count();
    let base = graph.base();
    numbers.clear();
    numbers.push(last)?;
    let mut at = graph.link(last).below;
    while at > base {
        match only_down(graph, at) {
            None => return Ok(None),
            Some(link) => {
                numbers.push(link)?;
                at = graph.link(link).below;
            }
        }
    }
    Ok(Some(at))
}

/// The links down from a head up to one of the stack over which the graph lies, the topmost first,
/// if there is one way alone down to the empty stack, and the topmost is a token that was shifted:
/// a parser may go on from their stack alone. The answer is the head of the stack where they end.
///
/// # Errors
///
/// `AllocError` where memory runs out.
pub fn one_stack(
    graph: &Graph,
    head: usize,
    numbers: &mut Vec<usize>,
) -> Result<Option<usize>, AllocError>
    requires there { head < length graph.now.heads }
    requires sound { (P : Parsing) × IsSoundFor P graph.now }
    ensures { IfOk result (λ found. MatchOption found (HasNoStack graph.now head)
        (λ foot. IsStack graph.now head numbers.new.items foot)) }
{
    leave_laws_hold();
    let _ = graph.count();
    match last_token(graph, head) {
        None => Ok(None),
        Some(last) => {
            let found = links_down(graph, head, last, numbers)?;
            Ok(found)
        }
    }
}

/// The tree of a link, the state of the head above it, and the greatest depth of the trees for
/// which it stands.
fn piece_of(graph: &Graph, link: usize) -> Result<Piece, AllocError>
    requires { link < length graph.now.links }
    ensures { IfOk result (λ piece. (l : Link) → slice_get graph.now.links link ≡ Some l
        → layer_with_piece piece ≡ layer_of_link graph.now.heads l) }
{
    let _ = graph.count();
    let edge = graph.link(link);
    let node = graph.node(link).try_clone()?;
    Ok(Piece {
        node,
        depth: edge.depth,
        state: graph.state(edge.above),
    })
}

/// The same of links, in their order.
fn pieces_of(alloc: Global, graph: &Graph, links: &[usize]) -> Result<Vec<Piece>, AllocError>
    requires { (way : List Link) × AreAt graph.now.links links.now way }
    ensures { IfOk result (λ pieces. (way : List Link) → AreAt graph.now.links links.now way
        → map layer_with_piece pieces.items ≡ layers_of graph.now.heads way) }
{
    let mut pieces = Vec::with_capacity(alloc, links.len())?;
    for link in links {
        pieces.push(piece_of(graph, *link)?)?;
    }
    Ok(pieces)
}

/// Puts trees on a stack, the last one first.
fn push_all(stacks: &mut Stacks, below: usize, pieces: Vec<Piece>) -> Result<usize, AllocError>
    requires { IsOneStack stacks.old below }
    ensures one { IfOk result (λ top. IsOneStack stacks.new top) }
    ensures stack { IfOk result (λ top. stack_at stacks.new top
        ≡ map layer_with_piece pieces.items ++ stack_at stacks.old below) }
{
    let mut left = pieces;
    let mut top = below;
    while let Some(piece) = left.pop() {
        top = stacks.push_packed(top, piece.node, piece.state, piece.depth)?;
    }
    Ok(top)
}

/// The stack of the only way down from a head, by the links down to the head of the stack over
/// which the graph lies where they end. It costs these links: what lies below is that stack
/// itself, which is taken out of the graph.
///
/// # Errors
///
/// `AllocError` where memory runs out.
pub fn leave(
    alloc: Global,
    graph: &mut Graph,
    head: usize,
    links: &[usize],
    foot: usize,
) -> Result<Left, AllocError>
    requires head { head < length graph.old.heads }
    requires stack { IsStack graph.old head links.now foot }
    ensures { IfOk result (λ left. (s : IsStack graph.old head links.now foot)
        → IsLeft graph.old head s.way left.stacks left.head) }
{
    let place = graph.head(head).place;
    let pieces = pieces_of(alloc, graph, links)?;
    let mut stacks = graph.take_stack(alloc, foot);
    let top = push_all(&mut stacks, foot, pieces)?;
    Ok(Left {
        stacks,
        head: StackHead { top, place },
    })
}

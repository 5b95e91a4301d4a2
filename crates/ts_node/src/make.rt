//! The makers of nodes: tokens and children go in, a leaf, a node over children, the accepted root,
//! or a node as an edit leaves it comes out.
ghost use Rattle.std.specs.Prelude.{◌≡◌, ◌+◌, ◌<◌, ◌≤◌, ◌++◌, ◌^◌, ◌-◌, ◌∷◌, [], true, All, IfOk, OnOk, Some, None, length, IsTrue};
ghost use Rattle.std.proofs.Common.{is_some};
ghost use Rattle.spec_trees.specs.Trees.{children_of, elements_of, is_extra_node, production_of, span_of};
ghost use Rattle.spec_trees.specs.Made.{leaf_of, node_over, rule_node, first_element, next_element, accepted, reduced, made_by, most_span, IsNode, IsLeaf, Lengthens, FitsProduction};
ghost use Rattle.spec_trees.specs.Made as made;
ghost use Rattle.ts_node.specs.Entries.{form_is};
ghost use Rattle.ts_node.specs.Held.{body_tree, stretch, IsCount, IsSum, IsSummary};

use crate::counts::{counted_total, counts_of_one};
use crate::node::{Counts, Kind, Leaf, Node, Repetition, Run, Summary, Sums};
use crate::productions::{Entry, Form, Productions};
use crate::rule::RuleNode;
use crate::short::ShortSummary;
use crate::single::Single;
use crate::sums::{copy, moved, narrowed, pad_of_first, plus, sums, with_value};
use spec_trees::Element;
use std::alloc::{AllocError, Global};
use ts_base::{List, Shared};
use ts_core::Symbol;

/// What a node is given beside its children.
#[derive(Clone, Copy)]
pub(crate) struct Head {
    pub symbol: Symbol,
    pub dynamic: i64,
    pub extent: u32,
    pub state: Option<u16>,
}

impl Node {
    /// A leaf over a token. It takes no memory.
    #[tactic(auto, using(crate::proofs::LeafLemmas::is_leaf))]
    pub fn leaf(token: Symbol, pad: u32, size: u32, extent: u32, state: Option<u16>) -> Node
        requires past { pad + size < extent }
        requires short { pad + size ≤ most_span }
        ensures node { result ≡ leaf_of token.0 pad size extent state }
        ensures leaf { IsLeaf result }
    {
        Node {
            kind: Kind::Leaf(Leaf {
                pad,
                size,
                extent,
                symbol: token,
                settled: true,
                extra: false,
                state,
            }),
        }
    }

    /// The same leaf, standing as an extra. It takes no memory.
    #[tactic(auto, using(crate::proofs::LeafLemmas::extra_leaf_node, crate::proofs::LeafLemmas::as_extra_is))]
    pub fn as_extra(&self) -> Node
        requires { IsLeaf self.now }
        ensures { result ≡ made.as_extra self.now }
    {
        match &self.kind {
            Kind::Leaf(leaf) => Node {
                kind: Kind::Leaf(leaf.as_extra()),
            },
            Kind::Rule(rule) => {
                let _ = rule.production();
                unreachable!()
            }
            Kind::Repetition(repetition) => {
                let _ = repetition.get().run().get().counts();
                unreachable!()
            }
            Kind::Single(single) => {
                let _ = single.lists();
                unreachable!()
            }
        }
    }
}

/// What a node with these children says of itself.
pub(crate) fn summary(head: Head, production: u32, pad: u32, elements: u32, sums: Sums) -> Summary
    requires pad { pad ≤ sums.spans }
    requires short { sums.spans < 2 ^ 32 }
    requires few { 1 + (elements + sums.nodes) < 2 ^ 32 }
    requires shallow { 1 + sums.depth < 2 ^ 16 }
    ensures symbol { result.symbol ≡ head.symbol }
    ensures depth { result.depth ≡ 1 + sums.depth }
    ensures nodes { result.nodes ≡ 1 + (elements + sums.nodes) }
    ensures pad { result.pad ≡ pad }
    ensures size { result.size ≡ sums.spans - pad }
    ensures extent { result.extent ≡ head.extent }
    ensures state { result.state ≡ head.state }
    ensures settled { result.settled ≡ true }
    ensures production { result.production ≡ production }
    ensures dynamic { result.dynamic ≡ head.dynamic }
{
    Summary {
        symbol: head.symbol,
        depth: 1 + sums.depth,
        nodes: 1 + (elements + sums.nodes as u32),
        pad,
        size: sums.spans as u32 - pad,
        extent: head.extent,
        state: head.state,
        settled: true,
        production,
        dynamic: head.dynamic,
    }
}

/// A node of a rule's production over these children.
fn over(alloc: Global, head: Head, number: u32, children: List<Node>) -> Result<Node, AllocError>
    requires { IsNode
        (node_over head.symbol.0 (Some number) head.dynamic head.extent head.state [] children) }
    ensures { IfOk result (λ node. node
        ≡ node_over head.symbol.0 (Some number) head.dynamic head.extent head.state [] children) }
{
    let mut children = children.into_vec();
    let sums = sums(children.as_slice());
    over_summed(alloc, head, number, sums, &mut children)
}

/// A node of a rule's production over these children, of which this is added up. They are taken out
/// of their vector.
#[inline(always)]
fn over_summed(
    alloc: Global,
    head: Head,
    number: u32,
    sums: Sums,
    children: &mut Vec<Node>,
) -> Result<Node, AllocError>
    requires sums { IsSum sums children.old.items }
    requires node { IsNode (node_over head.symbol.0 (Some number) head.dynamic head.extent
        head.state [] children.old.items) }
    ensures { IfOk result (λ node. node ≡ node_over head.symbol.0 (Some number) head.dynamic
        head.extent head.state [] children.old.items) }
{
    let pad = pad_of_first(children.as_slice());
    let summary = summary(head, number, pad, 0, sums);
    let rule = RuleNode::from_vec(alloc, summary, children)?;
    Ok(Node {
        kind: Kind::Rule(rule),
    })
}

/// A repetition of these elements.
#[inline(always)]
pub(crate) fn over_run(alloc: Global, head: Head, run: Shared<Run>) -> Result<Node, AllocError>
    requires { IsNode (node_over head.symbol.0 None head.dynamic head.extent head.state
        run.elements run.children) }
    ensures { IfOk result (λ node. node ≡ node_over head.symbol.0 None head.dynamic head.extent
        head.state run.elements run.children) }
{
    let counts = run.get().counts();
    let pad = run.get().pad_of_first();
    let summary = summary(head, 0, pad, counts.elements, counts.sums);
    let body = Shared::new(alloc, Repetition { summary, run })?;
    Ok(Node {
        kind: Kind::Repetition(body),
    })
}

/// A node of a rule's production, whose value is added to the totals of its children.
fn rule(
    alloc: Global,
    entry: Entry,
    number: u32,
    children: &mut Vec<Node>,
    extent: u32,
    state: Option<u16>,
) -> Result<Node, AllocError>
    requires { IsNode
        (rule_node entry.symbol.0 number entry.dynamic extent state children.old.items) }
    ensures { IfOk result (λ node. node
        ≡ rule_node entry.symbol.0 number entry.dynamic extent state children.old.items) }
{
    let sums = sums(children.as_slice());
    let total = narrowed(sums.totals);
    let dynamic = with_value(entry.dynamic, total);
    let head = Head {
        symbol: entry.symbol,
        dynamic,
        extent,
        state,
    };
    over_summed(alloc, head, number, sums, children)
}

/// What a repetition says of an element that it gets.
pub(crate) fn added(entry: Entry, alternative: u32, children: u32, extent: u32) -> Element
    ensures { result ≡ made.element alternative children entry.dynamic extent }
{
    Element {
        alternative,
        children,
        dynamic: entry.dynamic,
        extent,
        settled: true,
    }
}

/// How many of the bytes from the first one of a node on stand behind the node.
fn bytes_behind(before: &Node, extent: u32) -> u32
    ensures { result ≡ extent - span_of before.now }
{
    let summary = before.summary();
    extent.saturating_sub(summary.pad + summary.size)
}

/// A repetition of one element.
fn first(
    alloc: Global,
    entry: Entry,
    alternative: u32,
    children: &mut Vec<Node>,
    extent: u32,
    state: Option<u16>,
) -> Result<Node, AllocError>
    requires { IsNode
        (first_element entry.symbol.0 alternative entry.dynamic extent state children.old.items) }
    ensures { IfOk result (λ node. node
        ≡ first_element entry.symbol.0 alternative entry.dynamic extent state
        children.old.items) }
{
    let sums = sums(children.as_slice());
    let total = narrowed(sums.totals);
    let dynamic = with_value(entry.dynamic, total);
    let head = Head {
        symbol: entry.symbol,
        dynamic,
        extent,
        state,
    };
    let element = added(entry, alternative, children.len() as u32, extent);
    over_one(alloc, head, element, sums, children)
}

/// A repetition of one element over these children, of which this is added up. They are taken out
/// of their vector.
#[inline(always)]
fn over_one(
    alloc: Global,
    head: Head,
    element: Element,
    sums: Sums,
    children: &mut Vec<Node>,
) -> Result<Node, AllocError>
    requires own { element.children ≡ length children.old.items }
    requires sums { IsSum sums children.old.items }
    requires node { IsNode (node_over head.symbol.0 None head.dynamic head.extent head.state
        (element ∷ []) children.old.items) }
    ensures { IfOk result (λ node. node ≡ node_over head.symbol.0 None head.dynamic head.extent
        head.state (element ∷ []) children.old.items) }
{
    let pad = pad_of_first(children.as_slice());
    let summary = summary(head, 0, pad, 1, sums);
    let node = of_one(alloc, summary, element, children)?;
    Ok(node)
}

/// A repetition of one element over these children, of which the summary tells: in one piece of
/// memory, where they are one or two and the numbers are small.
#[inline(always)]
fn of_one(
    alloc: Global,
    summary: Summary,
    element: Element,
    children: &mut Vec<Node>,
) -> Result<Node, AllocError>
    requires own { element.children ≡ length children.old.items }
    requires wide { length children.old.items < 2 ^ 32 }
    requires kept { IsSummary summary
        (body_tree summary None (element ∷ []) children.old.items) }
    ensures { IfOk result (λ node. node
        ≡ body_tree summary None (element ∷ []) children.old.items) }
{
    match ShortSummary::of(summary) {
        Some(short) if children.len() == 1 => {
            let single = Single::of_one(alloc, short, element, children)?;
            Ok(Node {
                kind: Kind::Single(single),
            })
        }
        Some(short) if children.len() == 2 => {
            let single = Single::of_two(alloc, short, element, children)?;
            Ok(Node {
                kind: Kind::Single(single),
            })
        }
        Some(_) | None => {
            let run = Run::single(alloc, element, moved(alloc, children)?)?;
            let body = Shared::new(alloc, Repetition { summary, run })?;
            Ok(Node {
                kind: Kind::Repetition(body),
            })
        }
    }
}

/// A repetition with one more element, where the first child is the repetition so far.
fn next(
    alloc: Global,
    entry: Entry,
    alternative: u32,
    children: &mut Vec<Node>,
    extent: u32,
    state: Option<u16>,
) -> Result<Node, AllocError>
    requires longer { Lengthens (made.of_next alternative) children.old.items }
    requires node { IsNode
        (next_element entry.symbol.0 alternative entry.dynamic extent state children.old.items) }
    ensures { IfOk result (λ node. node
        ≡ next_element entry.symbol.0 alternative entry.dynamic extent state
        children.old.items) }
{
    let before = first_of(children);
    longer(alloc, entry, alternative, before, children, extent, state)
}

/// The repetition `before` with one more element of these children. What nobody else owns of it is
/// lengthened in place, all else is shared.
pub(crate) fn longer(
    alloc: Global,
    entry: Entry,
    alternative: u32,
    before: Node,
    more: &mut Vec<Node>,
    extent: u32,
    state: Option<u16>,
) -> Result<Node, AllocError>
    requires repetition { 0 < length (elements_of before) }
    requires node { IsNode (next_element entry.symbol.0 alternative entry.dynamic extent state
        (before ∷ more.old.items)) }
    ensures { IfOk result (λ node. node ≡ next_element entry.symbol.0 alternative entry.dynamic
        extent state (before ∷ more.old.items)) }
{
    let behind = bytes_behind(&before, extent);
    let element = added(entry, alternative, more.len() as u32, behind);
    let one = counts_of_one(element, more.as_slice());
    let others = counted_total(one);
    let summary = before.summary();
    let total = plus(summary.dynamic, others);
    let dynamic = with_value(entry.dynamic, total);
    let head = Head {
        symbol: entry.symbol,
        dynamic,
        extent,
        state,
    };
    let run = longer_run(alloc, before, element, one, more)?;
    over_run(alloc, head, run)
}

/// Takes the first child out, and leaves the others.
fn first_of(children: &mut Vec<Node>) -> Node
    requires { 0 < length children.old.items }
    ensures { children.old.items ≡ result ∷ children.new.items }
{
    children.remove(0)
}

/// The run of a repetition with one more element of these children, of which this is counted.
#[tactic(auto, using(crate::proofs::BodyLemmas::leaf_elements))]
fn longer_run(
    alloc: Global,
    before: Node,
    element: Element,
    one: Counts,
    more: &mut Vec<Node>,
) -> Result<Shared<Run>, AllocError>
    requires repetition { 0 < length (elements_of before) }
    requires wide { length (children_of before) + length more.old.items < 2 ^ 32 }
    requires fits { length (elements_of before) + 1 < 2 ^ 32 }
    requires own { element.children ≡ length more.old.items }
    requires counted { IsCount one (stretch (element ∷ []) more.old.items) }
    ensures elements { IfOk result (λ run. run.elements ≡ elements_of before ++ element ∷ []) }
    ensures children { IfOk result (λ run. run.children ≡ children_of before ++ more.old.items) }
{
    let Node { kind } = before;
    match kind {
        Kind::Leaf(_) => unreachable!(),
        Kind::Rule(rule) => {
            let _ = rule.children();
            unreachable!()
        }
        Kind::Repetition(repetition) => {
            let run = run_of(repetition)?;
            Run::with_element(alloc, run, element, one, more)
        }
        Kind::Single(single) => {
            let repetition = single.repetition(alloc)?;
            Run::with_element(alloc, repetition.into_run(), element, one, more)
        }
    }
}

/// The run of a repetition: the run itself, where nobody else owns the repetition.
fn run_of(repetition: Shared<Repetition>) -> Result<Shared<Run>, AllocError>
    ensures elements { IfOk result (λ run. run.elements ≡ elements_of repetition) }
    ensures children { IfOk result (λ run. run.children ≡ children_of repetition) }
{
    match repetition.try_unwrap() {
        Ok(body) => Ok(body.into_run()),
        Err(shared) => shared.get().run().try_clone(),
    }
}

/// The node that a reduction by the production of this number makes of its children, which are
/// taken out of their vector and leave it empty. A production that lengthens a repetition lengthens
/// in place what nobody else owns of the repetition so far, and shares all else. It takes time by
/// the logarithm of its length.
///
/// # Errors
///
/// `AllocError` where memory runs out.
pub fn reduce(
    alloc: Global,
    productions: &Productions,
    number: u32,
    children: &mut Vec<Node>,
    extent: u32,
    state: Option<u16>,
) -> Result<Node, AllocError>
    requires fits { FitsProduction productions.now number children.old.items }
    requires node { IsNode (reduced productions.now number extent state children.old.items) }
    ensures node { IfOk result
        (λ node. node ≡ reduced productions.now number extent state children.old.items) }
    ensures emptied { OnOk result (children.new.items ≡ []) }
{
    let entry = productions.entry(number);
    let node = made(alloc, entry, number, children, extent, state)?;
    children.clear();
    Ok(node)
}

fn made(
    alloc: Global,
    entry: Entry,
    number: u32,
    children: &mut Vec<Node>,
    extent: u32,
    state: Option<u16>,
) -> Result<Node, AllocError>
    requires longer { Lengthens (form_is entry.form) children.old.items }
    requires node { IsNode (made_by (form_is entry.form) entry.symbol.0 number entry.dynamic extent
        state children.old.items) }
    ensures { IfOk result (λ node. node ≡ made_by (form_is entry.form) entry.symbol.0 number
        entry.dynamic extent state children.old.items) }
{
    match entry.form {
        Form::Rule => rule(alloc, entry, number, children, extent, state),
        Form::First(alternative) => first(alloc, entry, alternative, children, extent, state),
        Form::Next(alternative) => next(alloc, entry, alternative, children, extent, state),
    }
}

/// The root that acceptance gives: the extras before and after it are its children too.
///
/// # Errors
///
/// `AllocError` where memory runs out.
#[tactic(auto, using(crate::proofs::BodyLemmas::leaf_production))]
pub fn accept(
    alloc: Global,
    root: &Node,
    before: &[Node],
    after: &[Node],
    extent: u32,
) -> Result<Node, AllocError>
    requires rule { IsTrue (is_some (production_of root.now)) }
    requires before { All (λ node. is_extra_node node ≡ true) before.now }
    requires after { All (λ node. is_extra_node node ≡ true) after.now }
    requires node { IsNode (accepted root.now before.now after.now extent) }
    ensures { IfOk result (λ node. node ≡ accepted root.now before.now after.now extent) }
{
    match &root.kind {
        Kind::Leaf(_) => unreachable!(),
        Kind::Repetition(repetition) => {
            let _ = repetition.get().run();
            unreachable!()
        }
        Kind::Single(single) => {
            let _ = single.lists();
            unreachable!()
        }
        Kind::Rule(rule) => {
            let head = Head {
                symbol: root.symbol(),
                dynamic: root.dynamic(),
                extent,
                state: None,
            };
            let mut children = List::new(alloc);
            copy(before, &mut children)?;
            copy(rule.children(), &mut children)?;
            copy(after, &mut children)?;
            over(alloc, head, rule.production(), children)
        }
    }
}

//! Nodes over an only child, which is given by value: it lies in no list on its way.
ghost use Rattle.std.specs.Prelude.{◌≡◌, ◌+◌, ◌<◌, ◌^◌, ◌∷◌, [], IfOk, None, Some};
ghost use Rattle.std.specs.Int.RustNames.{unsigned_abs};
ghost use Rattle.spec_trees.specs.declared.tree.Tree.{Tree};
ghost use lib.IntN.{◌+ℤ◌};
ghost use Rattle.spec_trees.specs.Made.{first_element, made_by, next_element, node_over, of_next, reduced, rule_node, FitsProduction, IsNode, Lengthens};
ghost use Rattle.ts_node.specs.Entries.{form_is};
ghost use Rattle.ts_node.specs.Held.{body_tree, IsSum, IsSummary, Tells};

use crate::make::{Head, added, longer, summary};
use crate::node::{Kind, Node, Repetition, Run, Summary, Sums};
use crate::productions::{Entry, Form, Productions};
use crate::rule::RuleNode;
use crate::short::ShortSummary;
use crate::single::Single;
use crate::sums::{only, with_value};
use spec_trees::Element;
use std::alloc::{AllocError, Global};
use ts_base::Shared;

/// The node that a reduction by the production of this number makes of its only child. It is that
/// of `reduce`, but the child lies in no vector.
///
/// # Errors
///
/// `AllocError` where memory runs out.
pub fn reduce_one(
    alloc: Global,
    productions: &Productions,
    number: u32,
    child: Node,
    extent: u32,
    state: Option<u16>,
) -> Result<Node, AllocError>
    requires fits { FitsProduction productions.now number (child ∷ []) }
    requires node { IsNode (reduced productions.now number extent state (child ∷ [])) }
    ensures { IfOk result
        (λ node. node ≡ reduced productions.now number extent state (child ∷ [])) }
{
    let entry = productions.entry(number);
    made_of_one(alloc, entry, number, child, extent, state)
}

#[inline(always)]
fn made_of_one(
    alloc: Global,
    entry: Entry,
    number: u32,
    child: Node,
    extent: u32,
    state: Option<u16>,
) -> Result<Node, AllocError>
    requires longer { Lengthens (form_is entry.form) (child ∷ []) }
    requires node { IsNode (made_by (form_is entry.form) entry.symbol.0 number entry.dynamic extent
        state (child ∷ [])) }
    ensures { IfOk result (λ node. node ≡ made_by (form_is entry.form) entry.symbol.0 number
        entry.dynamic extent state (child ∷ [])) }
{
    match entry.form {
        Form::Rule => rule_of_one(alloc, entry, number, child, extent, state),
        Form::First(alternative) => {
            first_of_one(alloc, entry, alternative, child, extent, state)
        }
        Form::Next(alternative) => next_of_one(alloc, entry, alternative, child, extent, state),
    }
}

/// The repetition that is the only child, with one more element of no children.
fn next_of_one(
    alloc: Global,
    entry: Entry,
    alternative: u32,
    child: Node,
    extent: u32,
    state: Option<u16>,
) -> Result<Node, AllocError>
    requires longer { Lengthens (of_next alternative) (child ∷ []) }
    requires node { IsNode
        (next_element entry.symbol.0 alternative entry.dynamic extent state (child ∷ [])) }
    ensures { IfOk result (λ node. node
        ≡ next_element entry.symbol.0 alternative entry.dynamic extent state (child ∷ [])) }
{
    let mut more = Vec::new(alloc);
    longer(alloc, entry, alternative, child, &mut more, extent, state)
}

/// A node of a rule's production over its only child.
#[inline(always)]
fn rule_of_one(
    alloc: Global,
    entry: Entry,
    number: u32,
    child: Node,
    extent: u32,
    state: Option<u16>,
) -> Result<Node, AllocError>
    requires { IsNode (rule_node entry.symbol.0 number entry.dynamic extent state (child ∷ [])) }
    ensures { IfOk result (λ node. node
        ≡ rule_node entry.symbol.0 number entry.dynamic extent state (child ∷ [])) }
{
    let below = child.summary();
    let head = head_over(entry, below, extent, state);
    over_child(alloc, head, number, below, child)
}

/// A node of a rule's production over an only child, which says this of itself.
#[inline(always)]
fn over_child(
    alloc: Global,
    head: Head,
    number: u32,
    below: Summary,
    child: Node,
) -> Result<Node, AllocError>
    requires tells { Tells below child }
    requires node { IsNode (node_over head.symbol.0 (Some number) head.dynamic head.extent
        head.state [] (child ∷ [])) }
    ensures { IfOk result (λ node. node ≡ node_over head.symbol.0 (Some number) head.dynamic
        head.extent head.state [] (child ∷ [])) }
{
    let sums = sums_of(below);
    let summary = summary(head, number, below.pad, 0, sums);
    let rule = RuleNode::of_child(alloc, summary, child)?;
    Ok(Node {
        kind: Kind::Rule(rule),
    })
}

/// A repetition of one element over its only child.
#[inline(always)]
fn first_of_one(
    alloc: Global,
    entry: Entry,
    alternative: u32,
    child: Node,
    extent: u32,
    state: Option<u16>,
) -> Result<Node, AllocError>
    requires { IsNode
        (first_element entry.symbol.0 alternative entry.dynamic extent state (child ∷ [])) }
    ensures { IfOk result (λ node. node
        ≡ first_element entry.symbol.0 alternative entry.dynamic extent state (child ∷ [])) }
{
    let below = child.summary();
    let head = head_over(entry, below, extent, state);
    let element = added(entry, alternative, 1, extent);
    element_over(alloc, head, element, below, child)
}

/// A repetition of one element over an only child, which says this of itself.
#[inline(always)]
fn element_over(
    alloc: Global,
    head: Head,
    element: Element,
    below: Summary,
    child: Node,
) -> Result<Node, AllocError>
    requires own { element.children ≡ 1 }
    requires tells { Tells below child }
    requires node { IsNode (node_over head.symbol.0 None head.dynamic head.extent head.state
        (element ∷ []) (child ∷ [])) }
    ensures { IfOk result (λ node. node ≡ node_over head.symbol.0 None head.dynamic head.extent
        head.state (element ∷ []) (child ∷ [])) }
{
    let sums = sums_of(below);
    let summary = summary(head, 0, below.pad, 1, sums);
    let node = single_over(alloc, summary, element, child)?;
    Ok(node)
}

/// What a node of this production over an only child is given, where the child says this of itself.
fn head_over(entry: Entry, below: Summary, extent: u32, state: Option<u16>) -> Head
    requires { unsigned_abs below.dynamic + 2 ^ 31 < 2 ^ 63 }
    ensures symbol { result.symbol ≡ entry.symbol }
    ensures dynamic { result.dynamic ≡ entry.dynamic +ℤ below.dynamic }
    ensures extent { result.extent ≡ extent }
    ensures state { result.state ≡ state }
{
    Head {
        symbol: entry.symbol,
        dynamic: with_value(entry.dynamic, below.dynamic),
        extent,
        state,
    }
}

/// What is added up over an only child, which says this of itself.
fn sums_of(below: Summary) -> Sums
    ensures { (t : Tree) → Tells below t → IsSum result (t ∷ []) }
{
    Sums {
        nodes: below.nodes as u64,
        spans: below.pad as u64 + below.size as u64,
        depth: below.depth,
        totals: below.dynamic as i128,
    }
}

/// A repetition of one element over its only child, of which the summary tells.
#[inline(always)]
fn single_over(
    alloc: Global,
    summary: Summary,
    element: Element,
    child: Node,
) -> Result<Node, AllocError>
    requires own { element.children ≡ 1 }
    requires kept { IsSummary summary (body_tree summary None (element ∷ []) (child ∷ [])) }
    ensures { IfOk result (λ node. node ≡ body_tree summary None (element ∷ []) (child ∷ [])) }
{
    match ShortSummary::of(summary) {
        Some(short) => {
            let single = Single::of_child(alloc, short, element, child)?;
            Ok(Node {
                kind: Kind::Single(single),
            })
        }
        None => {
            let run = Run::single(alloc, element, only(alloc, child)?)?;
            let body = Shared::new(alloc, Repetition { summary, run })?;
            Ok(Node {
                kind: Kind::Repetition(body),
            })
        }
    }
}

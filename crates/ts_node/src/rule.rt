//! Nodes of rules' productions: what a node says of itself and its children go in, and a node
//! comes out. Up to four children lie in its own body, beside the short form of what it says of
//! itself where there is one; others lie in a list, beside the whole of it.
ghost use Rattle.std.specs.Prelude.{◌≡◌, ◌<◌, ◌++◌, ◌∷◌, [], IfOk, Some, false, length};
ghost use Rattle.spec_trees.specs.Trees.{children_of, elements_of, is_extra_node, production_of};
ghost use Rattle.spec_trees.specs.Made.{node_limit};
ghost use Rattle.ts_node.specs.Held.{body_of, rule_tree, IsSummary, Tells};
ghost use Rattle.ts_node.specs.Short.{summary_of};

use crate::node::{Node, Summary};
use crate::short::ShortSummary;
use crate::sums::{moved, only};
use std::alloc::{AllocError, Global};
use std::marker::Model;
use ts_base::{List, Shared};

/// A node of a rule's production.
#[cycle(node)]
#[derive(Drop)]
pub(crate) struct RuleNode {
    body: RuleBody,
}

/// The body of a rule's node, by the number of its children.
#[cycle(node)]
#[derive(Drop)]
pub(crate) enum RuleBody {
    One(Shared<RuleOfOne>),
    Two(Shared<RuleOfTwo>),
    Three(Shared<RuleOfThree>),
    Four(Shared<RuleOfFour>),
    Many(Shared<RuleOfMany>),
}

#[cycle(node)]
#[derive(Drop)]
pub(crate) struct RuleOfOne {
    summary: ShortSummary,
    children: [Node; 1],
}

#[cycle(node)]
#[derive(Drop)]
pub(crate) struct RuleOfTwo {
    summary: ShortSummary,
    children: [Node; 2],
}

#[cycle(node)]
#[derive(Drop)]
pub(crate) struct RuleOfThree {
    summary: ShortSummary,
    children: [Node; 3],
}

#[cycle(node)]
#[derive(Drop)]
pub(crate) struct RuleOfFour {
    summary: ShortSummary,
    children: [Node; 4],
}

/// A body of any number of children, with the whole of the summary.
#[cycle(node)]
#[derive(Drop)]
pub(crate) struct RuleOfMany {
    summary: Summary,
    children: List<Node>,
}

impl Model for RuleNode {
    ghost use Rattle.std.specs.Prelude.{◌*◌};
    ghost use Rattle.spec_trees.specs.declared.tree.Tree.{Tree};
    ghost use Rattle.spec_trees.specs.contracts.tree.Tree as tree;
    ghost use Rattle.std.specs.Coded.{codes};

    ghost Value = { Tree };

    ghost coded = { Prim.hlevel (codes, tree.the_row.coded) };

    ghost use Rattle.spec_trees.specs.Trees.{node_count};
    ghost use Rattle.ts_node.specs.Held.{body_of};

    ghost view = { λ a. body_of a.body };

    ghost size = { λ t. 4 * node_count t };

    ghost use Rattle.ts_node.specs.Falls.{body_falls};

    ghost size_decreases = { λ a h. body_falls a.body };
}

impl Model for RuleOfOne {
    ghost use Rattle.std.specs.Prelude.{◌-◌, ◌*◌};
    ghost use Rattle.spec_trees.specs.declared.tree.Tree.{Tree};
    ghost use Rattle.spec_trees.specs.contracts.tree.Tree as tree;
    ghost use Rattle.std.specs.Coded.{codes};

    ghost Value = { Tree };

    ghost coded = { Prim.hlevel (codes, tree.the_row.coded) };

    ghost use Rattle.spec_trees.specs.Trees.{node_count};
    ghost use Rattle.ts_node.specs.Held.{rule_tree, IsSummary};
    ghost use Rattle.ts_node.specs.Short.{summary_of};

    ghost view = { λ a. rule_tree (summary_of a.summary) a.children };

    ghost invariant = { λ a.
        IsSummary (summary_of a.summary) (rule_tree (summary_of a.summary) a.children) };

    ghost size = { λ t. 4 * node_count t - 1 };

    ghost use Rattle.ts_node.specs.Falls.{children_fall};

    ghost size_decreases = { λ a h. children_fall (summary_of a.summary) a.children };
}

impl Model for RuleOfTwo {
    ghost use Rattle.std.specs.Prelude.{◌-◌, ◌*◌};
    ghost use Rattle.spec_trees.specs.declared.tree.Tree.{Tree};
    ghost use Rattle.spec_trees.specs.contracts.tree.Tree as tree;
    ghost use Rattle.std.specs.Coded.{codes};

    ghost Value = { Tree };

    ghost coded = { Prim.hlevel (codes, tree.the_row.coded) };

    ghost use Rattle.spec_trees.specs.Trees.{node_count};
    ghost use Rattle.ts_node.specs.Held.{rule_tree, IsSummary};
    ghost use Rattle.ts_node.specs.Short.{summary_of};

    ghost view = { λ a. rule_tree (summary_of a.summary) a.children };

    ghost invariant = { λ a.
        IsSummary (summary_of a.summary) (rule_tree (summary_of a.summary) a.children) };

    ghost size = { λ t. 4 * node_count t - 1 };

    ghost use Rattle.ts_node.specs.Falls.{children_fall};

    ghost size_decreases = { λ a h. children_fall (summary_of a.summary) a.children };
}

impl Model for RuleOfThree {
    ghost use Rattle.std.specs.Prelude.{◌-◌, ◌*◌};
    ghost use Rattle.spec_trees.specs.declared.tree.Tree.{Tree};
    ghost use Rattle.spec_trees.specs.contracts.tree.Tree as tree;
    ghost use Rattle.std.specs.Coded.{codes};

    ghost Value = { Tree };

    ghost coded = { Prim.hlevel (codes, tree.the_row.coded) };

    ghost use Rattle.spec_trees.specs.Trees.{node_count};
    ghost use Rattle.ts_node.specs.Held.{rule_tree, IsSummary};
    ghost use Rattle.ts_node.specs.Short.{summary_of};

    ghost view = { λ a. rule_tree (summary_of a.summary) a.children };

    ghost invariant = { λ a.
        IsSummary (summary_of a.summary) (rule_tree (summary_of a.summary) a.children) };

    ghost size = { λ t. 4 * node_count t - 1 };

    ghost use Rattle.ts_node.specs.Falls.{children_fall};

    ghost size_decreases = { λ a h. children_fall (summary_of a.summary) a.children };
}

impl Model for RuleOfFour {
    ghost use Rattle.std.specs.Prelude.{◌-◌, ◌*◌};
    ghost use Rattle.spec_trees.specs.declared.tree.Tree.{Tree};
    ghost use Rattle.spec_trees.specs.contracts.tree.Tree as tree;
    ghost use Rattle.std.specs.Coded.{codes};

    ghost Value = { Tree };

    ghost coded = { Prim.hlevel (codes, tree.the_row.coded) };

    ghost use Rattle.spec_trees.specs.Trees.{node_count};
    ghost use Rattle.ts_node.specs.Held.{rule_tree, IsSummary};
    ghost use Rattle.ts_node.specs.Short.{summary_of};

    ghost view = { λ a. rule_tree (summary_of a.summary) a.children };

    ghost invariant = { λ a.
        IsSummary (summary_of a.summary) (rule_tree (summary_of a.summary) a.children) };

    ghost size = { λ t. 4 * node_count t - 1 };

    ghost use Rattle.ts_node.specs.Falls.{children_fall};

    ghost size_decreases = { λ a h. children_fall (summary_of a.summary) a.children };
}

impl Model for RuleOfMany {
    ghost use Rattle.std.specs.Prelude.{◌-◌, ◌*◌};
    ghost use Rattle.spec_trees.specs.declared.tree.Tree.{Tree};
    ghost use Rattle.spec_trees.specs.contracts.tree.Tree as tree;
    ghost use Rattle.std.specs.Coded.{codes};

    ghost Value = { Tree };

    ghost coded = { Prim.hlevel (codes, tree.the_row.coded) };

    ghost use Rattle.spec_trees.specs.Trees.{node_count};
    ghost use Rattle.ts_node.specs.Held.{rule_tree, IsSummary};

    ghost view = { λ a. rule_tree a.summary a.children };

    ghost invariant = { λ a. IsSummary a.summary (rule_tree a.summary a.children) };

    ghost size = { λ t. 4 * node_count t - 1 };

    ghost use Rattle.ts_node.specs.Falls.{children_fall};

    ghost size_decreases = { λ a h. children_fall a.summary a.children };
}

impl RuleOfOne {
    fn parts(&self) -> (Summary, &[Node])
        ensures parts { rule_tree result.0 result.1.now ≡ self.now }
        ensures kept { IsSummary result.0 (rule_tree result.0 result.1.now) }
    {
        (self.summary.summary(), &self.children)
    }
}

impl RuleOfTwo {
    fn parts(&self) -> (Summary, &[Node])
        ensures parts { rule_tree result.0 result.1.now ≡ self.now }
        ensures kept { IsSummary result.0 (rule_tree result.0 result.1.now) }
    {
        (self.summary.summary(), &self.children)
    }
}

impl RuleOfThree {
    fn parts(&self) -> (Summary, &[Node])
        ensures parts { rule_tree result.0 result.1.now ≡ self.now }
        ensures kept { IsSummary result.0 (rule_tree result.0 result.1.now) }
    {
        (self.summary.summary(), &self.children)
    }
}

impl RuleOfFour {
    fn parts(&self) -> (Summary, &[Node])
        ensures parts { rule_tree result.0 result.1.now ≡ self.now }
        ensures kept { IsSummary result.0 (rule_tree result.0 result.1.now) }
    {
        (self.summary.summary(), &self.children)
    }
}

impl RuleOfMany {
    fn parts(&self) -> (Summary, &[Node])
        ensures parts { rule_tree result.0 result.1.now ≡ self.now }
        ensures kept { IsSummary result.0 (rule_tree result.0 result.1.now) }
    {
        (self.summary, self.children.as_slice())
    }
}

impl RuleNode {
    /// A node of these children, of which the summary tells.
    ///
    /// # Errors
    ///
    /// `AllocError` where memory runs out.
    pub(crate) fn new(
        alloc: Global,
        summary: Summary,
        children: List<Node>,
    ) -> Result<RuleNode, AllocError>
        requires { IsSummary summary (rule_tree summary children) }
        ensures { IfOk result (λ rule. rule ≡ rule_tree summary children) }
    {
        let mut children = children.into_vec();
        RuleNode::from_vec(alloc, summary, &mut children)
    }

    /// The same, where the children are taken out of a vector.
    ///
    /// # Errors
    ///
    /// `AllocError` where memory runs out.
    #[inline(always)]
    pub(crate) fn from_vec(
        alloc: Global,
        summary: Summary,
        children: &mut Vec<Node>,
    ) -> Result<RuleNode, AllocError>
        requires { IsSummary summary (rule_tree summary children.old.items) }
        ensures { IfOk result (λ rule. rule ≡ rule_tree summary children.old.items) }
    {
        let body = RuleBody::new(alloc, summary, children)?;
        Ok(RuleNode { body })
    }

    /// The same of an only child.
    ///
    /// # Errors
    ///
    /// `AllocError` where memory runs out.
    #[inline(always)]
    pub(crate) fn of_child(
        alloc: Global,
        summary: Summary,
        child: Node,
    ) -> Result<RuleNode, AllocError>
        requires { IsSummary summary (rule_tree summary (child ∷ [])) }
        ensures { IfOk result (λ rule. rule ≡ rule_tree summary (child ∷ [])) }
    {
        let body = RuleBody::of_child(alloc, summary, child)?;
        Ok(RuleNode { body })
    }

    /// What it says of itself, and its children.
    #[inline(always)]
    pub(crate) fn parts(&self) -> (Summary, &[Node])
        ensures parts { rule_tree result.0 result.1.now ≡ self.now }
        ensures kept { IsSummary result.0 (rule_tree result.0 result.1.now) }
    {
        match &self.body {
            RuleBody::One(body) => body.get().parts(),
            RuleBody::Two(body) => body.get().parts(),
            RuleBody::Three(body) => body.get().parts(),
            RuleBody::Four(body) => body.get().parts(),
            RuleBody::Many(body) => body.get().parts(),
        }
    }

    #[inline(always)]
    #[tactic(auto, using(crate::proofs::BodyLemmas::tells, crate::proofs::BodyLemmas::extra_is))]
    pub(crate) fn summary(&self) -> Summary
        ensures tells { Tells result self.now }
        ensures extra { is_extra_node self.now ≡ false }
    {
        let (summary, _) = self.parts();
        summary
    }

    #[tactic(auto, using(crate::proofs::BodyLemmas::production_is))]
    pub(crate) fn production(&self) -> u32
        ensures { production_of self.now ≡ Some result }
    {
        let (summary, _) = self.parts();
        summary.production
    }

    #[tactic(auto, using(crate::proofs::BodyLemmas::children_are, crate::proofs::BodyLemmas::elements_are, crate::proofs::BodyLemmas::few_children))]
    pub(crate) fn children(&self) -> &[Node]
        ensures children { result.now ≡ children_of self.now }
        ensures few { length (children_of self.now) < node_limit }
        ensures elements { length (elements_of self.now) ≡ 0 }
    {
        let (_, children) = self.parts();
        children
    }

    /// One more owner of the same node. It takes no memory.
    ///
    /// # Errors
    ///
    /// `AllocError` where the count of owners is full.
    pub(crate) fn try_clone(&self) -> Result<RuleNode, AllocError>
        ensures { IfOk result (λ rule. rule ≡ self.now) }
    {
        let body = match &self.body {
            RuleBody::One(body) => RuleBody::One(body.try_clone()?),
            RuleBody::Two(body) => RuleBody::Two(body.try_clone()?),
            RuleBody::Three(body) => RuleBody::Three(body.try_clone()?),
            RuleBody::Four(body) => RuleBody::Four(body.try_clone()?),
            RuleBody::Many(body) => RuleBody::Many(body.try_clone()?),
        };
        Ok(RuleNode { body })
    }
}

impl RuleBody {
    /// A body of these children.
    #[inline(always)]
    fn new(
        alloc: Global,
        summary: Summary,
        children: &mut Vec<Node>,
    ) -> Result<RuleBody, AllocError>
        requires { IsSummary summary (rule_tree summary children.old.items) }
        ensures { IfOk result (λ body. body_of body ≡ rule_tree summary children.old.items) }
    {
        match ShortSummary::of(summary) {
            Some(short) => RuleBody::of_short(alloc, short, children),
            None => RuleBody::of_many(alloc, summary, children),
        }
    }

    /// A body of an only child.
    #[inline(always)]
    fn of_child(alloc: Global, summary: Summary, child: Node) -> Result<RuleBody, AllocError>
        requires { IsSummary summary (rule_tree summary (child ∷ [])) }
        ensures { IfOk result (λ body. body_of body ≡ rule_tree summary (child ∷ [])) }
    {
        match ShortSummary::of(summary) {
            Some(short) => RuleBody::of_one(alloc, short, child),
            None => {
                let children = only(alloc, child)?;
                Ok(RuleBody::Many(Shared::new(alloc, RuleOfMany { summary, children })?))
            }
        }
    }

    /// A body of an only child, with the short form of its summary.
    #[inline(always)]
    fn of_one(alloc: Global, summary: ShortSummary, child: Node) -> Result<RuleBody, AllocError>
        requires { IsSummary (summary_of summary) (rule_tree (summary_of summary) (child ∷ [])) }
        ensures { IfOk result (λ body. body_of body ≡ rule_tree (summary_of summary) (child ∷ [])) }
    {
        let children = [child];
        Ok(RuleBody::One(Shared::new(alloc, RuleOfOne { summary, children })?))
    }

    /// A body of these children, with the short form of its summary where they are few.
    #[inline(always)]
    fn of_short(
        alloc: Global,
        summary: ShortSummary,
        children: &mut Vec<Node>,
    ) -> Result<RuleBody, AllocError>
        requires { IsSummary (summary_of summary)
            (rule_tree (summary_of summary) children.old.items) }
        ensures { IfOk result (λ body.
            body_of body ≡ rule_tree (summary_of summary) children.old.items) }
    {
        match children.len() {
            1 => {
                let children = one_of(children);
                Ok(RuleBody::One(Shared::new(alloc, RuleOfOne { summary, children })?))
            }
            2 => {
                let children = two_of(children);
                Ok(RuleBody::Two(Shared::new(alloc, RuleOfTwo { summary, children })?))
            }
            3 => {
                let children = three_of(children);
                Ok(RuleBody::Three(Shared::new(alloc, RuleOfThree { summary, children })?))
            }
            4 => {
                let children = four_of(children);
                Ok(RuleBody::Four(Shared::new(alloc, RuleOfFour { summary, children })?))
            }
            _ => RuleBody::of_many(alloc, summary.summary(), children),
        }
    }

    /// A body of these children in a list.
    fn of_many(
        alloc: Global,
        summary: Summary,
        children: &mut Vec<Node>,
    ) -> Result<RuleBody, AllocError>
        requires { IsSummary summary (rule_tree summary children.old.items) }
        ensures { IfOk result (λ body. body_of body ≡ rule_tree summary children.old.items) }
    {
        let children = moved(alloc, children)?;
        Ok(RuleBody::Many(Shared::new(alloc, RuleOfMany { summary, children })?))
    }
}

/// Takes the last node out.
fn last_of(nodes: &mut Vec<Node>) -> Node
    requires { 0 < length nodes.old.items }
    ensures { nodes.old.items ≡ nodes.new.items ++ result ∷ [] }
{
    match nodes.pop() {
        Some(node) => node,
        None => unreachable!(),
    }
}

/// Takes the only node out.
pub(crate) fn only_of(nodes: &mut Vec<Node>) -> Node
    requires { length nodes.old.items ≡ 1 }
    ensures { nodes.old.items ≡ result ∷ [] }
{
    last_of(nodes)
}

/// The same, in an array.
fn one_of(nodes: &mut Vec<Node>) -> [Node; 1]
    requires { length nodes.old.items ≡ 1 }
    ensures { result ≡ nodes.old.items }
{
    [only_of(nodes)]
}

/// Takes both nodes out.
pub(crate) fn two_of(nodes: &mut Vec<Node>) -> [Node; 2]
    requires { length nodes.old.items ≡ 2 }
    ensures { result ≡ nodes.old.items }
{
    let second = last_of(nodes);
    let first = last_of(nodes);
    [first, second]
}

/// Takes all three nodes out.
fn three_of(nodes: &mut Vec<Node>) -> [Node; 3]
    requires { length nodes.old.items ≡ 3 }
    ensures { result ≡ nodes.old.items }
{
    let third = last_of(nodes);
    let second = last_of(nodes);
    let first = last_of(nodes);
    [first, second, third]
}

/// Takes all four nodes out.
fn four_of(nodes: &mut Vec<Node>) -> [Node; 4]
    requires { length nodes.old.items ≡ 4 }
    ensures { result ≡ nodes.old.items }
{
    let fourth = last_of(nodes);
    let third = last_of(nodes);
    let second = last_of(nodes);
    let first = last_of(nodes);
    [first, second, third, fourth]
}

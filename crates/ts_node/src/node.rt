//! The node itself, and what it says of itself.
ghost use Rattle.std.specs.Prelude.{◌≡◌, ◌<◌, IfOk, false, length, slice_get, Some, None};
ghost use Rattle.spec_trees.specs.Trees.{symbol_of, production_of, pad_of, size_of, node_extent, state_of, total_of, is_settled, is_extra_node, children_of, elements_of, node_count, tree_depth};
ghost use Rattle.spec_trees.specs.Made.{AreCounted, IsNode, node_limit};
ghost use Rattle.ts_node.specs.Held.{leaf_tree, extra_leaf, remade_leaf, HoldsNodes, Tells};

use crate::rule::RuleNode;
use crate::single::Single;
use spec_trees::Element;
use std::alloc::AllocError;
use std::marker::Model;
use ts_base::{List, Shared};
use ts_core::Symbol;

/// A node of a parse tree, which contracts see as a `Tree`: a leaf, or one more owner of a node
/// with children.
#[cycle(node)]
#[derive(Drop)]
pub struct Node {
    pub(crate) kind: Kind,
}

#[cycle(node)]
#[derive(Drop)]
pub(crate) enum Kind {
    Leaf(Leaf),
    Rule(RuleNode),
    Repetition(Shared<Repetition>),
    Single(Single),
}

/// A node over a token.
#[derive(Clone, Copy)]
pub(crate) struct Leaf {
    pub pad: u32,
    pub size: u32,
    pub extent: u32,
    pub symbol: Symbol,
    pub settled: bool,
    pub extra: bool,
    pub state: Option<u16>,
}

/// What a node with children says of itself beside them.
#[derive(Clone, Copy)]
pub(crate) struct Summary {
    pub symbol: Symbol,
    pub depth: u16,
    pub size: u32,
    pub pad: u32,
    pub extent: u32,
    pub settled: bool,
    pub state: Option<u16>,
    pub nodes: u32,
    /// The number of a rule's production, and 0 for every other node. It lies where a gap would be.
    pub production: u32,
    pub dynamic: i64,
}

/// A node of a repetition, with its elements one after another.
#[cycle(node)]
pub(crate) struct Repetition {
    pub summary: Summary,
    pub run: Shared<Run>,
}

/// Written out so that it takes little stack, as is that of `Shape`.
impl Drop for Repetition {
    #[cycle(node)]
    #[inline(always)]
    fn drop(self) {
        let Repetition { summary: _, run } = self;
        drop_run(run);
    }
}

/// Elements of a repetition one after another, with their children, in a balanced tree of shared
/// parts.
#[cycle(node)]
#[derive(Drop)]
pub(crate) struct Run {
    pub(crate) counts: Counts,
    pub(crate) height: u8,
    pub(crate) shape: Shape,
}

/// What is counted of elements and their children.
#[derive(Clone, Copy)]
pub(crate) struct Counts {
    pub elements: u32,
    pub children: u32,
    /// Whether all elements are settled.
    pub settled: bool,
    /// The values of the productions that added the elements together.
    pub values: i64,
    /// Where the elements end with all that was examined for them, from where they begin.
    pub reach: u64,
    pub sums: Sums,
}

/// What is added up over children.
#[derive(Clone, Copy)]
pub(crate) struct Sums {
    /// The nodes of all children together.
    pub nodes: u64,
    /// The bytes of all children together, their pads among them.
    pub spans: u64,
    /// The depth of the deepest child, 0 without one.
    pub depth: u16,
    /// The dynamic totals of all children together.
    pub totals: i128,
}

#[cycle(node)]
pub(crate) enum Shape {
    Leaf(List<Element>, List<Node>),
    Branch(Shared<Run>, Shared<Run>),
}

/// Written out, with functions of their own for a part and for a leaf: a derived drop copies the
/// whole value to the stack at each level.
impl Drop for Shape {
    #[cycle(node)]
    #[inline(always)]
    fn drop(self) {
        match self {
            Shape::Leaf(elements, children) => drop_leaf(elements, children),
            Shape::Branch(left, right) => {
                drop_run(left);
                drop_run(right);
            }
        }
    }
}

#[cycle(node)]
#[inline(never)]
fn drop_run(run: Shared<Run>) {
    drop(run);
}

#[cycle(node)]
#[inline(never)]
fn drop_leaf(elements: List<Element>, children: List<Node>) {
    drop(elements);
    drop(children);
}

impl Model for Node {
    ghost use Rattle.std.specs.Prelude.{◌+◌, ◌*◌};
    ghost use Rattle.spec_trees.specs.declared.tree.Tree.{Tree};
    ghost use Rattle.spec_trees.specs.contracts.tree.Tree as tree;
    ghost use Rattle.std.specs.Coded.{codes};

    ghost Value = { Tree };

    ghost coded = { Prim.hlevel (codes, tree.the_row.coded) };

    ghost use Rattle.spec_trees.specs.Trees.{node_count};
    ghost use Rattle.ts_node.specs.Held.{node_tree, IsKeptLeaf};

    ghost view = { λ a. node_tree a.kind };

    ghost invariant = { λ a. IsKeptLeaf a.kind };

    ghost size = { λ t. 4 * node_count t + 1 };

    ghost use Rattle.ts_node.specs.Falls.{kind_falls};

    ghost size_decreases = { λ a h. kind_falls a.kind };
}

impl Model for Repetition {
    ghost use Rattle.std.specs.Prelude.{◌+◌, ◌*◌, ◌<◌, None, length};
    ghost use Rattle.spec_trees.specs.declared.tree.Tree.{Tree};
    ghost use Rattle.spec_trees.specs.contracts.tree.Tree as tree;
    ghost use Rattle.std.specs.Coded.{codes};

    ghost Value = { Tree };

    ghost coded = { Prim.hlevel (codes, tree.the_row.coded) };

    ghost use Rattle.spec_trees.specs.Trees.{node_count};
    ghost use Rattle.ts_node.specs.Held.{body_tree, IsSummary};

    ghost view = { λ a. body_tree a.summary None a.run.elements a.run.children };

    ghost invariant = { λ a.
        IsSummary a.summary (body_tree a.summary None a.run.elements a.run.children)
        × (0 < length a.run.elements) };

    ghost size = { λ t. 4 * node_count t };

    ghost use Rattle.ts_node.specs.Falls.{run_falls};

    ghost size_decreases = { λ a h. run_falls a.summary a.run };
}

impl Model for Run {
    ghost use Rattle.std.specs.Prelude.{◌+◌, ◌*◌, length};
    ghost use Rattle.spec_trees.specs.declared.tree.Stretch.{Stretch};
    ghost use Rattle.spec_trees.specs.contracts.tree.Stretch as stretch;
    ghost use Rattle.std.specs.Coded.{codes};

    ghost Value = { Stretch };

    ghost coded = { Prim.hlevel (codes, stretch.the_row.coded) };

    ghost use Rattle.spec_trees.specs.Trees.{all_nodes};
    ghost use Rattle.ts_node.specs.Held.{stretch_of, IsWhole};

    ghost view = { λ a. stretch_of a.shape };

    ghost invariant = { λ a. IsWhole a.counts a.shape };

    ghost size = { λ s. 4 * (length s.elements + all_nodes s.children) + 2 };

    ghost use Rattle.ts_node.specs.Falls.{shape_falls};

    ghost size_decreases = { λ a h. shape_falls a.shape h.held };
}

impl Repetition {
    #[tactic(auto, using(crate::proofs::BodyLemmas::tells, crate::proofs::BodyLemmas::extra_is))]
    pub(crate) fn summary(&self) -> Summary
        ensures tells { Tells result self.now }
        ensures extra { is_extra_node self.now ≡ false }
    {
        self.summary
    }

    #[tactic(auto, using(crate::proofs::BodyLemmas::children_are, crate::proofs::BodyLemmas::elements_are, crate::proofs::BodyLemmas::production_is, crate::proofs::BodyLemmas::few_children))]
    pub(crate) fn run(&self) -> &Shared<Run>
        ensures elements { result.now.elements ≡ elements_of self.now }
        ensures children { result.now.children ≡ children_of self.now }
        ensures production { production_of self.now ≡ None }
        ensures few { length (children_of self.now) < node_limit }
    {
        &self.run
    }

    /// Its run, without the repetition.
    #[tactic(auto, using(crate::proofs::BodyLemmas::children_are, crate::proofs::BodyLemmas::elements_are))]
    pub(crate) fn into_run(self) -> Shared<Run>
        ensures elements { result.elements ≡ elements_of self }
        ensures children { result.children ≡ children_of self }
    {
        let Repetition { summary: _, run } = self;
        run
    }
}

impl Leaf {
    #[tactic(auto, using(crate::proofs::LeafLemmas::tells_leaf))]
    fn summary(&self) -> Summary
        requires { IsNode (leaf_tree self.now) }
        ensures { Tells result (leaf_tree self.now) }
    {
        Summary {
            symbol: self.symbol,
            depth: 1,
            nodes: 1,
            pad: self.pad,
            size: self.size,
            extent: self.extent,
            state: self.state,
            settled: self.settled,
            production: 0,
            dynamic: 0,
        }
    }
}

impl Leaf {
    /// The leaf, standing as an extra.
    pub(crate) fn as_extra(&self) -> Leaf
        ensures { result ≡ extra_leaf self.now }
    {
        Leaf {
            pad: self.pad,
            size: self.size,
            extent: self.extent,
            symbol: self.symbol,
            settled: self.settled,
            extra: true,
            state: self.state,
        }
    }

    /// The leaf as an edit leaves it.
    pub(crate) fn remade(&self, pad: u32, size: u32) -> Leaf
        ensures { result ≡ remade_leaf pad size self.now }
    {
        Leaf {
            pad,
            size,
            extent: self.extent,
            symbol: self.symbol,
            settled: false,
            extra: self.extra,
            state: self.state,
        }
    }
}

impl Node {
    /// What a node says of itself. It is made part of its callers, who each want a field or two.
    #[inline(always)]
    pub(crate) fn summary(&self) -> Summary
        ensures { Tells result self.now }
    {
        match &self.kind {
            Kind::Leaf(leaf) => leaf.summary(),
            Kind::Rule(rule) => rule.summary(),
            Kind::Repetition(repetition) => repetition.get().summary(),
            Kind::Single(single) => single.summary(),
        }
    }

    /// One more owner of the same node. It takes no memory.
    ///
    /// # Errors
    ///
    /// `AllocError` where the count of owners is full.
    pub fn try_clone(&self) -> Result<Node, AllocError>
        ensures { IfOk result (λ node. node ≡ self.now) }
    {
        let kind = match &self.kind {
            Kind::Leaf(leaf) => Kind::Leaf(*leaf),
            Kind::Rule(rule) => Kind::Rule(rule.try_clone()?),
            Kind::Repetition(repetition) => Kind::Repetition(repetition.try_clone()?),
            Kind::Single(single) => Kind::Single(single.try_clone()?),
        };
        Ok(Node { kind })
    }

    /// The token or rule that it is a node of.
    pub fn symbol(&self) -> Symbol
        ensures { result.0 ≡ symbol_of self.now }
    {
        self.summary().symbol
    }

    /// The number of its production. None for a leaf and for a repetition.
    #[tactic(auto, using(crate::proofs::BodyLemmas::leaf_production))]
    pub fn production(&self) -> Option<u32>
        ensures { result ≡ production_of self.now }
    {
        match &self.kind {
            Kind::Leaf(_) => None,
            Kind::Rule(rule) => Some(rule.production()),
            Kind::Repetition(repetition) => {
                let _ = repetition.get().run();
                None
            }
            Kind::Single(single) => {
                let _ = single.lists();
                None
            }
        }
    }

    /// How many bytes stand before its own.
    pub fn pad(&self) -> u32
        ensures { result ≡ pad_of self.now }
    {
        self.summary().pad
    }

    /// How many bytes are its own.
    pub fn size(&self) -> u32
        ensures { result ≡ size_of self.now }
    {
        self.summary().size
    }

    /// 1 for a node without children, else one more than its deepest child.
    pub fn depth(&self) -> u32
        ensures { result ≡ tree_depth self.now }
    {
        self.summary().depth as u32
    }

    /// The sum of the dynamic values of all productions in it, each as often as it was used: a
    /// number without a unit that the grammar gives by `prec.dynamic`. Of two trees of one text the
    /// one with the greater sum is the better one.
    pub fn dynamic(&self) -> i64
        ensures { result ≡ total_of self.now }
    {
        self.summary().dynamic
    }

    /// How many bytes were examined to make it, counted from the first byte of its pad on, so that
    /// an edit behind them leaves it as it is. The end of the text counts as one byte, so that a
    /// settled node has examined more than its pad and size.
    pub fn extent(&self) -> u32
        ensures { result ≡ node_extent self.now }
    {
        self.summary().extent
    }

    /// The state below it, where one was fixed.
    pub fn state(&self) -> Option<u16>
        ensures { result ≡ state_of self.now }
    {
        self.summary().state
    }

    /// Whether no edit has reached it.
    pub fn settled(&self) -> bool
        ensures { result ≡ is_settled self.now }
    {
        self.summary().settled
    }

    /// How many nodes its tree has, and one more for each element of a repetition in it.
    pub fn nodes(&self) -> u32
        ensures count { result ≡ node_count self.now }
        ensures node { IsNode self.now }
        ensures whole { HoldsNodes self.now }
    {
        self.summary().nodes
    }

    /// Whether it stands as an extra.
    #[tactic(auto, using(crate::proofs::BodyLemmas::leaf_extra))]
    pub fn extra(&self) -> bool
        ensures { result ≡ is_extra_node self.now }
    {
        match &self.kind {
            Kind::Leaf(leaf) => leaf.extra,
            Kind::Rule(rule) => {
                let _ = rule.summary();
                false
            }
            Kind::Repetition(repetition) => {
                let _ = repetition.get().summary();
                false
            }
            Kind::Single(single) => {
                let _ = single.summary();
                false
            }
        }
    }

    /// How many children it has.
    #[tactic(auto, using(crate::proofs::BodyLemmas::leaf_children))]
    pub fn children(&self) -> u32
        ensures { result ≡ length (children_of self.now) }
    {
        match &self.kind {
            Kind::Leaf(_) => 0,
            Kind::Rule(rule) => rule.children().len() as u32,
            Kind::Repetition(repetition) => repetition.get().run().get().counts().children,
            Kind::Single(single) => {
                let (_, children) = single.lists();
                children.len() as u32
            }
        }
    }

    /// The child at `k`, counted from 0.
    #[tactic(auto, using(crate::proofs::BodyLemmas::leaf_children))]
    pub fn child(&self, k: u32) -> &Node
        requires { k < length (children_of self.now) }
        ensures { slice_get (children_of self.now) k ≡ Some result.now }
    {
        match &self.kind {
            Kind::Leaf(_) => unreachable!(),
            Kind::Rule(rule) => &rule.children()[k as usize],
            Kind::Repetition(repetition) => repetition.get().run().get().child(k),
            Kind::Single(single) => {
                let (_, children) = single.lists();
                &children[k as usize]
            }
        }
    }

    /// How many elements it has as a repetition, and 0 for all other nodes. Its elements have just
    /// its children.
    #[tactic(auto, using(crate::proofs::BodyLemmas::leaf_elements, crate::proofs::BodyLemmas::leaf_children, crate::proofs::BodyLemmas::none_counted, crate::proofs::BodyLemmas::counted))]
    pub fn elements(&self) -> u32
        ensures count { result ≡ length (elements_of self.now) }
        ensures own { AreCounted (elements_of self.now) (children_of self.now) }
        ensures few { length (children_of self.now) < node_limit }
    {
        match &self.kind {
            Kind::Leaf(_) => 0,
            Kind::Rule(rule) => {
                let _ = rule.children();
                0
            }
            Kind::Repetition(repetition) => repetition.get().run().get().counts().elements,
            Kind::Single(single) => {
                let _ = single.lists();
                1
            }
        }
    }

    /// The element at `k`, counted from 0.
    #[tactic(auto, using(crate::proofs::BodyLemmas::leaf_elements))]
    pub fn element(&self, k: u32) -> Element
        requires { k < length (elements_of self.now) }
        ensures { slice_get (elements_of self.now) k ≡ Some result }
    {
        match &self.kind {
            Kind::Leaf(_) => unreachable!(),
            Kind::Rule(rule) => {
                let _ = rule.children();
                unreachable!()
            }
            Kind::Repetition(repetition) => repetition.get().run().get().element(k),
            Kind::Single(single) => {
                let (elements, _) = single.lists();
                elements[k as usize]
            }
        }
    }
}

//! Elements of one repetition behind those of another: elements are cut out of a node, and a
//! repetition with them behind its own comes out.
ghost use Rattle.std.specs.Prelude.{◌≡◌, ◌+◌, ◌*◌, ◌<◌, ◌≤◌, ◌^◌, ◌++◌, IfOk, length};
ghost use Rattle.std.specs.Int.RustNames.{unsigned_abs};
ghost use lib.IntN.{◌+ℤ◌};
ghost use Rattle.spec_trees.specs.Trees.{all_nodes, all_spans, all_totals, all_values, children_of, elements_of};
ghost use Rattle.spec_trees.specs.Made.{elements_between, lengthened, node_limit, reach_of, IsNode};
ghost use Rattle.ts_node.specs.Held.{all_settled};
ghost use Rattle.ts_node.specs.Standing.{IsSection};

use crate::make::{Head, over_run};
use crate::node::{Kind, Node, Run};
use crate::sums::plus;
use std::alloc::{AllocError, Global};
use std::marker::Model;
use ts_base::Shared;

/// Elements of a repetition one after another, with their children, of which there is one at least.
/// They are shared with the node from which they come.
#[derive(Drop)]
pub struct Section {
    pub(crate) run: Shared<Run>,
}

impl Model for Section {
    ghost use Rattle.std.specs.Prelude.{ℕ};
    ghost use Rattle.spec_trees.specs.declared.tree.Stretch.{Stretch};
    ghost use Rattle.spec_trees.specs.contracts.tree.Stretch as stretch;
    ghost use Rattle.std.specs.Coded.{codes};

    ghost Value = { Stretch };

    ghost coded = { Prim.hlevel (codes, stretch.the_row.coded) };

    ghost view = { λ a. a.run };
}

impl Section {
    /// How many elements there are, and how many nodes in them, together.
    #[tactic(auto, using(crate::proofs::RunLemmas::section_tells))]
    pub fn nodes(&self) -> u64
        ensures count { result ≡ length self.now.elements + all_nodes self.now.children }
        ensures section { IsSection self.now }
    {
        let counts = self.run.get().counts();
        counts.elements as u64 + counts.sums.nodes
    }

    /// How many bytes they take.
    pub fn bytes(&self) -> u64
        ensures { result ≡ all_spans self.now.children }
    {
        self.run.get().counts().sums.spans
    }

    /// Where they end with all that was examined for them, from where they begin.
    pub fn reach(&self) -> u64
        ensures { result ≡ reach_of self.now.elements self.now.children }
    {
        self.run.get().counts().reach
    }

    /// The values of the productions that added them, and the totals of their children, together.
    pub(crate) fn total(&self) -> i64
        requires { length self.now.elements + all_nodes self.now.children < node_limit }
        ensures total { result ≡ all_values self.now.elements +ℤ all_totals self.now.children }
        ensures modest { unsigned_abs result
            ≤ 2 ^ 31 * (length self.now.elements + all_nodes self.now.children) }
    {
        let counts = self.run.get().counts();
        plus(counts.values, counts.sums.totals as i64)
    }

    /// Whether all of them are settled.
    pub fn settled(&self) -> bool
        ensures { result ≡ all_settled self.now.elements }
    {
        self.run.get().counts().settled
    }
}

impl Node {
    /// The elements of a repetition from the one at `from` on, up to the one at `to`. It takes time
    /// by the logarithm of the number of elements.
    ///
    /// # Errors
    ///
    /// `AllocError` where memory runs out.
    #[tactic(auto, using(crate::proofs::BodyLemmas::leaf_elements))]
    pub fn section(&self, alloc: Global, from: u32, to: u32) -> Result<Section, AllocError>
        requires some { from < to }
        requires within { to ≤ length (elements_of self.now) }
        ensures { IfOk result (λ section. section ≡ elements_between from to self.now) }
    {
        match &self.kind {
            Kind::Leaf(_) => unreachable!(),
            Kind::Rule(rule) => {
                let _ = rule.children();
                unreachable!()
            }
            Kind::Repetition(repetition) => {
                let first = Run::first(alloc, repetition.get().run(), to)?;
                let run = Run::behind(alloc, &first, from)?;
                Ok(Section { run })
            }
            Kind::Single(single) => {
                let repetition = single.repetition(alloc)?;
                let whole = Run::first(alloc, repetition.run(), to)?;
                let run = Run::behind(alloc, &whole, from)?;
                Ok(Section { run })
            }
        }
    }
}

/// The repetition with these elements behind its own. It shares the parts of both, and takes time
/// by the logarithm of their lengths.
///
/// # Errors
///
/// `AllocError` where memory runs out.
pub fn lengthen(
    alloc: Global,
    before: &Node,
    section: &Section,
    extent: u32,
    state: Option<u16>,
) -> Result<Node, AllocError>
    requires repetition { 0 < length (elements_of before.now) }
    requires node { IsNode (lengthened before.now section.now extent state) }
    ensures { IfOk result (λ node. node ≡ lengthened before.now section.now extent state) }
{
    let summary = before.summary();
    let more = section.total();
    let dynamic = plus(summary.dynamic, more);
    let head = Head {
        symbol: summary.symbol,
        dynamic,
        extent,
        state,
    };
    let run = joined_run(alloc, before, section)?;
    over_run(alloc, head, run)
}

/// The run of a repetition, and another behind it.
#[tactic(auto, using(crate::proofs::BodyLemmas::leaf_elements))]
fn joined_run(alloc: Global, before: &Node, more: &Section) -> Result<Shared<Run>, AllocError>
    requires repetition { 0 < length (elements_of before.now) }
    requires fits { length (elements_of before.now) + length more.now.elements < 2 ^ 32 }
    requires wide { length (children_of before.now) + length more.now.children < 2 ^ 32 }
    ensures elements { IfOk result
        (λ run. run.elements ≡ elements_of before.now ++ more.now.elements) }
    ensures children { IfOk result
        (λ run. run.children ≡ children_of before.now ++ more.now.children) }
{
    match &before.kind {
        Kind::Leaf(_) => unreachable!(),
        Kind::Rule(rule) => {
            let _ = rule.children();
            unreachable!()
        }
        Kind::Repetition(repetition) => Run::join(alloc, repetition.get().run(), &more.run),
        Kind::Single(single) => {
            let repetition = single.repetition(alloc)?;
            Run::join(alloc, repetition.run(), &more.run)
        }
    }
}

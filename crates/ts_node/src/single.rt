//! Repetitions of one element of one or two children, in one piece of memory: the children go in,
//! and the node comes out, or a repetition with a run in its place.
ghost use Rattle.std.specs.Prelude.{◌≡◌, ◌≤◌, ◌∷◌, [], IfOk, None, false, length};
ghost use Rattle.spec_trees.specs.Trees.{children_of, elements_of, is_extra_node, production_of};
ghost use Rattle.spec_trees.specs.Made.{children_count};
ghost use Rattle.ts_node.specs.Held.{body_tree, single_of, IsSummary, Tells};
ghost use Rattle.ts_node.specs.Short.{summary_of};

use crate::node::{Node, Repetition, Run, Summary};
use crate::rule::{only_of, two_of};
use crate::short::ShortSummary;
use crate::sums::copy;
use spec_trees::Element;
use std::alloc::{AllocError, Global};
use std::marker::Model;
use ts_base::{List, Shared};

/// A repetition of one element of one or two children.
#[cycle(node)]
#[derive(Drop)]
pub(crate) struct Single {
    body: SingleBody,
}

/// The body of a repetition of one element, by the number of its children.
#[cycle(node)]
#[derive(Drop)]
pub(crate) enum SingleBody {
    One(Shared<SingleOfOne>),
    Two(Shared<SingleOfTwo>),
}

#[cycle(node)]
#[derive(Drop)]
pub(crate) struct SingleOfOne {
    summary: ShortSummary,
    element: [Element; 1],
    children: [Node; 1],
}

#[cycle(node)]
#[derive(Drop)]
pub(crate) struct SingleOfTwo {
    summary: ShortSummary,
    element: [Element; 1],
    children: [Node; 2],
}

impl Model for Single {
    ghost use Rattle.std.specs.Prelude.{◌*◌};
    ghost use Rattle.spec_trees.specs.declared.tree.Tree.{Tree};
    ghost use Rattle.spec_trees.specs.contracts.tree.Tree as tree;
    ghost use Rattle.std.specs.Coded.{codes};

    ghost Value = { Tree };

    ghost coded = { Prim.hlevel (codes, tree.the_row.coded) };

    ghost use Rattle.spec_trees.specs.Trees.{node_count};
    ghost use Rattle.ts_node.specs.Held.{single_of};

    ghost view = { λ a. single_of a.body };

    ghost size = { λ t. 4 * node_count t };

    ghost use Rattle.ts_node.specs.Falls.{single_body_falls};

    ghost size_decreases = { λ a h. single_body_falls a.body };
}

impl Model for SingleOfOne {
    ghost use Rattle.std.specs.Prelude.{◌≡◌, ◌-◌, ◌*◌, None, length};
    ghost use Rattle.spec_trees.specs.declared.tree.Tree.{Tree};
    ghost use Rattle.spec_trees.specs.contracts.tree.Tree as tree;
    ghost use Rattle.std.specs.Coded.{codes};

    ghost Value = { Tree };

    ghost coded = { Prim.hlevel (codes, tree.the_row.coded) };

    ghost use Rattle.spec_trees.specs.Trees.{node_count};
    ghost use Rattle.spec_trees.specs.Made.{children_count};
    ghost use Rattle.ts_node.specs.Held.{body_tree, IsSummary};
    ghost use Rattle.ts_node.specs.Short.{summary_of};

    ghost view = { λ a. body_tree (summary_of a.summary) None a.element a.children };

    ghost invariant = { λ a.
        IsSummary (summary_of a.summary)
        (body_tree (summary_of a.summary) None a.element a.children)
        × (children_count a.element ≡ length a.children) };

    ghost size = { λ t. 4 * node_count t - 1 };

    ghost use Rattle.ts_node.specs.Falls.{single_falls};

    ghost size_decreases = { λ a h. single_falls (summary_of a.summary) a.element a.children };
}

impl Model for SingleOfTwo {
    ghost use Rattle.std.specs.Prelude.{◌≡◌, ◌-◌, ◌*◌, None, length};
    ghost use Rattle.spec_trees.specs.declared.tree.Tree.{Tree};
    ghost use Rattle.spec_trees.specs.contracts.tree.Tree as tree;
    ghost use Rattle.std.specs.Coded.{codes};

    ghost Value = { Tree };

    ghost coded = { Prim.hlevel (codes, tree.the_row.coded) };

    ghost use Rattle.spec_trees.specs.Trees.{node_count};
    ghost use Rattle.spec_trees.specs.Made.{children_count};
    ghost use Rattle.ts_node.specs.Held.{body_tree, IsSummary};
    ghost use Rattle.ts_node.specs.Short.{summary_of};

    ghost view = { λ a. body_tree (summary_of a.summary) None a.element a.children };

    ghost invariant = { λ a.
        IsSummary (summary_of a.summary)
        (body_tree (summary_of a.summary) None a.element a.children)
        × (children_count a.element ≡ length a.children) };

    ghost size = { λ t. 4 * node_count t - 1 };

    ghost use Rattle.ts_node.specs.Falls.{single_falls};

    ghost size_decreases = { λ a h. single_falls (summary_of a.summary) a.element a.children };
}

impl SingleOfOne {
    fn parts(&self) -> (Summary, &[Element], &[Node])
        ensures parts { body_tree result.0 None result.1.now result.2.now ≡ self.now }
        ensures kept { IsSummary result.0 (body_tree result.0 None result.1.now result.2.now) }
        ensures own { children_count result.1.now ≡ length result.2.now }
        ensures one { length result.1.now ≡ 1 }
        ensures few { length result.2.now ≤ 2 }
    {
        (self.summary.summary(), &self.element, &self.children)
    }
}

impl SingleOfTwo {
    fn parts(&self) -> (Summary, &[Element], &[Node])
        ensures parts { body_tree result.0 None result.1.now result.2.now ≡ self.now }
        ensures kept { IsSummary result.0 (body_tree result.0 None result.1.now result.2.now) }
        ensures own { children_count result.1.now ≡ length result.2.now }
        ensures one { length result.1.now ≡ 1 }
        ensures few { length result.2.now ≤ 2 }
    {
        (self.summary.summary(), &self.element, &self.children)
    }
}

impl Single {
    /// A repetition of one element of the only child, which is taken out of its vector.
    ///
    /// # Errors
    ///
    /// `AllocError` where memory runs out.
    #[inline(always)]
    pub(crate) fn of_one(
        alloc: Global,
        summary: ShortSummary,
        element: Element,
        children: &mut Vec<Node>,
    ) -> Result<Single, AllocError>
        requires one { length children.old.items ≡ 1 }
        requires own { element.children ≡ 1 }
        requires kept { IsSummary (summary_of summary)
            (body_tree (summary_of summary) None (element ∷ []) children.old.items) }
        ensures { IfOk result (λ single. single
            ≡ body_tree (summary_of summary) None (element ∷ []) children.old.items) }
    {
        Single::of_child(alloc, summary, element, only_of(children))
    }

    /// The same of the child alone.
    ///
    /// # Errors
    ///
    /// `AllocError` where memory runs out.
    #[inline(always)]
    pub(crate) fn of_child(
        alloc: Global,
        summary: ShortSummary,
        element: Element,
        child: Node,
    ) -> Result<Single, AllocError>
        requires own { element.children ≡ 1 }
        requires kept { IsSummary (summary_of summary)
            (body_tree (summary_of summary) None (element ∷ []) (child ∷ [])) }
        ensures { IfOk result (λ single. single
            ≡ body_tree (summary_of summary) None (element ∷ []) (child ∷ [])) }
    {
        let element = [element];
        let children = [child];
        let body = SingleBody::One(Shared::new(
            alloc,
            SingleOfOne {
                summary,
                element,
                children,
            },
        )?);
        Ok(Single { body })
    }

    /// The same of both children.
    ///
    /// # Errors
    ///
    /// `AllocError` where memory runs out.
    #[inline(always)]
    pub(crate) fn of_two(
        alloc: Global,
        summary: ShortSummary,
        element: Element,
        children: &mut Vec<Node>,
    ) -> Result<Single, AllocError>
        requires two { length children.old.items ≡ 2 }
        requires own { element.children ≡ 2 }
        requires kept { IsSummary (summary_of summary)
            (body_tree (summary_of summary) None (element ∷ []) children.old.items) }
        ensures { IfOk result (λ single. single
            ≡ body_tree (summary_of summary) None (element ∷ []) children.old.items) }
    {
        let children = two_of(children);
        let element = [element];
        let body = SingleBody::Two(Shared::new(
            alloc,
            SingleOfTwo {
                summary,
                element,
                children,
            },
        )?);
        Ok(Single { body })
    }

    /// What it says of itself, its element and its children.
    #[inline(always)]
    fn parts(&self) -> (Summary, &[Element], &[Node])
        ensures parts { body_tree result.0 None result.1.now result.2.now ≡ self.now }
        ensures kept { IsSummary result.0 (body_tree result.0 None result.1.now result.2.now) }
        ensures own { children_count result.1.now ≡ length result.2.now }
        ensures one { length result.1.now ≡ 1 }
        ensures few { length result.2.now ≤ 2 }
    {
        match &self.body {
            SingleBody::One(body) => body.get().parts(),
            SingleBody::Two(body) => body.get().parts(),
        }
    }

    #[inline(always)]
    #[tactic(auto, using(crate::proofs::BodyLemmas::tells, crate::proofs::BodyLemmas::extra_is))]
    pub(crate) fn summary(&self) -> Summary
        ensures tells { Tells result self.now }
        ensures extra { is_extra_node self.now ≡ false }
    {
        let (summary, _, _) = self.parts();
        summary
    }

    /// Its element and its children.
    #[inline(always)]
    #[tactic(auto, using(crate::proofs::BodyLemmas::children_are, crate::proofs::BodyLemmas::elements_are, crate::proofs::BodyLemmas::production_is))]
    pub(crate) fn lists(&self) -> (&[Element], &[Node])
        ensures elements { result.0.now ≡ elements_of self.now }
        ensures children { result.1.now ≡ children_of self.now }
        ensures production { production_of self.now ≡ None }
        ensures own { children_count result.0.now ≡ length result.1.now }
        ensures one { length result.0.now ≡ 1 }
        ensures few { length result.1.now ≤ 2 }
    {
        let (_, element, children) = self.parts();
        (element, children)
    }

    /// One more owner of the same repetition. It takes no memory.
    ///
    /// # Errors
    ///
    /// `AllocError` where the count of owners is full.
    pub(crate) fn try_clone(&self) -> Result<Single, AllocError>
        ensures { IfOk result (λ single. single ≡ self.now) }
    {
        let body = match &self.body {
            SingleBody::One(body) => SingleBody::One(body.try_clone()?),
            SingleBody::Two(body) => SingleBody::Two(body.try_clone()?),
        };
        Ok(Single { body })
    }

    /// The same repetition with a run, in which there is room for one element more.
    ///
    /// # Errors
    ///
    /// `AllocError` where memory runs out.
    pub(crate) fn repetition(&self, alloc: Global) -> Result<Repetition, AllocError>
        ensures { IfOk result (λ repetition. repetition ≡ self.now) }
    {
        let (summary, element, children) = self.parts();
        let mut elements = List::with_capacity(alloc, 2)?;
        elements.push(element[0])?;
        let mut nodes = List::with_capacity(alloc, 2 * children.len())?;
        copy(children, &mut nodes)?;
        let run = Run::leaf(alloc, elements, nodes)?;
        Ok(Repetition { summary, run })
    }
}

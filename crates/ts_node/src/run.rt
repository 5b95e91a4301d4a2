//! Runs: the elements of a repetition with their children, in a tree of shared parts that is
//! balanced as an AVL tree is. Heights and balance are no part of what a run means.
ghost use Rattle.std.specs.Prelude.{◌≡◌, ◌+◌, ◌<◌, ◌^◌, ◌++◌, ◌∷◌, [], IfOk, OnOk, length, set, slice_get, Some};
ghost use Rattle.spec_trees.specs.Trees.{first_pad};
ghost use Rattle.spec_trees.specs.Made.{children_count, loose_element, loosened_at};
ghost use Rattle.ts_node.specs.Held.{joined_stretch, stretch, changed, loosened_stretch, IsCount};
ghost use Rattle.ts_node.specs.Sides.{IsSideOf};

use crate::counts::{both, count};
use crate::in_place::lengthen_alone;
use crate::node::{Counts, Node, Run, Shape};
use crate::sums::{copy, moved};
use spec_trees::Element;
use std::alloc::{AllocError, Global};
use ts_base::{List, Shared};

/// The most elements and children together in a leaf, but for a leaf of one long element.
pub(crate) const MOST_IN_LEAF: u64 = 128;

/// The most elements and children together in the last leaf of a run that has other owners, and is
/// so copied for each element by which it is lengthened.
const MOST_IN_LAST: u64 = 32;

impl Run {
    /// What is counted of it.
    pub(crate) fn counts(&self) -> Counts
        ensures { IsCount result self.now }
    {
        self.counts
    }

    /// How many levels stand above the leaves.
    fn height(&self) -> u8 {
        self.height
    }

    /// The child at `k`, counted from 0.
    pub(crate) fn child(&self, k: u32) -> &Node
        requires { k < length self.now.children }
        ensures { slice_get self.now.children k ≡ Some result.now }
    {
        match &self.shape {
            Shape::Leaf(_, children) => children.get(k as usize),
            Shape::Branch(left, right) => {
                let middle = left.get().counts().children;
                if k < middle {
                    left.get().child(k)
                } else {
                    right.get().child(k - middle)
                }
            }
        }
    }

    /// The element at `k`, counted from 0.
    pub(crate) fn element(&self, k: u32) -> Element
        requires { k < length self.now.elements }
        ensures { slice_get self.now.elements k ≡ Some result }
    {
        match &self.shape {
            Shape::Leaf(elements, _) => *elements.get(k as usize),
            Shape::Branch(left, right) => {
                let middle = left.get().counts().elements;
                if k < middle {
                    left.get().element(k)
                } else {
                    right.get().element(k - middle)
                }
            }
        }
    }

    /// The pad of the first child.
    #[tactic(auto, using(crate::proofs::RunLemmas::first_pad_is, crate::proofs::RunLemmas::no_first_pad))]
    pub(crate) fn pad_of_first(&self) -> u32
        ensures { result ≡ first_pad self.now.children }
    {
        if self.counts().children == 0 {
            0
        } else {
            self.child(0).pad()
        }
    }

    /// A run of one leaf.
    #[inline(always)]
    pub(crate) fn leaf(
        alloc: Global,
        elements: List<Element>,
        children: List<Node>,
    ) -> Result<Shared<Run>, AllocError>
        requires some { 0 < length elements }
        requires own { children_count elements ≡ length children }
        requires fits { length elements < 2 ^ 32 }
        requires wide { length children < 2 ^ 32 }
        ensures { IfOk result (λ run. run ≡ stretch elements children) }
    {
        let counts = count(elements.as_slice(), children.as_slice());
        Run::counted_leaf(alloc, counts, elements, children)
    }

    /// A run of one leaf, of which this is counted.
    fn counted_leaf(
        alloc: Global,
        counts: Counts,
        elements: List<Element>,
        children: List<Node>,
    ) -> Result<Shared<Run>, AllocError>
        requires { IsCount counts (stretch elements children) }
        ensures { IfOk result (λ run. run ≡ stretch elements children) }
    {
        Shared::new(
            alloc,
            Run {
                counts,
                height: 0,
                shape: Shape::Leaf(elements, children),
            },
        )
    }

    /// A run over these two.
    fn branch(
        alloc: Global,
        left: Shared<Run>,
        right: Shared<Run>,
    ) -> Result<Shared<Run>, AllocError>
        requires fits { length left.elements + length right.elements < 2 ^ 32 }
        requires wide { length left.children + length right.children < 2 ^ 32 }
        ensures { IfOk result (λ run. run ≡ joined_stretch left right) }
    {
        let height = left
            .get()
            .height()
            .max(right.get().height())
            .saturating_add(1);
        let counts = both(left.get(), right.get());
        Shared::new(
            alloc,
            Run {
                counts,
                height,
                shape: Shape::Branch(left, right),
            },
        )
    }

    /// A run over `left` and `right`, of which the right one may be two levels higher.
    fn lean_right(
        alloc: Global,
        left: Shared<Run>,
        right: &Shared<Run>,
    ) -> Result<Shared<Run>, AllocError>
        requires fits { length left.elements + length right.now.elements < 2 ^ 32 }
        requires wide { length left.children + length right.now.children < 2 ^ 32 }
        ensures { IfOk result (λ run. run ≡ joined_stretch left right.now) }
    {
        match &right.get().shape {
            Shape::Branch(inner, outer) if is_two_higher(right.get(), left.get()) => {
                match &inner.get().shape {
                    Shape::Branch(first, second) if is_higher(inner.get(), outer.get()) => {
                        let low = Run::branch(alloc, left, first.try_clone()?)?;
                        let high = Run::branch(alloc, second.try_clone()?, outer.try_clone()?)?;
                        Run::branch(alloc, low, high)
                    }
                    Shape::Leaf(_, _) | Shape::Branch(_, _) => {
                        let low = Run::branch(alloc, left, inner.try_clone()?)?;
                        Run::branch(alloc, low, outer.try_clone()?)
                    }
                }
            }
            Shape::Leaf(_, _) | Shape::Branch(_, _) => Run::branch(alloc, left, right.try_clone()?),
        }
    }

    /// A run over `left` and `right`, of which the left one may be two levels higher.
    fn lean_left(
        alloc: Global,
        left: &Shared<Run>,
        right: Shared<Run>,
    ) -> Result<Shared<Run>, AllocError>
        requires fits { length left.now.elements + length right.elements < 2 ^ 32 }
        requires wide { length left.now.children + length right.children < 2 ^ 32 }
        ensures { IfOk result (λ run. run ≡ joined_stretch left.now right) }
    {
        match &left.get().shape {
            Shape::Branch(outer, inner) if is_two_higher(left.get(), right.get()) => {
                match &inner.get().shape {
                    Shape::Branch(first, second) if is_higher(inner.get(), outer.get()) => {
                        let high = Run::branch(alloc, second.try_clone()?, right)?;
                        let low = Run::branch(alloc, outer.try_clone()?, first.try_clone()?)?;
                        Run::branch(alloc, low, high)
                    }
                    Shape::Leaf(_, _) | Shape::Branch(_, _) => {
                        let high = Run::branch(alloc, inner.try_clone()?, right)?;
                        Run::branch(alloc, outer.try_clone()?, high)
                    }
                }
            }
            Shape::Leaf(_, _) | Shape::Branch(_, _) => Run::branch(alloc, left.try_clone()?, right),
        }
    }

    /// The elements of two leaves, with their children, in one, of which this is counted.
    fn merge(
        alloc: Global,
        counts: Counts,
        low: &[Element],
        low_children: &[Node],
        high: &[Element],
        high_children: &[Node],
    ) -> Result<Shared<Run>, AllocError>
        requires { IsCount counts
            (stretch (low.now ++ high.now) (low_children.now ++ high_children.now)) }
        ensures { IfOk result
            (λ run. run ≡ stretch (low.now ++ high.now) (low_children.now ++ high_children.now)) }
    {
        let mut elements = List::with_capacity(alloc, low.len() + high.len())?;
        copy_elements(low, &mut elements)?;
        copy_elements(high, &mut elements)?;
        let mut children = List::with_capacity(alloc, low_children.len() + high_children.len())?;
        copy(low_children, &mut children)?;
        copy(high_children, &mut children)?;
        Run::counted_leaf(alloc, counts, elements, children)
    }

    /// Both, one after the other.
    pub(crate) fn join(
        alloc: Global,
        left: &Shared<Run>,
        right: &Shared<Run>,
    ) -> Result<Shared<Run>, AllocError>
        requires fits { length left.now.elements + length right.now.elements < 2 ^ 32 }
        requires wide { length left.now.children + length right.now.children < 2 ^ 32 }
        ensures { IfOk result (λ run. run ≡ joined_stretch left.now right.now) }
    {
        let (first, second) = (left.get(), right.get());
        match (&first.shape, &second.shape) {
            (Shape::Branch(outer, inner), _) if is_deeper(first.height, second.height) => {
                let high = Run::join(alloc, inner, right)?;
                Run::lean_right(alloc, outer.try_clone()?, &high)
            }
            (_, Shape::Branch(inner, outer)) if is_deeper(second.height, first.height) => {
                let low = Run::join(alloc, left, inner)?;
                Run::lean_left(alloc, &low, outer.try_clone()?)
            }
            (Shape::Leaf(low, low_children), Shape::Leaf(high, high_children))
                if fit_one_leaf(first, second) => {
                Run::merge(
                    alloc,
                    both(first, second),
                    low.as_slice(),
                    low_children.as_slice(),
                    high.as_slice(),
                    high_children.as_slice(),
                )
            }
            (Shape::Leaf(_, _) | Shape::Branch(_, _), _) => {
                Run::branch(alloc, left.try_clone()?, right.try_clone()?)
            }
        }
    }

    /// A run of one element.
    pub(crate) fn single(
        alloc: Global,
        element: Element,
        children: List<Node>,
    ) -> Result<Shared<Run>, AllocError>
        requires wide { length children < 2 ^ 32 }
        requires own { element.children ≡ length children }
        ensures { IfOk result (λ run. run ≡ stretch (element ∷ []) children) }
    {
        let mut elements = List::with_capacity(alloc, 1)?;
        elements.push(element)?;
        Run::leaf(alloc, elements, children)
    }

    /// The run with one more element of these children, of which this is counted. A last leaf that
    /// nobody else owns is lengthened in place; another is copied, and all before it is shared. The
    /// last leaf grows until it is full; it then becomes part of the balanced tree before it, and a
    /// new one begins.
    pub(crate) fn with_element(
        alloc: Global,
        run: Shared<Run>,
        element: Element,
        one: Counts,
        more: &mut Vec<Node>,
    ) -> Result<Shared<Run>, AllocError>
        requires fits { length run.elements + 1 < 2 ^ 32 }
        requires wide { length run.children + length more.old.items < 2 ^ 32 }
        requires own { element.children ≡ length more.old.items }
        requires counted { IsCount one (stretch (element ∷ []) more.old.items) }
        ensures { IfOk result (λ new. new ≡ joined_stretch run
            (stretch (element ∷ []) more.old.items)) }
    {
        let mut run = run;
        if lengthen_alone(&mut run, element, one, more)? {
            Ok(run)
        } else {
            let last = Run::single(alloc, element, moved(alloc, more)?)?;
            Run::with_leaf(alloc, &run, &last)
        }
    }

    /// The run, and behind it one more leaf.
    fn with_leaf(
        alloc: Global,
        run: &Shared<Run>,
        last: &Shared<Run>,
    ) -> Result<Shared<Run>, AllocError>
        requires fits { length run.now.elements + length last.now.elements < 2 ^ 32 }
        requires wide { length run.now.children + length last.now.children < 2 ^ 32 }
        ensures { IfOk result (λ new. new ≡ joined_stretch run.now last.now) }
    {
        match &run.get().shape {
            Shape::Branch(before, end) if is_leaf(end.get()) => {
                Run::with_last(alloc, before, end, last)
            }
            Shape::Leaf(_, _) | Shape::Branch(_, _) => Run::end_joined(alloc, run, last),
        }
    }

    /// A run over `before` and the last leaf of a run, `end`, and behind it one more leaf.
    fn with_last(
        alloc: Global,
        before: &Shared<Run>,
        end: &Shared<Run>,
        last: &Shared<Run>,
    ) -> Result<Shared<Run>, AllocError>
        requires fits { length before.now.elements
            + (length end.now.elements + length last.now.elements) < 2 ^ 32 }
        requires wide { length before.now.children
            + (length end.now.children + length last.now.children) < 2 ^ 32 }
        ensures { IfOk result (λ run. run
            ≡ joined_stretch (joined_stretch before.now end.now) last.now) }
    {
        if has_room_as_copy(end.get(), last.get()) {
            let longer = Run::end_joined(alloc, end, last)?;
            Run::branch(alloc, before.try_clone()?, longer)
        } else {
            let whole = Run::join(alloc, before, end)?;
            Run::branch(alloc, whole, last.try_clone()?)
        }
    }

    /// Both, one after the other: in one leaf, where both are leaves and the last leaf of a run has
    /// room for them.
    fn end_joined(
        alloc: Global,
        left: &Shared<Run>,
        right: &Shared<Run>,
    ) -> Result<Shared<Run>, AllocError>
        requires fits { length left.now.elements + length right.now.elements < 2 ^ 32 }
        requires wide { length left.now.children + length right.now.children < 2 ^ 32 }
        ensures { IfOk result (λ run. run ≡ joined_stretch left.now right.now) }
    {
        let (first, second) = (left.get(), right.get());
        match (&first.shape, &second.shape) {
            (Shape::Leaf(low, low_children), Shape::Leaf(high, high_children))
                if has_room_as_copy(first, second) => {
                Run::merge(
                    alloc,
                    both(first, second),
                    low.as_slice(),
                    low_children.as_slice(),
                    high.as_slice(),
                    high_children.as_slice(),
                )
            }
            (Shape::Leaf(_, _) | Shape::Branch(_, _), _) => {
                Run::branch(alloc, left.try_clone()?, right.try_clone()?)
            }
        }
    }

    /// The run with another child at `k`. It shares all parts but those on the way to that child.
    pub(crate) fn with_child(
        alloc: Global,
        run: &Shared<Run>,
        k: u32,
        child: Node,
    ) -> Result<Shared<Run>, AllocError>
        requires { k < length run.now.children }
        ensures { IfOk result (λ new. new ≡ changed run.now k child) }
    {
        let _ = run.get().counts();
        match &run.get().shape {
            Shape::Leaf(elements, children) => {
                Run::leaf_with(alloc, elements.as_slice(), children.as_slice(), k, child)
            }
            Shape::Branch(left, right) => {
                let middle = left.get().counts().children;
                if k < middle {
                    let low = Run::with_child(alloc, left, k, child)?;
                    Run::branch(alloc, low, right.try_clone()?)
                } else {
                    let high = Run::with_child(alloc, right, k - middle, child)?;
                    Run::branch(alloc, left.try_clone()?, high)
                }
            }
        }
    }

    /// The run with the element at `k` not settled. It shares all parts but those on the way to it.
    pub(crate) fn with_loose(
        alloc: Global,
        run: &Shared<Run>,
        k: u32,
    ) -> Result<Shared<Run>, AllocError>
        requires { k < length run.now.elements }
        ensures { IfOk result (λ new. new ≡ loosened_stretch run.now k) }
    {
        let _ = run.get().counts();
        match &run.get().shape {
            Shape::Leaf(elements, children) => {
                Run::leaf_loosened(alloc, elements.as_slice(), children.as_slice(), k)
            }
            Shape::Branch(left, right) => {
                let middle = left.get().counts().elements;
                let _ = right.get().counts();
                if k < middle {
                    let low = Run::with_loose(alloc, left, k)?;
                    Run::branch(alloc, low, right.try_clone()?)
                } else {
                    let high = Run::with_loose(alloc, right, k - middle)?;
                    Run::branch(alloc, left.try_clone()?, high)
                }
            }
        }
    }

    /// The run with another child at `k`, and the element at `e` not settled. A part in which both
    /// lie is copied once.
    pub(crate) fn with_both(
        alloc: Global,
        run: &Shared<Run>,
        k: u32,
        child: Node,
        e: u32,
    ) -> Result<Shared<Run>, AllocError>
        requires child { k < length run.now.children }
        requires element { e < length run.now.elements }
        ensures { IfOk result (λ new. new ≡ loosened_stretch (changed run.now k child) e) }
    {
        let _ = run.get().counts();
        match &run.get().shape {
            Shape::Leaf(elements, children) => {
                Run::leaf_with_both(alloc, elements.as_slice(), children.as_slice(), k, child, e)
            }
            Shape::Branch(left, right) => {
                let low = left.get().counts();
                let _ = right.get().counts();
                match side_of(low, k, e) {
                    Side::Left => {
                        let new = Run::with_both(alloc, left, k, child, e)?;
                        Run::branch(alloc, new, right.try_clone()?)
                    }
                    Side::Right => {
                        let (j, d) = (k - low.children, e - low.elements);
                        let new = Run::with_both(alloc, right, j, child, d)?;
                        Run::branch(alloc, left.try_clone()?, new)
                    }
                    Side::Both => {
                        let over = Run::with_child(alloc, run, k, child)?;
                        Run::with_loose(alloc, &over, e)
                    }
                }
            }
        }
    }

    /// A leaf of these, with another child at `k`, and the element at `e` not settled.
    fn leaf_with_both(
        alloc: Global,
        elements: &[Element],
        children: &[Node],
        k: u32,
        child: Node,
        e: u32,
    ) -> Result<Shared<Run>, AllocError>
        requires child { k < length children.now }
        requires element { e < length elements.now }
        requires own { children_count elements.now ≡ length children.now }
        requires fits { length elements.now < 2 ^ 32 }
        requires wide { length children.now < 2 ^ 32 }
        ensures { IfOk result (λ run. run
            ≡ stretch (loosened_at e elements.now) (set children.now k child)) }
    {
        let kept = with_other(alloc, elements, e, loose(elements[e as usize]))?;
        let nodes = with_node(alloc, children, k, child)?;
        Run::leaf(alloc, kept, nodes)
    }

    /// A leaf of these, with the element at `k` not settled.
    fn leaf_loosened(
        alloc: Global,
        elements: &[Element],
        children: &[Node],
        k: u32,
    ) -> Result<Shared<Run>, AllocError>
        requires within { k < length elements.now }
        requires own { children_count elements.now ≡ length children.now }
        requires fits { length elements.now < 2 ^ 32 }
        requires wide { length children.now < 2 ^ 32 }
        ensures { IfOk result
            (λ run. run ≡ stretch (loosened_at k elements.now) children.now) }
    {
        let kept = with_other(alloc, elements, k, loose(elements[k as usize]))?;
        Run::leaf_beside(alloc, kept, children)
    }

    /// A leaf of these elements and copies of these children.
    fn leaf_beside(
        alloc: Global,
        elements: List<Element>,
        children: &[Node],
    ) -> Result<Shared<Run>, AllocError>
        requires some { 0 < length elements }
        requires own { children_count elements ≡ length children.now }
        requires fits { length elements < 2 ^ 32 }
        requires wide { length children.now < 2 ^ 32 }
        ensures { IfOk result (λ run. run ≡ stretch elements children.now) }
    {
        let mut nodes = List::with_capacity(alloc, children.len())?;
        copy(children, &mut nodes)?;
        Run::leaf(alloc, elements, nodes)
    }

    /// A leaf of these, with another child at `k`.
    fn leaf_with(
        alloc: Global,
        elements: &[Element],
        children: &[Node],
        k: u32,
        child: Node,
    ) -> Result<Shared<Run>, AllocError>
        requires within { k < length children.now }
        requires some { 0 < length elements.now }
        requires own { children_count elements.now ≡ length children.now }
        requires fits { length elements.now < 2 ^ 32 }
        requires wide { length children.now < 2 ^ 32 }
        ensures { IfOk result (λ run. run ≡ stretch elements.now (set children.now k child)) }
    {
        let mut kept = List::with_capacity(alloc, elements.len())?;
        copy_elements(elements, &mut kept)?;
        let mut nodes = List::with_capacity(alloc, children.len())?;
        copy(children, &mut nodes)?;
        let mut nodes = nodes.into_vec();
        nodes[k as usize] = child;
        Run::leaf(alloc, kept, List::from_vec(nodes))
    }
}

/// The part of a branch in which a child and an element lie.
enum Side {
    Left,
    Right,
    Both,
}

/// The part of a branch in which the child at `k` and the element at `e` lie, where so much is
/// counted of its left part.
fn side_of(low: Counts, k: u32, e: u32) -> Side
    ensures { IsSideOf low k e result }
{
    if k < low.children && e < low.elements {
        Side::Left
    } else if k >= low.children && e >= low.elements {
        Side::Right
    } else {
        Side::Both
    }
}

/// Whether both are small enough to be one leaf.
fn fit_one_leaf(left: &Run, right: &Run) -> bool {
    size(left) + size(right) <= MOST_IN_LEAF
}

/// Whether a last leaf that is copied has room for one more.
fn has_room_as_copy(end: &Run, more: &Run) -> bool {
    size(end) + size(more) <= MOST_IN_LAST
}

fn is_leaf(run: &Run) -> bool {
    run.height == 0
}

/// How many elements and children there are.
fn size(run: &Run) -> u64
    ensures { result < 2 ^ 33 }
{
    run.counts.elements as u64 + run.counts.children as u64
}

fn is_higher(run: &Run, other: &Run) -> bool {
    run.height > other.height
}

/// Whether a run is higher than the other by two levels or more, so that it is turned.
fn is_two_higher(run: &Run, other: &Run) -> bool {
    run.height > other.height.saturating_add(1)
}

/// Whether a run of that height is opened where it is joined with one of the other height: where it
/// is two levels higher, or where the other is a leaf.
fn is_deeper(high: u8, low: u8) -> bool {
    high > low.saturating_add(1) || (low == 0 && high > 0)
}

/// The elements, with another at `k`.
fn with_other(
    alloc: Global,
    elements: &[Element],
    k: u32,
    other: Element,
) -> Result<List<Element>, AllocError>
    requires { k < length elements.now }
    ensures { IfOk result (λ new. new ≡ set elements.now k other) }
{
    let mut kept = List::with_capacity(alloc, elements.len())?;
    copy_elements(elements, &mut kept)?;
    let mut kept = kept.into_vec();
    kept[k as usize] = other;
    Ok(List::from_vec(kept))
}

/// The nodes, shared, with another at `k`.
fn with_node(alloc: Global, nodes: &[Node], k: u32, other: Node) -> Result<List<Node>, AllocError>
    requires { k < length nodes.now }
    ensures { IfOk result (λ new. new ≡ set nodes.now k other) }
{
    let mut kept = List::with_capacity(alloc, nodes.len())?;
    copy(nodes, &mut kept)?;
    let mut kept = kept.into_vec();
    kept[k as usize] = other;
    Ok(List::from_vec(kept))
}

/// The element, not settled.
fn loose(element: Element) -> Element
    ensures { result ≡ loose_element element }
{
    Element {
        alternative: element.alternative,
        children: element.children,
        dynamic: element.dynamic,
        extent: element.extent,
        settled: false,
    }
}

/// Puts the elements at the end of the list.
pub(crate) fn copy_elements(elements: &[Element], to: &mut List<Element>) -> Result<(), AllocError>
    ensures { OnOk result (to.new ≡ to.old ++ elements.now) }
{
    for element in elements {
        to.push(*element)?;
    }
    Ok(())
}

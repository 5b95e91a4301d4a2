//! The better of two trees: two nodes go in, and whether the first is chosen before the second
//! comes out. Their codes are compared in step, from their fronts on, and never made.
ghost use Rattle.std.specs.Prelude.{◌≡◌, ◌+◌, ◌<◌, ◌≤◌, ◌↔◌, IsTrue, length, unwrap_or};
ghost use Rattle.spec_trees.specs.Trees.{children_of, elements_of};
ghost use Rattle.spec_trees.specs.Made.{AreCounted, node_limit};
ghost use Rattle.spec_trees.specs.Choice.{code_of, AreOfOneGrammar, Better};
ghost use Rattle.ts_order.specs.Compared.{Compares, head_of, codes_from, count_in_code, elements_code};

use std::cmp::Ordering;
use ts_node::Node;

/// Whether `a` is chosen before `b`: it has the greater dynamic total, or at one total the smaller
/// code in preorder. It takes no memory, and the stack for as many calls as the trees are deep. It
/// reads the trees up to the first difference of their codes.
pub fn better(a: &Node, b: &Node) -> bool
    requires form { AreOfOneGrammar a.now b.now }
    ensures { IsTrue result ↔ Better a.now b.now }
{
    match a.dynamic().cmp(&b.dynamic()) {
        Ordering::Less => false,
        Ordering::Equal => compare(a, b) == Ordering::Less,
        Ordering::Greater => true,
    }
}

/// How the codes of two nodes compare.
#[cycle(code)]
fn compare(a: &Node, b: &Node) -> Ordering
    requires form { AreOfOneGrammar a.now b.now }
    ensures { Compares result (code_of a.now) (code_of b.now) }
{
    let heads = compare_heads(a, b);
    if heads.is_ne() {
        return heads;
    }
    if a.elements() == 0 {
        compare_children(a, b, 0, a.children())
    } else {
        compare_elements(a, b, b.elements())
    }
}

/// How so many children of two nodes compare, from one number on.
#[cycle(code)]
fn compare_children(a: &Node, b: &Node, from: u32, count: u32) -> Ordering
    requires form { AreOfOneGrammar a.now b.now }
    requires first { from + count ≤ length (children_of a.now) }
    requires second { from + count ≤ length (children_of b.now) }
    requires few { length (children_of a.now) < node_limit }
    ensures { Compares result (codes_from from count a.now) (codes_from from count b.now) }
{
    for k in from..from + count {
        let children = compare(a.child(k), b.child(k));
        if children.is_ne() {
            return children;
        }
    }
    Ordering::Equal
}

/// How the elements of two nodes compare, of which each has so many.
#[cycle(code)]
fn compare_elements(a: &Node, b: &Node, count: u32) -> Ordering
    requires form { AreOfOneGrammar a.now b.now }
    requires first { count ≡ length (elements_of a.now) }
    requires second { count ≡ length (elements_of b.now) }
    requires first_own { AreCounted (elements_of a.now) (children_of a.now) }
    requires second_own { AreCounted (elements_of b.now) (children_of b.now) }
    requires few { length (children_of a.now) < node_limit }
    ensures { Compares result (elements_code a.now) (elements_code b.now) }
{
    let mut from = 0u32;
    for k in 0..count {
        let (first, second) = (a.element(k), b.element(k));
        let heads = first
            .alternative
            .cmp(&second.alternative)
            .then(first.children.cmp(&second.children));
        if heads.is_ne() {
            return heads;
        }
        let children = compare_children(a, b, from, first.children);
        if children.is_ne() {
            return children;
        }
        from += first.children;
    }
    Ordering::Equal
}

/// How the first five numbers of two codes compare: symbol, production, pad, size, and how many
/// elements or children there are.
fn compare_heads(a: &Node, b: &Node) -> Ordering
    ensures { Compares result (head_of a.now) (head_of b.now) }
{
    a.symbol()
        .0
        .cmp(&b.symbol().0)
        .then(number(a.production()).cmp(&number(b.production())))
        .then(a.pad().cmp(&b.pad()))
        .then(a.size().cmp(&b.size()))
        .then(count(a).cmp(&count(b)))
}

/// The number of a production, 0 where there is none.
fn number(production: Option<u32>) -> u32
    ensures { result ≡ unwrap_or production 0 }
{
    production.unwrap_or(0)
}

/// How many elements a node has as a repetition, and else how many children.
fn count(node: &Node) -> u32
    ensures { result ≡ count_in_code node.now }
{
    let elements = node.elements();
    if elements == 0 {
        node.children()
    } else {
        elements
    }
}

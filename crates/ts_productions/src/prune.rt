//! Rule trees with few empty alternatives: what comes in is a rule tree, and what goes out is one
//! with the same alternatives, but for some that stand earlier too. A content of a repetition can
//! have any number of empty alternatives, which come to nothing.

ghost use Rattle.std.specs.Prelude.{◌++◌, ◌∷◌, [], List, IfOk, IsTrue, OnOk};
ghost use Rattle.ts_productions.specs.Thin.{IsThinTree, IsBlankTree, AreBlankTrees, AreThinBranches, AreBranches};
ghost use Rattle.ts_rules.specs.FirstSights.{Each};
ghost use Rattle.ts_rules.specs.declared.tree.Tree.{Tree as TreeValue};
ghost use Rattle.ts_rules.specs.declared.tree.Tree.TheVariants as tree;

use std::alloc::{AllocError, Global};
use ts_core::{Assoc, Boxed, List, Prec};
use ts_rules::Tree;

/// Whether each alternative of a tree is empty, and there is one.
#[cycle(empty)]
fn is_empty(tree: &Tree) -> bool
    ensures { IsTrue result → IsBlankTree tree.now }
{
    match tree {
        Tree::Blank => true,
        Tree::Step(_) => false,
        Tree::Seq(inner) => are_empty(inner.as_slice()),
        Tree::Choice(inner) => !inner.is_empty() && are_empty(inner.as_slice()),
        Tree::Field(_, inner) => is_empty(inner.get()),
        Tree::Alias(_, inner) => is_empty(inner.get()),
        Tree::Group(_, _, inner) => is_empty(inner.get()),
        Tree::Dynamic(_, inner) => is_empty(inner.get()),
    }
}

#[cycle(empty)]
fn are_empty(trees: &[Tree]) -> bool
    ensures { IsTrue result → AreBlankTrees trees.now }
{
    for tree in trees {
        if !is_empty(tree) {
            return false;
        }
    }
    true
}

/// The tree with few empty alternatives: what has empty alternatives alone becomes a BLANK, and of
/// such branches a CHOICE keeps the first alone.
#[cycle(prune)]
pub(crate) fn pruned(alloc: Global, tree: &Tree) -> Result<Tree, AllocError>
    ensures { IfOk result (IsThinTree tree.now) }
{
    if is_empty(tree) {
        return Ok(Tree::Blank);
    }
    match tree {
        Tree::Blank => Ok(Tree::Blank),
        Tree::Step(symbol) => Ok(Tree::Step(*symbol)),
        Tree::Seq(inner) => Ok(Tree::Seq(pruned_members(alloc, inner.as_slice())?)),
        Tree::Choice(inner) => Ok(Tree::Choice(pruned_branches(alloc, inner.as_slice())?)),
        Tree::Field(field, inner) => {
            let inner = pruned(alloc, inner.get())?;
            Ok(Tree::Field(*field, Boxed::new(alloc, inner)?))
        },
        Tree::Alias(alias, inner) => {
            let inner = pruned(alloc, inner.get())?;
            Ok(Tree::Alias(*alias, Boxed::new(alloc, inner)?))
        },
        Tree::Group(prec, assoc, inner) => pruned_group(alloc, prec, assoc, inner.get()),
        Tree::Dynamic(value, inner) => {
            let inner = pruned(alloc, inner.get())?;
            Ok(Tree::Dynamic(*value, Boxed::new(alloc, inner)?))
        },
    }
}

#[cycle(prune)]
fn pruned_group(alloc: Global, prec: &Prec, assoc: &Assoc, inner: &Tree) -> Result<Tree, AllocError>
    ensures { IfOk result (IsThinTree (tree.Group prec.now assoc.now inner.now)) }
{
    let inner = pruned(alloc, inner)?;
    Ok(Tree::Group(*prec, *assoc, Boxed::new(alloc, inner)?))
}

#[cycle(prune)]
fn pruned_members(alloc: Global, members: &[Tree]) -> Result<List<Tree>, AllocError>
    ensures { IfOk result (Each IsThinTree members.now) }
{
    let mut found = List::with_capacity(alloc, members.len())?;
    for member in members {
        let small = pruned(alloc, member)?;
        found.push(small)?;
    }
    Ok(found)
}

/// Branches of a CHOICE, and whether an empty one is among them.
#[derive(Drop)]
struct Branches {
    found: List<Tree>,
    has_blank: bool,
}

/// Puts a branch at the end. Of those that are empty the first alone stays.
#[cycle(prune)]
fn push_branch(alloc: Global, branches: &mut Branches, branch: &Tree) -> Result<(), AllocError>
    ensures { OnOk result ((ts : List TreeValue) → AreBranches ts branches.old
        → AreBranches (ts ++ branch.now ∷ []) branches.new) }
{
    if !is_empty(branch) {
        let small = pruned(alloc, branch)?;
        branches.found.push(small)?;
        return Ok(());
    }
    if branches.has_blank {
        return Ok(());
    }
    branches.found.push(Tree::Blank)?;
    branches.has_blank = true;
    Ok(())
}

#[cycle(prune)]
fn pruned_branches(alloc: Global, inner: &[Tree]) -> Result<List<Tree>, AllocError>
    ensures { IfOk result (AreThinBranches inner.now) }
{
    let mut branches = Branches {
        found: List::new(alloc),
        has_blank: false,
    };
    for branch in inner {
        push_branch(alloc, &mut branches, branch)?;
    }
    let Branches {
        found,
        has_blank: _,
    } = branches;
    Ok(found)
}

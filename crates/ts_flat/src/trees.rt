//! The trees of a grammar's rules by numbers: what comes in are its numbers, and what goes out are
//! the trees, and the aliases in the order of their numbers.

ghost use Rattle.std.specs.Prelude.{◌≡◌, ◌<◌, Some, length, slice_get, map, IfOk};
ghost use Rattle.ts_rules.specs.Sights.{NamedRule};
ghost use Rattle.ts_numbering.specs.Keys.{trees, rules_told, aliases_told};
ghost use Rattle.ts_numbering.specs.Numberings.{numbers_of, lists_of};
ghost use Rattle.ts_productions.specs.Grammars.{rule_tree};
ghost use Rattle.ts_rules.specs.Numbers.{tree_of};
ghost use Rattle.ts_flat.specs.Trees.{AreTreesOf};

use indexmap::{IndexMap, IndexSet};
use std::alloc::{AllocError, Global};
use ts_core::{Alias, Rule, Str};
use ts_numbering::Numbering;
use ts_rules::Tree;

/// The trees of a grammar's rules by numbers.
#[derive(Drop)]
pub(crate) struct RuleTrees {
    /// Of the rules that have symbols, in symbol order.
    pub rules: Vec<Tree>,
    /// Of the contents of the repetitions, in symbol order.
    pub contents: Vec<Tree>,
    /// Of the inlined rules, in file order.
    pub inlined: Vec<Tree>,
    /// An alias's place is its number in the trees.
    pub aliases: Vec<Alias>,
}

/// The tree of the rule of a place.
fn tree_at<'a>(rules: &IndexMap<&'a Str, &'a Rule>, at: usize) -> &'a Rule
    requires { at < length rules.now.entries }
    ensures { (rule : NamedRule) → slice_get (rules_told rules.now.entries) at ≡ Some rule
        → rule.1 ≡ result.now }
{
    let Some((_, tree)) = rules.get_index(at) else {
        unreachable!()
    };
    *tree
}

/// The trees of rules.
fn rule_trees(
    alloc: Global,
    numbering: &Numbering,
    rules: &IndexMap<&Str, &Rule>,
) -> Result<Vec<Tree>, AllocError>
    ensures { IfOk result (λ found. found.items
        ≡ map (rule_tree (numbers_of numbering.now)) (rules_told rules.now.entries)) }
{
    let mut found = Vec::new(alloc);
    let mut at = 0;
    while at < rules.len() {
        let tree = numbering.tree(alloc, tree_at(&*rules, at))?;
        found.push(tree)?;
        at += 1;
    }
    Ok(found)
}

/// The trees of contents.
fn content_trees(
    alloc: Global,
    numbering: &Numbering,
    contents: &[&Rule],
) -> Result<Vec<Tree>, AllocError>
    ensures { IfOk result (λ found. found.items
        ≡ map (tree_of (numbers_of numbering.now)) (trees contents.now)) }
{
    let mut found = Vec::new(alloc);
    let mut at = 0;
    while at < contents.len() {
        let tree = numbering.tree(alloc, contents[at])?;
        found.push(tree)?;
        at += 1;
    }
    Ok(found)
}

/// Copies of aliases.
fn alias_list(alloc: Global, aliases: &IndexSet<(&Str, bool)>) -> Result<Vec<Alias>, AllocError>
    ensures { IfOk result (λ found. found.items ≡ aliases_told aliases.now.keys) }
{
    let mut found = Vec::new(alloc);
    for (name, named) in aliases.as_slice() {
        let alias = Alias {
            name: Str::from_text(alloc, name.text())?,
            named: *named,
        };
        found.push(alias)?;
    }
    Ok(found)
}

/// The trees of all rules.
pub(crate) fn trees_of(alloc: Global, numbering: &Numbering) -> Result<RuleTrees, AllocError>
    ensures { IfOk result (AreTreesOf (numbers_of numbering.now) (lists_of numbering.now)
        (aliases_told numbering.now.aliases.keys)) }
{
    Ok(RuleTrees {
        rules: rule_trees(alloc, numbering, &numbering.survey.rules)?,
        contents: content_trees(alloc, numbering, numbering.survey.contents.as_slice())?,
        inlined: rule_trees(alloc, numbering, &numbering.survey.inlined)?,
        aliases: alias_list(alloc, &numbering.aliases)?,
    })
}

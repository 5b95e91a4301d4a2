//! What stands in rule trees, in preorder: what comes in is trees, and what goes out is a list of
//! all trees in them, each with whether it stands inside a token.

ghost use Rattle.std.specs.Prelude.{◌≡◌, ◌++◌, IfOk, OnOk};
ghost use Rattle.ts_rules.specs.Sights.{sights, walk, sights_within, below, seen_trees, all_seen, seen_rules};

use std::alloc::{AllocError, Global};
use ts_core::{Grammar, Rule, Str};

/// A tree that is seen.
#[derive(Clone, Copy)]
pub struct Spot<'a> {
    pub tree: &'a Rule,
    pub inside: bool,
}

/// Puts all trees in a tree at the end, itself first.
#[cycle(see)]
fn see<'a>(spots: &mut Vec<Spot<'a>>, tree: &'a Rule, inside: bool) -> Result<(), AllocError>
    ensures { OnOk result (seen_trees spots.new.items
        ≡ seen_trees spots.old.items ++ sights_within tree.now inside) }
{
    spots.push(Spot { tree, inside })?;
    see_below(spots, tree, inside)
}

/// Puts all trees below a tree at the end.
#[cycle(see)]
#[tactic(auto, using(crate::proofs::SightLemmas::below_laws))]
fn see_below<'a>(spots: &mut Vec<Spot<'a>>, tree: &'a Rule, inside: bool) -> Result<(), AllocError>
    ensures { OnOk result (seen_trees spots.new.items
        ≡ seen_trees spots.old.items ++ below tree.now inside) }
{
    match tree {
        Rule::Blank => Ok(()),
        Rule::Literal(_) => Ok(()),
        Rule::Pattern {
            value: _,
            ignore_case: _,
        } => Ok(()),
        Rule::Symbol(_) => Ok(()),
        Rule::Seq(members) => see_all(spots, members.as_slice(), inside),
        Rule::Choice(members) => see_all(spots, members.as_slice(), inside),
        Rule::Repeat(content) => see(spots, content.get(), inside),
        Rule::Repeat1(content) => see(spots, content.get(), inside),
        Rule::Token(content) => see(spots, content.get(), true),
        Rule::ImmediateToken(content) => see(spots, content.get(), true),
        Rule::Field { name: _, content } => see(spots, content.get(), inside),
        Rule::Alias {
            content,
            named: _,
            value: _,
        } => see(spots, content.get(), inside),
        Rule::Prec { value: _, content } => see(spots, content.get(), inside),
        Rule::PrecLeft { value: _, content } => see(spots, content.get(), inside),
        Rule::PrecRight { value: _, content } => see(spots, content.get(), inside),
        Rule::PrecDynamic { value: _, content } => see(spots, content.get(), inside),
    }
}

/// Puts all trees in trees at the end, one after another.
#[cycle(see)]
fn see_all<'a>(spots: &mut Vec<Spot<'a>>, trees: &'a [Rule], inside: bool) -> Result<(), AllocError>
    ensures { OnOk result (seen_trees spots.new.items
        ≡ seen_trees spots.old.items ++ all_seen trees.now inside) }
{
    for tree in trees {
        see(spots, tree, inside)?;
    }
    Ok(())
}

/// Puts all trees of rules at the end, the rules in file order.
fn see_rules<'a>(spots: &mut Vec<Spot<'a>>, rules: &'a [(Str, Rule)]) -> Result<(), AllocError>
    ensures { OnOk result (seen_trees spots.new.items
        ≡ seen_trees spots.old.items ++ seen_rules rules.now) }
{
    for rule in rules {
        see(spots, &rule.1, false)?;
    }
    Ok(())
}

/// The trees in a rule or extra, itself first, in preorder.
///
/// # Errors
///
/// `AllocError` where memory runs out.
pub fn sights_of<'a>(alloc: Global, tree: &'a Rule) -> Result<Vec<Spot<'a>>, AllocError>
    ensures { IfOk result (λ spots. seen_trees spots.items ≡ sights tree.now) }
{
    let mut spots = Vec::new(alloc);
    see(&mut spots, tree, false)?;
    Ok(spots)
}

/// The trees in a grammar: the rules in file order, each in preorder, and then the extras in order.
///
/// # Errors
///
/// `AllocError` where memory runs out.
pub fn walk_of<'a>(alloc: Global, grammar: &'a Grammar) -> Result<Vec<Spot<'a>>, AllocError>
    ensures { IfOk result (λ spots. seen_trees spots.items ≡ walk grammar.now) }
{
    let mut spots = Vec::new(alloc);
    see_rules(&mut spots, grammar.rules.as_slice())?;
    see_all(&mut spots, grammar.extras.as_slice(), false)?;
    Ok(spots)
}

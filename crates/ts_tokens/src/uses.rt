//! The rules that a rule tree steps to: the tree comes in, and their names go out.

ghost use Rattle.std.specs.Prelude.{◌≡◌, ◌++◌, map, IfOk, OnOk};
ghost use Rattle.ts_rules.specs.Causes.{uses, merged};
ghost use Rattle.ts_rules.specs.Names.{told};

use std::alloc::{AllocError, Global};
use ts_core::{Rule, Str};

/// Puts the names of the rules that a tree steps to at the end.
#[cycle(uses)]
#[tactic(auto, using(crate::proofs::UsesLemmas::uses_laws))]
fn add_uses<'a>(names: &mut Vec<&'a Str>, tree: &'a Rule) -> Result<(), AllocError>
    ensures { OnOk result (told names.new.items ≡ told names.old.items ++ uses tree.now) }
{
    match tree {
        Rule::Symbol(name) => {
            names.push(name)?;
            Ok(())
        },
        Rule::Seq(members) => add_all(names, members.as_slice()),
        Rule::Choice(members) => add_all(names, members.as_slice()),
        Rule::Field { name: _, content } => add_uses(names, content.get()),
        Rule::Alias {
            content,
            named: _,
            value: _,
        } => add_uses(names, content.get()),
        Rule::Prec { value: _, content } => add_uses(names, content.get()),
        Rule::PrecLeft { value: _, content } => add_uses(names, content.get()),
        Rule::PrecRight { value: _, content } => add_uses(names, content.get()),
        Rule::PrecDynamic { value: _, content } => add_uses(names, content.get()),
        Rule::Blank => Ok(()),
        Rule::Literal(_) => Ok(()),
        Rule::Pattern {
            value: _,
            ignore_case: _,
        } => Ok(()),
        Rule::Repeat(_) => Ok(()),
        Rule::Repeat1(_) => Ok(()),
        Rule::Token(_) => Ok(()),
        Rule::ImmediateToken(_) => Ok(()),
    }
}

/// Puts the names of the rules that trees step to at the end, one tree after another.
#[cycle(uses)]
fn add_all<'a>(names: &mut Vec<&'a Str>, trees: &'a [Rule]) -> Result<(), AllocError>
    ensures { OnOk result (told names.new.items
        ≡ told names.old.items ++ merged (map uses trees.now)) }
{
    for tree in trees {
        add_uses(names, tree)?;
    }
    Ok(())
}

/// The names of the rules that a tree steps to outside its tokens and repetitions.
pub(crate) fn uses_of<'a>(alloc: Global, tree: &'a Rule) -> Result<Vec<&'a Str>, AllocError>
    ensures { IfOk result (λ names. told names.items ≡ uses tree.now) }
{
    let mut names = Vec::new(alloc);
    add_uses(&mut names, tree)?;
    Ok(names)
}

//! Rules: from a JSON value to the rule tree that it stands for. A rule's own members are read
//! before the rules inside it.
ghost use Rattle.std.specs.Prelude.{◌≡◌, codes};
ghost use Rattle.ts_ojson.specs.Json.{json_of};
ghost use Rattle.ts_grammar_json.specs.Pointer.{step};
ghost use Rattle.ts_grammar_json.specs.Members.{items_json};
ghost use Rattle.ts_grammar_json.specs.Faults.{under};
ghost use Rattle.ts_grammar_json.specs.Rules.{rule_faults, rule_of, item_faults, item_rules};
ghost use Rattle.ts_grammar_json.specs.Found.{Gives};
ghost use Rattle.ts_grammar_json.specs.Shape.{faults_in, tree_in};

use crate::fault::GFault;
use crate::kinds;
use crate::member::{in_item, in_member};
use crate::pointer::wrong;
use crate::shape::{Shape, shape_of};
use std::alloc::Global;
use ts_core::{List, Rule};
use ts_ojson::OJson;

/// The rule tree of a value.
#[cycle(rule)]
pub(crate) fn rule(alloc: Global, value: &OJson) -> Result<Rule, GFault>
    ensures { Gives (rule_faults (json_of value.now)) (rule_of (json_of value.now)) result }
{
    match kinds::object(value) {
        Some(members) => inside(alloc, shape_of(alloc, members)?),
        None => Err(wrong(alloc)),
    }
}

/// The rule tree of a rule whose own members are read.
#[cycle(rule)]
fn inside(alloc: Global, shape: Shape<'_>) -> Result<Rule, GFault>
    ensures { Gives (faults_in shape.entry) (tree_in shape.entry) result }
{
    match shape {
        Shape::Leaf(tree) => Ok(tree),
        Shape::Seq(items) => Ok(Rule::Seq(member_rules(alloc, items)?)),
        Shape::Choice(items) => Ok(Rule::Choice(member_rules(alloc, items)?)),
        Shape::Around(wrap, content) => Ok(wrap.around(alloc, content_rule(alloc, content)?)?),
    }
}

/// The rule tree of the value at `content`.
#[cycle(rule)]
fn content_rule(alloc: Global, content: &OJson) -> Result<Rule, GFault>
    ensures { Gives (under (step (codes "content")) (rule_faults (json_of content.now)))
        (rule_of (json_of content.now)) result }
{
    in_member(alloc, "content", rule(alloc, content))
}

/// The rule trees of the array at `members`.
#[cycle(rule)]
fn member_rules(alloc: Global, items: &[OJson]) -> Result<List<Rule>, GFault>
    ensures { Gives (under (step (codes "members")) (item_faults 0 (items_json items.now)))
        (item_rules (items_json items.now)) result }
{
    in_member(alloc, "members", rules(alloc, items))
}

/// The rule trees of an array.
#[cycle(rule)]
pub(crate) fn rules(alloc: Global, items: &[OJson]) -> Result<List<Rule>, GFault>
    ensures { Gives (item_faults 0 (items_json items.now)) (item_rules (items_json items.now))
        result }
{
    let mut trees = List::new(alloc);
    for (at, item) in items.iter().enumerate() {
        trees.push(in_item(alloc, at, rule(alloc, item))?)?;
    }
    Ok(trees)
}

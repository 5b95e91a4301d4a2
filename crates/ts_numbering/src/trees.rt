//! Rule trees by numbers: what comes in are rule trees, and what goes out are the numbers of what
//! stands in them, and the trees with these numbers.

ghost use Rattle.std.specs.Prelude.{◌≡◌, ◌++◌, ◌<◌, ◌+◌, map, IfOk, IfSome, OnOk};
ghost use Rattle.ts_rules.specs.Causes.{names_of};
ghost use Rattle.ts_rules.specs.Numbers.{where_so, any_times, many_times, tree_of, prec_of, first_rule, first_repetition, first_inlined};
ghost use Rattle.ts_rules.specs.Sights as sights;
ghost use Rattle.ts_rules.specs.declared.tree.Tree.TheVariants as tree;
ghost use Rattle.ts_numbering.specs.Places.{number_or, named_number, place_of_name};
ghost use Rattle.ts_numbering.specs.Limits.{most_numbers};
ghost use Rattle.ts_numbering.specs.Numberings.{lists_of, numbers_of};
ghost use Rattle.ts_numbering.specs.Surveys.{tree_named};
ghost use Rattle.ts_numbering.specs.Keys.{rules_told};

use crate::numbering::Numbering;
use crate::shape::shape_of;
use std::alloc::{AllocError, Global};
use ts_core::{Assoc, Boxed, List, Prec, PrecValue, Rule, Str};
use ts_rules::Tree;

/// A number by a place, counted from the first number.
fn number_or_other(other: u16, first: usize, place: Option<usize>) -> u16
    requires { IfSome place (λ k. first + k < most_numbers) }
    ensures { result ≡ number_or other first place }
{
    match place {
        Some(place) => (first + place) as u16,
        None => other,
    }
}

/// The number of the first rule that has a symbol of its own.
fn rules_from(numbering: &Numbering) -> usize
    ensures { result ≡ first_rule (lists_of numbering.now) }
{
    1 + numbering.survey.tokens.len()
}

/// The number of the first repetition.
fn repetitions_from(numbering: &Numbering) -> usize
    ensures { result ≡ first_repetition (lists_of numbering.now) }
{
    rules_from(numbering) + numbering.survey.rules.len()
}

/// The number of the first inlined rule.
fn inlined_from(numbering: &Numbering) -> usize
    ensures { result ≡ first_inlined (lists_of numbering.now) }
{
    repetitions_from(numbering) + numbering.survey.contents.len()
}

/// The number of a token.
pub fn token_number(numbering: &Numbering, tree: &Rule) -> u16
    ensures { result ≡ (numbers_of numbering.now).token tree.now }
{
    number_or_other(0, 1, numbering.survey.tokens.get_index_of(&tree))
}

/// The number of a repetition, by its content.
pub fn repetition_number(numbering: &Numbering, content: &Rule) -> u16
    ensures { result ≡ (numbers_of numbering.now).repetition content.now }
{
    let place = numbering.survey.contents.get_index_of(&content);
    number_or_other(0, repetitions_from(numbering), place)
}

/// The number of the token that a rule names.
fn named_token_number(numbering: &Numbering, name: &Str) -> u16
    ensures { result ≡ named_number (lists_of numbering.now).tokens
        (tree_named (rules_told numbering.now.survey.named.entries) name.now) }
{
    match numbering.survey.named_token(name) {
        Some(tree) => token_number(numbering, tree),
        None => 0,
    }
}

/// The number of a rule that is inlined or names a token.
fn other_rule_number(numbering: &Numbering, name: &Str) -> u16
    ensures { result ≡ number_or (named_number (lists_of numbering.now).tokens
        (tree_named (rules_told numbering.now.survey.named.entries) name.now))
        (first_inlined (lists_of numbering.now))
        (place_of_name (names_of (lists_of numbering.now).inlined) name.now) }
{
    match numbering.survey.inlined.get_index_of(&name) {
        Some(place) => (inlined_from(numbering) + place) as u16,
        None => named_token_number(numbering, name),
    }
}

/// The number of a rule.
pub fn rule_number(numbering: &Numbering, name: &Str) -> u16
    ensures { result ≡ (numbers_of numbering.now).rule name.now }
{
    match numbering.survey.rules.get_index_of(&name) {
        Some(place) => (rules_from(numbering) + place) as u16,
        None => other_rule_number(numbering, name),
    }
}

/// The number of a field name.
pub fn field_number(numbering: &Numbering, name: &Str) -> u16
    ensures { result ≡ (numbers_of numbering.now).field name.now }
{
    number_or_other(0, 0, numbering.fields.get_index_of(&name))
}

/// The number of a precedence name.
pub fn prec_number(numbering: &Numbering, name: &Str) -> u16
    ensures { result ≡ (numbers_of numbering.now).prec name.now }
{
    number_or_other(0, 0, numbering.precs.get_index_of(&name))
}

/// A precedence by numbers.
fn numbered_prec(numbering: &Numbering, value: &PrecValue) -> Prec
    ensures { result ≡ prec_of (numbers_of numbering.now) value.now }
{
    match value {
        PrecValue::Number(value) => Prec::Number(*value),
        PrecValue::Name(name) => Prec::Name(prec_number(numbering, name)),
    }
}

/// The number of an alias.
pub fn alias_number(numbering: &Numbering, name: &Str, named: bool) -> usize
    ensures { result ≡ (numbers_of numbering.now).alias (sights.alias name.now named) }
{
    match numbering.aliases.get_index_of(&(name, named)) {
        Some(place) => place,
        None => 0,
    }
}

/// Puts a tree at the end, where it is wanted.
fn push_where(trees: &mut List<Tree>, wanted: bool, tree: Tree) -> Result<(), AllocError>
    ensures { OnOk result (trees.new ≡ trees.old ++ where_so wanted tree) }
{
    if wanted {
        trees.push(tree)?;
    }
    Ok(())
}

/// A repetition where it is wanted, and nothing where that is wanted.
fn step_or_blank(alloc: Global, number: u16, step: bool, blank: bool) -> Result<Tree, AllocError>
    ensures { IfOk result (λ t. t
        ≡ tree.Choice (where_so step (tree.Step number) ++ where_so blank tree.Blank)) }
{
    let mut trees = List::new(alloc);
    push_where(&mut trees, step, Tree::Step(number))?;
    push_where(&mut trees, blank, Tree::Blank)?;
    Ok(Tree::Choice(trees))
}

/// What a REPEAT becomes.
fn repeat_tree(numbering: &Numbering, alloc: Global, content: &Rule) -> Result<Tree, AllocError>
    ensures { IfOk result (λ t. t ≡ any_times ((numbers_of numbering.now).repetition content.now)
        (tree_of (numbers_of numbering.now) content.now)) }
{
    let number = repetition_number(numbering, content);
    step_or_blank(alloc, number, shape_of(content).filled, true)
}

/// What a REPEAT1 becomes.
fn repeat1_tree(numbering: &Numbering, alloc: Global, content: &Rule) -> Result<Tree, AllocError>
    ensures { IfOk result (λ t. t ≡ many_times ((numbers_of numbering.now).repetition content.now)
        (tree_of (numbers_of numbering.now) content.now)) }
{
    let number = repetition_number(numbering, content);
    let shape = shape_of(content);
    step_or_blank(alloc, number, shape.filled, shape.blank)
}

/// A FIELD by its number.
#[cycle(tree)]
fn field_by(
    numbering: &Numbering,
    alloc: Global,
    name: &Str,
    content: &Rule,
) -> Result<Tree, AllocError>
    ensures { IfOk result (λ t. t ≡ tree.Field ((numbers_of numbering.now).field name.now)
        (tree_of (numbers_of numbering.now) content.now)) }
{
    let inner = tree_by(numbering, alloc, content)?;
    let inner = Boxed::new(alloc, inner)?;
    Ok(Tree::Field(field_number(numbering, name), inner))
}

/// An ALIAS by its number.
#[cycle(tree)]
fn alias_by(
    numbering: &Numbering,
    alloc: Global,
    name: &Str,
    named: bool,
    content: &Rule,
) -> Result<Tree, AllocError>
    ensures { IfOk result (λ t. t
        ≡ tree.Alias ((numbers_of numbering.now).alias (sights.alias name.now named))
        (tree_of (numbers_of numbering.now) content.now)) }
{
    let inner = tree_by(numbering, alloc, content)?;
    let inner = Boxed::new(alloc, inner)?;
    Ok(Tree::Alias(alias_number(numbering, name, named), inner))
}

/// A PREC, PREC_LEFT or PREC_RIGHT with its precedence by numbers.
#[cycle(tree)]
fn group_by(
    numbering: &Numbering,
    alloc: Global,
    value: &PrecValue,
    assoc: Assoc,
    content: &Rule,
) -> Result<Tree, AllocError>
    ensures { IfOk result (λ t. t ≡ tree.Group (prec_of (numbers_of numbering.now) value.now) assoc
        (tree_of (numbers_of numbering.now) content.now)) }
{
    let inner = tree_by(numbering, alloc, content)?;
    let inner = Boxed::new(alloc, inner)?;
    Ok(Tree::Group(numbered_prec(numbering, value), assoc, inner))
}

/// A PREC_DYNAMIC.
#[cycle(tree)]
fn dynamic_by(
    numbering: &Numbering,
    alloc: Global,
    value: &i32,
    content: &Rule,
) -> Result<Tree, AllocError>
    ensures { IfOk result (λ t. t
        ≡ tree.Dynamic value.now (tree_of (numbers_of numbering.now) content.now)) }
{
    let inner = tree_by(numbering, alloc, content)?;
    let inner = Boxed::new(alloc, inner)?;
    Ok(Tree::Dynamic(*value, inner))
}

/// Rule trees by numbers.
#[cycle(tree)]
fn trees_by(numbering: &Numbering, alloc: Global, rules: &[Rule]) -> Result<List<Tree>, AllocError>
    ensures { IfOk result (λ ts. ts ≡ map (tree_of (numbers_of numbering.now)) rules.now) }
{
    let mut trees = List::with_capacity(alloc, rules.len())?;
    for rule in rules {
        let tree = tree_by(numbering, alloc, rule)?;
        trees.push(tree)?;
    }
    Ok(trees)
}

/// A rule tree by numbers.
#[cycle(tree)]
fn tree_by(numbering: &Numbering, alloc: Global, rule: &Rule) -> Result<Tree, AllocError>
    ensures { IfOk result (λ t. t ≡ tree_of (numbers_of numbering.now) rule.now) }
{
    match rule {
        Rule::Blank => Ok(Tree::Blank),
        Rule::Literal(_) => Ok(Tree::Step(token_number(numbering, rule))),
        Rule::Pattern {
            value: _,
            ignore_case: _,
        } => Ok(Tree::Step(token_number(numbering, rule))),
        Rule::Symbol(name) => Ok(Tree::Step(rule_number(numbering, name))),
        Rule::Token(_) => Ok(Tree::Step(token_number(numbering, rule))),
        Rule::ImmediateToken(_) => Ok(Tree::Step(token_number(numbering, rule))),
        Rule::Seq(members) => Ok(Tree::Seq(trees_by(numbering, alloc, members.as_slice())?)),
        Rule::Choice(members) => Ok(Tree::Choice(trees_by(numbering, alloc, members.as_slice())?)),
        Rule::Repeat(content) => repeat_tree(numbering, alloc, content.get()),
        Rule::Repeat1(content) => repeat1_tree(numbering, alloc, content.get()),
        Rule::Field { name, content } => field_by(numbering, alloc, name, content.get()),
        Rule::Alias {
            content,
            named,
            value,
        } => alias_by(numbering, alloc, value, *named, content.get()),
        Rule::Prec { value, content } => {
            group_by(numbering, alloc, value, Assoc::Absent, content.get())
        },
        Rule::PrecLeft { value, content } => {
            group_by(numbering, alloc, value, Assoc::Left, content.get())
        },
        Rule::PrecRight { value, content } => {
            group_by(numbering, alloc, value, Assoc::Right, content.get())
        },
        Rule::PrecDynamic { value, content } => {
            dynamic_by(numbering, alloc, value, content.get())
        },
    }
}

impl<'a> Numbering<'a> {
    /// A rule tree by numbers. What isn't in the grammar has the number 0 there.
    ///
    /// # Errors
    ///
    /// `AllocError` where memory runs out.
    pub fn tree(&self, alloc: Global, rule: &Rule) -> Result<Tree, AllocError>
        ensures { IfOk result (λ t. t ≡ tree_of (numbers_of self.now) rule.now) }
    {
        tree_by(self, alloc, rule)
    }
}

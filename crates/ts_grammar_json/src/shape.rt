//! The first half of reading a rule: from an object to its type and its own members, with the rules
//! inside it still unread.
ghost use Rattle.std.specs.Prelude.{◌≡◌, ◌≢◌, [], IfOk, IfErr, Some, codes};
ghost use Rattle.ts_ojson.specs.Json.{json_of};
ghost use Rattle.ts_grammar_json.specs.Members.{members_json};
ghost use Rattle.ts_grammar_json.specs.Faults.{first};
ghost use Rattle.ts_grammar_json.specs.Rules.{content_faults, type_of};
ghost use Rattle.ts_grammar_json.specs.Found.{looked_of};
ghost use Rattle.ts_grammar_json.specs.Shape.{wrapped as wrapped_of, GivesShape, GivesIsShape};

use crate::fault::GFault;
use crate::found::Found;
use crate::member;
use crate::rule_type::{RuleType, rule_type};
use std::alloc::{AllocError, Global};
use ts_core::{Boxed, PrecValue, Rule, Str};
use ts_ojson::{OJson, OText};

/// A rule whose own members are read.
#[derive(Debug, Drop)]
pub(crate) enum Shape<'a> {
    /// No rule stands inside.
    Leaf(Rule),
    /// The items are rules.
    Seq(&'a [OJson]),
    /// The items are rules.
    Choice(&'a [OJson]),
    /// The object is a rule.
    Around(Wrap, &'a OJson),
}

/// What stands round one rule.
#[derive(Debug, Drop)]
pub(crate) enum Wrap {
    Repeat,
    Repeat1,
    Token,
    ImmediateToken,
    Field(Str),
    Alias { named: bool, value: Str },
    Prec(PrecValue),
    PrecLeft(PrecValue),
    PrecRight(PrecValue),
    PrecDynamic(i32),
}

impl Wrap {
    /// The rule with this round it.
    pub(crate) fn around(self, alloc: Global, content: Rule) -> Result<Rule, AllocError>
        ensures { IfOk result (λ rule. rule ≡ wrapped_of self content) }
    {
        let content = Boxed::new(alloc, content)?;
        Ok(match self {
            Wrap::Repeat => Rule::Repeat(content),
            Wrap::Repeat1 => Rule::Repeat1(content),
            Wrap::Token => Rule::Token(content),
            Wrap::ImmediateToken => Rule::ImmediateToken(content),
            Wrap::Field(name) => Rule::Field { name, content },
            Wrap::Alias { named, value } => Rule::Alias {
                content,
                named,
                value,
            },
            Wrap::Prec(value) => Rule::Prec { value, content },
            Wrap::PrecLeft(value) => Rule::PrecLeft { value, content },
            Wrap::PrecRight(value) => Rule::PrecRight { value, content },
            Wrap::PrecDynamic(value) => Rule::PrecDynamic { value, content },
        })
    }
}

/// The shape of the rule that an object with these members stands for.
pub(crate) fn shape_of(alloc: Global, members: &[(OText, OJson)]) -> Result<Shape<'_>, GFault>
    ensures { GivesIsShape (members_json members.now) result }
{
    let found = Found::of(members);
    let kind = rule_type(alloc, found.kind)?;
    typed(alloc, kind, &found)
}

fn typed<'a>(alloc: Global, kind: RuleType, found: &Found<'a>) -> Result<Shape<'a>, GFault>
    ensures { GivesShape kind (looked_of found.now) result }
{
    match kind {
        RuleType::Blank => Ok(Shape::Leaf(Rule::Blank)),
        RuleType::Literal => literal(alloc, found),
        RuleType::Pattern => pattern(alloc, found),
        RuleType::Symbol => symbol(alloc, found),
        RuleType::Seq => seq(alloc, found),
        RuleType::Choice => choice(alloc, found),
        RuleType::Repeat => Ok(Shape::Around(Wrap::Repeat, content(alloc, found)?)),
        RuleType::Repeat1 => Ok(Shape::Around(Wrap::Repeat1, content(alloc, found)?)),
        RuleType::Token => Ok(Shape::Around(Wrap::Token, content(alloc, found)?)),
        RuleType::ImmediateToken => Ok(Shape::Around(Wrap::ImmediateToken, content(alloc, found)?)),
        RuleType::Field => field(alloc, found),
        RuleType::Alias => alias(alloc, found),
        RuleType::Prec => prec(alloc, found),
        RuleType::PrecLeft => prec_left(alloc, found),
        RuleType::PrecRight => prec_right(alloc, found),
        RuleType::PrecDynamic => prec_dynamic(alloc, found),
    }
}

fn literal<'a>(alloc: Global, found: &Found<'a>) -> Result<Shape<'a>, GFault>
    ensures { GivesShape RuleType.Literal (looked_of found.now) result }
{
    let value = member::text(alloc, "value", found.value)?;
    Ok(Shape::Leaf(Rule::Literal(value)))
}

fn pattern<'a>(alloc: Global, found: &Found<'a>) -> Result<Shape<'a>, GFault>
    ensures { GivesShape RuleType.Pattern (looked_of found.now) result }
{
    let value = member::text(alloc, "value", found.value)?;
    let ignore_case = member::flags(alloc, "flags", found.flags)?;
    Ok(Shape::Leaf(Rule::Pattern { value, ignore_case }))
}

fn symbol<'a>(alloc: Global, found: &Found<'a>) -> Result<Shape<'a>, GFault>
    ensures { GivesShape RuleType.Symbol (looked_of found.now) result }
{
    let name = member::text(alloc, "name", found.name)?;
    Ok(Shape::Leaf(Rule::Symbol(name)))
}

fn seq<'a>(alloc: Global, found: &Found<'a>) -> Result<Shape<'a>, GFault>
    ensures { GivesShape RuleType.Seq (looked_of found.now) result }
{
    Ok(Shape::Seq(member::array(alloc, "members", found.members)?))
}

fn choice<'a>(alloc: Global, found: &Found<'a>) -> Result<Shape<'a>, GFault>
    ensures { GivesShape RuleType.Choice (looked_of found.now) result }
{
    Ok(Shape::Choice(member::some_items(alloc, "members", found.members)?))
}

/// The object at `content`.
fn content<'a>(alloc: Global, found: &Found<'a>) -> Result<&'a OJson, GFault>
    ensures ok { IfOk result (λ j. content_faults (looked_of found.now) ≡ []) }
    ensures value { IfOk result (λ j. (looked_of found.now).content ≡ Some (json_of j.now)) }
    ensures fault { IfErr result
        (λ e. e ≢ GFault.Memory → first (content_faults (looked_of found.now)) ≡ Some e) }
{
    member::object(alloc, "content", found.content)
}

fn field<'a>(alloc: Global, found: &Found<'a>) -> Result<Shape<'a>, GFault>
    ensures { GivesShape RuleType.Field (looked_of found.now) result }
{
    let name = member::text(alloc, "name", found.name)?;
    let content = content(alloc, found)?;
    Ok(Shape::Around(Wrap::Field(name), content))
}

fn alias<'a>(alloc: Global, found: &Found<'a>) -> Result<Shape<'a>, GFault>
    ensures { GivesShape RuleType.Alias (looked_of found.now) result }
{
    let content = content(alloc, found)?;
    let named = member::truth(alloc, "named", found.named)?;
    let value = member::text(alloc, "value", found.value)?;
    Ok(Shape::Around(Wrap::Alias { named, value }, content))
}

fn prec<'a>(alloc: Global, found: &Found<'a>) -> Result<Shape<'a>, GFault>
    ensures { GivesShape RuleType.Prec (looked_of found.now) result }
{
    let value = member::precedence(alloc, "value", found.value)?;
    let content = content(alloc, found)?;
    Ok(Shape::Around(Wrap::Prec(value), content))
}

fn prec_left<'a>(alloc: Global, found: &Found<'a>) -> Result<Shape<'a>, GFault>
    ensures { GivesShape RuleType.PrecLeft (looked_of found.now) result }
{
    let value = member::precedence(alloc, "value", found.value)?;
    let content = content(alloc, found)?;
    Ok(Shape::Around(Wrap::PrecLeft(value), content))
}

fn prec_right<'a>(alloc: Global, found: &Found<'a>) -> Result<Shape<'a>, GFault>
    ensures { GivesShape RuleType.PrecRight (looked_of found.now) result }
{
    let value = member::precedence(alloc, "value", found.value)?;
    let content = content(alloc, found)?;
    Ok(Shape::Around(Wrap::PrecRight(value), content))
}

fn prec_dynamic<'a>(alloc: Global, found: &Found<'a>) -> Result<Shape<'a>, GFault>
    ensures { GivesShape RuleType.PrecDynamic (looked_of found.now) result }
{
    let value = member::whole(alloc, "value", found.value)?;
    let content = content(alloc, found)?;
    Ok(Shape::Around(Wrap::PrecDynamic(value), content))
}

//! Contents of repetitions: what comes in is a tree that is seen in a rule, and what goes out is
//! the content that is repeated there.

ghost use Rattle.std.specs.Prelude.{◌≡◌};
ghost use Rattle.ts_core.specs.declared.rule.Rule.TheViews.{out-Rule};
ghost use Rattle.ts_numbering.specs.Keys as keys;
ghost use Rattle.ts_numbering.specs.Keys.{told_tree};
ghost use Rattle.ts_rules.specs.Sights as sights;

use ts_core::Rule;
use ts_numbering::shape_of;
use ts_rules::Spot;

/// The content of a REPEAT or REPEAT1.
fn content_of<'a>(tree: &'a Rule) -> Option<&'a Rule>
    ensures { told_tree result ≡ sights.content_layer (out-Rule tree.now) }
{
    match tree {
        Rule::Repeat(content) => Some(content.get()),
        Rule::Repeat1(content) => Some(content.get()),
        Rule::Blank => None,
        Rule::Literal(_) => None,
        Rule::Pattern {
            value: _,
            ignore_case: _,
        } => None,
        Rule::Symbol(_) => None,
        Rule::Seq(_) => None,
        Rule::Choice(_) => None,
        Rule::Token(_) => None,
        Rule::ImmediateToken(_) => None,
        Rule::Field {
            name: _,
            content: _,
        } => None,
        Rule::Alias {
            content: _,
            named: _,
            value: _,
        } => None,
        Rule::Prec {
            value: _,
            content: _,
        } => None,
        Rule::PrecLeft {
            value: _,
            content: _,
        } => None,
        Rule::PrecRight {
            value: _,
            content: _,
        } => None,
        Rule::PrecDynamic {
            value: _,
            content: _,
        } => None,
    }
}

/// Whether a content has an alternative with steps.
fn is_repeated(content: &Rule) -> bool
    ensures { result ≡ keys.is_repeated content.now }
{
    shape_of(content).filled
}

/// The content of a REPEAT or REPEAT1 outside tokens, where it is repeated.
pub(crate) fn repeated_at<'a>(spot: Spot<'a>) -> Option<&'a Rule>
    ensures { told_tree result ≡ keys.repeated_at spot.entry.tree.now spot.entry.inside }
{
    if spot.inside {
        return None;
    }
    match content_of(spot.tree) {
        Some(content) => {
            if is_repeated(content) {
                Some(content)
            } else {
                None
            }
        },
        None => None,
    }
}

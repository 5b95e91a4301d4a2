//! Whether the texts of a grammar can stand in a normal form: what comes in is its walk, and what
//! goes out is the answer.

ghost use Rattle.std.specs.Prelude.{◌<◌, ◌^◌, suc, IsTrue, All, length};
ghost use Rattle.std.specs.Str.{IsUtf8};
ghost use Rattle.ts_core.specs.declared.rule.Rule.TheViews.{out-Rule};
ghost use Rattle.ts_normalise.specs.Texts.{HasFitText, IsFitText};
ghost use Rattle.ts_rules.specs.declared.sights.Spot.{Spot as AnySpot};
ghost use Rattle.ts_rules.specs.Sights.{sight_of};

use ts_core::Rule;
use ts_rules::Spot;

/// The most bytes of a text in a rule tree, so that the branches of a pattern can be counted.
const MOST_BYTES: u64 = 0xFFFF_FFFE;

/// Whether a text has few enough bytes.
fn is_fit(text: &str) -> bool
    ensures utf8 { IsUtf8 text.now }
    ensures short { IsTrue result → suc (length text.now) < 2 ^ 32 }
{
    text.len() as u64 <= MOST_BYTES
}

/// Whether the text of a tree can stand in a normal form, where it has one.
fn has_fit_text(tree: &Rule) -> bool
    ensures { IsTrue result → IsFitText (out-Rule tree.now) }
{
    match tree {
        Rule::Literal(text) => is_fit(text.text()),
        Rule::Pattern {
            value,
            ignore_case: _,
        } => is_fit(value.text()),
        Rule::Blank => true,
        Rule::Symbol(_) => true,
        Rule::Seq(_) => true,
        Rule::Choice(_) => true,
        Rule::Repeat(_) => true,
        Rule::Repeat1(_) => true,
        Rule::Token(_) => true,
        Rule::ImmediateToken(_) => true,
        Rule::Field {
            name: _,
            content: _,
        } => true,
        Rule::Alias {
            content: _,
            named: _,
            value: _,
        } => true,
        Rule::Prec {
            value: _,
            content: _,
        } => true,
        Rule::PrecLeft {
            value: _,
            content: _,
        } => true,
        Rule::PrecRight {
            value: _,
            content: _,
        } => true,
        Rule::PrecDynamic {
            value: _,
            content: _,
        } => true,
    }
}

/// Whether all texts of a walk can stand in a normal form.
pub(crate) fn have_fit_texts(walk: &[Spot<'_>]) -> bool
    ensures { IsTrue result → All (λ (spot : AnySpot). HasFitText (sight_of spot)) walk.now }
{
    walk.iter().all(|spot| has_fit_text(spot.tree))
}
